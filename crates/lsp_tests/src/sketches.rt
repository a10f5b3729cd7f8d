//! Outlines of texts, whole and half written.

use dt_outline::{Outline, Wanted, outline, text_of, writing_at};
use std::alloc::Global;
use std::process::Abort;

/// A text, and the names that its outline has, each with a blank behind it.
struct Row {
    text: &'static str,
    nodes: &'static str,
    labels: &'static str,
    references: &'static str,
    properties: &'static str,
}

const ROWS: &[Row] = &[
    Row {
        text: "/ { a: b: soc@1 { #address-cells = <1>; flag; ref = <&a &{/soc@1} 1>; }; };",
        nodes: "/ soc@1 ",
        labels: "a b ",
        references: "a ",
        properties: "#address-cells flag ref ",
    },
    // a `;`, a `>` and a `}` that are yet to be written
    Row {
        text: "&x { p = \"a\"\n q = <1 2\n }; y { r = <(1 & 2)> s; z: w {",
        nodes: "&x y w ",
        labels: "z ",
        references: "x ",
        properties: "p q r ",
    },
    Row {
        text: "#define N(x) &x { l: p; }\n/* a { */ // b {\n\"c {\" / { p = l2: <1>; /delete-node/ q; };",
        nodes: "/ ",
        labels: "l2 ",
        references: "x ",
        properties: "p ",
    },
];

fn joined(rt: &impl Abort, names: &mut String, text: &str, spans: &[dt_outline::Span]) {
    for span in spans {
        let name = std::str::from_utf8(text_of(text.as_bytes(), *span)).unwrap_or("?");
        names.push_str(name).expect(rt, "memory");
        names.push_str(" ").expect(rt, "memory");
    }
}

fn names(rt: &impl Abort, alloc: Global, text: &str, spans: &[dt_outline::Span], wanted: &str) {
    let mut names = String::new(alloc);
    joined(rt, &mut names, text, spans);
    assert_eq!(rt; names.as_str(), wanted, "{text:?}");
}

fn compare(rt: &impl Abort, alloc: Global, row: &Row, found: &Outline) {
    let nodes: Vec<_> = found
        .nodes
        .iter()
        .map(|node| node.name)
        .collect(alloc)
        .expect(rt, "memory");
    names(rt, alloc, row.text, nodes.as_slice(), row.nodes);
    let labels: Vec<_> = found
        .labels
        .iter()
        .map(|label| label.name)
        .collect(alloc)
        .expect(rt, "memory");
    names(rt, alloc, row.text, labels.as_slice(), row.labels);
    let references: Vec<_> = found
        .references
        .iter()
        .map(|it| it.name)
        .collect(alloc)
        .expect(rt, "memory");
    names(rt, alloc, row.text, references.as_slice(), row.references);
    let properties: Vec<_> = found
        .properties
        .iter()
        .map(|it| it.name)
        .collect(alloc)
        .expect(rt, "memory");
    names(rt, alloc, row.text, properties.as_slice(), row.properties);
}

#[test]
fn outlines(rt: HostRuntime) {
    for row in ROWS {
        let found = outline(rt.alloc(), row.text.as_bytes()).expect(&rt, "memory");
        compare(&rt, rt.alloc(), row, &found);
    }
}

/// The front of a text, and what is wanted there.
struct Front {
    text: &'static str,
    wanted: Wanted,
    prefix: &'static str,
}

const FRONTS: &[Front] = &[
    Front {
        text: "/ { p = <&ua",
        wanted: Wanted::Label,
        prefix: "ua",
    },
    Front {
        text: "&",
        wanted: Wanted::Label,
        prefix: "",
    },
    Front {
        text: "/ { p = <GI",
        wanted: Wanted::Macro,
        prefix: "GI",
    },
    Front {
        text: "/ { comp",
        wanted: Wanted::Name,
        prefix: "comp",
    },
    Front {
        text: "/ { p = <1>;\n",
        wanted: Wanted::Name,
        prefix: "",
    },
    Front {
        text: "/ { p = \"a",
        wanted: Wanted::Nothing,
        prefix: "",
    },
    Front {
        text: "/ { /* a",
        wanted: Wanted::Nothing,
        prefix: "",
    },
];

fn compare_front(rt: &impl Abort, alloc: Global, row: &Front) {
    let text = row.text.as_bytes();
    let writing = writing_at(alloc, text).expect(rt, "memory");
    assert_eq!(rt; writing.wanted, row.wanted);
    assert_eq!(rt; text_of(text, writing.before), row.prefix.as_bytes());
}

#[test]
fn fronts(rt: HostRuntime) {
    for row in FRONTS {
        compare_front(&rt, rt.alloc(), row);
    }
}
