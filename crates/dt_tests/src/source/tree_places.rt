//! Where the text has the nodes and properties of a tree in dtc's language, and which cells are references: rows worked by hand, over
//! trees as dtc 1.6.1 makes them.
use dt_build::build_dtc_within;
use dt_live::making::Places;
use dt_source::parse;
use dt_text::lexeme::Language;
use dt_tree::behind;
use std::hash::RandomState;
use std::process::Abort;

#[derive(Drop)]
struct Row {
    text: &'static str,
    symbols: bool,
    // of each node in preorder with what the text has there: nothing where no text has it
    nodes: &'static [&'static str],
    // of each node its properties
    properties: &'static [&'static [&'static str]],
    // a node, one of its properties, and how many bytes stand before each reference in it
    references: &'static [(usize, usize, &'static [u32])],
}

const ROWS: &[Row] = &[
    // a phandle behind a node's own properties has no place; a path is text, not a cell
    Row {
        text: "/dts-v1/; / { z = \"t\", &a, <&a>; a: n { x; y = <1 &a>; }; };",
        symbols: false,
        nodes: &["/ { z", "n {", ""],
        properties: &[&["z =", ""], &["x;", "y =", ""], &[""]],
        references: &[(0, 0, &[5]), (1, 0, &[]), (1, 1, &[4]), (1, 2, &[])],
    },
    // of a property the last definition, of a node the one that made it
    Row {
        text: "/dts-v1/; / { n { x = <1>; y; }; m { }; }; / { n { x = <2>; }; /delete-node/ m; }; / { m { w; }; };",
        symbols: false,
        nodes: &["/ { n { x = <1>", "n { x = <1>", "m { w", ""],
        properties: &[&[""], &["x = <2>", "y;", ""], &["w;", ""]],
        references: &[],
    },
    // a name that repeats its node's is no property, and the node of symbols has no place
    Row {
        text: "/dts-v1/; / { l: n { name = \"n\"; x; }; };",
        symbols: true,
        nodes: &["/ { l", "n {", ""],
        properties: &[&[""], &["x;", ""], &[""]],
        references: &[],
    },
    // fragments are where their reference is; no text has a root, and none a plugin's fixups
    Row {
        text: "/dts-v1/; /plugin/; &l { p = <&m>, [00], <&k>; k: c { q; }; };",
        symbols: true,
        nodes: &["", "&l", "&l", "c {", ""],
        properties: &[&[""], &["&l", ""], &["p =", ""], &["q;", ""], &[""]],
        references: &[(1, 0, &[0]), (2, 0, &[0, 5]), (3, 0, &[])],
    },
];

fn check_place(rt: &impl Abort, text: &str, place: Option<u32>, word: &str) {
    match place {
        Some(at) => {
            assert!(rt; word.len() > 0);
            assert!(rt; behind(text.as_bytes(), at as usize).starts_with(word.as_bytes()));
        }
        None => assert_eq!(rt; word.len(), 0),
    }
}

fn check_places(rt: &impl Abort, places: &Places, row: &Row) {
    for (node, word) in row.nodes.iter().enumerate() {
        check_place(rt, row.text, places.node(node), *word);
    }
    for (node, words) in row.properties.iter().enumerate() {
        for (property, word) in words.iter().enumerate() {
            check_place(rt, row.text, places.property(node, property), *word);
        }
    }
    for (node, property, offsets) in row.references {
        assert_eq!(rt; places.references(*node, *property), *offsets);
    }
}

#[test]
fn rows_of_places(rt: HostRuntime) {
    let hasher = RandomState::new(&rt).expect(&rt, "a seed");
    for row in ROWS {
        let source = parse(rt.alloc(), row.text.as_bytes(), Language::Dtc).expect(&rt, "a source");
        let built = build_dtc_within(rt.alloc(), hasher, &source, row.symbols, usize::MAX);
        match built.expect(&rt, "a tree") {
            Some(built) => check_places(&rt, &built.places, row),
            None => panic!(&rt; "a limit"),
        }
    }
}
