//! Pictures of boards by the links of Linux, row by row: what has to stand in them, and what must not.
ghost use Rattle.std.specs.Prelude.{◌<◌, IfSome, length};

use crate::links::links::tree_of;
use bus_links::{Linked, Strictness, link, read_link_drivers};
use bus_picture::{Sketch, graph, linked_sketch, page};
use bus_plan::{Device, Plan};
use std::alloc::Global;
use std::hash::RandomState;
use std::process::Abort;
use std::str;

/// A row: its name, what stands in the source's root, the driver file, which devices are bound, the device that the picture is of, and parts
/// that the picture has or hasn't.
struct Row {
    name: &'static str,
    source: &'static str,
    drivers: &'static str,
    bound: &'static [bool],
    of: &'static str,
    has: &'static [&'static str],
    lacks: &'static [&'static str],
}

/// A clock, a device that it supplies twice, one that stands alone and one that is switched off.
const CLOCK: &str =
    "k: clk { compatible = \"c\"; #clock-cells = <1>; }; l: osc { compatible = \"c\"; #clock-cells = <0>; }; u { compatible = \"c\"; clocks = <&k 1>, <&l>, <&k 2>; vdd-supply = <&l>; }; lone { compatible = \"c\"; }; off { compatible = \"c\"; status = \"disabled\"; };";

/// Four devices that one clock supplies.
const HUB: &str =
    "k: clk@100000 { compatible = \"c\"; #clock-cells = <0>; }; a { compatible = \"c\"; clocks = <&k>; }; b { compatible = \"c\"; clocks = <&k>; }; d { compatible = \"c\"; clocks = <&k>; }; e { compatible = \"c\"; clocks = <&k>; };";

/// A cycle, a device that needs it, and one that no driver matches and nobody needs.
const CYCLE: &str =
    "k: a { compatible = \"c\"; #clock-cells = <0>; clocks = <&l>; }; l: b { compatible = \"c\"; #clock-cells = <0>; clocks = <&k>; }; u { compatible = \"c\"; clocks = <&k>; }; v { compatible = \"d<e\"; clocks = <&k>; };";

const GRAPHS: &[Row] = &[
    Row {
        name: "entries",
        source: CLOCK,
        drivers: "driver x c\n",
        bound: &[true, true, true, true, false],
        of: "",
        has: &[
            "\"/u\" [tooltip=\"/u\", label=<u <I>x</I>>, fillcolor=\"#d5f0d5\"];\n",
            "label=<clocks 0 2>, ",
            "label=<clocks 1, vdd-supply>, ",
            "bound 4<",
            "disabled 1<",
            "not drawn 2<",
        ],
        lacks: &["\"/lone\"", "\"/off\""],
    },
    Row {
        name: "hub",
        source: HUB,
        drivers: "driver x c\n",
        bound: &[true, true, true, true, true],
        of: "",
        has: &[
            "\"/a\" [tooltip=\"/a\", label=<a <I>x</I><BR/><FONT POINT-SIZE=\"7\">clocks: clk@100000</FONT>>, ",
            "penwidth=2",
        ],
        lacks: &["->"],
    },
    Row {
        name: "of-a-hub",
        source: HUB,
        drivers: "driver x c\n",
        bound: &[true, true, true, true, true],
        of: "/clk@100000",
        has: &["\"/a\" -> \"link 0\"", "-> \"/clk@100000\"", "penwidth=3"],
        lacks: &["<FONT", "penwidth=2"],
    },
    Row {
        name: "of-a-consumer",
        source: HUB,
        drivers: "driver x c\n",
        bound: &[true, true, true, true, true],
        of: "/a",
        has: &[
            "\"/a\" [tooltip",
            "\"/clk@100000\" [tooltip",
            "not drawn 3<",
        ],
        lacks: &["\"/b\"", "\"/d\"", "\"/e\""],
    },
    Row {
        name: "cycle",
        source: CYCLE,
        drivers: "driver x c\n",
        bound: &[true, true, true, false],
        of: "",
        has: &[
            "\"/a\" -> \"link 2\" [color=red, fontcolor=red, dir=none];\n",
            "\"link 2\" -> \"/b\" [color=red, fontcolor=red];\n",
            "\"/u\" -> \"link 1\" [color=black, dir=none];\n",
            "no driver 1<",
        ],
        lacks: &["\"/v\""],
    },
    Row {
        name: "without-a-driver",
        source: CYCLE,
        drivers: "driver x c\n",
        bound: &[true, true, true, false],
        of: "/v",
        has: &[
            "\"/v\" [tooltip=\"/v\", label=<v <B>no driver</B>>, fillcolor=\"#dddddd\", penwidth=3];\n",
        ],
        lacks: &["\"/u\"", "\"/b\""],
    },
    Row {
        name: "waiting",
        source: "k: clk { compatible = \"k\"; #clock-cells = <0>; }; u { compatible = \"c\"; clocks = <&k>; };",
        drivers: "driver x c\n",
        bound: &[false, false],
        of: "",
        has: &[
            "label=<u <I>x</I> <B>waiting</B>>",
            "label=<clk <B>no driver</B>>",
        ],
        lacks: &["failed 1"],
    },
    Row {
        name: "failed",
        source: "k: clk { compatible = \"k\"; #clock-cells = <0>; }; u { compatible = \"c\"; clocks = <&k>; };",
        drivers: "driver x c\ndriver y k\nfail /clk\n",
        bound: &[false, false],
        of: "",
        has: &[
            "label=<clk <I>y</I> <B>failed</B>>",
            "label=<u <I>x</I> <B>waiting</B>>",
        ],
        lacks: &["failed 0"],
    },
    Row {
        name: "early",
        source: "k: clk { compatible = \"k\"; #clock-cells = <0>; }; u { compatible = \"c\"; clocks = <&k>; };",
        drivers: "driver x c\nearly k\n",
        bound: &[false, true],
        of: "",
        has: &[
            "label=<clk <B>early</B>>",
            "\"/u\" -> \"link 0\" [color=gray60, fontcolor=gray60, dir=none];\n",
        ],
        lacks: &["color=black"],
    },
];

const PAGES: &[Row] = &[
    Row {
        name: "links",
        source: CLOCK,
        drivers: "driver x c\n",
        bound: &[true, true, true, true, false],
        of: "",
        has: &[
            "<li id=d2 class=bound><details><summary>u <i>x</i></summary><p>/u<p><b>needs</b><ul><li><a class=bound href=#d0>clk</a> clocks 0 2</li><li><a class=bound href=#d1>osc</a> clocks 1, vdd-supply</li></ul></details>",
            "<li id=d0 class=bound><details><summary>clk <i>x</i></summary><p>/clk<p><b>is needed by</b><ul><li><a class=bound href=#d2>u</a> clocks 0 2</li></ul></details>",
            "<li id=d3 class=bound><details><summary>lone <i>x</i></summary><p>/lone</details>",
            "<li id=d4 class=disabled><details><summary>off <i></i> <small>disabled</small></summary>",
        ],
        lacks: &["http"],
    },
    Row {
        name: "below",
        source: "a { compatible = \"c\"; m { b { compatible = \"c\"; }; }; }; d { compatible = \"c\"; };",
        drivers: "driver x c\n",
        bound: &[true, true, true],
        of: "",
        has: &[
            "</details><ul>\n<li id=d1 class=bound><details><summary>m/b <i>x</i></summary><p>/a/m/b<p><b>needs</b><ul><li><a class=bound href=#d0>a</a> its bus</li></ul></details><ul></ul></li></ul></li>\n<li id=d2",
        ],
        lacks: &[],
    },
    Row {
        name: "strings-escaped",
        source: CYCLE,
        drivers: "driver x c\n",
        bound: &[true, true, true, false],
        of: "",
        has: &[
            "<p>/v d&lt;e<p>",
            " clocks <span class=cyclic>in a cycle</span></li>",
        ],
        lacks: &["d<e"],
    },
    Row {
        name: "of",
        source: HUB,
        drivers: "driver x c\n",
        bound: &[true, true, true, true, true],
        of: "/a",
        has: &["<li id=d0 ", "<li id=d1 "],
        lacks: &["<li id=d2 ", "<li id=d3 ", "<li id=d4 "],
    },
];

/// What of a board is printed.
#[derive(Clone, Copy)]
enum Form {
    Graph,
    Page,
}

fn drawn(
    rt: &impl Abort,
    alloc: Global,
    linked: &Linked<'_>,
    sketch: Sketch,
    form: Form,
    of: Option<Device>,
) -> Vec<u8>
    requires { IfSome of (λ device. device < length linked.now.plan) }
{
    let text = match form {
        Form::Graph => graph(alloc, linked.plan(), sketch, linked, of),
        Form::Page => page(alloc, linked.plan(), sketch, linked, of),
    };
    text.expect(rt, "a picture")
}

fn device_of(plan: &Plan, path: &str) -> Option<Device>
    ensures { IfSome result (λ device. device < length plan.now) }
{
    match plan.device(path.as_bytes()) {
        Some(device) if device.index() < plan.len() => Some(device),
        _ => None,
    }
}

fn text_of(rt: &impl Abort, alloc: Global, hasher: RandomState, row: &Row, form: Form) -> Vec<u8> {
    let tree = tree_of(rt, alloc, hasher, row.source);
    let drivers = read_link_drivers(alloc, hasher, row.drivers.as_bytes()).expect(rt, "drivers");
    let linked = link(alloc, hasher, &tree, &drivers, Strictness::Usual).expect(rt, "links");
    let sketch = linked_sketch(alloc, &linked, row.bound).expect(rt, "a sketch");
    let of = device_of(linked.plan(), row.of);
    drawn(rt, alloc, &linked, sketch, form, of)
}

fn all_stand(rt: &impl Abort, row: &Row, text: &str) {
    for part in row.has {
        assert!(rt; text.contains(*part), "{}: {part} in {text}", row.name);
    }
}

fn none_stands(rt: &impl Abort, row: &Row, text: &str) {
    for part in row.lacks {
        assert!(rt; !text.contains(*part), "{}: {part} in {text}", row.name);
    }
}

fn is_drawn(rt: &impl Abort, alloc: Global, hasher: RandomState, row: &Row, form: Form) {
    let bytes = text_of(rt, alloc, hasher, row, form);
    let text = str::from_utf8(bytes.as_slice()).expect(rt, "text");
    all_stand(rt, row, text);
    none_stands(rt, row, text);
}

#[test]
fn graphs(rt: HostRuntime) {
    let hasher = RandomState::new(&rt).expect(&rt, "a seed");
    for row in GRAPHS {
        is_drawn(&rt, rt.alloc(), hasher, row, Form::Graph);
    }
}

#[test]
fn pages(rt: HostRuntime) {
    let hasher = RandomState::new(&rt).expect(&rt, "a seed");
    for row in PAGES {
        is_drawn(&rt, rt.alloc(), hasher, row, Form::Page);
    }
}
