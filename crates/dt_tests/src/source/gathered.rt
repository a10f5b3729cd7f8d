//! What is gathered of a tree in dtc's language: rows of `docs/model/dtc.md`, as dtc 1.6.1 answered them. The marks of
//! `/omit-if-no-ref/` and the nodes that ever had a label stand beside the text, by the numbers of nodes in the order of the text.
ghost use Rattle.std.specs.Prelude.{◌≡◌, length};

use dt_build::edit::{Standing, edit_items, fragments_of};
use dt_build::resolve::{BuildError, Gathered, gather};
use dt_live::LiveTree;
use dt_source::{Source, parse};
use dt_text::lexeme::Language;
use std::alloc::Global;
use std::hash::RandomState;
use std::process::Abort;

#[derive(Drop)]
struct Row {
    text: &'static [u8],
    marked: &'static [usize],
    labelled: &'static [usize],
    symbols: bool,
    // the nodes that are left, in preorder
    left: &'static [usize],
    // the nodes with phandles, those that are given first
    nodes: &'static [usize],
    phandles: &'static [u32],
}

const ROWS: &[Row] = &[
    // numbered_before_it_goes
    Row {
        text: b"/dts-v1/; / { a { r = <&b>, <&c>; }; b: b { c: c { }; }; d { r = <&c>; }; };",
        marked: &[1, 2, 3],
        labelled: &[2, 3],
        symbols: false,
        left: &[0, 2, 3, 4],
        nodes: &[2, 3],
        phandles: &[1, 2],
    },
    // goes_with_what_is_below
    Row {
        text: b"/dts-v1/; / { r = <&l>; a { l: b { }; }; };",
        marked: &[1],
        labelled: &[2],
        symbols: false,
        left: &[0],
        nodes: &[2],
        phandles: &[1],
    },
    // numbers_go_on
    Row {
        text: b"/dts-v1/; / { s: s { }; t { r = <&s>; }; a: a { }; b { phandle = <1>; }; };",
        marked: &[4],
        labelled: &[1, 3],
        symbols: true,
        left: &[0, 1, 2, 3],
        nodes: &[4, 1, 3],
        phandles: &[1, 2, 3],
    },
    // last_number_is_free
    Row {
        text: b"/dts-v1/; / { a { r = <&b>; b: b { }; }; c: c { }; };",
        marked: &[1],
        labelled: &[2, 3],
        symbols: true,
        left: &[0, 3],
        nodes: &[2, 3],
        phandles: &[1, 1],
    },
    // with symbols a marked node stays that ever had a label
    Row {
        text: b"/dts-v1/; / { l: a { }; };",
        marked: &[1],
        labelled: &[1],
        symbols: true,
        left: &[0, 1],
        nodes: &[1],
        phandles: &[1],
    },
    // a number that its own node asks for
    Row {
        text: b"/dts-v1/; / { a: a { phandle = <&a>; }; b { linux,phandle = <1>; }; };",
        marked: &[],
        labelled: &[1],
        symbols: false,
        left: &[0, 1, 2],
        nodes: &[2, 1],
        phandles: &[1, 2],
    },
    // fragment: a reference to a node that went is one to a node elsewhere
    Row {
        text: b"/dts-v1/; /plugin/; &x { r = <&c>; b { c: c { }; }; };",
        marked: &[3],
        labelled: &[4],
        symbols: false,
        left: &[0, 1, 2],
        nodes: &[4],
        phandles: &[1],
    },
];

// Texts that make no tree, and why.
const REFUSED: &[(&[u8], u8)] = &[
    (
        b"/dts-v1/; / { a { phandle = <1>; linux,phandle = <2>; }; };",
        23,
    ),
    (b"/dts-v1/; / { a { phandle = <&b>; }; b: b { }; };", 23),
    (
        b"/dts-v1/; / { a { phandle = <1>; }; b { linux,phandle = <1>; }; };",
        24,
    ),
    (b"/dts-v1/; / { a { r = <&b>; }; };", 20),
];

// Marks of these nodes, of so many.
fn marks(rt: &impl Abort, alloc: Global, count: usize, nodes: &[usize]) -> Vec<bool>
    ensures { length result.items ≡ count }
{
    let mut marks = vec![in alloc; false; count].expect(rt, "memory");
    for node in nodes {
        if *node < marks.len() {
            marks[*node] = true;
        }
    }
    marks
}

/// What was gathered: the nodes that are left, and those with phandles.
#[derive(Drop)]
struct Outcome {
    left: Vec<usize>,
    nodes: Vec<usize>,
    phandles: Vec<u32>,
}

fn outcome_of(rt: &impl Abort, alloc: Global, gathered: &Gathered<'_, '_>) -> Outcome {
    let mut nodes = Vec::new(alloc);
    let mut phandles = Vec::new(alloc);
    for one in &gathered.given {
        nodes.push(one.node).expect(rt, "memory");
        phandles.push(one.phandle).expect(rt, "memory");
    }
    for one in &gathered.new {
        nodes.push(one.node).expect(rt, "memory");
        phandles.push(one.phandle).expect(rt, "memory");
    }
    Outcome {
        left: Vec::from_slice(alloc, gathered.in_preorder.nodes.as_slice()).expect(rt, "memory"),
        nodes,
        phandles,
    }
}

// What is gathered of a source, or the number of its fault.
fn gather_source(
    rt: &impl Abort,
    alloc: Global,
    hasher: RandomState,
    source: &Source<'_>,
    row: &Row,
) -> Result<Outcome, u8> {
    source.check();
    let fragments = fragments_of(alloc, source.items.as_slice()).expect(rt, "memory");
    let mut live = LiveTree::new(alloc, hasher);
    if let Err(error) = edit_items(
        alloc,
        &mut live,
        source.plugin,
        &fragments,
        source.items.as_slice(),
    ) {
        return Err(BuildError::from(error).number());
    }
    let count = live.nodes().len() + 1;
    let standing = Standing {
        live,
        marked: marks(rt, alloc, count, row.marked),
        labelled: marks(rt, alloc, count, row.labelled),
        boot_processor: 0,
    };
    match gather(alloc, standing, row.symbols, source.plugin) {
        Ok(gathered) => Ok(outcome_of(rt, alloc, &gathered)),
        Err(error) => Err(error.number()),
    }
}

fn gather_row(
    rt: &impl Abort,
    alloc: Global,
    hasher: RandomState,
    row: &Row,
) -> Result<Outcome, u8> {
    let source = parse(alloc, row.text, Language::Profile).expect(rt, "a source");
    gather_source(rt, alloc, hasher, &source, row)
}

#[test]
fn rows_of_dtc(rt: HostRuntime) {
    let hasher = RandomState::new(&rt).expect(&rt, "a seed");
    for row in ROWS {
        match gather_row(&rt, rt.alloc(), hasher, row) {
            Ok(outcome) => {
                assert_eq!(&rt; outcome.left.as_slice(), row.left);
                assert_eq!(&rt; outcome.nodes.as_slice(), row.nodes);
                assert_eq!(&rt; outcome.phandles.as_slice(), row.phandles);
            }
            Err(number) => panic!(&rt; "refused with {number}"),
        }
    }
}

#[test]
fn refused_as_dtc_refuses(rt: HostRuntime) {
    let hasher = RandomState::new(&rt).expect(&rt, "a seed");
    for (text, number) in REFUSED {
        let row = Row {
            text: *text,
            marked: &[],
            labelled: &[],
            symbols: false,
            left: &[],
            nodes: &[],
            phandles: &[],
        };
        match gather_row(&rt, rt.alloc(), hasher, &row) {
            Ok(_) => panic!(&rt; "a tree"),
            Err(found) => assert_eq!(&rt; found, *number),
        }
    }
}
