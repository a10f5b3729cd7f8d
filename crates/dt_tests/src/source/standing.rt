//! What stands when a source in dtc's language is read, as dtc 1.6.1 has it: rows of `docs/model/dtc.md`, worked by hand. Nodes are
//! told by their names in the order of their places, and labels in the order of the symbols.
use dt_build::edit::{EditErrorKind, Standing, edit_dtc, fragments_of};
use dt_source::{Source, parse};
use dt_text::lexeme::Language;
use std::alloc::Global;
use std::hash::RandomState;
use std::process::Abort;

#[derive(Drop)]
struct Row {
    text: &'static [u8],
    nodes: &'static [&'static [u8]],
    labels: &'static [&'static [u8]],
    // the node of each label
    holders: &'static [usize],
    // of the root and each node
    marked: &'static [bool],
    labelled: &'static [bool],
    boot_processor: u32,
}

const ROWS: &[Row] = &[
    // a node that is made again is at its old place, and has lost its label
    Row {
        text: b"/dts-v1/; / { l: a { }; m: b { }; }; / { /delete-node/ a; }; / { c { }; a { }; };",
        nodes: &[b"a", b"b", b"c"],
        labels: &[b"m"],
        holders: &[2],
        marked: &[false, false, false, false],
        labelled: &[false, true, true, false],
        boot_processor: 0,
    },
    // the numbers of nodes close up over one that is gone
    Row {
        text: b"/dts-v1/; / { a { x: b { }; }; c { y: d { }; }; }; /delete-node/ &{/a};",
        nodes: &[b"c", b"d"],
        labels: &[b"y"],
        holders: &[2],
        marked: &[false, false, false],
        labelled: &[false, false, true],
        boot_processor: 0,
    },
    // a node's last label first, of those before its first body the first
    Row {
        text: b"/dts-v1/; / { x: y: a { }; }; / { z: w: a { }; };",
        nodes: &[b"a"],
        labels: &[b"w", b"z", b"x", b"y"],
        holders: &[1, 1, 1, 1],
        marked: &[false, false],
        labelled: &[false, true],
        boot_processor: 0,
    },
    // node by node in preorder, the root first
    Row {
        text: b"/dts-v1/; / { a { }; l: b { }; }; / { a { k: c { }; }; }; m: &{/} { };",
        nodes: &[b"a", b"b", b"c"],
        labels: &[b"m", b"k", b"l"],
        holders: &[0, 3, 2],
        marked: &[false, false, false, false],
        labelled: &[true, false, true, true],
        boot_processor: 0,
    },
    // a label may move where its node goes
    Row {
        text: b"/dts-v1/; / { l: a { }; }; / { l: b { }; /delete-node/ a; };",
        nodes: &[b"b"],
        labels: &[b"l"],
        holders: &[1],
        marked: &[false, false],
        labelled: &[false, true],
        boot_processor: 0,
    },
    // a mark before a name counts where the node is made, before a reference always
    Row {
        text: b"/dts-v1/; / { a { }; c: c { }; }; / { /omit-if-no-ref/ a { }; /omit-if-no-ref/ b { }; }; /omit-if-no-ref/ &c;",
        nodes: &[b"a", b"c", b"b"],
        labels: &[b"c"],
        holders: &[2],
        marked: &[false, false, true, true],
        labelled: &[false, false, true, false],
        boot_processor: 0,
    },
    Row {
        text: b"/dts-v1/; / { cpus { /omit-if-no-ref/ a { reg = <3>; }; b { reg = <5>; }; }; };",
        nodes: &[b"cpus", b"a", b"b"],
        labels: &[],
        holders: &[],
        marked: &[false, false, true, false],
        labelled: &[false, false, false, false],
        boot_processor: 3,
    },
];

// Texts that leave no tree, and why.
const REFUSED: &[(&[u8], EditErrorKind)] = &[
    // a label at two nodes when all is read
    (
        b"/dts-v1/; / { l: a { }; l: b { }; };",
        EditErrorKind::DuplicateLabel,
    ),
    // the fault of an item comes first
    (
        b"/dts-v1/; / { l: a { }; l: b { }; }; &nope { };",
        EditErrorKind::UnknownLabel,
    ),
    (
        b"/dts-v1/; / { b { }; /delete-node/ b; };",
        EditErrorKind::DuplicateInBody,
    ),
];

fn check_standing(rt: &impl Abort, standing: &Standing<'_, '_>, row: &Row) {
    let nodes = standing.live.nodes();
    assert_eq!(rt; nodes.len(), row.nodes.len());
    for (node, name) in nodes.iter().zip(row.nodes) {
        assert_eq!(rt; node.name, *name);
    }
    let labels = standing.live.labels();
    assert_eq!(rt; labels.len(), row.labels.len());
    for (label, word) in labels.iter().zip(row.labels) {
        assert_eq!(rt; label.label, *word);
    }
    for (label, holder) in labels.iter().zip(row.holders) {
        assert_eq!(rt; label.node, *holder);
    }
    assert_eq!(rt; standing.marked.as_slice(), row.marked);
    assert_eq!(rt; standing.labelled.as_slice(), row.labelled);
    assert_eq!(rt; standing.boot_processor, row.boot_processor);
}

fn check_row(rt: &impl Abort, alloc: Global, hasher: RandomState, source: &Source<'_>, row: &Row) {
    source.check();
    let fragments = fragments_of(alloc, source.items.as_slice()).expect(rt, "memory");
    match edit_dtc(alloc, hasher, &fragments, source) {
        Ok(standing) => check_standing(rt, &standing, row),
        Err(_) => panic!(rt; "a tree is refused"),
    }
}

#[test]
fn rows_stand(rt: HostRuntime) {
    let hasher = RandomState::new(&rt).expect(&rt, "a seed");
    for row in ROWS {
        let source = parse(rt.alloc(), row.text, Language::Dtc).expect(&rt, "a source");
        check_row(&rt, rt.alloc(), hasher, &source, row);
    }
}

fn check_fault(
    rt: &impl Abort,
    alloc: Global,
    hasher: RandomState,
    source: &Source<'_>,
    fault: EditErrorKind,
) {
    source.check();
    let fragments = fragments_of(alloc, source.items.as_slice()).expect(rt, "memory");
    match edit_dtc(alloc, hasher, &fragments, source) {
        Ok(_) => panic!(rt; "a tree"),
        Err(error) => assert_eq!(rt; error.kind, fault),
    }
}

#[test]
fn refused_when_all_is_read(rt: HostRuntime) {
    let hasher = RandomState::new(&rt).expect(&rt, "a seed");
    for (text, fault) in REFUSED {
        let source = parse(rt.alloc(), *text, Language::Dtc).expect(&rt, "a source");
        check_fault(&rt, rt.alloc(), hasher, &source, *fault);
    }
}
