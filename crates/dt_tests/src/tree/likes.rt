//! Names and paths as libfdt takes them, and steps with their depth.
use super::blobs::blob;
use super::view_values::{ALIAS_NAMES, ALIASES};
use super::views::{NAMES, TWO_CHILDREN, node, opened, place};
use dt_patch::view::{NodeOffset, Step, View, ViewError};
use std::process::Abort;

/// `/ { a@1 { b { }; }; a { }; };`. By hand: the root stands at 0, `a@1` at 8, b at 16, a at 32.
const TWO_LIKE: &[u32] = &[
    1,
    0,
    1,
    0x6140_3100,
    1,
    0x6200_0000,
    2,
    2,
    1,
    0x6100_0000,
    2,
    2,
    9,
];

// A path and where the node stands that it leads to.
const PATHS: &[(&[u8], Option<usize>)] = &[
    (b"/", Some(0)),
    (b"/a", Some(8)),
    (b"/a@1", Some(8)),
    (b"/a@1/b", Some(16)),
    (b"//a/b/", Some(16)),
    (b"/a@", None),
    (b"/a@2", None),
    (b"/b", None),
];

// The same over the blob of aliases: `a` is one of `/c`, `d` of no node.
const BY_ALIAS: &[(&[u8], Option<usize>)] = &[
    (b"a", Some(88)),
    (b"a/", Some(88)),
    (b"a/e", None),
    (b"d", None),
];

fn is_led_to(rt: &impl Abort, view: &View<'_>, row: &(&[u8], Option<usize>)) {
    assert_eq!(rt; place(rt, view.find_like(row.0)), row.1);
}

#[test]
fn leads_to_nodes(rt: HostRuntime) {
    let bytes = blob(&rt, rt.alloc(), TWO_LIKE, b"");
    let view = opened(&rt, bytes.as_slice());
    for row in PATHS {
        is_led_to(&rt, &view, row);
    }
    assert!(&rt; matches!(view.find_like(b"a"), Err(ViewError::BadPath)));
    assert!(&rt; matches!(view.find_like(b""), Err(ViewError::BadPath)));
    assert_eq!(&rt; place(&rt, view.child_like(node(0), b"a")), Some(8));
    assert_eq!(&rt; place(&rt, view.child_like(node(0), b"b")), None);
    assert!(&rt; matches!(view.child_like(node(24), b"b"), Err(ViewError::BadOffset)));
}

#[test]
fn leads_by_aliases(rt: HostRuntime) {
    let bytes = blob(&rt, rt.alloc(), ALIASES, ALIAS_NAMES);
    let view = opened(&rt, bytes.as_slice());
    for row in BY_ALIAS {
        is_led_to(&rt, &view, row);
    }
    assert!(&rt; matches!(view.find_like(b"b"), Err(ViewError::BadPath)));
    assert!(&rt; matches!(view.find_like(b"e"), Err(ViewError::BadPath)));
}

/// A step from a node, counted so deep.
struct StepRow {
    at: usize,
    depth: u32,
    leads: Step,
}

const STEPS: &[StepRow] = &[
    StepRow {
        at: 0,
        depth: 0,
        leads: Step::Node(NodeOffset { at: 8 }, 1),
    },
    StepRow {
        at: 52,
        depth: 2,
        leads: Step::Node(NodeOffset { at: 72 }, 1),
    },
    StepRow {
        at: 52,
        depth: 1,
        leads: Step::Out(68),
    },
    StepRow {
        at: 52,
        depth: 0,
        leads: Step::Out(64),
    },
    StepRow {
        at: 72,
        depth: 1,
        leads: Step::Out(104),
    },
    StepRow {
        at: 72,
        depth: 2,
        leads: Step::Over(0),
    },
];

fn is_stepped(rt: &impl Abort, view: &View<'_>, row: &StepRow) {
    let answer = view.step(node(row.at), row.depth).expect(rt, "a step");
    assert_eq!(rt; answer, row.leads, "{}", row.at);
}

#[test]
fn steps(rt: HostRuntime) {
    let bytes = blob(&rt, rt.alloc(), TWO_CHILDREN, NAMES);
    let view = opened(&rt, bytes.as_slice());
    for row in STEPS {
        is_stepped(&rt, &view, row);
    }
    assert!(&rt; matches!(view.step(node(16), 1), Err(ViewError::BadOffset)));
}
