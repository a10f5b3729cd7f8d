//! Blobs read in place.
use super::blobs::{BAD_TOKENS, CHANGED, ONE_CELL, blob, changed};
use dt_blob::BlobError;
use dt_patch::view::{
    NodeOffset, PropertyOffset, View, ViewError, cell, double_cell, first_of_siblings,
    held_is_shown, text,
};
use std::alloc::Global;
use std::process::Abort;

/// `/ { c { phandle = <7>; compatible = "v,b", "v,c"; e { }; }; d { phandle = <8>; }; };`, with a NOP before `d`. Offsets by hand:
/// the root stands at 0, c at 8 with its properties at 16 and 32, e at 52, a NOP at 68, d at 72 with its property at 80.
pub(super) const TWO_CHILDREN: &[u32] = &[
    1,
    0,
    1,
    0x6300_0000,
    3,
    4,
    0,
    7,
    3,
    8,
    8,
    0x762c_6200,
    0x762c_6300,
    1,
    0x6500_0000,
    2,
    2,
    4,
    1,
    0x6400_0000,
    3,
    4,
    0,
    8,
    2,
    2,
    9,
];

pub(super) const NAMES: &[u8] = b"phandle\0compatible\0";

pub(super) fn node(at: usize) -> NodeOffset {
    NodeOffset { at }
}

pub(super) fn opened<'a>(rt: &impl Abort, bytes: &'a [u8]) -> View<'a> {
    View::open(bytes).expect(rt, "a view")
}

pub(super) fn place(
    rt: &impl Abort,
    answer: Result<Option<NodeOffset>, ViewError>,
) -> Option<usize> {
    match answer.expect(rt, "an answer") {
        None => None,
        Some(node) => Some(node.at),
    }
}

fn property_place(
    rt: &impl Abort,
    answer: Result<Option<PropertyOffset>, ViewError>,
) -> Option<usize> {
    match answer.expect(rt, "an answer") {
        None => None,
        Some(property) => Some(property.at),
    }
}

/// A node and where a step from it leads.
struct Steps {
    at: usize,
    child: Option<usize>,
    sibling: Option<usize>,
    next: Option<usize>,
    property: Option<usize>,
    parent: Option<usize>,
    depth: usize,
}

const WALKS: &[Steps] = &[
    Steps {
        at: 0,
        child: Some(8),
        sibling: None,
        next: Some(8),
        property: None,
        parent: None,
        depth: 0,
    },
    Steps {
        at: 8,
        child: Some(52),
        sibling: Some(72),
        next: Some(52),
        property: Some(16),
        parent: Some(0),
        depth: 1,
    },
    Steps {
        at: 52,
        child: None,
        sibling: None,
        next: Some(72),
        property: None,
        parent: Some(8),
        depth: 2,
    },
    Steps {
        at: 68,
        child: None,
        sibling: None,
        next: None,
        property: Some(80),
        parent: Some(0),
        depth: 1,
    },
    Steps {
        at: 72,
        child: None,
        sibling: None,
        next: None,
        property: Some(80),
        parent: Some(0),
        depth: 1,
    },
];

fn is_walked(rt: &impl Abort, view: &View<'_>, row: &Steps) {
    let from = node(row.at);
    assert_eq!(rt; place(rt, view.first_child(from)), row.child, "{}", row.at);
    assert_eq!(rt;
        place(rt, view.next_sibling(from)),
        row.sibling,
        "{}",
        row.at
    );
    assert_eq!(rt; place(rt, view.next_node(from)), row.next, "{}", row.at);
    assert_eq!(rt; place(rt, view.parent(from)), row.parent, "{}", row.at);
    assert_eq!(rt; view.depth(from), Ok(row.depth), "{}", row.at);
    assert_eq!(rt;
        property_place(rt, view.first_property(from)),
        row.property,
        "{}",
        row.at
    );
}

#[test]
fn walks(rt: HostRuntime) {
    held_is_shown();
    first_of_siblings();
    let bytes = blob(&rt, rt.alloc(), TWO_CHILDREN, NAMES);
    let view = opened(&rt, bytes.as_slice());
    for row in WALKS {
        is_walked(&rt, &view, row);
    }
    assert_eq!(rt; view.root().expect(&rt, "a root").at, 0);
    assert_eq!(rt;
        property_place(&rt, view.next_property(PropertyOffset { at: 16 })),
        Some(32)
    );
    assert_eq!(rt;
        property_place(&rt, view.next_property(PropertyOffset { at: 32 })),
        None
    );
}

// A path and where its node stands.
const PATHS: &[(&[u8], Option<usize>)] = &[
    (b"/", Some(0)),
    (b"/c", Some(8)),
    (b"/c/e", Some(52)),
    (b"/d", Some(72)),
    (b"/e", None),
    (b"/c/e/f", None),
];

fn is_found(rt: &impl Abort, view: &View<'_>, row: &(&[u8], Option<usize>)) {
    assert_eq!(rt; place(rt, view.find(row.0)), row.1);
}

#[test]
fn look_ups(rt: HostRuntime) {
    let bytes = blob(&rt, rt.alloc(), TWO_CHILDREN, NAMES);
    let view = opened(&rt, bytes.as_slice());
    for row in PATHS {
        is_found(&rt, &view, row);
    }
    assert!(rt; matches!(view.find(b"c"), Err(ViewError::BadPath)));
    assert_eq!(rt; place(&rt, view.by_phandle(7)), Some(8));
    assert_eq!(rt; place(&rt, view.by_phandle(8)), Some(72));
    assert_eq!(rt; place(&rt, view.by_phandle(9)), None);
    assert_eq!(rt; place(&rt, view.next_compatible(node(0), b"v,c")), Some(8));
    assert_eq!(rt; place(&rt, view.next_compatible(node(8), b"v,c")), None);
}

fn names_and_values(rt: &impl Abort, view: &View<'_>) {
    let name = view.name(node(68)).expect(rt, "a name");
    assert_eq!(rt; name, b"d".as_slice());
    let property = view
        .property(PropertyOffset { at: 32 })
        .expect(rt, "a property");
    assert_eq!(rt; property.name, b"compatible".as_slice());
    assert_eq!(rt; property.value, b"v,b\0v,c\0".as_slice());
    let value = view.value(node(8), b"phandle").expect(rt, "an answer");
    let value = value.expect(rt, "a value");
    assert_eq!(rt; cell(value, 0), Some(7));
    assert_eq!(rt; cell(value, 1), None);
    let missing = view.value(node(8), b"reg").expect(rt, "an answer");
    assert!(rt; missing.is_none());
}

#[test]
fn parts(rt: HostRuntime) {
    let bytes = blob(&rt, rt.alloc(), TWO_CHILDREN, NAMES);
    let view = opened(&rt, bytes.as_slice());
    names_and_values(&rt, &view);
    assert!(rt; view.reservation(0).is_none());
    assert_eq!(rt; view.boot_cpu, 0);
    assert_eq!(rt;
        double_cell(b"\0\0\0\x01\0\0\0\x02", 0),
        Some(0x1_0000_0002)
    );
    assert_eq!(rt; text(b"ab\0c"), Some(b"ab".as_slice()));
    assert!(rt; text(b"ab").is_none());
}

// Offsets of one-cell's block at which no node begins.
const WRONG: &[usize] = &[1, 8, 24, 28, 32, 1000];

fn is_refused(rt: &impl Abort, view: &View<'_>, at: usize) {
    assert!(rt;
        matches!(view.name(node(at)), Err(ViewError::BadOffset)),
        "{at}"
    );
    assert!(rt;
        matches!(view.first_child(node(at)), Err(ViewError::BadOffset)),
        "{at}"
    );
    assert!(rt;
        matches!(view.next_node(node(at)), Err(ViewError::BadOffset)),
        "{at}"
    );
    assert!(rt;
        matches!(view.value(node(at), b"a"), Err(ViewError::BadOffset)),
        "{at}"
    );
}

#[test]
fn wrong_offsets(rt: HostRuntime) {
    let view = opened(&rt, ONE_CELL);
    for at in WRONG {
        is_refused(&rt, &view, *at);
    }
    let property = view.property(PropertyOffset { at: 0 });
    assert!(rt; matches!(property, Err(ViewError::BadOffset)));
}

fn refusal(answer: Result<View<'_>, BlobError>) -> Option<u8> {
    match answer {
        Ok(_) => None,
        Err(error) => Some(error.number()),
    }
}

fn is_refused_changed(rt: &impl Abort, alloc: Global, row: &(usize, u32, u8)) {
    let (at, word, number) = *row;
    let bytes = changed(rt, alloc, ONE_CELL, at, word);
    assert_eq!(rt;
        refusal(View::open(bytes.as_slice())),
        Some(number),
        "{at} {word}"
    );
}

#[test]
fn refusals_of_words(rt: HostRuntime) {
    for row in CHANGED {
        is_refused_changed(&rt, rt.alloc(), row);
    }
}

// What `read` refuses alone: names that are equal.
const EQUAL: &[&str] = &["equal properties", "equal children"];

fn is_opened_so(rt: &impl Abort, alloc: Global, row: &(&str, &[u32], u8)) {
    let bytes = blob(rt, alloc, row.1, b"a\0");
    let told = refusal(View::open(bytes.as_slice()));
    let mut wanted = Some(row.2);
    for name in EQUAL {
        if *name == row.0 {
            wanted = None;
        }
    }
    assert_eq!(rt; told, wanted, "{}", row.0);
}

#[test]
fn refusals_of_tokens(rt: HostRuntime) {
    for row in BAD_TOKENS {
        is_opened_so(&rt, rt.alloc(), row);
    }
}

/// The command line that a blob has for the kernel, in `bootargs` of `/chosen`.
fn command_line<'a>(view: &View<'a>) -> Result<Option<&'a [u8]>, ViewError> {
    match view.find(b"/chosen")? {
        None => Ok(None),
        Some(chosen) => match view.value(chosen, b"bootargs")? {
            None => Ok(None),
            Some(value) => Ok(text(value)),
        },
    }
}

// `/ { chosen { bootargs = "quiet"; }; };`
const CHOSEN: &[u32] = &[
    1,
    0,
    1,
    0x6368_6f73,
    0x656e_0000,
    3,
    6,
    0,
    0x7175_6965,
    0x7400_0000,
    2,
    2,
    9,
];

fn is_line(rt: &impl Abort, bytes: &[u8], wanted: &[u8]) -> bool {
    let view = opened(rt, bytes);
    match command_line(&view).expect(rt, "an answer") {
        None => false,
        Some(line) => line == wanted,
    }
}

#[test]
fn a_boot_loader_reads_the_command_line(rt: HostRuntime) {
    let bytes = blob(&rt, rt.alloc(), CHOSEN, b"bootargs\0");
    assert!(rt; is_line(&rt, bytes.as_slice(), b"quiet"));
    assert!(rt; !is_line(&rt, ONE_CELL, b"quiet"));
}
