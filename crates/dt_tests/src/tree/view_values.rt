//! What values of blobs read in place say: aliases, regions, lists of strings.
use super::blobs::blob;
use super::views::{node, opened, place};
use dt_patch::view::{RegCells, Region, View, ViewError, region_at, string};
use std::process::Abort;

/// `/ { #size-cells = <2>; aliases { a = "/c"; b = "c"; d = "/d"; }; c { reg = <0 1 0 2 0 3 0 4>; }; };`. By hand: the root's property
/// stands at 8, aliases at 24, c at 88 with its reg at 96.
pub(super) const ALIASES: &[u32] = &[
    1,
    0,
    3,
    4,
    0,
    2,
    1,
    0x616c_6961,
    0x7365_7300,
    3,
    3,
    12,
    0x2f63_0000,
    3,
    2,
    14,
    0x6300_0000,
    3,
    3,
    16,
    0x2f64_0000,
    2,
    1,
    0x6300_0000,
    3,
    32,
    18,
    0,
    1,
    0,
    2,
    0,
    3,
    0,
    4,
    2,
    2,
    9,
];

pub(super) const ALIAS_NAMES: &[u8] = b"#size-cells\0a\0b\0d\0reg\0";

fn aliases_are_found(rt: &impl Abort, view: &View<'_>) {
    assert_eq!(rt; place(rt, view.alias(b"a")), place(rt, view.find(b"/c")));
    assert_eq!(rt; place(rt, view.alias(b"d")), None);
    assert_eq!(rt; place(rt, view.alias(b"e")), None);
    assert!(rt; matches!(view.alias(b"b"), Err(ViewError::BadPath)));
}

fn regions_are_found(rt: &impl Abort, view: &View<'_>) {
    let root = view.root().expect(rt, "a root");
    let c = view.find(b"/c").expect(rt, "an answer").expect(rt, "c");
    let cells = view.reg_cells(root).expect(rt, "an answer");
    assert_eq!(rt;
        cells,
        Some(RegCells {
            address: 2,
            size: 2
        })
    );
    let cells = view.reg_cells(c).expect(rt, "an answer");
    assert_eq!(rt;
        cells,
        Some(RegCells {
            address: 2,
            size: 1
        })
    );
    let second = view.region(root, c, 1).expect(rt, "an answer");
    assert_eq!(rt;
        second,
        Some(Region {
            address: 3,
            size: 4
        })
    );
    let third = view.region(root, c, 2).expect(rt, "an answer");
    assert_eq!(rt; third, None);
    assert!(rt; matches!(view.region(root, node(4), 0), Err(ViewError::BadOffset)));
}

#[test]
fn aliases_and_regions(rt: HostRuntime) {
    let bytes = blob(&rt, rt.alloc(), ALIASES, ALIAS_NAMES);
    let view = opened(&rt, bytes.as_slice());
    aliases_are_found(&rt, &view);
    regions_are_found(&rt, &view);
}

// How many cells an address and a size have, and the first entry of eight cells 1 to 8.
const CELLS: &[(u32, u32, Option<Region>)] = &[
    (
        1,
        0,
        Some(Region {
            address: 1,
            size: 0,
        }),
    ),
    (
        1,
        1,
        Some(Region {
            address: 1,
            size: 2,
        }),
    ),
    (
        2,
        1,
        Some(Region {
            address: 0x1_0000_0002,
            size: 3,
        }),
    ),
    (
        2,
        2,
        Some(Region {
            address: 0x1_0000_0002,
            size: 0x3_0000_0004,
        }),
    ),
    (0, 1, None),
    (3, 1, None),
    (1, 3, None),
];

fn is_first_entry(rt: &impl Abort, row: &(u32, u32, Option<Region>)) {
    let value = b"\0\0\0\x01\0\0\0\x02\0\0\0\x03\0\0\0\x04";
    let (address, size, wanted) = *row;
    assert_eq!(rt;
        region_at(RegCells { address, size }, value, 0),
        wanted,
        "{address} {size}"
    );
}

// A place of the list "ab", "", "c" and what follows without its end.
const STRINGS: &[(usize, Option<&[u8]>)] = &[
    (0, Some(b"ab")),
    (1, Some(b"")),
    (2, Some(b"c")),
    (3, None),
    (4, None),
];

fn is_listed(rt: &impl Abort, row: &(usize, Option<&[u8]>)) {
    assert_eq!(rt; string(b"ab\0\0c\0d", row.0), row.1, "{}", row.0);
}

#[test]
fn entries_and_lists(rt: HostRuntime) {
    for row in CELLS {
        is_first_entry(&rt, row);
    }
    for row in STRINGS {
        is_listed(&rt, row);
    }
}
