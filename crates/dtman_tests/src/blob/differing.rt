//! Boards compared: the definition's rows (docs/model/diff.md).

use super::boards::{CHANGED, CLOCKED, TURNED};
use dtman_blobs::{DiffError, Sameness, Titles, diff_bytes};
use std::hash::RandomState;
use std::process::Abort;

const TITLES: Titles<'static> = Titles {
    first: "a",
    second: "b",
};

/// Two blobs, and what is printed of them.
#[derive(Clone, Copy)]
struct Row {
    sameness: Sameness,
    first: &'static [u8],
    second: &'static [u8],
    text: &'static [u8],
}

const ROWS: &[Row] = &[
    Row {
        sameness: Sameness::Board,
        first: CLOCKED,
        second: CLOCKED,
        text: b"",
    },
    // Order and the numbers of phandles don't count.
    Row {
        sameness: Sameness::Board,
        first: CLOCKED,
        second: TURNED,
        text: b"",
    },
    Row {
        sameness: Sameness::Board,
        first: CLOCKED,
        second: CHANGED,
        text: b"--- a\n+++ b\n@@ /u@1 @@\n-\tclocks = <&{/clk} 0x00000002>;\n-\tstatus = \"okay\";\n+\tclocks = <&{/clk} 0x00000003>;\n+\tnew;\n",
    },
    Row {
        sameness: Sameness::Board,
        first: CHANGED,
        second: TURNED,
        text: b"--- a\n+++ b\n@@ /u@1 @@\n-\tclocks = <&{/clk} 0x00000003>;\n-\tnew;\n+\tstatus = \"okay\";\n+\tclocks = <&{/clk} 0x00000002>;\n",
    },
    // By order, of one board and of two.
    Row {
        sameness: Sameness::InOrder,
        first: CLOCKED,
        second: CLOCKED,
        text: b"",
    },
    Row {
        sameness: Sameness::InOrder,
        first: CLOCKED,
        second: TURNED,
        text: b"--- a\n+++ b\n@@ / @@\n-\t// order of children: clk, u@1\n+\t// order of children: u@1, clk\n@@ /u@1 @@\n-\t// order of properties: clocks, status\n+\t// order of properties: status, clocks\n",
    },
    Row {
        sameness: Sameness::InOrder,
        first: CHANGED,
        second: TURNED,
        text: b"--- a\n+++ b\n@@ /u@1 @@\n-\tclocks = <&{/clk} 0x00000003>;\n-\tnew;\n+\tstatus = \"okay\";\n+\tclocks = <&{/clk} 0x00000002>;\n@@ / @@\n-\t// order of children: clk, u@1\n+\t// order of children: u@1, clk\n",
    },
];

fn compare(rt: &(impl Abort + AllocGlobal), hasher: RandomState, row: &Row) {
    let text = diff_bytes(
        rt.alloc(),
        hasher,
        TITLES,
        row.sameness,
        row.first,
        row.second,
    );
    let text = text.expect(rt, "a text");
    assert_eq!(rt; text.as_slice(), row.text);
}

#[test]
fn boards_differ_by_paths(rt: HostRuntime) {
    let hasher = RandomState::new(&rt).expect(&rt, "a seed");
    for row in ROWS {
        compare(&rt, hasher, row);
    }
}

#[test]
fn the_blob_that_is_none_is_told(rt: HostRuntime) {
    let hasher = RandomState::new(&rt).expect(&rt, "a seed");
    let board = Sameness::Board;
    let first = diff_bytes(rt.alloc(), hasher, TITLES, board, b"no blob", CLOCKED);
    assert!(rt; matches!(first, Err(DiffError::First(_))));
    let second = diff_bytes(rt.alloc(), hasher, TITLES, board, CLOCKED, b"no blob");
    assert!(rt; matches!(second, Err(DiffError::Second(_))));
}
