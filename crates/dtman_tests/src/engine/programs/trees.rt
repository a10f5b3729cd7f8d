//! What is asked of a board's tree: `find`, `who`, `map`, and nodes by aliases.

use super::clock_and_uart::BLOB;
use crate::runs::{Files, Left, Row, ends, left_by, rows_end};
use crate::shelf::Shelf;
use dtman_engine::compile_bytes;
use std::hash::RandomState;
use std::process::Abort;
use std::thread::Threads;

const FILES: Files = &[
    ("clock.dtb", BLOB),
    ("no.dtb", b"0123456789012345678901234567890123456789/ { };"),
];

#[test]
fn finds_nodes(rt: HostRuntime) {
    const ROWS: &[Row] = &[
        (
            &["dtman", "find", "clock.dtb", "#clock-cells"],
            0,
            "/clk\n",
            "",
        ),
        (
            &["dtman", "find", "clock.dtb", "compatible"],
            0,
            "/clk\n/uart\n",
            "",
        ),
        (
            &["dtman", "find", "clock.dtb", "fixed-clock"],
            0,
            "/clk\n",
            "",
        ),
        (
            &["dtman", "find", "clock.dtb", "clocks=1"],
            0,
            "/uart\n",
            "",
        ),
        (
            &["dtman", "find", "clock.dtb", "clocks=0x1"],
            0,
            "/uart\n",
            "",
        ),
        (&["dtman", "find", "clock.dtb", "clocks=2"], 1, "", ""),
        (
            &["dtman", "find", "no.dtb", "clocks"],
            1,
            "",
            "error 31 BadMagic\n",
        ),
    ];
    rows_end(&rt, FILES, ROWS);
}

/// A clock with a user that is off, and two aliases, of which one leads nowhere.
const BOARD: &[u8] = b"/dts-v1/;
/ {
  aliases {
    clock = \"/soc/clk\";
    lost = \"/none\";
  };

  ram@1000 {
    reg = <0 0x1000 0x100>;
  };

  soc {
    c: clk {
      #clock-cells = <1>;
    };

    uart {
      clocks = <&c 3>;
      status = \"disabled\";
    };
  };
};
";

const ASKED: &[Row] = &[
    (
        &["dtman", "who", "board.dtb", "clock"],
        0,
        "3 /soc/uart clocks[0] <3>\n",
        "",
    ),
    (
        &["dtman", "who", "board.dtb", "/soc/clk", "0x3"],
        0,
        "3 /soc/uart clocks[0] <3>\n",
        "",
    ),
    (&["dtman", "who", "board.dtb", "/soc/clk", "4"], 1, "", ""),
    (&["dtman", "who", "board.dtb", "/soc/uart"], 1, "", ""),
    (
        &["dtman", "who", "board.dtb", "/soc/clk", "+3"],
        2,
        "",
        "error: +3: no number\n",
    ),
    (
        &["dtman", "who", "board.dtb", "/nix"],
        1,
        "",
        "error 53 UnknownPath\n",
    ),
    (
        &["dtman", "who", "board.dtb", "lost"],
        1,
        "",
        "error 53 UnknownPath\n",
    ),
    (
        &["dtman", "who", "-v", "board.dtb", "lost"],
        1,
        "",
        "error 53 UnknownPath\nboard.dtb: no node has the path `/none`\n",
    ),
    (
        &["dtman", "who", "board.dtb", "nobody"],
        1,
        "",
        "error 53 UnknownPath\n",
    ),
    (
        &["dtman", "map", "board.dtb"],
        0,
        "00001000-000010ff 256 /ram@1000\n",
        "",
    ),
    (
        &["dtman", "get", "board.dtb", "clock", "#clock-cells"],
        0,
        "1\n",
        "",
    ),
    (
        &["dtman", "ls", "board.dtb", "clock"],
        0,
        "#clock-cells\nphandle\n",
        "",
    ),
    (
        &["dtman", "ls", "board.dtb", "soc"],
        1,
        "",
        "error 53 UnknownPath\n",
    ),
    (
        &["dtman", "get", "-v", "board.dtb", "lost", "reg"],
        1,
        "",
        "error 53 UnknownPath\nboard.dtb: no node has the path `/none`\n",
    ),
];

fn ends_over<R: AllocGlobal + Threads + Sync + Abort>(
    rt: &R,
    hasher: RandomState,
    blob: &[u8],
    row: &Row,
) {
    let (words, status, printed, told) = row;
    let files = [("board.dtb", blob)];
    let mut shelf = Shelf::new(rt.alloc(), files.as_slice(), hasher);
    ends(rt, *words, &mut shelf, *status, *printed, *told);
}

#[test]
fn asks_for_nodes_by_aliases(rt: HostRuntime) {
    let hasher = RandomState::new(&rt).expect(&rt, "a seed");
    let blob = compile_bytes(rt.alloc(), hasher, BOARD, false).expect(&rt, "a blob");
    for row in ASKED {
        ends_over(&rt, hasher, blob.as_slice(), row);
    }
}

const BY_ALIAS: &[&str] = &[
    "dtman",
    "set",
    "board.dtb",
    "clock",
    "rate",
    "5",
    "-o",
    "out",
];

const BY_PATH: &[&str] = &[
    "dtman",
    "set",
    "board.dtb",
    "/soc/clk",
    "rate",
    "5",
    "-o",
    "out",
];

/// What a run over the board leaves.
fn left_over<R: AllocGlobal + Threads + Sync + Abort>(
    rt: &R,
    hasher: RandomState,
    blob: &[u8],
    words: &[&str],
) -> Left {
    let files = [("board.dtb", blob)];
    let mut shelf = Shelf::new(rt.alloc(), files.as_slice(), hasher);
    left_by(rt, words, &mut shelf)
}

#[test]
fn sets_a_property_by_an_alias(rt: HostRuntime) {
    let hasher = RandomState::new(&rt).expect(&rt, "a seed");
    let blob = compile_bytes(rt.alloc(), hasher, BOARD, false).expect(&rt, "a blob");
    let by_alias = left_over(&rt, hasher, blob.as_slice(), BY_ALIAS);
    let by_path = left_over(&rt, hasher, blob.as_slice(), BY_PATH);
    assert_eq!(rt; by_alias.status, 0);
    assert_eq!(rt; by_path.status, 0);
    assert!(rt; by_path.text.len() > blob.len());
    assert_eq!(rt; by_alias.text.as_slice(), by_path.text.as_slice());
}
