//! Sources with several faults: dtc 1.6.1 tells the same ones by hand, in the same order.

use crate::dialect::forms::headed;
use crate::runs::{Left, left_by};
use crate::shelf::Shelf;
use std::hash::RandomState;
use std::process::Abort;
use std::thread::Threads;

/// A source behind `/dts-v1/;`, the exit status, and of each fault its place with the name.
type Row = (&'static str, u8, &'static [&'static str]);

/// dtc tells these columns, too.
const IN_WORDS: &[Row] = &[
    // what isn't there to be extended, deleted or omitted
    (
        " / { a { x { }; }; };\n&b { /delete-node/ x; };\n/delete-node/ &{/c};\n/omit-if-no-ref/ &d;\n&e { };",
        1,
        &[
            "a.dts:2.1-3: UnknownLabel",
            "a.dts:3.15-20: UnknownPath",
            "a.dts:4.18-20: UnknownLabel",
            "a.dts:5.1-3: UnknownLabel",
        ],
    ),
    // elements, and an extension behind them
    (
        "\n/ { a = <08 1>; b = <0x1ffffffff>; c = /bits/ 8 <256 1>; };\n&x { };",
        1,
        &[
            "a.dts:2.10-12: LiteralRange",
            "a.dts:2.22-33: ElementRange",
            "a.dts:2.50-53: ElementRange",
            "a.dts:3.1-3: UnknownLabel",
        ],
    ),
];

/// dtc tells the place of the node or property that each is of.
const IN_THE_TREE: &[Row] = &[
    (
        " / { a = <&x>, &y, <1 &{/z}>;\nb { c = <&w &b>; }; };",
        2,
        &[
            "a.dts:1.20-22: UnknownLabel",
            "a.dts:1.25-27: UnknownLabel",
            "a.dts:1.32-37: UnknownPath",
            "a.dts:2.10-12: UnknownLabel",
            "a.dts:2.13-15: UnknownLabel",
        ],
    ),
    (
        "\n/ { l: a { }; l: b { }; m: c { }; m: d { }; };",
        2,
        &[
            "a.dts:2.15-17: DuplicateLabel",
            "a.dts:2.35-37: DuplicateLabel",
        ],
    ),
    (
        "\n/ { a { x; x; }; b { c; c; }; };",
        2,
        &[
            "a.dts:2.12-13: DuplicateInBody",
            "a.dts:2.25-26: DuplicateInBody",
        ],
    ),
    (
        "\n/ { a { }; a { x; }; b { }; b { }; };",
        2,
        &[
            "a.dts:2.12-13: DuplicateInBody",
            "a.dts:2.29-30: DuplicateInBody",
        ],
    ),
    (
        "\n/ { a { phandle = <0>; }; b { phandle = <0xffffffff>; }; };",
        2,
        &["a.dts:2.9-16: BadPhandle", "a.dts:2.31-38: BadPhandle"],
    ),
    (
        "\n/ { a { phandle = <1>; }; b { phandle = <1>; }; c { phandle = <1>; }; };",
        2,
        &[
            "a.dts:2.31-38: DuplicatePhandle",
            "a.dts:2.53-60: DuplicatePhandle",
        ],
    ),
];

/// dtc stops at the first: it reads no further behind words that can't follow.
const BEHIND_WORDS: &[Row] = &[
    (
        "\n/ {\n\ta = <1>\n\tb = <2;\n\tc;;\n\td { e = <1 }; f { };\n};",
        1,
        &[
            "a.dts:4.2-3: Syntax",
            "a.dts:4.8-9: Syntax",
            "a.dts:5.4-5: Syntax",
            "a.dts:6.13-14: Syntax",
        ],
    ),
    // the label went with its node
    (
        "\n/ { l: a = b { }; c = <&l>; d = ; };",
        1,
        &["a.dts:2.12-13: Syntax", "a.dts:2.33-34: Syntax"],
    ),
    // brackets that don't fit
    (
        "\n/ { a { };\n&b { };\n&c { };",
        1,
        &["a.dts:3.1-3: Syntax"],
    ),
];

// The only file there is.
fn alone<'f>(name: &'f str, text: &'f [u8]) -> [(&'f str, &'f [u8]); 1] {
    [(name, text)]
}

fn are_told<R: Abort + AllocGlobal + Threads + Sync>(rt: &R, hasher: RandomState, row: &Row) {
    let alloc = rt.alloc();
    let (source, wanted, places) = *row;
    let headed = headed(rt, alloc, source);
    let files = alone("a.dts", headed.as_bytes());
    let mut shelf = Shelf::new(alloc, files.as_slice(), hasher);
    let Left { status, text } = left_by(rt, &["dtc", "-q", "a.dts"], &mut shelf);
    assert_eq!(rt; status, wanted);
    let text = std::str::from_utf8(text.as_slice()).expect(rt, "text");
    let mut told = text.split("\n");
    for place in places {
        let line = told.next().expect(rt, "a fault");
        let head = format!(in alloc; "Error: {place}: ").expect(rt, "memory");
        assert!(rt; line.starts_with(head.as_str()));
    }
    // the last line has no place
    let last = told.next().expect(rt, "an end");
    assert!(rt; !last.starts_with("Error: "));
}

#[test]
fn several_faults_in_the_words(rt: HostRuntime) {
    let hasher = RandomState::new(&rt).expect(&rt, "a seed");
    for row in IN_WORDS {
        are_told(&rt, hasher, row);
    }
}

#[test]
fn several_faults_in_the_tree(rt: HostRuntime) {
    let hasher = RandomState::new(&rt).expect(&rt, "a seed");
    for row in IN_THE_TREE {
        are_told(&rt, hasher, row);
    }
}

#[test]
fn several_faults_behind_words_that_cannot_follow(rt: HostRuntime) {
    let hasher = RandomState::new(&rt).expect(&rt, "a seed");
    for row in BEHIND_WORDS {
        are_told(&rt, hasher, row);
    }
}
