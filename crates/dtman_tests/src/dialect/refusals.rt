//! What is refused of sources in dtc's language: the status and the place, as dtc 1.6.1 answered by hand (but for the root that is
//! deleted, which it takes, and where it tells no place), and the words.

use crate::dialect::forms::{headed, source_and_f};
use crate::runs::{Left, left_by};
use crate::shelf::Shelf;
use std::hash::RandomState;
use std::process::Abort;
use std::thread::Threads;

/// A source behind `/dts-v1/;`, the place of its refusal with the name, and what the line tells of it.
type Row = (&'static str, &'static str, &'static str);

fn told<R: Abort + AllocGlobal + Threads + Sync>(
    rt: &R,
    hasher: RandomState,
    source: &str,
) -> Left {
    let headed = headed(rt, rt.alloc(), source);
    let files = source_and_f(headed.as_bytes());
    let mut shelf = Shelf::new(rt.alloc(), files.as_slice(), hasher);
    left_by(rt, &["dtc", "-q", "a.dts"], &mut shelf)
}

fn is_refused<R: Abort + AllocGlobal + Threads + Sync>(
    rt: &R,
    hasher: RandomState,
    row: &Row,
    wanted: (u8, &str),
) {
    let alloc = rt.alloc();
    let (source, place, words) = *row;
    let Left { status, text } = told(rt, hasher, source);
    assert_eq!(rt; status, wanted.0);
    let line = format!(in alloc; "Error: {place}: {words}\n{}\n", wanted.1).expect(rt, "memory");
    assert_eq!(rt; text.as_slice(), line.as_bytes());
}

/// Wrong in the words of the source.
const IN_WORDS: &[Row] = &[
    // no node to extend, to delete or to omit
    (
        " / { };\n&a { };",
        "a.dts:2.1-3: UnknownLabel",
        "no node has the label `a`",
    ),
    (
        " / { };\n&{/a} { };",
        "a.dts:2.1-6: UnknownPath",
        "no node has the path `/a`",
    ),
    (
        " /plugin/; / { };\nl: &a { };",
        "a.dts:2.4-6: UnknownLabel",
        "no node has the label `a`",
    ),
    (
        " /plugin/; &x { };\nl: &{/__overlay__} { };",
        "a.dts:2.4-19: UnknownPath",
        "no node has the path `/__overlay__`",
    ),
    (
        " / { };\n/delete-node/ &{/n};",
        "a.dts:2.15-20: UnknownPath",
        "no node has the path `/n`",
    ),
    (
        " / { };\n/omit-if-no-ref/ &n;",
        "a.dts:2.18-20: UnknownLabel",
        "no node has the label `n`",
    ),
    (
        " / { }; /delete-node/ &{/};",
        "a.dts:1.32-36: ReservedName",
        "a reference can't name `/` here; the root can't be deleted",
    ),
    // character literals
    (
        " / { a = <''>; };",
        "a.dts:1.20-22: LiteralRange",
        "`''` can't stand here; a character literal holds one character, or one escape",
    ),
    (
        " / { a = <'\\x'>; };",
        "a.dts:1.20-24: LiteralRange",
        "`'\\x'` can't stand here; a character literal holds one character, or one escape",
    ),
    (
        " / { a = <'\\1010'>; };",
        "a.dts:1.20-27: LiteralRange",
        "`'\\1010'` can't stand here; a character literal holds one character, or one escape",
    ),
    (
        " / { a = <'AB'>; };",
        "a.dts:1.20-24: LiteralRange",
        "`'AB'` can't stand here; a character literal holds one character, or one escape",
    ),
    // words that can't follow
    (
        "\n# 7 \"f\"\n/ { a b; };",
        "f:7.7-8: Syntax",
        "`b` can't stand here",
    ),
    (
        "\n/ {\n#\n5; };",
        "a.dts:4.1-2: Syntax",
        "`5` can't stand here",
    ),
    ("\nl: / { };", "a.dts:2.4-5: Syntax", "`/` can't stand here"),
    (
        " / { a; };\n/ { /delete-property/ a = <1>; };",
        "a.dts:2.25-26: Syntax",
        "expected `;`",
    ),
    (
        " / { a { }; };\n/ { /delete-node/ l: a; };",
        "a.dts:2.19-21: Syntax",
        "`l:` can't stand here",
    ),
    (
        " / { a: a { }; };\nl: /delete-node/ &a;",
        "a.dts:2.4-17: Syntax",
        "`/delete-node/` can't stand here",
    ),
    (
        " / { a: a { }; };\nx: y: &a { };",
        "a.dts:2.4-6: Syntax",
        "`y:` can't stand here",
    ),
    (
        "\n/ { /dts-v1/; };",
        "a.dts:2.5-13: Syntax",
        "`/dts-v1/` can't stand here",
    ),
    (
        "\n/ { /delete-node/ x; b; };",
        "a.dts:2.22-24: Syntax",
        "`b` stands behind a child; properties stand before children",
    ),
    (
        " / { x = /incbin/(\"f\", 1, z); };",
        "a.dts:1.36-37: Syntax",
        "`z` can't stand here",
    ),
    (
        " / { a = <08>; };",
        "a.dts:1.20-22: LiteralRange",
        "`08` is no octal number, which a leading 0 says that it is",
    ),
    // what there is to do
    (
        "",
        "a.dts:1.9-10: Syntax",
        "the text ends, and more must follow; a source has a root node, `/ { .. };`",
    ),
    (
        "\n/ { a = <3000x>; };",
        "a.dts:2.14-15: Syntax",
        "`3000x` can't stand here; a number has digits, behind `0x` those of base 16, and ends in `U`, `L` or neither",
    ),
    (
        "\n/ { aliases { m = s; }; s: s { }; };",
        "a.dts:2.19-20: Syntax",
        "`s` is no value: a value is a string \"..\", <..>, [..] or a reference; did you mean `&s`?",
    ),
    (
        "\n/ { wakeup-source = true; };",
        "a.dts:2.21-25: Syntax",
        "`true` is no value: a value is a string \"..\", <..>, [..] or a reference; leave `= true` out: without a value a property is true",
    ),
    (
        "\n/ { wakeup-source = false; };",
        "a.dts:2.21-26: Syntax",
        "`false` is no value: a value is a string \"..\", <..>, [..] or a reference; leave the property out: it is false where it isn't there",
    ),
    (
        "\n/ { a { }; c = <1>; };",
        "a.dts:2.12-20: Syntax",
        "`c` stands behind a child; properties stand before children",
    ),
    (
        "\n/ { a = 'ok'; };",
        "a.dts:2.9-13: Syntax",
        "`'ok'` can't stand here; strings stand in \"",
    ),
    (
        "\n/ { a = <0x100000000>; };",
        "a.dts:2.10-21: ElementRange",
        "the element `0x100000000` doesn't fit its width; a cell has 32 bits",
    ),
    (
        "\n/ { a = /bits/ 8 <300>; };",
        "a.dts:2.19-22: ElementRange",
        "the element `300` doesn't fit its width; elements of `/bits/ 8` have 8 bits",
    ),
    (
        "\n/ { a = /bits/ 16 <0x10000>, <1>; };",
        "a.dts:2.20-27: ElementRange",
        "the element `0x10000` doesn't fit its width; elements of `/bits/ 16` have 16 bits",
    ),
    (
        "\n/ { a = /bits/ 16 <1>, <0x100000000>; };",
        "a.dts:2.25-36: ElementRange",
        "the element `0x100000000` doesn't fit its width; a cell has 32 bits",
    ),
    (
        "\n/ { a = /bits/ 12 <1>; };",
        "a.dts:2.16-18: BadBits",
        "the width `12` isn't 8, 16, 32 or 64",
    ),
];

/// Wrong in the tree that they make.
const IN_THE_TREE: &[Row] = &[
    (
        " / { a = <&b>; };",
        "a.dts:1.20-22: UnknownLabel",
        "no node has the label `b`",
    ),
    (
        " / { a = <&{/b}>; };",
        "a.dts:1.20-25: UnknownPath",
        "no node has the path `/b`",
    ),
    (
        " / { l: a { }; l: b { }; };",
        "a.dts:1.25-27: DuplicateLabel",
        "the label `l` is another node's; the other one stands at a.dts:1:15",
    ),
    (
        " / { a; a; };",
        "a.dts:1.18-19: DuplicateInBody",
        "the body defines `a` twice; the other one stands at a.dts:1:15",
    ),
    (
        " /plugin/; / { fragment@1 { }; };\n&a { };\n&b { };",
        "a.dts:3.1-3: DuplicateInBody",
        "a child of the root has the name of the fragment that `b` makes; the other one stands at a.dts:1:25",
    ),
];

#[test]
fn in_the_words_of_a_source(rt: HostRuntime) {
    let hasher = RandomState::new(&rt).expect(&rt, "a seed");
    let wanted = (1, "FATAL ERROR: Unable to parse input tree");
    for row in IN_WORDS {
        is_refused(&rt, hasher, row, wanted);
    }
}

#[test]
fn in_the_tree(rt: HostRuntime) {
    let hasher = RandomState::new(&rt).expect(&rt, "a seed");
    let wanted = (2, "ERROR: Input tree has errors, aborting");
    for row in IN_THE_TREE {
        is_refused(&rt, hasher, row, wanted);
    }
}
