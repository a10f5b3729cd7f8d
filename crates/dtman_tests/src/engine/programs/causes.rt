//! What `why` tells first: for what most devices wait.

use crate::runs::{ends, left_by};
use crate::shelf::Shelf;
use dtman_engine::compile_bytes;
use std::alloc::Global;
use std::hash::RandomState;
use std::process::Abort;

/// Two users of a clock, three of a regulator, and one of a clock of its own, which no driver matches.
const BOARD: &[u8] = b"/dts-v1/;
/ {
  c: clk { compatible = \"a,clk\"; #clock-cells = <0>; };
  r: reg { compatible = \"a,reg\"; };
  d: dma { compatible = \"a,clk\"; #clock-cells = <0>; };
  e { compatible = \"b\"; clocks = <&c>; };
  f { compatible = \"b\"; vdd-supply = <&r>; };
  g { compatible = \"b\"; vdd-supply = <&r>; };
  h { compatible = \"b\"; clocks = <&c>; };
  i { compatible = \"b\"; vdd-supply = <&r>; };
  j { compatible = \"b\"; clocks = <&d>; };
};
";

const WAITS: &str = "/reg: no driver matches \"a,reg\": 3 devices wait
/clk: no driver matches \"a,clk\": 2 devices wait
/e waits for /clk: no driver matches \"a,clk\"
/f waits for /reg: no driver matches \"a,reg\"
/g waits for /reg: no driver matches \"a,reg\"
/h waits for /clk: no driver matches \"a,clk\"
/i waits for /reg: no driver matches \"a,reg\"
/j waits for /dma: no driver matches \"a,clk\"
";

#[test]
fn the_heaviest_causes_stand_first(rt: HostRuntime) {
    let hasher = RandomState::new(&rt).expect(&rt, "a seed");
    let blob = compile_bytes(rt.alloc(), hasher, BOARD, false).expect(&rt, "a blob");
    let files = [
        ("board.dtb", blob.as_slice()),
        ("b.drivers", b"driver b b\n".as_slice()),
    ];
    let mut shelf = Shelf::new(rt.alloc(), files.as_slice(), hasher);
    let words = ["dtman", "why", "board.dtb", "b.drivers"];
    ends(&rt, words.as_slice(), &mut shelf, 0, WAITS, "");
}

/// A board on which each of 40 devices takes the next one's clock, and no driver matches the one behind them.
fn long_board(rt: &impl Abort, alloc: Global) -> String {
    let mut text = String::from_str(alloc, "/dts-v1/; / {").expect(rt, "memory");
    for place in 0..40u32 {
        let node = format!(in alloc;
            "l{place}: n{place} {{ compatible = \"b\"; #clock-cells = <0>; clocks = <&l{}>; }};",
            place + 1
        );
        text.push_str(node.expect(rt, "memory").as_str())
            .expect(rt, "memory");
    }
    text.push_str("l40: n40 { compatible = \"a,root\"; #clock-cells = <0>; }; };")
        .expect(rt, "memory");
    text
}

#[test]
fn a_long_chain_is_told_in_short(rt: HostRuntime) {
    let alloc = rt.alloc();
    let hasher = RandomState::new(&rt).expect(&rt, "a seed");
    let board = long_board(&rt, alloc);
    let blob = compile_bytes(alloc, hasher, board.as_str().as_bytes(), false).expect(&rt, "a blob");
    let files = [
        ("board.dtb", blob.as_slice()),
        ("b.drivers", b"driver b b\n".as_slice()),
    ];
    let mut shelf = Shelf::new(alloc, files.as_slice(), hasher);
    let words = ["dtman", "why", "board.dtb", "b.drivers", "/n0"];
    let told = left_by(&rt, words.as_slice(), &mut shelf).text;
    let end =
        b" waits for /n29 waits for /n30 waits for (9 more) waits for /n40: no driver matches \"a,root\"\n";
    assert!(&rt;
        told.as_slice()
            .starts_with(b"/n0 waits for /n1 waits for /n2 ")
    );
    assert!(&rt; told.as_slice().ends_with(end));
}
