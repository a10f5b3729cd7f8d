//! The memory map of boards.

use crate::boards::{HERON, tree_in, tree_of};
use dt_questions::map_lines;
use std::alloc::Global;
use std::hash::RandomState;
use std::process::Abort;

/// The body of a root, and the map of it.
struct Row {
    board: &'static str,
    wanted: &'static str,
}

const ROWS: &[Row] = &[
    // A bus that moves its addresses, with two windows; one node beyond them, one below a bus without `ranges`.
    Row {
        board: "#address-cells = <1>; #size-cells = <1>;
            soc { #address-cells = <1>; #size-cells = <1>; ranges = <0x7e000000 0x3f000000 0x1000000 0x40000000 0x40000000 0x1000>;
                serial@7e201000 { reg = <0x7e201000 0x200>; };
                local@40000000 { reg = <0x40000000 0x100>; };
                far@90000000 { reg = <0x90000000 0x100>; };
                i2c@7e804000 { reg = <0x7e804000 0x1000>; #address-cells = <1>; #size-cells = <0>; rtc@68 { reg = <0x68>; }; }; };
            firmware { #address-cells = <1>; #size-cells = <1>; part@0 { reg = <0 0x100>; }; };",
        wanted: "3f201000-3f2011ff 512 /soc/serial@7e201000\n\
            3f804000-3f804fff 4K /soc/i2c@7e804000\n\
            40000000-400000ff 256 /soc/local@40000000\n",
    },
    // Two cells, names of the parts, more parts than names.
    Row {
        board: "#address-cells = <2>; #size-cells = <2>;
            gic@8000000 { reg = <0 0x8000000 0 0x10000 0 0x80a0000 0 0xf60000 0x1 0x0 0x2 0x0>; reg-names = \"dist\", \"redist\"; };",
        wanted: "08000000-0800ffff 64K /gic@8000000 (dist)\n\
            080a0000-08ffffff 15744K /gic@8000000 (redist)\n\
            0000000100000000-00000002ffffffff 8G /gic@8000000\n",
    },
    // What overlaps: not a node with one above it, nor one that is off; two siblings.
    Row {
        board: "#address-cells = <1>; #size-cells = <1>;
            syscon@1000 { reg = <0x1000 0x1000>; #address-cells = <1>; #size-cells = <1>; ranges; pll@1100 { reg = <0x1100 0x10>; }; };
            timer@1800 { reg = <0x1800 0x100>; };
            spare@1900 { reg = <0x1900 0x100>; status = \"disabled\"; };
            last@2000 { reg = <0x2000 0x10>; };",
        wanted: "00001000-00001fff 4K /syscon@1000\n\
            00001100-0000110f 16 /syscon@1000/pll@1100\n\
            00001800-000018ff 256 /timer@1800 overlaps /syscon@1000\n\
            00001900-000019ff 256 /spare@1900 disabled\n\
            00002000-0000200f 16 /last@2000\n",
    },
    // Memory holds what is reserved in it, and nothing else.
    Row {
        board: "#address-cells = <1>; #size-cells = <1>;
            memory@40000000 { device_type = \"memory\"; reg = <0x40000000 0x40000000>; };
            reserved-memory { #address-cells = <1>; #size-cells = <1>; ranges; cma@50000000 { reg = <0x50000000 0x100000>; }; };
            card@60000000 { reg = <0x60000000 0x1000>; };",
        wanted: "40000000-7fffffff 1G /memory@40000000\n\
            50000000-500fffff 1M /reserved-memory/cma@50000000\n\
            60000000-60000fff 4K /card@60000000 overlaps /memory@40000000\n",
    },
    // No bytes, too few bytes, more than 64 bits, cells of a PCI bus.
    Row {
        board: "#address-cells = <2>; #size-cells = <2>;
            none { reg = <0 0x1000 0 0>; };
            short { reg = <0 0x1000 0>; };
            top { reg = <0xffffffff 0xfffff000 0 0x1000>; };
            over { reg = <0xffffffff 0xfffff000 0 0x1001>; };
            pcie { #address-cells = <3>; #size-cells = <2>; ranges = <0x2000000 0 0x10000000 0 0x10000000 0 0x1000>;
                device@0 { reg = <0 0 0 0 0>; }; };",
        wanted: "fffffffffffff000-ffffffffffffffff 4K /top\n",
    },
];

const HERONS: Row = Row {
    board: HERON,
    wanted: "00000000-3fffffff 1G /memory@0\n\
        3c000000-3fffffff 64M /reserved-memory/frames@3c000000\n\
        3f000000-3f000fff 4K /reserved-memory/log@3f000000 overlaps /reserved-memory/frames@3c000000\n\
        fe200000-fe2000b3 180 /soc/gpio@7e200000\n\
        fe201000-fe2011ff 512 /soc/serial@7e201000\n\
        fe201100-fe2012ff 512 /soc/spi@7e201100 overlaps /soc/serial@7e201000\n\
        fe201100-fe20110f 16 /soc/old@7e201100 disabled\n\
        ff841000-ff841fff 4K /controller@ff841000\n\
        ff842000-ff843fff 8K /controller@ff841000\n",
};

fn try_map(rt: &impl Abort, alloc: Global, hasher: RandomState, row: &Row) {
    let tree = tree_of(rt, alloc, hasher, row.board);
    let found = map_lines(alloc, hasher, &tree).expect(rt, "memory");
    assert!(rt; found.as_slice() == row.wanted.as_bytes());
}

#[test]
fn memory_maps(rt: HostRuntime) {
    for row in ROWS {
        try_map(
            &rt,
            rt.alloc(),
            RandomState::new(&rt).expect(&rt, "a seed"),
            row,
        );
    }
}

#[test]
fn map_of_a_board(rt: HostRuntime) {
    let hasher = RandomState::new(&rt).expect(&rt, "a seed");
    try_map(&rt, rt.alloc(), hasher, &HERONS);
}

#[test]
fn reserved_by_the_blob(rt: HostRuntime) {
    let alloc = rt.alloc();
    let hasher = RandomState::new(&rt).expect(&rt, "a seed");
    let text = "/dts-v1/; /memreserve/ 0x80000000 0x4000; /memreserve/ 0x1000 0x10; / { };";
    let tree = tree_in(&rt, alloc, hasher, text);
    let found = map_lines(alloc, hasher, &tree).expect(&rt, "memory");
    let wanted = "80000000-80003fff 16K reserved\n00001000-0000100f 16 reserved\n";
    assert!(&rt; found.as_slice() == wanted.as_bytes());
}
