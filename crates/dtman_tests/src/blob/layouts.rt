//! Sources in dtc's layout. What is wanted is what `dtc -I dtb -O dts` of dtc 1.6.1 prints.

use super::boards::CLOCKED;
use dtman_layout::{Texts, layout_bytes};
use std::process::Abort;

/// Values of all forms, as dtc 1.6.1 compiles them, and two reservations.
const FORMS: &[u8] = &[
    208, 13, 254, 237, 0, 0, 2, 26, 0, 0, 0, 88, 0, 0, 1, 236, 0, 0, 0, 40, 0, 0, 0, 17, 0, 0, 0,
    16, 0, 0, 0, 0, 0, 0, 0, 46, 0, 0, 1, 148, 0, 0, 0, 0, 0, 0, 16, 0, 0, 0, 0, 0, 0, 0, 0, 32,
    255, 255, 255, 255, 255, 255, 255, 255, 0, 0, 0, 0, 0, 0, 0, 1, 0, 0, 0, 0, 0, 0, 0, 0, 0, 0,
    0, 0, 0, 0, 0, 0, 0, 0, 0, 1, 0, 0, 0, 0, 0, 0, 0, 3, 0, 0, 0, 0, 0, 0, 0, 0, 0, 0, 0, 3, 0, 0,
    0, 2, 0, 0, 0, 6, 120, 0, 0, 0, 0, 0, 0, 3, 0, 0, 0, 5, 0, 0, 0, 8, 120, 0, 121, 121, 0, 0, 0,
    0, 0, 0, 0, 3, 0, 0, 0, 12, 0, 0, 0, 10, 116, 97, 98, 9, 110, 108, 10, 113, 34, 98, 92, 0, 0,
    0, 0, 3, 0, 0, 0, 1, 0, 0, 0, 12, 0, 0, 0, 0, 0, 0, 0, 3, 0, 0, 0, 2, 0, 0, 0, 14, 0, 0, 0, 0,
    0, 0, 0, 3, 0, 0, 0, 3, 0, 0, 0, 16, 97, 0, 0, 0, 0, 0, 0, 3, 0, 0, 0, 6, 0, 0, 0, 18, 97, 98,
    0, 0, 99, 0, 0, 0, 0, 0, 0, 3, 0, 0, 0, 8, 0, 0, 0, 20, 0, 0, 0, 1, 255, 255, 255, 255, 0, 0,
    0, 3, 0, 0, 0, 3, 0, 0, 0, 22, 97, 98, 99, 0, 0, 0, 0, 3, 0, 0, 0, 4, 0, 0, 0, 24, 97, 98, 99,
    100, 0, 0, 0, 3, 0, 0, 0, 4, 0, 0, 0, 26, 27, 0, 65, 0, 0, 0, 0, 3, 0, 0, 0, 2, 0, 0, 0, 28,
    127, 0, 0, 0, 0, 0, 0, 3, 0, 0, 0, 4, 0, 0, 0, 30, 97, 0, 98, 0, 0, 0, 0, 3, 0, 0, 0, 4, 0, 0,
    0, 32, 0, 97, 98, 0, 0, 0, 0, 3, 0, 0, 0, 1, 0, 0, 0, 34, 0, 0, 0, 0, 0, 0, 0, 3, 0, 0, 0, 4,
    0, 0, 0, 36, 97, 0, 0, 0, 0, 0, 0, 3, 0, 0, 0, 4, 0, 0, 0, 38, 128, 97, 0, 0, 0, 0, 0, 3, 0, 0,
    0, 6, 0, 0, 0, 40, 7, 8, 11, 12, 13, 0, 0, 0, 0, 0, 0, 1, 99, 104, 105, 108, 100, 64, 49, 0, 0,
    0, 0, 3, 0, 0, 0, 4, 0, 0, 0, 42, 0, 0, 0, 1, 0, 0, 0, 1, 103, 114, 97, 110, 100, 0, 0, 0, 0,
    0, 0, 2, 0, 0, 0, 2, 0, 0, 0, 1, 111, 116, 104, 101, 114, 0, 0, 0, 0, 0, 0, 2, 0, 0, 0, 2, 0,
    0, 0, 9, 101, 109, 112, 116, 121, 0, 97, 0, 98, 0, 99, 0, 100, 0, 101, 0, 102, 0, 103, 0, 104,
    0, 105, 0, 106, 0, 107, 0, 108, 0, 109, 0, 110, 0, 111, 0, 112, 0, 113, 0, 114, 0, 114, 101,
    103, 0,
];

const LINES: &[&[u8]] = &[
    b"/dts-v1/;\n",
    b"\n",
    b"/memreserve/\t0x0000000000001000 0x0000000000000020;\n",
    b"/memreserve/\t0xffffffffffffffff 0x0000000000000001;\n",
    b"/ {\n",
    b"\tempty;\n",
    b"\ta = \"x\";\n",
    b"\tb = \"x\\0yy\";\n",
    b"\tc = \"tab\\tnl\\nq\\\"b\\\\\";\n",
    b"\td = [00];\n",
    b"\te = [00 00];\n",
    b"\tf = [61 00 00];\n",
    b"\tg = \"ab\\0\\0c\";\n",
    b"\th = <0x01 0xffffffff>;\n",
    b"\ti = [61 62 63];\n",
    b"\tj = <0x61626364>;\n",
    b"\tk = <0x1b004100>;\n",
    b"\tl = [7f 00];\n",
    b"\tm = \"a\\0b\";\n",
    b"\tn = \"\\0ab\";\n",
    b"\to = [00];\n",
    b"\tp = <0x61000000>;\n",
    b"\tq = <0x80610000>;\n",
    b"\tr = \"\\a\\b\\v\\f\\r\";\n",
    b"\n",
    b"\tchild@1 {\n",
    b"\t\treg = <0x01>;\n",
    b"\n",
    b"\t\tgrand {\n",
    b"\t\t};\n",
    b"\t};\n",
    b"\n",
    b"\tother {\n",
    b"\t};\n",
    b"};\n",
];

#[test]
fn a_blob_is_laid_out_as_by_dtc(rt: HostRuntime) {
    let text = layout_bytes(rt.alloc(), FORMS, Texts::Joined).expect(&rt, "a source");
    let wanted = joined(&rt, LINES);
    assert_eq!(&rt; text.as_slice(), wanted.as_slice());
}

fn joined(rt: &(impl Abort + AllocGlobal), lines: &[&[u8]]) -> Vec<u8> {
    let mut text = Vec::new(rt.alloc());
    for line in lines {
        text.extend_from_slice(*line).expect(rt, "room");
    }
    text
}

/// What is printed where the strings of a value are told apart.
const APART: &[&[u8]] = &[
    b"/dts-v1/;\n",
    b"\n",
    b"/ {\n",
    b"\n",
    b"\tclk {\n",
    b"\t\t#clock-cells = <0x01>;\n",
    b"\t\tphandle = <0x01>;\n",
    b"\t};\n",
    b"\n",
    b"\tu@1 {\n",
    b"\t\tclocks = <0x01 0x02>;\n",
    b"\t\tstatus = \"okay\";\n",
    b"\t};\n",
    b"};\n",
];

#[test]
fn strings_are_told_apart(rt: HostRuntime) {
    let text = layout_bytes(rt.alloc(), CLOCKED, Texts::Apart).expect(&rt, "a source");
    let wanted = joined(&rt, APART);
    assert_eq!(&rt; text.as_slice(), wanted.as_slice());
    let forms = layout_bytes(rt.alloc(), FORMS, Texts::Apart).expect(&rt, "a source");
    let line = b"\tb = \"x\", \"yy\";\n";
    assert!(&rt;
        forms
            .as_slice()
            .windows(line.len())
            .any(|window| window == line.as_slice())
    );
}

#[test]
fn what_is_no_blob_is_refused(rt: HostRuntime) {
    assert!(&rt; layout_bytes(rt.alloc(), b"/dts-v1/;", Texts::Joined).is_err());
}
