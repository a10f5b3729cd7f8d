//! What is told of trees that have no plan: the device and property, the entry and its phandle, and the cells that it wants.
//!
//! What a row tells is worked by hand from the supplier table and the specifiers of the Devicetree Specification, section 2.5.

use crate::engine::answers::{compiled, printed};
use dtman_diagnosis::{diagnose_plan, example_of, text_of};
use dtman_engine::{Culprit, plan_bytes};
use std::alloc::Global;
use std::hash::RandomState;
use std::process::Abort;

/// That the plan of a source's blob is refused by this number, and the lines of the refusal are these.
fn is_told(
    rt: &impl Abort,
    alloc: Global,
    hasher: RandomState,
    file: &str,
    source: &str,
    number: u8,
    lines: &str,
) {
    let blob = compiled(rt, alloc, hasher, source, false);
    let Err(fault) = plan_bytes(alloc, hasher, blob.as_slice(), b"") else {
        panic!(rt; "a refusal");
    };
    let Some((first, _)) = lines.split_once('\n') else {
        panic!(rt; "lines");
    };
    assert_eq!(rt; printed(rt, alloc, Err(fault)).as_slice(), first.as_bytes());
    let property = match fault.culprit {
        Some(Culprit::Property(property)) => Some(property),
        _ => None,
    };
    let diagnosis = diagnose_plan(alloc, file.as_bytes(), blob.as_slice(), number, property);
    let text = text_of(alloc, first, &diagnosis.expect(rt, "a diagnosis")).expect(rt, "a text");
    assert_eq!(rt; text.as_str(), lines);
}

/// A source, and the lines of what its plan is refused for.
type Row = (&'static str, &'static str);

/// Phandles that no node has.
const DANGLING: &[Row] = &[
    (
        "/dts-v1/; / { uart { compatible = \"u\"; clocks = <7>; }; };",
        "error 54 DanglingPhandle\nb.dtb: no node has the phandle of an entry\n = in /uart, property clocks\n = entry 1 is phandle 0x7\n",
    ),
    // an entry with a cell, an empty one, and one that leads nowhere
    (
        "/dts-v1/; / { clk: clk { #clock-cells = <1>; }; soc { u { compatible = \"u\"; clocks = <&clk 5>, <0>, <0x90 1>; }; }; };",
        "error 54 DanglingPhandle\nb.dtb: no node has the phandle of an entry\n = in /soc/u, property clocks\n = entry 3 is phandle 0x90\n",
    ),
    (
        "/dts-v1/; / { u { compatible = \"u\"; interrupt-parent = <7>; }; };",
        "error 54 DanglingPhandle\nb.dtb: no node has the phandle of an entry\n = in /u, property interrupt-parent\n = entry 1 is phandle 0x7\n",
    ),
    (
        "/dts-v1/; / { u { compatible = \"u\"; vdd-supply = <7>; }; };",
        "error 54 DanglingPhandle\nb.dtb: no node has the phandle of an entry\n = in /u, property vdd-supply\n = entry 1 is phandle 0x7\n",
    ),
    (
        "/dts-v1/; / { pins: pins { }; u { compatible = \"u\"; nr-gpios = <7>; pinctrl-0 = <&pins 8>; }; };",
        "error 54 DanglingPhandle\nb.dtb: no node has the phandle of an entry\n = in /u, property pinctrl-0\n = entry 2 is phandle 0x8\n",
    ),
    // the first device, its first property, and that one's first entry
    (
        "/dts-v1/; / { n { clocks = [00]; }; a { compatible = \"a\"; pinctrl-0 = <8 9>; clocks = [00]; }; b { compatible = \"b\"; clocks = [00]; }; };",
        "error 54 DanglingPhandle\nb.dtb: no node has the phandle of an entry\n = in /a, property pinctrl-0\n = entry 1 is phandle 0x8\n",
    ),
    // a reserved node is no device, and has no phandle
    (
        "/dts-v1/; / { __symbols__ { compatible = \"s\"; clocks = [00]; phandle = <7>; }; u { compatible = \"u\"; reset-gpio = <7>; }; };",
        "error 54 DanglingPhandle\nb.dtb: no node has the phandle of an entry\n = in /u, property reset-gpio\n = entry 1 is phandle 0x7\n",
    ),
];

/// Values of another length.
const LENGTHS: &[Row] = &[
    (
        "/dts-v1/; / { u { compatible = \"u\"; clocks = [00 00 00 07 00]; }; };",
        "error 55 BadSpecifier\nb.dtb: a property doesn't list its suppliers as they want it\n = in /u, property clocks\n = the value has 5 bytes\n = cells have four bytes each\n",
    ),
    (
        "/dts-v1/; / { u { compatible = \"u\"; pinctrl-9 = [00 00]; }; };",
        "error 55 BadSpecifier\nb.dtb: a property doesn't list its suppliers as they want it\n = in /u, property pinctrl-9\n = the value has 2 bytes\n = cells have four bytes each\n",
    ),
    (
        "/dts-v1/; / { u { compatible = \"u\"; interrupt-parent = <7 7>; }; };",
        "error 55 BadSpecifier\nb.dtb: a property doesn't list its suppliers as they want it\n = in /u, property interrupt-parent\n = the value has 8 bytes\n = one phandle has four bytes\n",
    ),
    (
        "/dts-v1/; / { u { compatible = \"u\"; vdd-supply; }; };",
        "error 55 BadSpecifier\nb.dtb: a property doesn't list its suppliers as they want it\n = in /u, property vdd-supply\n = the value has 0 bytes\n = one phandle has four bytes\n",
    ),
];

/// Providers that want other cells.
const SPECIFIERS: &[Row] = &[
    (
        "/dts-v1/; / { clk: clk { }; u { compatible = \"u\"; clocks = <&clk>; }; };",
        "error 55 BadSpecifier\nb.dtb: a property doesn't list its suppliers as they want it\n = in /u, property clocks\n = entry 1 is phandle 0x1\n = that is /clk, which has no #clock-cells of 4 bytes\n",
    ),
    (
        "/dts-v1/; / { clk: clk { #clock-cells = <0 0>; }; u { compatible = \"u\"; clocks = <&clk>; }; };",
        "error 55 BadSpecifier\nb.dtb: a property doesn't list its suppliers as they want it\n = in /u, property clocks\n = entry 1 is phandle 0x1\n = that is /clk, which has no #clock-cells of 4 bytes\n",
    ),
    (
        "/dts-v1/; / { soc { gpio: gpio@1 { #gpio-cells = <2>; }; }; u { compatible = \"u\"; status = \"disabled\"; cs-gpios = <&gpio 3 0>, <0>, <&gpio 4>; }; };",
        "error 55 BadSpecifier\nb.dtb: a property doesn't list its suppliers as they want it\n = in /u, property cs-gpios\n = entry 3 is phandle 0x1\n = that is /soc/gpio@1, whose #gpio-cells is 2\n = cells behind it: 1\n",
    ),
    (
        "/dts-v1/; / { gic: gic { #interrupt-cells = <0xffffffff>; }; u { compatible = \"u\"; interrupts-extended = <&gic 0 2 4>; }; };",
        "error 55 BadSpecifier\nb.dtb: a property doesn't list its suppliers as they want it\n = in /u, property interrupts-extended\n = entry 1 is phandle 0x1\n = that is /gic, whose #interrupt-cells is 4294967295\n = cells behind it: 3\n",
    ),
    // the root provides
    (
        "/dts-v1/; / { phandle = <3>; #reset-cells = <1>; u { compatible = \"u\"; resets = <3>; }; };",
        "error 55 BadSpecifier\nb.dtb: a property doesn't list its suppliers as they want it\n = in /u, property resets\n = entry 1 is phandle 0x3\n = that is /, whose #reset-cells is 1\n = cells behind it: 0\n",
    ),
];

fn are_told(rt: &impl Abort, alloc: Global, hasher: RandomState, number: u8, rows: &[Row]) {
    for (source, lines) in rows {
        is_told(rt, alloc, hasher, "b.dtb", *source, number, *lines);
    }
}

#[test]
fn dangling_phandles(rt: HostRuntime) {
    let hasher = RandomState::new(&rt).expect(&rt, "a seed");
    are_told(&rt, rt.alloc(), hasher, 54, DANGLING);
}

#[test]
fn lengths(rt: HostRuntime) {
    let hasher = RandomState::new(&rt).expect(&rt, "a seed");
    are_told(&rt, rt.alloc(), hasher, 55, LENGTHS);
}

#[test]
fn specifiers(rt: HostRuntime) {
    let hasher = RandomState::new(&rt).expect(&rt, "a seed");
    are_told(&rt, rt.alloc(), hasher, 55, SPECIFIERS);
}

// A source of so many devices.
fn devices(rt: &impl Abort, alloc: Global, count: usize) -> String {
    let mut source = String::from_str(alloc, "/dts-v1/; / { ").expect(rt, "memory");
    for place in 0..count {
        write!(source, "d{place} {{ compatible = \"d\"; }}; ").expect(rt, "memory");
    }
    source.push_str("};").expect(rt, "memory");
    source
}

#[test]
fn too_many_devices(rt: HostRuntime) {
    let hasher = RandomState::new(&rt).expect(&rt, "a seed");
    let source = devices(&rt, rt.alloc(), 4_098);
    let lines =
        "error 56 TooManyDevices\nb.dtb: there are more devices than a plan may have\n = there are 4098 devices; a plan has at most 4096\n";
    is_told(&rt, rt.alloc(), hasher, "b.dtb", source.as_str(), 56, lines);
}

/// The examples of `explain`: a number, and a source.
const EXAMPLES: &[(u8, &str)] = &[
    (54, "/dts-v1/;/{a{compatible=\"x\"; clocks=<7>;};};"),
    (
        55,
        "/dts-v1/;/{a{compatible=\"x\"; clocks=<1>;}; b{phandle=<1>; #clock-cells=<1>;};};",
    ),
];

#[test]
fn examples(rt: HostRuntime) {
    let hasher = RandomState::new(&rt).expect(&rt, "a seed");
    for (number, source) in EXAMPLES {
        let lines = example_of(*number).expect(&rt, "an example");
        is_told(&rt, rt.alloc(), hasher, "BLOB", *source, *number, lines);
    }
}

// That only the file is told where the blob has no such fault.
fn is_file_alone(rt: &impl Abort, alloc: Global, blob: &[u8]) {
    let diagnosis = diagnose_plan(alloc, b"b.dtb", blob, 54, None).expect(rt, "a diagnosis");
    let text = text_of(alloc, "error 54 DanglingPhandle", &diagnosis).expect(rt, "a text");
    assert_eq!(rt;
        text.as_str(),
        "error 54 DanglingPhandle\nb.dtb: no node has the phandle of an entry\n"
    );
}

#[test]
fn other_faults(rt: HostRuntime) {
    let hasher = RandomState::new(&rt).expect(&rt, "a seed");
    is_file_alone(&rt, rt.alloc(), b"");
    let blob = compiled(&rt, rt.alloc(), hasher, "/dts-v1/; / { };", false);
    is_file_alone(&rt, rt.alloc(), blob.as_slice());
}
