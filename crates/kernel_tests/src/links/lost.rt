//! What devices name that is disabled, row by row.

use crate::links::links::tree_of;
use bus_links::{Link, Strictness, link, lost_links, read_link_drivers};
use bus_plan::{Device, Plan};
use std::alloc::Global;
use std::hash::RandomState;
use std::process::Abort;

/// What stands in the source's root, whether links are strict, and a line for each entry: the consumer, what it names, the property and
/// the entry, and whether it names a part.
struct Row {
    name: &'static str,
    source: &'static str,
    strictness: Strictness,
    wanted: &'static str,
}

const ROWS: [Row; 15] = [
    Row {
        name: "disabled",
        source: "k: clk { compatible = \"c\"; status = \"disabled\"; #clock-cells = <0>; }; u { compatible = \"c\"; clocks = <&k>; };",
        strictness: Strictness::Usual,
        wanted: "/u /clk clocks 0\n",
    },
    Row {
        name: "okay",
        source: "k: clk { compatible = \"c\"; status = \"okay\"; #clock-cells = <0>; }; u { compatible = \"c\"; clocks = <&k>; };",
        strictness: Strictness::Usual,
        wanted: "",
    },
    Row {
        name: "below-a-disabled-bus",
        source: "p { compatible = \"simple-bus\"; status = \"fail\"; k: clk { compatible = \"c\"; #clock-cells = <0>; }; }; u { compatible = \"c\"; clocks = <&k>; };",
        strictness: Strictness::Usual,
        wanted: "/u /p/clk clocks 0\n",
    },
    Row {
        name: "second-entry",
        source: "s: s { compatible = \"c\"; #clock-cells = <1>; }; k: clk { compatible = \"c\"; status = \"disabled\"; #clock-cells = <0>; }; u { compatible = \"c\"; clocks = <&s 3>, <&k>; };",
        strictness: Strictness::Usual,
        wanted: "/u /clk clocks 1\n",
    },
    Row {
        name: "behind-the-end-of-a-list",
        source: "k: clk { compatible = \"c\"; status = \"disabled\"; #clock-cells = <0>; }; u { compatible = \"c\"; clocks = <0>, <&k>; };",
        strictness: Strictness::Usual,
        wanted: "",
    },
    Row {
        name: "part",
        source: "a { compatible = \"c\"; status = \"disabled\"; l: ldo { }; }; u { compatible = \"c\"; vdd-supply = <&l>; };",
        strictness: Strictness::Usual,
        wanted: "/u /a vdd-supply 0 part\n",
    },
    // The device is okay: only the part of it isn't.
    Row {
        name: "disabled-part",
        source: "a { compatible = \"c\"; l: ldo { status = \"disabled\"; }; }; u { compatible = \"c\"; vdd-supply = <&l>; };",
        strictness: Strictness::Usual,
        wanted: "",
    },
    Row {
        name: "disabled-consumer",
        source: "k: clk { compatible = \"c\"; status = \"disabled\"; #clock-cells = <0>; }; u { compatible = \"c\"; status = \"disabled\"; clocks = <&k>; };",
        strictness: Strictness::Usual,
        wanted: "",
    },
    Row {
        name: "below-the-consumer",
        source: "a { compatible = \"c\"; clocks = <&k>; k: clk { compatible = \"c\"; status = \"disabled\"; #clock-cells = <0>; }; };",
        strictness: Strictness::Usual,
        wanted: "/a /a/clk clocks 0\n",
    },
    Row {
        name: "optional",
        source: "k: dma { compatible = \"c\"; status = \"disabled\"; #dma-cells = <0>; }; u { compatible = \"c\"; dmas = <&k>; };",
        strictness: Strictness::Usual,
        wanted: "",
    },
    Row {
        name: "optional-where-links-are-strict",
        source: "k: dma { compatible = \"c\"; status = \"disabled\"; #dma-cells = <0>; }; u { compatible = \"c\"; dmas = <&k>; };",
        strictness: Strictness::Strict,
        wanted: "/u /dma dmas 0\n",
    },
    Row {
        name: "interrupts",
        source: "i: pic { compatible = \"c\"; status = \"disabled\"; interrupt-controller; #interrupt-cells = <1>; }; u { compatible = \"c\"; interrupt-parent = <&i>; interrupts = <4 5>; };",
        strictness: Strictness::Usual,
        wanted: "/u /pic interrupt-parent 0\n/u /pic interrupts 0\n/u /pic interrupts 1\n",
    },
    Row {
        name: "endpoint",
        source: "a { compatible = \"c\"; port { endpoint { remote-endpoint = <&f>; }; }; }; b { compatible = \"c\"; status = \"disabled\"; port { f: endpoint { }; }; };",
        strictness: Strictness::Usual,
        wanted: "/a /b remote-endpoint 0\n",
    },
    Row {
        name: "two-consumers",
        source: "v { compatible = \"c\"; phys = <&p>; }; p: phy { compatible = \"c\"; status = \"disabled\"; #phy-cells = <0>; }; u { compatible = \"c\"; phys = <&p>; };",
        strictness: Strictness::Usual,
        wanted: "/v /phy phys 0\n/u /phy phys 0\n",
    },
    // As on zcu102 in QEMU, whose firmware is disabled with the clocks, the domains and the pins that all ports ask for.
    Row {
        name: "disabled-firmware",
        source: "firmware { f: fw { compatible = \"c\"; status = \"disabled\"; #power-domain-cells = <1>; k: clk { compatible = \"c\"; #clock-cells = <1>; }; pins { compatible = \"c\"; d: default { }; }; }; }; serial { compatible = \"c\"; power-domains = <&f 33>; clocks = <&k 56>, <&k 31>; pinctrl-0 = <&d>; }; gpio { compatible = \"c\"; clocks = <&k 31>; power-domains = <&f 46>; };",
        strictness: Strictness::Usual,
        wanted: "/serial /firmware/fw power-domains 0\n/serial /firmware/fw/clk clocks 0\n/serial /firmware/fw/clk clocks 1\n/serial /firmware/fw/pins pinctrl-0 0 part\n/gpio /firmware/fw/clk clocks 0\n/gpio /firmware/fw power-domains 0\n",
    },
];

fn push(rt: &impl Abort, text: &mut Vec<u8>, part: &[u8]) {
    text.extend_from_slice(part).expect(rt, "memory");
}

fn push_path(rt: &impl Abort, text: &mut Vec<u8>, plan: &Plan, device: Device) {
    assert!(rt; device.index() < plan.len(), "not of the plan");
    push(rt, text, plan.path(device).as_bytes());
    push(rt, text, b" ");
}

fn push_entry(rt: &impl Abort, alloc: Global, text: &mut Vec<u8>, plan: &Plan, entry: &Link<'_>) {
    push_path(rt, text, plan, entry.consumer());
    push_path(rt, text, plan, entry.supplier());
    push(rt, text, entry.property());
    let number = format!(in alloc; " {}", entry.entry()).expect(rt, "memory");
    push(rt, text, number.as_bytes());
    if entry.is_part() {
        push(rt, text, b" part");
    }
    push(rt, text, b"\n");
}

fn holds(rt: &impl Abort, alloc: Global, hasher: RandomState, row: &Row) {
    let tree = tree_of(rt, alloc, hasher, row.source);
    let drivers = read_link_drivers(alloc, hasher, b"").expect(rt, "drivers");
    let linked = link(alloc, hasher, &tree, &drivers, row.strictness).expect(rt, "links");
    let lost = lost_links(alloc, hasher, &tree, row.strictness).expect(rt, "memory");
    let mut text = Vec::new(alloc);
    for entry in &lost {
        push_entry(rt, alloc, &mut text, linked.plan(), entry);
    }
    assert_eq!(rt; text.as_slice(), row.wanted.as_bytes(), "{}", row.name);
}

#[test]
fn entries_that_lead_to_disabled_devices(rt: HostRuntime) {
    let hasher = RandomState::new(&rt).expect(&rt, "a seed");
    for row in &ROWS {
        holds(&rt, rt.alloc(), hasher, row);
    }
}
