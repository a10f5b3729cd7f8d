//! Links of Linux, row by row.

use crate::links::kernel_rows::{DEVICES, ENDS_AND_CYCLES};
use crate::links::rows::{FAULTS, INTERRUPTS, PROPERTIES, STANDINGS};
use bus_links::{Strictness, link, linked_text, read_link_drivers, warnings_text};
use dt_build::build;
use dt_source::parse;
use dt_text::lexeme::Language;
use dt_tree::Tree;
use std::alloc::Global;
use std::hash::RandomState;
use std::process::Abort;

/// A row: its name, what stands in the source's root, the driver file, whether links are strict, what is printed.
pub struct Row {
    pub name: &'static str,
    pub source: &'static str,
    pub drivers: &'static str,
    pub strictness: Strictness,
    pub wanted: &'static str,
}

pub fn tree_of(rt: &impl Abort, alloc: Global, hasher: RandomState, source: &str) -> Tree {
    let text = format!(in alloc; "/dts-v1/; / {{ {source} }};").expect(rt, "memory");
    let source = parse(alloc, text.as_str().as_bytes(), Language::Profile).expect(rt, "a source");
    build(alloc, hasher, &source, false).expect(rt, "a tree")
}

/// What the program would print: the plan behind its comments, then the warnings; or the number of the refusal and its line.
fn printed(rt: &impl Abort, alloc: Global, hasher: RandomState, row: &Row) -> Vec<u8> {
    let tree = tree_of(rt, alloc, hasher, row.source);
    let drivers = read_link_drivers(alloc, hasher, row.drivers.as_bytes()).expect(rt, "drivers");
    match link(alloc, hasher, &tree, &drivers, row.strictness) {
        Ok(linked) => {
            let mut text = linked_text(alloc, &linked).expect(rt, "memory");
            let warnings = warnings_text(alloc, &linked).expect(rt, "memory");
            text.extend_from_slice(warnings.as_slice())
                .expect(rt, "memory");
            text
        }
        Err(error) => {
            let number = error.number();
            let told = format!(in alloc; "error {number}").expect(rt, "memory");
            told.into_bytes()
        }
    }
}

fn is_printed(rt: &impl Abort, alloc: Global, hasher: RandomState, row: &Row) {
    let text = printed(rt, alloc, hasher, row);
    assert_eq!(rt; text.as_slice(), row.wanted.as_bytes(), "{}", row.name);
}

fn are_printed(rt: &impl Abort, alloc: Global, hasher: RandomState, rows: &[Row]) {
    for row in rows {
        is_printed(rt, alloc, hasher, row);
    }
}

#[test]
fn rows_by_properties(rt: HostRuntime) {
    let hasher = RandomState::new(&rt).expect(&rt, "a seed");
    are_printed(&rt, rt.alloc(), hasher, &PROPERTIES);
}

#[test]
fn rows_of_buses_early_devices_and_cycles(rt: HostRuntime) {
    let hasher = RandomState::new(&rt).expect(&rt, "a seed");
    are_printed(&rt, rt.alloc(), hasher, &STANDINGS);
}

#[test]
fn rows_of_endpoints_and_cycles(rt: HostRuntime) {
    let hasher = RandomState::new(&rt).expect(&rt, "a seed");
    are_printed(&rt, rt.alloc(), hasher, &ENDS_AND_CYCLES);
}

#[test]
fn rows_of_devices_that_are_made(rt: HostRuntime) {
    let hasher = RandomState::new(&rt).expect(&rt, "a seed");
    are_printed(&rt, rt.alloc(), hasher, &DEVICES);
}

#[test]
fn rows_of_faults(rt: HostRuntime) {
    let hasher = RandomState::new(&rt).expect(&rt, "a seed");
    are_printed(&rt, rt.alloc(), hasher, &FAULTS);
}

#[test]
fn rows_of_interrupts(rt: HostRuntime) {
    let hasher = RandomState::new(&rt).expect(&rt, "a seed");
    are_printed(&rt, rt.alloc(), hasher, &INTERRUPTS);
}

/// The properties of which a phandle and one cell are read, each with what says so at the phandle's node.
const COUNTED: [(&'static str, &'static str); 16] = [
    ("clocks", "#clock-cells"),
    ("assigned-clock-parents", "#clock-cells"),
    ("iommus", "#iommu-cells"),
    ("interconnects", "#interconnect-cells"),
    ("mboxes", "#mbox-cells"),
    ("io-channels", "#io-channel-cells"),
    ("power-domains", "#power-domain-cells"),
    ("hwlocks", "#hwlock-cells"),
    ("phys", "#phy-cells"),
    ("pwms", "#pwm-cells"),
    ("resets", "#reset-cells"),
    ("gpio", "#gpio-cells"),
    ("gpios", "#gpio-cells"),
    ("reset-gpio", "#gpio-cells"),
    ("reset-gpios", "#gpio-cells"),
    (
        "interrupts-extended",
        "interrupt-controller; #interrupt-cells",
    ),
];

/// Those of which a phandle alone is read.
const BARE: [&'static str; 17] = [
    "interrupt-parent",
    "extcon",
    "nvmem-cells",
    "wakeup-parent",
    "pinctrl-0",
    "pinctrl-1",
    "pinctrl-2",
    "pinctrl-3",
    "pinctrl-4",
    "pinctrl-5",
    "pinctrl-6",
    "pinctrl-7",
    "pinctrl-8",
    "leds",
    "backlight",
    "panel",
    "vdd-supply",
];

/// Those that say nothing: no binding of Linux 6.1, or one that counts where links are strict.
const UNREAD: [&'static str; 4] = ["pinctrl-9", "supply", "dmas", "a,nr-gpios"];

// What is printed of a device with this property, which names a provider with one more property.
fn named_by(
    rt: &impl Abort,
    alloc: Global,
    hasher: RandomState,
    property: &str,
    provider: &str,
) -> Vec<u8> {
    let head = format!(in alloc; "p: p {{ compatible = \"c\"; {provider} }}; ").expect(
        rt, "memory",
    );
    let own = format!(in alloc; "u {{ compatible = \"c\"; {property}; }};").expect(rt, "memory");
    let mut source = head;
    source.push_str(own.as_str()).expect(rt, "memory");
    let tree = tree_of(rt, alloc, hasher, source.as_str());
    let drivers = read_link_drivers(alloc, hasher, b"driver x c").expect(rt, "drivers");
    let linked = link(alloc, hasher, &tree, &drivers, Strictness::Usual).expect(rt, "links");
    linked_text(alloc, &linked).expect(rt, "memory")
}

#[test]
fn bindings_that_count_cells(rt: HostRuntime) {
    let alloc = rt.alloc();
    let hasher = RandomState::new(&rt).expect(&rt, "a seed");
    for (name, cells) in COUNTED {
        let property = format!(in alloc; "{name} = <&p 1>").expect(&rt, "memory");
        let provider = format!(in alloc; "{cells} = <1>;").expect(&rt, "memory");
        let text = named_by(&rt, alloc, hasher, property.as_str(), provider.as_str());
        assert_eq!(rt;
            text.as_slice(),
            b"/p x ok\n/u x ok /p\n".as_slice(),
            "{name}"
        );
    }
}

#[test]
fn bindings_of_phandles(rt: HostRuntime) {
    let alloc = rt.alloc();
    let hasher = RandomState::new(&rt).expect(&rt, "a seed");
    for name in BARE {
        let property = format!(in alloc; "{name} = <&p>").expect(&rt, "memory");
        let text = named_by(&rt, alloc, hasher, property.as_str(), "");
        assert_eq!(rt;
            text.as_slice(),
            b"/p x ok\n/u x ok /p\n".as_slice(),
            "{name}"
        );
    }
    for name in UNREAD {
        let property = format!(in alloc; "{name} = <&p>").expect(&rt, "memory");
        let text = named_by(&rt, alloc, hasher, property.as_str(), "");
        assert_eq!(rt; text.as_slice(), b"/p x ok\n/u x ok\n".as_slice(), "{name}");
    }
}
