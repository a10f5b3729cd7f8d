//! Boards whose phandles have other numbers, compared: a row for each property that holds phandles (docs/model/tree.md).

use dtman_blobs::{Sameness, Titles, diff_bytes};
use dtman_engine::compile_bytes;
use std::hash::RandomState;
use std::process::Abort;

const TITLES: Titles<'static> = Titles {
    first: "a",
    second: "b",
};

/// Properties that begin with a phandle.
const PROPERTIES: &[&str] = &[
    "clocks",
    "assigned-clocks",
    "assigned-clock-parents",
    "resets",
    "phys",
    "dmas",
    "pwms",
    "power-domains",
    "iommus",
    "msi-parent",
    "interconnects",
    "mboxes",
    "io-channels",
    "hwlocks",
    "thermal-sensors",
    "cooling-device",
    "sound-dai",
    "mux-controls",
    "nvmem-cells",
    "interrupts-extended",
    "interrupt-parent",
    "gpios",
    "gpio",
    "reset-gpio",
    "reset-gpios",
    "vdd-supply",
    "pinctrl-0",
    "pinctrl-8",
    "pinctrl-9",
    "remote-endpoint",
    "extcon",
    "wakeup-parent",
    "leds",
    "backlight",
    "panel",
    "memory-region",
    "phy-handle",
    "cpu",
    "cpu-idle-states",
    "next-level-cache",
    "operating-points-v2",
    "interrupt-affinity",
    "trip",
];

/// Properties whose phandle stands behind one cell.
const MAPS: &[&str] = &["iommu-map", "msi-map"];

/// Properties of numbers.
const NUMBERS: &[&str] = &["reg", "interrupts", "snps,nr-gpios"];

/// What the value has before and behind the number.
#[derive(Clone, Copy)]
struct Around {
    before: &'static str,
    behind: &'static str,
}

const ALONE: Around = Around {
    before: "",
    behind: "",
};

const IN_A_MAP: Around = Around {
    before: "0 ",
    behind: " 0 1",
};

fn blob(
    rt: &(impl Abort + AllocGlobal),
    hasher: RandomState,
    property: &str,
    around: Around,
    number: u32,
) -> Vec<u8> {
    let before = around.before;
    let behind = around.behind;
    let source = format!(in rt.alloc();
        "/dts-v1/; / {{ p {{ phandle = <{number}>; }}; u {{ {property} = <{before}{number}{behind}>; }}; }};"
    );
    let source = source.expect(rt, "a source");
    compile_bytes(rt.alloc(), hasher, source.as_bytes(), false).expect(rt, "a blob")
}

fn is_told(
    rt: &(impl Abort + AllocGlobal),
    hasher: RandomState,
    property: &str,
    around: Around,
) -> bool {
    let first = blob(rt, hasher, property, around, 1);
    let second = blob(rt, hasher, property, around, 7);
    let text = diff_bytes(
        rt.alloc(),
        hasher,
        TITLES,
        Sameness::Board,
        first.as_slice(),
        second.as_slice(),
    );
    !text.expect(rt, "a text").is_empty()
}

#[test]
fn renumbered_phandles_are_the_same(rt: HostRuntime) {
    let hasher = RandomState::new(&rt).expect(&rt, "a seed");
    for property in PROPERTIES {
        assert!(&rt; !is_told(&rt, hasher, property, ALONE), "{property}");
    }
    for property in MAPS {
        assert!(&rt; !is_told(&rt, hasher, property, IN_A_MAP), "{property}");
    }
}

#[test]
fn other_numbers_differ(rt: HostRuntime) {
    let hasher = RandomState::new(&rt).expect(&rt, "a seed");
    for property in NUMBERS {
        assert!(&rt; is_told(&rt, hasher, property, ALONE), "{property}");
    }
}
