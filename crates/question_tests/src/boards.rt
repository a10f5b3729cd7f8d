//! Trees of sources.

use dt_build::build;
use dt_source::parse;
use dt_text::lexeme::Language;
use dt_tree::Tree;
use std::alloc::Global;
use std::hash::RandomState;
use std::process::Abort;

/// The tree of what stands in a root.
pub fn tree_of(rt: &impl Abort, alloc: Global, hasher: RandomState, source: &str) -> Tree {
    let text = format!(in alloc; "/dts-v1/; / {{ {source} }};").expect(rt, "memory");
    tree_in(rt, alloc, hasher, text.as_str())
}

/// The tree of a source.
pub fn tree_in(rt: &impl Abort, alloc: Global, hasher: RandomState, text: &str) -> Tree {
    let source = parse(alloc, text.as_bytes(), Language::Profile).expect(rt, "a source");
    build(alloc, hasher, &source, false).expect(rt, "a tree")
}

/// A board with interrupts and pins.
pub const HERON: &str = "#address-cells = <1>; #size-cells = <1>; compatible = \"heron,carrier\";
    memory@0 { device_type = \"memory\"; reg = <0x0 0x40000000>; };
    reserved-memory { #address-cells = <1>; #size-cells = <1>; ranges; frames@3c000000 { reg = <0x3c000000 0x4000000>; };
        log@3f000000 { reg = <0x3f000000 0x1000>; }; };
    gic: controller@ff841000 { compatible = \"arm,gic-400\"; interrupt-controller; #interrupt-cells = <3>; #address-cells = <0>;
        reg = <0xff841000 0x1000 0xff842000 0x2000>; };
    soc { compatible = \"simple-bus\"; #address-cells = <1>; #size-cells = <1>; ranges = <0x7e000000 0xfe000000 0x1000000>;
        interrupt-parent = <&gic>;
        pins: gpio@7e200000 { reg = <0x7e200000 0xb4>; gpio-controller; #gpio-cells = <2>; interrupt-controller; #interrupt-cells = <2>;
            interrupts = <0 113 4>; };
        uart: serial@7e201000 { reg = <0x7e201000 0x200>; interrupts = <0 121 4>; };
        spi@7e201100 { reg = <0x7e201100 0x200>; interrupts-extended = <&gic 0 121 4>, <&pins 5 8>; interrupts = <7>;
            #address-cells = <1>; #size-cells = <0>; flash@0 { reg = <0>; }; };
        old@7e201100 { reg = <0x7e201100 0x10>; status = \"disabled\"; };
        far@70000000 { reg = <0x70000000 0x10>; };
        pcie: pcie@7d500000 { #address-cells = <3>; #size-cells = <2>; #interrupt-cells = <1>; interrupt-map-mask = <0 0 0 7>;
            interrupt-map = <0 0 0 1 &gic 0 143 4>, <0 0 0 2 &gic 0 144 4>; usb@1 { reg = <0x8000 0 0 0 0>; interrupts = <2>; }; }; };
    leds { led { gpios = <&pins 12 0>; }; };
    keys { power { gpios = <&pins 12 1>; }; menu { gpios = <&pins 3 1>, <0>, <&pins 4 1>; };
        spare { gpios = <&pins 3 0>; status = \"disabled\"; }; };
    touch { interrupt-parent = <&pins>; interrupts = <12 8>; };
    __local_fixups__ { leds { led { gpios = <0>; }; }; };";
