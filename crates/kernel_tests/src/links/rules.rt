//! The consumers of a tree that has one for each rule of Linux: which of them a 6.1 kernel bound before `deferred_probe_timeout` ended,
//! which it bound then, and which it didn't.

use crate::links::links::tree_of;
use bus_links::{Strictness, link, read_link_drivers};
use bus_plan::{Device, Plan};
use std::alloc::Global;
use std::hash::RandomState;
use std::process::Abort;

/// What a supplier is, `@` in the tree: no driver matches it.
const SUPPLIER: &str =
    "compatible = \"n\"; #clock-cells = <0>; #interconnect-cells = <0>; #iommu-cells = <0>; #mbox-cells = <0>; #io-channel-cells = <0>; #dma-cells = <0>; #power-domain-cells = <0>; #hwlock-cells = <0>; #phy-cells = <0>; #pwm-cells = <0>; #reset-cells = <0>; #gpio-cells = <0>; interrupt-controller; #interrupt-cells = <1>; #address-cells = <0>;";

/// What a consumer is, `%` in the tree.
const CONSUMER: &str = "compatible = \"c\"; #clock-cells = <0>;";

/// The drivers of the kernel that match a node of the tree: of consumers, of buses, and what is set up early.
const DRIVERS: &[u8] =
    b"driver fixed c\ndriver simple-pm-bus simple-pm-bus simple-bus simple-mfd isa arm,amba-bus\nearly fixed-clock gic\n";

/// The nodes, a line each.
const NODES: &[&str] = &[
    "interrupt-parent = <&gic>; gic: gic { compatible = \"gic\"; interrupt-controller; #interrupt-cells = <3>; #address-cells = <0>; };",
    "s: supplier { @ };",
    "soff: supplier-off { @ status = \"disabled\"; };",
    "sok: supplier-ok { @ status = \"ok\"; };",
    "sres: supplier-reserved { @ status = \"reserved\"; };",
    "host: host { @ cell: cell { }; coff: celloff { status = \"disabled\"; }; };",
    "offbus: offbus { compatible = \"simple-bus\"; status = \"disabled\"; under: under { @ }; };",
    "bare: bare { compatible = \"n\"; };",
    "s1: supplier1 { compatible = \"n\"; #clock-cells = <1>; };",
    "r-clocks { % clocks = <&s>; };",
    "r-interconnects { % interconnects = <&s>; };",
    "r-iommus { % iommus = <&s>; };",
    "r-mboxes { % mboxes = <&s>; };",
    "r-io-channels { % io-channels = <&s>; };",
    "r-interrupt-parent { % interrupt-parent = <&s>; };",
    "r-dmas { % dmas = <&s>; };",
    "r-hwlocks { % hwlocks = <&s>; };",
    "r-extcon { % extcon = <&s>; };",
    "r-nvmem-cells { % nvmem-cells = <&s>; };",
    "r-phys { % phys = <&s>; };",
    "r-wakeup-parent { % wakeup-parent = <&s>; };",
    "r-pwms { % pwms = <&s>; };",
    "r-resets { % resets = <&s>; };",
    "r-leds { % leds = <&s>; };",
    "r-backlight { % backlight = <&s>; };",
    "r-panel { % panel = <&s>; };",
    "r-gpios { % gpios = <&s>; };",
    "r-gpio { % gpio = <&s>; };",
    "r-foo-gpio { % foo-gpio = <&s>; };",
    "r-foo-gpios { % foo-gpios = <&s>; };",
    "r-foo-supply { % foo-supply = <&s>; };",
    "r-interrupts-extended { % interrupts-extended = <&s 1>; };",
    "r-msi-parent { % msi-parent = <&s>; };",
    "r-sound-dai { % sound-dai = <&s>; };",
    "r-memory-region { % memory-region = <&s>; };",
    "r-thermal-sensors { % thermal-sensors = <&s>; };",
    "r-mmc-pwrseq { % mmc-pwrseq = <&s>; };",
    "r-mux-controls { % mux-controls = <&s>; };",
    "r-io-backends { % io-backends = <&s>; };",
    "r-access-controllers { % access-controllers = <&s>; };",
    "r-assigned-clocks { % assigned-clocks = <&s>; };",
    "r-assigned-clock-parents { % assigned-clock-parents = <&s>; };",
    "r-operating-points-v2 { % operating-points-v2 = <&s>; };",
    "r-phy-handle { % phy-handle = <&s>; };",
    "r-ddc-i2c-bus { % ddc-i2c-bus = <&s>; };",
    "r-power-supplies { % power-supplies = <&s>; };",
    "r-nvmem { % nvmem = <&s>; };",
    "r-pinctrl-1 { % pinctrl-1 = <&s>; };",
    "r-pinctrl-8 { % pinctrl-8 = <&s>; };",
    "r-pinctrl-9 { % pinctrl-9 = <&s>; };",
    "r-power-domains { % power-domains = <&s>; };",
    "r-foo_nr-gpios { % foo,nr-gpios = <&s>; };",
    "r-phy-supply_x { % phy-supply,x = <&s>; };",
    "r-cooling-device { % cooling-device = <&s>; };",
    "r-required-opps { % required-opps = <&s>; };",
    "r-inherit { % interrupts = <1>; };",
    "irqbus { compatible = \"simple-bus\"; interrupt-parent = <&s>; r-inherited-irq { % interrupts = <1>; }; r-only-inherits { % }; };",
    "r-disabled { % clocks = <&soff>; };",
    "r-ok { % clocks = <&sok>; };",
    "r-reserved { % clocks = <&sres>; };",
    "r-under-disabled { % clocks = <&under>; };",
    "r-cell { % nvmem-cells = <&cell>; };",
    "r-cell-off { % nvmem-cells = <&coff>; };",
    "r-zero-first { % clocks = <0>, <&s>; };",
    "r-dangling-first { % clocks = <0x7777>, <&s>; };",
    "r-no-cells-first { % clocks = <&bare>, <&s>; };",
    "r-no-cells-alone { % clocks = <&bare>; };",
    "r-short { % clocks = <&s1>; };",
    "r-short-second { % clocks = <&s>, <&s1>; };",
    "r-not-4 { % clocks = [00 00 01]; };",
    "r-empty { % clocks; };",
    "r-child-prop { % kid { clocks = <&s>; }; };",
    "r-child-compat { % kid { compatible = \"n\"; clocks = <&s>; }; };",
    "r-own-child { % clocks = <&own>; own: own { @ }; };",
    "r-hog { % gpio-controller; #gpio-cells = <0>; hog { gpio-hog; gpios = <&s>; }; };",
    "r-self-hog { % gpio-hog; gpios = <&s>; };",
    "r-ep-one { % port { e1: endpoint { remote-endpoint = <&eone>; }; }; };",
    "sone: sup-ep-one { @ port { eone: endpoint { }; }; };",
    "r-ep-ports { % ports { port { endpoint { remote-endpoint = <&etwo>; }; }; }; };",
    "stwo: sup-ep-ports { @ ports { port { etwo: endpoint { }; }; }; };",
    "r-ep-mutual { % port { em1: endpoint { remote-endpoint = <&em2>; }; }; };",
    "sm: sup-ep-mutual { @ port { em2: endpoint { remote-endpoint = <&em1>; }; }; };",
    "r-ep-mutual-clock { % clocks = <&smc>; port { emc1: endpoint { remote-endpoint = <&emc2>; }; }; };",
    "smc: sup-ep-mutual-clock { @ port { emc2: endpoint { remote-endpoint = <&emc1>; }; }; };",
    "r-ep-back-clock { % clocks = <&sbc>; port { ebc1: endpoint { }; }; };",
    "sbc: sup-ep-back-clock { @ port { endpoint { remote-endpoint = <&ebc1>; }; }; };",
    "rc2: r-cycle2 { % clocks = <&c2>; };",
    "c2: sup-cycle2 { @ foo-supply = <&rc2>; };",
    "rc3: r-cycle3 { % clocks = <&c3>; };",
    "c3: sup-cycle3 { @ clocks = <&c3b>; };",
    "c3b: sup-cycle3b { @ foo-supply = <&rc3>; };",
    "r-of-cycle { % clocks = <&c2>; };",
    "pbus: parentbus { compatible = \"simple-bus\"; clocks = <&rpc>; pk: pkid { @ }; };",
    "rpc: r-parent-cycle { % clocks = <&pk>; };",
    "dbus: devbus { compatible = \"n\"; clocks = <&rdc>; dk: dkid { @ }; };",
    "rdc: r-parent-cycle-dev { % clocks = <&dk>; };",
    "nobus { r-under-no-compatible { % }; };",
    "sb { compatible = \"simple-bus\"; r-under-simple-bus { % }; };",
    "sm { compatible = \"simple-mfd\"; r-under-simple-mfd { % }; };",
    "sys { compatible = \"syscon\"; r-under-syscon { % }; };",
    "nb { compatible = \"n\"; r-under-unmatched { % }; };",
    "sy { compatible = \"n\", \"simple-bus\"; r-under-simple-bus-second { % }; };",
    "spm { compatible = \"simple-pm-bus\"; r-under-simple-pm-bus { % }; };",
    "earlykid { compatible = \"fixed-clock\"; #clock-cells = <0>; clock-frequency = <1000>; r-under-early { % }; };",
    "ek2: earlyclk { compatible = \"fixed-clock\"; #clock-cells = <0>; clock-frequency = <1000>; ekk: kid-of-early { @ }; };",
    "r-early { % clocks = <&ek2>; };",
    "r-kid-of-early { % phys = <&ekk>; };",
    "nx: nexus { compatible = \"n\"; #interrupt-cells = <1>; #address-cells = <0>; interrupt-map-mask = <0xff>; interrupt-map = <1 &s 4>, <2 &soff 5>; };",
    "r-nexus { % interrupts-extended = <&nx 1>; };",
    "r-nexus-to-disabled { % interrupts-extended = <&nx 2>; };",
    "r-nexus-no-row { % interrupts-extended = <&nx 3>; };",
    "r-two { % clocks = <&s>, <&sok>; resets = <&host>; };",
    "r-plain { % };",
    "firmware { r-under-firmware { % }; };",
    "r-ints-and-ext { % interrupt-parent = <&s>; interrupts = <1>; interrupts-extended = <&host 1>; };",
    "r-supply-two { % foo-supply = <&bare &s>; };",
    "r-panel-two { % panel = <&soff &s>; };",
    "r-status-fail-sup { % phys = <&sf>; };",
    "sf: supplier-fail { @ status = \"fail\"; };",
    "r-fwd { % clocks = <&slast>; };",
    "slast: supplier-last { @ };",
];

/// The consumers that the kernel bound before the timeout.
const BOUND: &str =
    "r-dmas r-msi-parent r-sound-dai r-memory-region r-thermal-sensors r-mmc-pwrseq r-mux-controls r-io-backends r-access-controllers r-assigned-clocks r-operating-points-v2 r-phy-handle r-ddc-i2c-bus r-power-supplies r-nvmem r-pinctrl-9 r-foo_nr-gpios r-phy-supply_x r-cooling-device r-required-opps r-inherit r-only-inherits r-disabled r-reserved r-under-disabled r-cell-off r-zero-first r-dangling-first r-no-cells-first r-no-cells-alone r-short r-not-4 r-empty r-child-prop r-child-compat r-own-child r-hog r-ep-mutual r-ep-mutual-clock r-ep-back-clock r-cycle2 r-cycle3 r-parent-cycle r-parent-cycle-dev r-under-simple-bus r-under-simple-mfd r-under-simple-bus-second r-under-simple-pm-bus r-early r-kid-of-early r-nexus-to-disabled r-nexus-no-row r-plain r-under-firmware r-status-fail-sup";

/// Those that it bound behind the timeout.
const BEHIND: &str =
    "r-clocks r-interconnects r-iommus r-mboxes r-io-channels r-interrupt-parent r-hwlocks r-extcon r-nvmem-cells r-phys r-wakeup-parent r-pwms r-resets r-leds r-backlight r-panel r-foo-gpio r-foo-gpios r-foo-supply r-interrupts-extended r-pinctrl-1 r-pinctrl-8 r-inherited-irq r-ok r-short-second r-ep-one r-ep-ports r-of-cycle r-nexus r-two r-ints-and-ext r-supply-two r-panel-two r-fwd";

/// Those that it never bound: of two it makes no device.
const OTHERS: &str =
    "r-gpios r-gpio r-assigned-clock-parents r-power-domains r-cell r-self-hog r-under-no-compatible r-under-syscon r-under-unmatched r-under-early";

fn push(rt: &impl Abort, text: &mut String, part: &str) {
    text.push_str(part).expect(rt, "memory");
}

// A node's line, with what `@` and `%` stand for.
fn push_node(rt: &impl Abort, text: &mut String, line: &str) {
    for letter in line.chars() {
        match letter {
            '@' => push(rt, text, SUPPLIER),
            '%' => push(rt, text, CONSUMER),
            other => text.push(other).expect(rt, "memory"),
        }
    }
}

fn source(rt: &impl Abort, alloc: Global) -> String {
    let mut text = String::new(alloc);
    for line in NODES {
        push_node(rt, &mut text, line);
    }
    text
}

fn are_bound(bound: &[bool], devices: &[Device]) -> bool {
    for device in devices {
        match bound.get(device.index()) {
            Some(true) => {}
            _ => return false,
        }
    }
    true
}

fn is_free(plan: &Plan, bound: &[bool], place: usize) -> bool {
    if place >= plan.len() {
        return false;
    }
    let device = Device::new(place);
    plan.available(device)
        && plan.driver(device).is_some()
        && are_bound(bound, plan.suppliers(device))
}

// Binds each device whose suppliers are bound.
fn go_round(rt: &impl Abort, alloc: Global, plan: &Plan, bound: &[bool]) -> Vec<bool> {
    let mut next = Vec::new(alloc);
    for place in 0..plan.len() {
        next.push(is_free(plan, bound, place)).expect(rt, "memory");
    }
    next
}

// Which devices are bound at the end: no chain of suppliers of the tree is longer than eight.
fn end(rt: &impl Abort, alloc: Global, plan: &Plan) -> Vec<bool> {
    let mut bound = Vec::new(alloc);
    for _ in 0..8 {
        bound = go_round(rt, alloc, plan, bound.as_slice());
    }
    bound
}

// The place of the device of the node with this name.
fn device_of(rt: &impl Abort, alloc: Global, plan: &Plan, name: &str) -> usize {
    let end = format!(in alloc; "/{name}").expect(rt, "memory");
    for place in 0..plan.len() {
        let path = plan.path(Device::new(place)).as_bytes();
        if path.ends_with(end.as_bytes()) {
            return place;
        }
    }
    plan.len()
}

fn is_as_told(rt: &impl Abort, alloc: Global, plan: &Plan, bound: &[bool], name: &str, told: bool) {
    let found = bound.get(device_of(rt, alloc, plan, name)).copied();
    assert_eq!(rt; found, Some(told), "{name}");
}

fn are_as_told(
    rt: &impl Abort,
    alloc: Global,
    plan: &Plan,
    bound: &[bool],
    names: &str,
    told: bool,
) {
    for name in names.split(" ") {
        is_as_told(rt, alloc, plan, bound, name, told);
    }
}

#[test]
fn consumers_of_each_rule(rt: HostRuntime) {
    let alloc = rt.alloc();
    let hasher = RandomState::new(&rt).expect(&rt, "a seed");
    let tree = tree_of(&rt, alloc, hasher, source(&rt, alloc).as_str());
    let drivers = read_link_drivers(alloc, hasher, DRIVERS).expect(&rt, "drivers");
    let linked = link(alloc, hasher, &tree, &drivers, Strictness::Usual).expect(&rt, "links");
    let before = end(&rt, alloc, linked.plan());
    let after = end(&rt, alloc, linked.late());
    are_as_told(&rt, alloc, linked.plan(), before.as_slice(), BOUND, true);
    are_as_told(&rt, alloc, linked.plan(), before.as_slice(), BEHIND, false);
    are_as_told(&rt, alloc, linked.plan(), before.as_slice(), OTHERS, false);
    are_as_told(&rt, alloc, linked.late(), after.as_slice(), BOUND, true);
    are_as_told(&rt, alloc, linked.late(), after.as_slice(), BEHIND, true);
    are_as_told(&rt, alloc, linked.late(), after.as_slice(), OTHERS, false);
}
