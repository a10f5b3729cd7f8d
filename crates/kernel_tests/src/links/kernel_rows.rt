//! Rows of what a Linux 6.1 kernel did in a boot with one consumer for each rule: endpoints, cycles, waits of the driver core.

use crate::links::links::Row;
use bus_links::Strictness;

/// By endpoints, and what else lies in cycles.
pub const ENDS_AND_CYCLES: [Row; 12] = [
    Row {
        name: "endpoints",
        source: "a { compatible = \"c\"; port { e: endpoint { remote-endpoint = <&f>; }; }; }; b { compatible = \"c\"; port { f: endpoint { remote-endpoint = <&e>; }; }; };",
        drivers: "driver x c\n",
        strictness: Strictness::Usual,
        wanted: "# cycle: /a /b\n/a x ok\n/b x ok\n",
    },
    Row {
        name: "own-endpoint",
        source: "a { compatible = \"c\"; remote-endpoint = <&e>; }; b { compatible = \"c\"; port { e: endpoint { }; }; };",
        drivers: "driver x c\n",
        strictness: Strictness::Usual,
        wanted: "/a x ok\n/b x ok\n",
    },
    Row {
        name: "endpoint",
        source: "a { compatible = \"c\"; port { endpoint { remote-endpoint = <&f>; }; }; }; b { compatible = \"c\"; port { f: endpoint { }; }; };",
        drivers: "driver x c\n",
        strictness: Strictness::Usual,
        wanted: "/a x ok /b\n/b x ok\n",
    },
    Row {
        name: "endpoint-of-ports",
        source: "a { compatible = \"c\"; ports { port { endpoint { remote-endpoint = <&f>; }; }; }; }; b { compatible = \"c\"; ports { port { f: endpoint { }; }; }; };",
        drivers: "driver x c\n",
        strictness: Strictness::Usual,
        wanted: "/a x ok /b\n/b x ok\n",
    },
    Row {
        name: "endpoint-of-the-device-above",
        source: "p { compatible = \"c\"; a { compatible = \"c\"; remote-endpoint = <&f>; }; }; b { compatible = \"c\"; port { f: endpoint { }; }; };",
        drivers: "driver x c\n",
        strictness: Strictness::Usual,
        wanted: "/p x ok /b\n/p/a x ok /p\n/b x ok\n",
    },
    Row {
        name: "endpoint-that-is-disabled",
        source: "a { compatible = \"c\"; port { status = \"disabled\"; endpoint { remote-endpoint = <&f>; }; }; }; b { compatible = \"c\"; port { f: endpoint { }; }; };",
        drivers: "driver x c\n",
        strictness: Strictness::Usual,
        wanted: "/a x ok\n/b x ok\n",
    },
    Row {
        name: "other-end-that-is-disabled",
        source: "a { compatible = \"c\"; port { endpoint { remote-endpoint = <&f>; }; }; }; b { compatible = \"c\"; port { f: endpoint { status = \"disabled\"; }; }; };",
        drivers: "driver x c\n",
        strictness: Strictness::Usual,
        wanted: "/a x ok /b\n/b x ok\n",
    },
    Row {
        name: "endpoint-that-leads-nowhere",
        source: "a { compatible = \"c\"; port { endpoint { remote-endpoint = <77>; }; }; };",
        drivers: "driver x c\n",
        strictness: Strictness::Usual,
        wanted: "/a x ok\nwarning: /a: remote-endpoint: entry 0 is malformed or leads nowhere\n",
    },
    Row {
        name: "endpoint-and-a-clock-back",
        source: "a { compatible = \"c\"; clocks = <&b>; port { e: endpoint { }; }; }; b: b { compatible = \"n\"; #clock-cells = <0>; port { endpoint { remote-endpoint = <&e>; }; }; };",
        drivers: "driver x c\n",
        strictness: Strictness::Usual,
        wanted: "# cycle: /a /b\n/a x ok\n/b - -\ncompatible /b n\n",
    },
    Row {
        name: "clock-parents",
        source: "k: k { compatible = \"c\"; #clock-cells = <0>; }; u { compatible = \"c\"; assigned-clocks = <&k>, <&k>; assigned-clock-parents = <0>, <&k>; };",
        drivers: "driver x c\n",
        strictness: Strictness::Usual,
        wanted: "/k x ok\n/u x ok /k\n",
    },
    Row {
        name: "cycle-through-a-simple-bus",
        source: "p { compatible = \"simple-bus\"; clocks = <&u>; k: k { compatible = \"n\"; #clock-cells = <0>; }; }; u: u { compatible = \"c\"; #clock-cells = <0>; clocks = <&k>; };",
        drivers: "driver x c\n",
        strictness: Strictness::Usual,
        wanted: "# cycle: /p /p/k /u\n/p - -\n/p/k - -\n/u x ok\ncompatible /p simple-bus\ncompatible /p/k n\n",
    },
    Row {
        name: "cycle-through-a-node-below",
        source: "a: a { compatible = \"c\"; #clock-cells = <0>; clocks = <&k>; k: k { compatible = \"c\"; #clock-cells = <0>; clocks = <&s>; }; }; s: s { compatible = \"c\"; #clock-cells = <0>; clocks = <&a>; };",
        drivers: "driver x c\n",
        strictness: Strictness::Usual,
        wanted: "# cycle: /a /a/k /s\n/a x ok\n/a/k x ok /a\n/s x ok\n",
    },
];

/// Where Linux makes no device, and what it reads otherwise on some machines.
pub const DEVICES: [Row; 14] = [
    Row {
        name: "below-a-node",
        source: "n { u { compatible = \"c\"; }; };",
        drivers: "driver x c\n",
        strictness: Strictness::Usual,
        wanted: "/n/u ! -\n",
    },
    Row {
        name: "below-a-bus-and-a-node",
        source: "p { compatible = \"simple-bus\"; n { u { compatible = \"c\"; }; }; };",
        drivers: "driver x c simple-bus\n",
        strictness: Strictness::Usual,
        wanted: "/p x ok\n/p/n/u ! -\n",
    },
    Row {
        name: "below-a-device-and-a-node",
        source: "a { compatible = \"c\"; n { u { compatible = \"c\"; }; }; };",
        drivers: "driver x c\n",
        strictness: Strictness::Usual,
        wanted: "/a x ok\n/a/n/u x ok /a\n",
    },
    Row {
        name: "operating-points",
        source: "o { compatible = \"operating-points-v2\"; }; u { compatible = \"c\"; };",
        drivers: "driver x c operating-points-v2\n",
        strictness: Strictness::Usual,
        wanted: "/o ! -\n/u x ok\n",
    },
    Row {
        name: "firmware",
        source: "firmware { u { compatible = \"c\"; }; n { v { compatible = \"c\"; }; }; };",
        drivers: "driver x c\n",
        strictness: Strictness::Usual,
        wanted: "/firmware/u x ok\n/firmware/n/v ! -\n",
    },
    Row {
        name: "reserved-memory",
        source: "reserved-memory { r { compatible = \"ramoops\"; }; o { compatible = \"c\"; }; };",
        drivers: "driver x c ramoops\n",
        strictness: Strictness::Usual,
        wanted: "/reserved-memory/r x ok\n/reserved-memory/o ! -\n",
    },
    Row {
        name: "framebuffer",
        source: "chosen { f { compatible = \"simple-framebuffer\"; }; }; n { f { compatible = \"simple-framebuffer\"; }; };",
        drivers: "driver x simple-framebuffer\n",
        strictness: Strictness::Usual,
        wanted: "/chosen/f x ok\n/n/f ! -\n",
    },
    Row {
        name: "supplier-below-an-early-device",
        source: "m { compatible = \"e\"; k: k { compatible = \"c\"; #clock-cells = <0>; }; }; u { compatible = \"c\"; clocks = <&k>; };",
        drivers: "driver x c\nearly e\n",
        strictness: Strictness::Usual,
        wanted: "# early /m\n/m - -\n/m/k ! -\n/u x ok\ncompatible /m e\n",
    },
    Row {
        name: "early-device-that-is-a-bus",
        source: "m { compatible = \"e\", \"simple-mfd\"; u { compatible = \"c\"; }; };",
        drivers: "driver x c simple-mfd\nearly e\n",
        strictness: Strictness::Usual,
        wanted: "# early /m\n/m x ok\n/m/u x ok\n",
    },
    Row {
        name: "early-device-below-a-node",
        source: "n { k: k { compatible = \"e\"; #clock-cells = <0>; }; }; u { compatible = \"c\"; clocks = <&k>; };",
        drivers: "driver x c e\nearly e\n",
        strictness: Strictness::Usual,
        wanted: "# early /n/k\n/n/k x ok\n/u x ok\n",
    },
    Row {
        name: "supplier-that-is-no-device",
        source: "n { k: k { compatible = \"c\"; #clock-cells = <0>; }; }; u { compatible = \"c\"; clocks = <&k>; };",
        drivers: "driver x c\n",
        strictness: Strictness::Usual,
        wanted: "/n/k ! -\n/u x ok\n",
    },
    Row {
        name: "powerpc",
        source: "interrupt-parent = <&g>; cpus { PowerPC,e500 { }; }; g: pic { compatible = \"c\"; interrupt-controller; #interrupt-cells = <1>; #address-cells = <0>; }; u { compatible = \"c\"; interrupts = <1>; }; v { compatible = \"c\"; interrupts-extended = <&g 1>; }; n { w { compatible = \"c\"; vdd-supply = <&g>; }; };",
        drivers: "driver x c\n",
        strictness: Strictness::Usual,
        wanted: "/pic x ok\n/u x ok\n/v x ok\n/n/w x ok /pic\n",
    },
    Row {
        name: "interrupt-parent-without-a-cell",
        source: "interrupt-parent = <&g>; g: pic { compatible = \"c\"; interrupt-controller; #interrupt-cells = <1>; #address-cells = <0>; }; u { compatible = \"c\"; interrupt-parent; interrupts = <1>; };",
        drivers: "driver x c\n",
        strictness: Strictness::Usual,
        wanted: "/pic x ok\n/u x ok /pic\n",
    },
    Row {
        name: "endpoint-of-out-ports",
        source: "a { compatible = \"c\"; port { endpoint { remote-endpoint = <&f>; }; }; }; b { compatible = \"c\"; out-ports { port { f: endpoint { }; }; }; };",
        drivers: "driver x c\n",
        strictness: Strictness::Usual,
        wanted: "/a x ok /b\n/b x ok\n",
    },
];
