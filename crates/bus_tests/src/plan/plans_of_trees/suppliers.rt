//! Suppliers, and the faults of references.
use super::{ROOT, Row, Worked};

const CLOCK: Row = (
    1,
    "clk",
    &[
        ("compatible", b"c\0"),
        ("#clock-cells", b"\0\0\0\x01"),
        ("phandle", b"\0\0\0\x01"),
    ],
);

pub const SUPPLIERS: [Worked; 22] = [
    (
        "dangling-phandle",
        &[
            ROOT,
            CLOCK,
            (
                1,
                "uart",
                &[("compatible", b"ns16550a\0"), ("clocks", b"\0\0\0\x07")],
            ),
        ],
        "driver ns ns16550a\n",
        "error 54 DanglingPhandle",
    ),
    (
        "clock-cells",
        &[
            ROOT,
            CLOCK,
            (
                1,
                "u",
                &[
                    ("compatible", b"u\0"),
                    (
                        "clocks",
                        b"\0\0\0\x01\0\0\0\x05\0\0\0\0\0\0\0\x01\0\0\0\x06",
                    ),
                ],
            ),
        ],
        "driver x c\ndriver y u\n",
        "/clk x ok\n/u y ok /clk\n",
    ),
    (
        "clock-cells: fewer cells left",
        &[
            ROOT,
            CLOCK,
            (1, "u", &[("compatible", b"u\0"), ("clocks", b"\0\0\0\x01")]),
        ],
        "driver x c\ndriver y u\n",
        "error 55 BadSpecifier",
    ),
    (
        "no count of cells",
        &[
            ROOT,
            (
                1,
                "clk",
                &[("compatible", b"c\0"), ("phandle", b"\0\0\0\x01")],
            ),
            (1, "u", &[("compatible", b"u\0"), ("clocks", b"\0\0\0\x01")]),
        ],
        "",
        "error 55 BadSpecifier",
    ),
    (
        "a count of cells of eight bytes",
        &[
            ROOT,
            (
                1,
                "clk",
                &[
                    ("compatible", b"c\0"),
                    ("#clock-cells", b"\0\0\0\0\0\0\0\0"),
                    ("phandle", b"\0\0\0\x01"),
                ],
            ),
            (1, "u", &[("compatible", b"u\0"), ("clocks", b"\0\0\0\x01")]),
        ],
        "",
        "error 55 BadSpecifier",
    ),
    (
        "the length is tested before the entries",
        &[
            ROOT,
            (
                1,
                "u",
                &[("compatible", b"u\0"), ("clocks", b"\0\0\0\x07\0")],
            ),
        ],
        "",
        "error 55 BadSpecifier",
    ),
    (
        "one phandle is wanted",
        &[
            ROOT,
            (
                1,
                "u",
                &[
                    ("compatible", b"u\0"),
                    ("interrupt-parent", b"\0\0\0\x07\0\0\0\x07"),
                ],
            ),
        ],
        "",
        "error 55 BadSpecifier",
    ),
    (
        "faults in the order of devices, properties and entries",
        &[
            ROOT,
            (
                1,
                "a",
                &[
                    ("compatible", b"u\0"),
                    ("pinctrl-0", b"\0\0\0\x08\0\0\0\x09"),
                    ("clocks", b"\0"),
                ],
            ),
            (1, "b", &[("compatible", b"u\0"), ("clocks", b"\0")]),
        ],
        "",
        "error 54 DanglingPhandle",
    ),
    (
        "supplier-above",
        &[
            ROOT,
            (1, "pmic", &[("compatible", b"p\0")]),
            (2, "regs", &[]),
            (3, "ldo", &[("phandle", b"\0\0\0\x01")]),
            (
                1,
                "u",
                &[("compatible", b"u\0"), ("vdd-supply", b"\0\0\0\x01")],
            ),
        ],
        "",
        "/pmic - -\n/u - - /pmic\ncompatible /pmic p\ncompatible /u u\n",
    ),
    (
        "supplier-above: of itself",
        &[
            ROOT,
            (
                1,
                "pmic",
                &[("compatible", b"p\0"), ("vdd-supply", b"\0\0\0\x01")],
            ),
            (2, "regs", &[]),
            (3, "ldo", &[("phandle", b"\0\0\0\x01")]),
        ],
        "",
        "/pmic - -\ncompatible /pmic p\n",
    ),
    (
        "interrupts-extended with two parents",
        &[
            ROOT,
            (
                1,
                "gic",
                &[
                    ("compatible", b"g\0"),
                    ("#interrupt-cells", b"\0\0\0\x03"),
                    ("phandle", b"\0\0\0\x01"),
                ],
            ),
            (
                1,
                "gpio",
                &[
                    ("compatible", b"h\0"),
                    ("#interrupt-cells", b"\0\0\0\x02"),
                    ("phandle", b"\0\0\0\x02"),
                ],
            ),
            (
                1,
                "u",
                &[
                    ("compatible", b"u\0"),
                    (
                        "interrupts-extended",
                        b"\0\0\0\x02\0\0\0\x05\0\0\0\x01\0\0\0\x01\0\0\0\0\0\0\0\x02\0\0\0\x04",
                    ),
                ],
            ),
        ],
        "",
        "/gic - -\n/gpio - -\n/u - - /gpio /gic\ncompatible /gic g\ncompatible /gpio h\ncompatible /u u\n",
    ),
    (
        "-gpios with an empty entry",
        &[
            ROOT,
            (
                1,
                "gpio",
                &[
                    ("compatible", b"g\0"),
                    ("#gpio-cells", b"\0\0\0\x02"),
                    ("phandle", b"\0\0\0\x01"),
                ],
            ),
            (
                1,
                "mux",
                &[
                    ("compatible", b"h\0"),
                    ("#gpio-cells", b"\0\0\0\x01"),
                    ("phandle", b"\0\0\0\x02"),
                ],
            ),
            (
                1,
                "u",
                &[
                    ("compatible", b"u\0"),
                    (
                        "cs-gpios",
                        b"\0\0\0\x01\0\0\0\x03\0\0\0\0\0\0\0\0\0\0\0\x02\0\0\0\x07\0\0\0\0",
                    ),
                ],
            ),
        ],
        "",
        "/gpio - -\n/mux - -\n/u - - /gpio /mux\ncompatible /gpio g\ncompatible /mux h\ncompatible /u u\n",
    ),
    (
        "nr-gpios is a count",
        &[
            ROOT,
            (
                1,
                "u",
                &[
                    ("compatible", b"u\0"),
                    ("nr-gpios", b"\0\0\0\x07"),
                    ("snps,nr-gpios", b"\0\0\0\x07"),
                ],
            ),
            (1, "v", &[("compatible", b"u\0"), ("gpios", b"\0\0\0\x07")]),
        ],
        "",
        "/u - -\n/v - -\ncompatible /u u\ncompatible /v u\n",
    ),
    (
        "reset-gpio is a reference",
        &[
            ROOT,
            (
                1,
                "u",
                &[("compatible", b"u\0"), ("reset-gpio", b"\0\0\0\x07")],
            ),
        ],
        "",
        "error 54 DanglingPhandle",
    ),
    (
        "pinctrl-0 of two phandles",
        &[
            ROOT,
            (1, "pins", &[("compatible", b"p\0")]),
            (2, "tx", &[("phandle", b"\0\0\0\x01")]),
            (1, "pads", &[("compatible", b"q\0")]),
            (2, "rx", &[("phandle", b"\0\0\0\x02")]),
            (
                1,
                "u",
                &[
                    ("compatible", b"u\0"),
                    ("pinctrl-0", b"\0\0\0\x02\0\0\0\x01"),
                ],
            ),
        ],
        "",
        "/pins - -\n/pads - -\n/u - - /pads /pins\ncompatible /pins p\ncompatible /pads q\ncompatible /u u\n",
    ),
    (
        "a supplier that is disabled, of a device that is",
        &[
            ROOT,
            (
                1,
                "clk",
                &[
                    ("compatible", b"c\0"),
                    ("#clock-cells", b"\0\0\0\0"),
                    ("phandle", b"\0\0\0\x01"),
                    ("status", b"disabled\0"),
                ],
            ),
            (1, "u", &[("compatible", b"u\0"), ("clocks", b"\0\0\0\x01")]),
            (
                1,
                "v",
                &[
                    ("compatible", b"u\0"),
                    ("clocks", b"\0\0\0\x01"),
                    ("status", b"fail\0"),
                ],
            ),
        ],
        "driver x c\ndriver y u\n",
        "/clk ! -\n/u y ok /clk\n/v ! - /clk\n",
    ),
    (
        "a phandle of a node that is no device, with none above",
        &[
            ROOT,
            (1, "clocks", &[]),
            (
                2,
                "osc",
                &[("#clock-cells", b"\0\0\0\0"), ("phandle", b"\0\0\0\x01")],
            ),
            (1, "u", &[("compatible", b"u\0"), ("clocks", b"\0\0\0\x01")]),
        ],
        "driver y u\n",
        "/u y ok\n",
    ),
    (
        "each once, in order of first mention",
        &[
            ROOT,
            (
                1,
                "a",
                &[
                    ("compatible", b"c\0"),
                    ("#clock-cells", b"\0\0\0\0"),
                    ("phandle", b"\0\0\0\x01"),
                ],
            ),
            (
                1,
                "b",
                &[
                    ("compatible", b"c\0"),
                    ("#clock-cells", b"\0\0\0\0"),
                    ("phandle", b"\0\0\0\x02"),
                ],
            ),
            (
                1,
                "u",
                &[
                    ("vdd-supply", b"\0\0\0\x02"),
                    ("compatible", b"u\0"),
                    ("clocks", b"\0\0\0\x01\0\0\0\x02\0\0\0\x01"),
                ],
            ),
        ],
        "",
        "/a - -\n/b - -\n/u - - /b /a\ncompatible /a c\ncompatible /b c\ncompatible /u u\n",
    ),
    (
        "the first node in preorder that has a phandle",
        &[
            ROOT,
            (
                1,
                "a",
                &[("compatible", b"c\0"), ("phandle", b"\0\0\0\x01")],
            ),
            (2, "x", &[("phandle", b"\0\0\0\x02")]),
            (
                1,
                "b",
                &[("compatible", b"c\0"), ("phandle", b"\0\0\0\x02")],
            ),
            (
                1,
                "u",
                &[("compatible", b"u\0"), ("vdd-supply", b"\0\0\0\x02")],
            ),
        ],
        "",
        "/a - -\n/b - -\n/u - - /a\ncompatible /a c\ncompatible /b c\ncompatible /u u\n",
    ),
    (
        "a supplier behind its consumer, and a cycle",
        &[
            ROOT,
            (
                1,
                "a",
                &[
                    ("compatible", b"c\0"),
                    ("phandle", b"\0\0\0\x01"),
                    ("vdd-supply", b"\0\0\0\x02"),
                ],
            ),
            (
                1,
                "b",
                &[
                    ("compatible", b"c\0"),
                    ("phandle", b"\0\0\0\x02"),
                    ("vdd-supply", b"\0\0\0\x01"),
                ],
            ),
        ],
        "driver x c\n",
        "/a x ok /b\n/b x ok /a\n",
    ),
    (
        "properties of a child node say nothing of the device above",
        &[
            ROOT,
            (
                1,
                "gpio",
                &[
                    ("compatible", b"g\0"),
                    ("#gpio-cells", b"\0\0\0\x02"),
                    ("phandle", b"\0\0\0\x01"),
                ],
            ),
            (1, "leds", &[("compatible", b"gpio-leds\0")]),
            (
                2,
                "red",
                &[
                    ("gpios", b"\0\0\0\x01\0\0\0\x03\0\0\0\0"),
                    ("led-gpios", b"\0\0\0\x01\0\0\0\x03\0\0\0\0"),
                ],
            ),
        ],
        "",
        "/gpio - -\n/leds - -\ncompatible /gpio g\ncompatible /leds gpio-leds\n",
    ),
    (
        "a phandle that is none",
        &[
            ROOT,
            (
                1,
                "a",
                &[("compatible", b"c\0"), ("phandle", b"\xff\xff\xff\xff")],
            ),
            (
                1,
                "u",
                &[("compatible", b"u\0"), ("vdd-supply", b"\xff\xff\xff\xff")],
            ),
        ],
        "",
        "error 54 DanglingPhandle",
    ),
];
