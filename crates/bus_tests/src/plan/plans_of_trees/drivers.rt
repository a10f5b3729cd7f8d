//! Drivers and verdicts.
use super::{ROOT, Worked};

pub const DRIVERS: [Worked; 12] = [
    (
        "clock-and-uart",
        &[
            ROOT,
            (
                1,
                "clk",
                &[
                    ("compatible", b"fixed-clock\0"),
                    ("#clock-cells", b"\0\0\0\0"),
                    ("phandle", b"\0\0\0\x01"),
                ],
            ),
            (
                1,
                "uart",
                &[("compatible", b"ns16550a\0"), ("clocks", b"\0\0\0\x01")],
            ),
        ],
        "driver fixed fixed-clock\ndriver ns ns16550a\n",
        "/clk fixed ok\n/uart ns ok /clk\n",
    ),
    (
        "compatible-order",
        &[ROOT, (1, "d", &[("compatible", b"v,new\0v,old\0")])],
        "driver gen v,old\ndriver best v,new\n",
        "/d best ok\n",
    ),
    (
        "the first driver of the file that lists a string",
        &[ROOT, (1, "d", &[("compatible", b"v,new\0v,old\0")])],
        "driver first v,old\ndriver second v,old\n",
        "/d first ok\n",
    ),
    (
        "a string ends with a zero byte",
        &[ROOT, (1, "d", &[("compatible", b"x\0d")])],
        "driver x d\n",
        "/d - -\ncompatible /d x\n",
    ),
    ("no device", &[ROOT, (1, "d", &[])], "driver x d\n", ""),
    (
        "the root is no device, nor is a reserved node",
        &[
            (0, "", &[("compatible", b"d\0")]),
            (1, "__symbols__", &[("compatible", b"d\0")]),
            (2, "e", &[("compatible", b"d\0")]),
            (1, "d", &[("compatible", b"d\0")]),
        ],
        "driver x d\n",
        "/d x ok\n",
    ),
    (
        "disabled-above",
        &[
            ROOT,
            (1, "b", &[("status", b"disabled\0")]),
            (2, "d", &[("compatible", b"d\0")]),
        ],
        "driver x d\n",
        "/b/d ! -\n",
    ),
    (
        "disabled-above: a line names no device",
        &[
            ROOT,
            (1, "b", &[("status", b"disabled\0")]),
            (2, "d", &[("compatible", b"d\0")]),
        ],
        "driver x d\nfail /nix\n",
        "error 53 UnknownPath line 2",
    ),
    (
        "a status of okay has its zero byte",
        &[
            (0, "", &[("status", b"ok\0")]),
            (1, "a", &[("compatible", b"d\0"), ("status", b"okay\0")]),
            (1, "b", &[("compatible", b"d\0"), ("status", b"okay")]),
        ],
        "driver x d\n",
        "/a x ok\n/b ! -\n",
    ),
    (
        "a driver fails, and a device without one can't",
        &[
            ROOT,
            (1, "a", &[("compatible", b"d\0")]),
            (1, "b", &[("compatible", b"e\0")]),
        ],
        "driver x d\nfail /b\nfail /a\nfail /a\n",
        "/a x fail\n/b - -\ncompatible /b e\n",
    ),
    (
        "the strings of a device without a driver that one may list",
        &[
            ROOT,
            (
                1,
                "a",
                &[("compatible", b"v,new\0\0v old\0v,\x7f\0v,new\0v,old")],
            ),
            (1, "b", &[("compatible", b"\0 \0")]),
            (2, "c", &[("compatible", b"v,new\0"), ("status", b"fail\0")]),
            (1, "d", &[("compatible", b"v,new\0d\0")]),
        ],
        "driver x d\n",
        "/a - -\n/b - -\n/b/c ! -\n/d x ok\ncompatible /a v,new v,new\n",
    ),
    (
        "lines before references",
        &[
            ROOT,
            (1, "u", &[("compatible", b"u\0"), ("clocks", b"\0\0\0\x07")]),
        ],
        "fail /u\nfail /nix\nfail /nor\n",
        "error 53 UnknownPath line 2",
    ),
];
