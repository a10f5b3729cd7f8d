//! `why`, `needs`, `drivers`, `trace` and `probe --without` over files in memory.

use super::clock_and_uart::{BLOB, DANGLING, DISABLED};
use crate::runs::{Files, Row, rows_end};

pub const FILES: Files = &[
    ("board.dtb", BLOB),
    ("dangling.dtb", DANGLING),
    ("disabled.dtb", DISABLED),
    (
        "board.drivers",
        b"driver fixed fixed-clock\ndriver ns ns16550a\n",
    ),
    ("uart.drivers", b"driver ns ns16550a\n"),
    ("no.drivers", b""),
    ("stuck.drivers", b"driver ns ns16550a\nfail /uart\n"),
    (
        "failing.drivers",
        b"driver fixed fixed-clock\ndriver ns ns16550a\nfail /clk\n",
    ),
    ("early.drivers", b"early fixed-clock\ndriver ns ns16550a\n"),
    ("board.plan", b"/clk fixed ok\n/uart ns ok /clk\n"),
    (
        "modules.alias",
        b"alias of:N*T*Cns16550aC* ns\nalias of:N*T*Cns16550a ns\nalias of:N*T*Ca,*b x\n",
    ),
    (
        "modules.builtin.modinfo",
        b"fixed.alias=of:N*T*Cfixed-clock\0",
    ),
    ("Image", b"MZ"),
    ("vmlinuz.xz", b"\xfd7zXZ\0"),
    ("vmlinuz.gz", b"\x1f\x8b\x08\0\0"),
    (
        "headed.drivers",
        b"# drivers that are built into the kernel weren't looked at\ndriver ns ns16550a\n",
    ),
    (
        "boot.log",
        b"really_probe: probing driver fixed with device clk\nreally_probe: bound device clk to driver fixed\nreally_probe: probing driver a with device b\n",
    ),
];

const REASONS: &[Row] = &[
    (&["dtman", "why", "board.dtb", "board.drivers"], 0, "", ""),
    (
        &["dtman", "why", "board.dtb", "board.drivers", "--check"],
        0,
        "",
        "",
    ),
    (
        &["dtman", "why", "board.dtb", "uart.drivers"],
        0,
        "/uart waits for /clk: no driver matches \"fixed-clock\"\n",
        "",
    ),
    (
        &["dtman", "why", "board.dtb", "failing.drivers", "--check"],
        1,
        "/uart waits for /clk: its driver fixed failed\n",
        "",
    ),
    (
        &["dtman", "why", "board.dtb", "board.drivers", "/uart"],
        0,
        "/uart: bound by ns\n",
        "",
    ),
    (
        &["dtman", "why", "board.dtb", "headed.drivers"],
        0,
        "/uart waits for /clk: no driver matches \"fixed-clock\" (built-in drivers weren't looked at)\n",
        "",
    ),
    (
        &["dtman", "why", "board.dtb", "uart.drivers", "/clk"],
        0,
        "/clk: no driver matches \"fixed-clock\"\n",
        "",
    ),
    (
        &["dtman", "why", "board.dtb", "uart.drivers", "/nix"],
        1,
        "",
        "error 53 UnknownPath\n",
    ),
];

#[test]
fn answers_why(rt: HostRuntime) {
    rows_end(&rt, FILES, REASONS);
}

#[test]
fn answers_needs(rt: HostRuntime) {
    const ROWS: &[Row] = &[
        (
            &["dtman", "needs", "board.dtb", "board.drivers", "/uart"],
            0,
            "/clk fixed\n/uart ns\ndrivers fixed ns\n",
            "",
        ),
        (
            &["dtman", "needs", "board.dtb", "uart.drivers", "/uart"],
            0,
            "/clk -\n/uart ns\ndrivers ns\n",
            "",
        ),
        (
            &["dtman", "needs", "board.dtb", "board.drivers", "/nix"],
            1,
            "",
            "error 53 UnknownPath\n",
        ),
    ];
    rows_end(&rt, FILES, ROWS);
}

#[test]
fn probes_without_a_driver(rt: HostRuntime) {
    const ROWS: &[Row] = &[
        (
            &[
                "dtman",
                "probe",
                "board.dtb",
                "board.drivers",
                "--without",
                "fixed",
            ],
            0,
            "/clk unmatched\n/uart waiting /clk\nquiet\n",
            "",
        ),
        (
            &[
                "dtman",
                "probe",
                "board.dtb",
                "board.drivers",
                "--without",
                "nix",
            ],
            2,
            "",
            "error: the driver file has no driver nix\n",
        ),
    ];
    rows_end(&rt, FILES, ROWS);
}

const DRIVERS_AND_SCHEDULES: &[Row] = &[
    (
        &[
            "dtman",
            "drivers",
            "modules.alias",
            "modules.builtin.modinfo",
        ],
        0,
        "# drivers that are built into the kernel weren't looked at\ndriver ns ns16550a\ndriver fixed fixed-clock\n",
        "warning: modules.alias: line 3: left out: of:N*T*Ca,*b\n",
    ),
    (
        &["dtman", "drivers", "modules.alias", "--kernel", "Image"],
        0,
        "driver ns ns16550a\n",
        "warning: modules.alias: line 3: left out: of:N*T*Ca,*b\n",
    ),
    (
        &[
            "dtman",
            "drivers",
            "modules.alias",
            "--kernel",
            "vmlinuz.xz",
        ],
        3,
        "",
        "error: vmlinuz.xz: xz isn't unpacked here; `xz -dc vmlinuz.xz` does\n",
    ),
    (
        &[
            "dtman",
            "drivers",
            "modules.alias",
            "--kernel",
            "vmlinuz.gz",
        ],
        3,
        "",
        "error: vmlinuz.gz: the gzip file is cut off\n",
    ),
    (
        &["dtman", "trace", "boot.log", "board.plan"],
        0,
        "begin /clk\nfinish /clk settled\n",
        "warning: line 3: no device of the plan is b\n",
    ),
    (
        &["dtman", "trace", "boot.log", "boot.log"],
        1,
        "",
        "error 50 BadLine line 1\n",
    ),
];

#[test]
fn makes_drivers_and_schedules(rt: HostRuntime) {
    rows_end(&rt, FILES, DRIVERS_AND_SCHEDULES);
}
