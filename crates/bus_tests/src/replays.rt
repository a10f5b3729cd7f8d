//! Replays of schedules over plans: what is told of each, by the calls of the core and by the engine.

/// The plan of most rows: a device and its supplier.
pub const CLOCK_AND_UART: &str = "/clk fixed ok\n/uart ns ok /clk\n";

/// A row's name, its plan, its schedule, and the report or the line of the refusal.
pub const REPLAYS: &[(&str, &str, &str, &str)] = &[
    ("empty-plan", "", "", "quiet\n"),
    (
        "missing-then-due",
        CLOCK_AND_UART,
        "begin /uart\nbegin /clk\nfinish /clk settled\nfinish /uart missing /clk\n",
        "/clk bound fixed\n/uart due\nbusy\n",
    ),
    (
        "missing-of-a-bound",
        CLOCK_AND_UART,
        "begin /clk\nfinish /clk settled\nbegin /uart\nfinish /uart missing /clk\n",
        "error 64 WasBound event 4",
    ),
    (
        "refused-events",
        CLOCK_AND_UART,
        "finish /clk settled\n",
        "error 66 NotInFlight event 1",
    ),
    (
        "refused-events",
        CLOCK_AND_UART,
        "begin /uart\nfinish /uart settled\n",
        "error 63 NotReady event 2",
    ),
    (
        "refused-events",
        CLOCK_AND_UART,
        "begin /nix\n",
        "error 53 UnknownPath line 1",
    ),
    (
        "defer-then-due",
        CLOCK_AND_UART,
        "begin /uart\nfinish /uart missing /clk\n",
        "/clk due\n/uart waiting /clk\nbusy\n",
    ),
    (
        "defer-then-due",
        CLOCK_AND_UART,
        "begin /uart\nfinish /uart missing /clk\nbegin /clk\nfinish /clk settled\n",
        "/clk bound fixed\n/uart due\nbusy\n",
    ),
    (
        "abandon-counts",
        CLOCK_AND_UART,
        "begin /uart\nabandon /uart\n",
        "/clk due\n/uart waiting /clk\nbusy\n",
    ),
    (
        "cycle-by-schedule",
        "/a x ok /b\n/b y ok /a\n",
        "begin /a\nfinish /a missing /b\nbegin /b\nfinish /b missing /a\n",
        "/a waiting /b\n/b waiting /a\nquiet\n",
    ),
    (
        "failed-supplier",
        "/s x fail\n/d y ok /s\n",
        "begin /s\nfinish /s settled\nbegin /d\nfinish /d missing /s\n",
        "/s failed x\n/d waiting /s\nquiet\n",
    ),
    (
        "diamond",
        "/a x ok\n/b x ok /a\n/c x ok /a\n/d x ok /b /c\n",
        "begin /d\nfinish /d missing /b\nbegin /a\nfinish /a settled\nbegin /b\nfinish /b settled\n",
        "/a bound x\n/b bound x\n/c due\n/d waiting /c\nbusy\n",
    ),
    (
        "in flight",
        CLOCK_AND_UART,
        "begin /clk\nbegin /clk\n",
        "error 60 NotIdle event 2",
    ),
    (
        "probing",
        CLOCK_AND_UART,
        "begin /clk\n",
        "/clk probing\n/uart due\nbusy\n",
    ),
    (
        "unmatched",
        "/a - -\n/b ! -\n",
        "",
        "/a unmatched\n/b disabled\nquiet\n",
    ),
    (
        "unmatched",
        "/a - -\n/b ! -\n",
        "begin /b\n",
        "error 61 Unmatched event 1",
    ),
    (
        "skipped lines",
        CLOCK_AND_UART,
        "# none\n\n \tabandon\t/uart \r\n",
        "error 66 NotInFlight event 1",
    ),
    (
        "no path",
        CLOCK_AND_UART,
        "\nbegin nix\n",
        "error 50 BadLine line 2",
    ),
    (
        "the root",
        CLOCK_AND_UART,
        "begin /\n",
        "error 53 UnknownPath line 1",
    ),
    (
        "two forms",
        CLOCK_AND_UART,
        "finish /nix missing clk\n",
        "error 50 BadLine line 1",
    ),
    (
        "carriage return",
        CLOCK_AND_UART,
        "begin /clk\r",
        "error 50 BadLine line 1",
    ),
    (
        "other words",
        CLOCK_AND_UART,
        "finish /clk failed\n",
        "error 50 BadLine line 1",
    ),
];
