//! Drivers that come late: which devices get them, and what the plan is then.
use bus_plan::{
    Device, Fields, Plan, copy_fields, is_compatible, is_driver_name, late_driver_is_lawful,
    late_driver_keeps, plan_text, read_plan,
};
use dt_tree::{Bytes, Name};
use std::alloc::Global;
use std::hash::RandomState;
use std::process::Abort;

/// A plan's text, a late driver's name and its strings, how many devices get it, the plan's text then.
type Row = (
    &'static [u8],
    &'static [u8],
    &'static [u8],
    usize,
    &'static [u8],
);

const UART: &[u8] = b"/clk fixed ok\n/uart - - /clk\ncompatible /uart ns16550a\n";

const BOARD: &[u8] = b"/a - -\n/b - -\n/c y fail\n/d ! -\ncompatible /a s t\ncompatible /b u t\n";

const ROWS: &[Row] = &[
    (
        UART,
        b"ns",
        b"ns16550a",
        1,
        b"/clk fixed ok\n/uart ns ok /clk\n",
    ),
    (UART, b"ns", b"other", 0, UART),
    (UART, b"ns", b"ns16550", 0, UART),
    (
        BOARD,
        b"x",
        b"t",
        2,
        b"/a x ok\n/b x ok\n/c y fail\n/d ! -\n",
    ),
    (
        BOARD,
        b"x",
        b"q u q",
        1,
        b"/a - -\n/b x ok\n/c y fail\n/d ! -\ncompatible /a s t\n",
    ),
    (
        BOARD,
        b"x",
        b"t u s",
        2,
        b"/a x ok\n/b x ok\n/c y fail\n/d ! -\n",
    ),
    (BOARD, b"x", b"", 0, BOARD),
];

/// A further driver: its name and its strings, how many devices get it, and whether it is known then.
type Further = (&'static [u8], &'static [u8], usize, bool);

/// They come one after the other, to a board of three devices with two strings each.
const FURTHER: &[Further] = &[
    (b"x", b"q", 0, false),
    (b"x", b"t", 2, true),
    (b"y", b"t", 0, false),
    (b"z", b"s t", 0, false),
    (b"x", b"v u", 1, true),
    (b"z", b"s t u v", 0, false),
];

const THREE: &[u8] =
    b"/a - -\n/b - -\n/c - -\ncompatible /a s t\ncompatible /b t u\ncompatible /c u v\n";

fn strings_of(rt: &impl Abort, alloc: Global, text: &[u8]) -> Vec<Bytes> {
    copy_fields(alloc, Fields::of(text)).expect(rt, "memory")
}

fn register(rt: &impl Abort, alloc: Global, plan: &mut Plan, name: &Name, strings: &[u8]) -> usize {
    assert!(rt; is_driver_name(name.as_bytes()));
    let strings = strings_of(rt, alloc, strings);
    plan.register(alloc, name, strings.as_slice())
        .expect(rt, "memory")
}

fn gives(rt: &impl Abort, alloc: Global, hasher: RandomState, row: &Row) {
    let (text, name, strings, count, wanted) = row;
    let mut plan = read_plan(alloc, hasher, *text).expect(rt, "a plan");
    let name = Name::new(alloc, *name).expect(rt, "a name");
    assert!(rt; !plan.knows(&name));
    let gaining = register(rt, alloc, &mut plan, &name, *strings);
    assert_eq!(rt; gaining, *count);
    assert_eq!(rt; plan.knows(&name), gaining > 0);
    let written = plan_text(alloc, &plan).expect(rt, "a text");
    assert_eq!(rt; written.as_slice(), *wanted);
}

/// Each available device without a driver gets the one that lists one of its strings; all others stay.
#[test]
fn late_drivers_match(rt: HostRuntime) {
    let hasher = RandomState::new(&rt).expect(&rt, "a seed");
    late_driver_is_lawful();
    late_driver_keeps();
    for row in ROWS {
        gives(&rt, rt.alloc(), hasher, row);
    }
}

fn comes(rt: &impl Abort, alloc: Global, plan: &mut Plan, driver: &Further) {
    let (name, strings, count, known) = driver;
    let name = Name::new(alloc, *name).expect(rt, "a name");
    let gaining = register(rt, alloc, plan, &name, *strings);
    assert_eq!(rt; gaining, *count);
    assert_eq!(rt; plan.knows(&name), *known);
}

/// A string finds nothing once a driver has taken it, and a device that has a driver is passed over.
#[test]
fn late_drivers_come_one_after_the_other(rt: HostRuntime) {
    let hasher = RandomState::new(&rt).expect(&rt, "a seed");
    let mut plan = read_plan(rt.alloc(), hasher, THREE).expect(&rt, "a plan");
    for driver in FURTHER {
        comes(&rt, rt.alloc(), &mut plan, driver);
    }
    let written = plan_text(rt.alloc(), &plan).expect(&rt, "a text");
    assert_eq!(&rt;
        written.as_slice(),
        b"/a x ok\n/b x ok\n/c x ok\n".as_slice()
    );
}

fn has_strings(rt: &impl Abort, alloc: Global, plan: &Plan, place: usize, wanted: &[u8]) {
    assert!(rt; place < plan.len());
    let mut joined = Vec::new(alloc);
    for string in plan.compatibles(Device::new(place)) {
        joined
            .extend_from_slice(string.as_slice())
            .expect(rt, "memory");
        joined.push(b'|').expect(rt, "memory");
    }
    assert_eq!(rt; joined.as_slice(), wanted);
}

/// The strings of a device, in the order of its line; none where it is disabled or has a driver.
#[test]
fn strings_are_told(rt: HostRuntime) {
    let hasher = RandomState::new(&rt).expect(&rt, "a seed");
    let plan = read_plan(rt.alloc(), hasher, BOARD).expect(&rt, "a plan");
    let rows: [(usize, &[u8]); 4] = [(0, b"s|t|"), (1, b"u|t|"), (2, b""), (3, b"")];
    for (place, wanted) in &rows {
        has_strings(&rt, rt.alloc(), &plan, *place, *wanted);
    }
}

fn may_be_listed(rt: &impl Abort, string: &[u8], lawful: bool) {
    assert_eq!(rt; is_compatible(string), lawful);
}

/// A driver may list what isn't empty and has bytes 0x21 to 0x7e alone.
#[test]
fn strings_that_a_driver_may_list(rt: HostRuntime) {
    const STRINGS: &[(&[u8], bool)] = &[
        (b"", false),
        (b"!", true),
        (b"~", true),
        (b" ", false),
        (b"\x7f", false),
        (b"v,new", true),
        (b"v new", false),
        (b"v\0", false),
    ];
    for (string, lawful) in STRINGS {
        may_be_listed(&rt, *string, *lawful);
    }
}

// A device without a driver, and ten strings of its own.
fn add_device(rt: &impl Abort, alloc: Global, text: &mut Vec<u8>, place: usize) {
    let line = format!(in alloc; "/d{place} - -\ncompatible /d{place}").expect(rt, "memory");
    text.extend_from_slice(line.as_bytes()).expect(rt, "memory");
    for number in 0..10 {
        let string = format!(in alloc; " vendor{place},device-{number}").expect(rt, "memory");
        text.extend_from_slice(string.as_bytes())
            .expect(rt, "memory");
    }
    text.push(b'\n').expect(rt, "memory");
}

fn wide_plan(rt: &impl Abort, alloc: Global, hasher: RandomState) -> Plan {
    let mut text = Vec::new(alloc);
    for place in 0..512 {
        add_device(rt, alloc, &mut text, place);
    }
    read_plan(alloc, hasher, text.as_slice()).expect(rt, "a plan")
}

// Ten strings that no device has, and then one that a device may have.
fn numbered_strings(rt: &impl Abort, alloc: Global, number: usize) -> Vec<u8> {
    let mut text = Vec::new(alloc);
    for place in 0..9 {
        let string = format!(in alloc; "vendor{place},module-{number} ").expect(rt, "memory");
        text.extend_from_slice(string.as_bytes())
            .expect(rt, "memory");
    }
    let last = format!(in alloc; "vendor{number},device-7").expect(rt, "memory");
    text.extend_from_slice(last.as_bytes()).expect(rt, "memory");
    text
}

fn register_numbered(rt: &impl Abort, alloc: Global, plan: &mut Plan, number: usize) -> usize {
    let name = format!(in alloc; "module{number}").expect(rt, "memory");
    let name = Name::new(alloc, name.as_bytes()).expect(rt, "a name");
    let strings = numbered_strings(rt, alloc, number);
    register(rt, alloc, plan, &name, strings.as_slice())
}

/// Ten thousand drivers of ten strings, over 512 devices of ten strings: the last of them match the first devices.
#[test]
fn ten_thousand_late_drivers(rt: HostRuntime) {
    let hasher = RandomState::new(&rt).expect(&rt, "a seed");
    let mut plan = wide_plan(&rt, rt.alloc(), hasher);
    for number in 512..10_509 {
        let gaining = register_numbered(&rt, rt.alloc(), &mut plan, number);
        assert_eq!(rt; gaining, 0);
    }
    for number in 0..3 {
        let gaining = register_numbered(&rt, rt.alloc(), &mut plan, number);
        assert_eq!(rt; gaining, 1);
    }
}
