//! Plan files: read, written, read back; what a plan answers; the lines and fields of a text file of the bus.

ghost use Rattle.std.specs.Prelude.{◌≡◌, length};

use bus_plan::{
    Device, Fields, MAX_DEVICES, Plan, PlanError, Planned, Verdict, is_line, is_line_byte,
    lines_of, plan_text, plan_text_is_read_back, read_plan,
};
use dt_tree::{Name, Path};
use std::alloc::Global;
use std::hash::RandomState;
use std::process::Abort;

fn is_written_as(rt: &impl Abort, alloc: Global, plan: &Plan, text: &[u8]) {
    let written = plan_text(alloc, plan).expect(rt, "a text");
    assert_eq!(rt; written.as_slice(), text);
}

fn is_copied_as(rt: &impl Abort, alloc: Global, plan: &Plan, text: &[u8]) {
    let copy = plan.copy(alloc).expect(rt, "a copy");
    is_written_as(rt, alloc, &copy, text);
}

fn text_is_written_as(
    rt: &impl Abort,
    alloc: Global,
    hasher: RandomState,
    text: &[u8],
    written: &[u8],
) {
    let plan = read_plan(alloc, hasher, text).expect(rt, "a plan");
    is_written_as(rt, alloc, &plan, written);
    is_copied_as(rt, alloc, &plan, written);
}

/// Texts that are read, and what is written of them: one space between fields, no comments, no blank lines.
#[test]
fn plans_are_read_and_written(rt: HostRuntime) {
    const ROWS: &[(&[u8], &[u8])] = &[
        (b"", b""),
        (b"# none\n\n \t\n", b""),
        (
            b"/clk fixed ok\n/uart ns ok /clk\n",
            b"/clk fixed ok\n/uart ns ok /clk\n",
        ),
        (
            b"  /s\t! -  \r\n#x\r\n/soc/d@0 y fail /s /t\n/t - - /s",
            b"/s ! -\n/soc/d@0 y fail /s /t\n/t - - /s\n",
        ),
        (b"/a - -\t/b\n/b # ok\n", b"/a - - /b\n/b # ok\n"),
        (
            b"compatible\t/b  s t s\r\n/a x ok\n/b - - /a",
            b"/a x ok\n/b - - /a\ncompatible /b s t s\n",
        ),
        (
            b"/b - -\n/a - -\ncompatible /a #t\ncompatible /b s\n",
            b"/b - -\n/a - -\ncompatible /b s\ncompatible /a #t\n",
        ),
    ];
    let hasher = RandomState::new(&rt).expect(&rt, "a seed");
    plan_text_is_read_back();
    for (text, written) in ROWS {
        text_is_written_as(&rt, rt.alloc(), hasher, *text, *written);
    }
}

fn is_refused(rt: &impl Abort, alloc: Global, hasher: RandomState, text: &[u8], error: PlanError) {
    let refusal = read_plan(alloc, hasher, text).err();
    assert_eq!(rt; refusal, Some(error));
}

/// Texts that are refused, with the line at fault: the first fault in line order, and unknown suppliers behind all others.
const FAULTS: &[(&[u8], PlanError)] = &[
    (b"/a", PlanError::BadLine(1)),
    (b"/a x", PlanError::BadLine(1)),
    (b"/ x ok\n", PlanError::BadLine(1)),
    (b"a x ok\n", PlanError::BadLine(1)),
    (b"/a x ok /\n", PlanError::BadLine(1)),
    (b"/a x ok b\n", PlanError::BadLine(1)),
    (b"/a x maybe\n", PlanError::BadLine(1)),
    (b"/a - ok\n", PlanError::BadLine(1)),
    (b"/a x -\n", PlanError::BadLine(1)),
    (b"/a ! ok\n", PlanError::BadLine(1)),
    (b"/a x ok /a\n", PlanError::BadLine(1)),
    (b"/b - -\n/a x ok /b /b\n", PlanError::BadLine(2)),
    (b"/a x ok /b /c /b\n", PlanError::BadLine(1)),
    (b"/a x ok /b /c c\n/c\n", PlanError::BadLine(1)),
    (b"# \x7f\n", PlanError::BadLine(1)),
    (b"\n# \x00", PlanError::BadLine(2)),
    (b"/a x ok\r\r\n", PlanError::BadLine(1)),
    (b"/a x ok\r", PlanError::BadLine(1)),
    (b"/a x ok\n/a x ok\n", PlanError::DuplicateDevice(2)),
    (b"/a x ok /c\n/b x ok /d\n", PlanError::UnknownPath(1)),
    (b"/a x ok /c\n/a x ok\n", PlanError::DuplicateDevice(2)),
    (b"/a x ok /c\n/a x ok /\n", PlanError::BadLine(2)),
    (b"compatible\n", PlanError::BadLine(1)),
    (b"/a - -\ncompatible /a\n", PlanError::BadLine(2)),
    (b"compatible / s\n", PlanError::BadLine(1)),
    (b"compatible a s\n", PlanError::BadLine(1)),
    (
        b"/a - -\ncompatible /a s\ncompatible /a t\n",
        PlanError::DuplicateDevice(3),
    ),
    (
        b"compatible /a s\ncompatible /a s\n",
        PlanError::DuplicateDevice(2),
    ),
    (b"\ncompatible /a s\n", PlanError::UnknownPath(2)),
    (b"/a x ok\ncompatible /a s\n", PlanError::BadLine(2)),
    (b"compatible /a s\n/a x fail\n", PlanError::BadLine(1)),
    (b"/a ! -\ncompatible /a s\n", PlanError::BadLine(2)),
    (b"/a x ok /c\ncompatible /d s\n", PlanError::UnknownPath(1)),
    (b"compatible /d s\n/a x ok /c\n", PlanError::UnknownPath(1)),
    (
        b"/a - -\n/b x ok\ncompatible /b s\n/d x ok /c\n",
        PlanError::BadLine(3),
    ),
    (
        b"/b x ok\n/d x ok /c\ncompatible /b s\n",
        PlanError::UnknownPath(2),
    ),
    (b"compatible /d s\n/a x ok /\n", PlanError::BadLine(2)),
];

#[test]
fn faults_are_named_in_line_order(rt: HostRuntime) {
    let hasher = RandomState::new(&rt).expect(&rt, "a seed");
    for (text, error) in FAULTS {
        is_refused(&rt, rt.alloc(), hasher, *text, *error);
    }
}

/// A refusal with its number, its name and its line.
type Told = (PlanError, u8, &'static str, Option<usize>);

fn is_told(rt: &impl Abort, row: &Told) {
    let (error, number, name, line) = row;
    assert_eq!(rt; error.number(), *number);
    assert_eq!(rt; error.name(), *name);
    assert_eq!(rt; error.line(), *line);
}

/// Each refusal by its number, its name and its line.
#[test]
fn refusals_have_numbers_and_names(rt: HostRuntime) {
    const ROWS: &[Told] = &[
        (PlanError::NoMemory, 0, "NoMemory", None),
        (PlanError::BadLine(7), 50, "BadLine", Some(7)),
        (
            PlanError::DuplicateDriver(7),
            51,
            "DuplicateDriver",
            Some(7),
        ),
        (
            PlanError::DuplicateDevice(7),
            52,
            "DuplicateDevice",
            Some(7),
        ),
        (PlanError::UnknownPath(7), 53, "UnknownPath", Some(7)),
        (PlanError::DanglingPhandle, 54, "DanglingPhandle", None),
        (PlanError::BadSpecifier, 55, "BadSpecifier", None),
        (PlanError::TooManyDevices, 56, "TooManyDevices", None),
    ];
    for row in ROWS {
        is_told(&rt, row);
    }
}

fn two_devices_are_there(rt: &impl Abort, plan: &Plan)
    ensures { length plan.now ≡ 2 }
{
    assert_eq!(rt; Device::new(1).index(), 1);
    assert_eq!(rt; plan.len(), 2);
    assert!(rt; !plan.is_empty());
}

fn first_is_told(rt: &impl Abort, plan: &Plan)
    requires { length plan.now ≡ 2 }
{
    let s = Device::new(0);
    assert!(rt; !plan.available(s));
    assert!(rt; plan.driver(s).is_none());
}

fn second_is_told(rt: &impl Abort, plan: &Plan)
    requires { length plan.now ≡ 2 }
{
    let d = Device::new(1);
    assert_eq!(rt; plan.path(d).as_bytes(), b"/d".as_slice());
    assert!(rt; plan.available(d));
    assert_eq!(rt; plan.verdict(d), Verdict::Fails);
    assert_eq!(rt; plan.suppliers(d), [Device::new(0)].as_slice());
}

fn devices_are_found(rt: &impl Abort, plan: &Plan) {
    let found = [plan.device(b"/d"), plan.device(b"/x")];
    assert_eq!(rt; found, [Some(Device::new(1)), None]);
}

#[test]
fn readers_answer(rt: HostRuntime) {
    let text = b"/s ! -\n/d y fail /s\n";
    let hasher = RandomState::new(&rt).expect(&rt, "a seed");
    let plan = read_plan(rt.alloc(), hasher, text).expect(&rt, "a plan");
    plan.check();
    two_devices_are_there(&rt, &plan);
    first_is_told(&rt, &plan);
    second_is_told(&rt, &plan);
    devices_are_found(&rt, &plan);
}

fn has_consumers(rt: &impl Abort, plan: &Plan, place: usize, consumers: &[Device]) {
    assert!(rt; place < plan.len());
    assert_eq!(rt; plan.consumers(Device::new(place)), consumers);
}

/// The consumers of row `diamond`'s devices, and of a device that itself stands last.
#[test]
fn consumers_stand_in_plan_order(rt: HostRuntime) {
    let text = b"/a x ok /e\n/b x ok /a\n/c x ok /e /a\n/d x ok /c /b\n/e ! -\n";
    let hasher = RandomState::new(&rt).expect(&rt, "a seed");
    let plan = read_plan(rt.alloc(), hasher, text).expect(&rt, "a plan");
    let (a, b) = (Device::new(0), Device::new(1));
    let (c, d) = (Device::new(2), Device::new(3));
    let rows: [(usize, &[Device]); 5] = [
        (0, &[b, c]),
        (1, &[d]),
        (2, &[d]),
        (3, &[]),
        (4, &[a, c]),
    ];
    for (place, consumers) in &rows {
        has_consumers(&rt, &plan, *place, *consumers);
    }
}

// A device by its parts.
fn planned(rt: &impl Abort, alloc: Global) -> Planned {
    Planned::new(
        Path::parse(alloc, b"/d").expect(rt, "a path"),
        true,
        Some(Name::new(alloc, b"x").expect(rt, "a name")),
        Verdict::Fails,
        Vec::from_slice(alloc, &[Device::new(1)]).expect(rt, "memory"),
        Vec::new(alloc),
    )
}

fn is_planned(rt: &impl Abort, device: &Planned) {
    assert_eq!(rt; device.path().as_bytes(), b"/d".as_slice());
    assert!(rt; device.available() && device.driver().is_some());
    assert_eq!(rt; device.verdict(), Verdict::Fails);
    assert_eq!(rt; device.suppliers(), [Device::new(1)].as_slice());
}

#[test]
fn devices_are_made_of_parts(rt: HostRuntime) {
    let device = planned(&rt, rt.alloc());
    is_planned(&rt, &device);
    let copy = device.copy(rt.alloc()).expect(&rt, "a copy");
    is_planned(&rt, &copy);
}

fn many_devices(rt: &impl Abort, alloc: Global, count: usize) -> Vec<u8> {
    let mut text = Vec::new(alloc);
    for number in 0..count {
        let line = format!(in alloc; "/d{number} x ok\n").expect(rt, "memory");
        text.extend_from_slice(line.as_bytes()).expect(rt, "memory");
    }
    text
}

// How many devices a plan of so many lines has.
fn count_read(
    rt: &impl Abort,
    alloc: Global,
    hasher: RandomState,
    lines: usize,
) -> Result<usize, PlanError> {
    let text = many_devices(rt, alloc, lines);
    match read_plan(alloc, hasher, text.as_slice()) {
        Ok(plan) => Ok(plan.len()),
        Err(error) => Err(error),
    }
}

/// One device more than a plan may have is refused.
#[test]
fn a_device_too_many_is_refused(rt: HostRuntime) {
    let hasher = RandomState::new(&rt).expect(&rt, "a seed");
    let full = count_read(&rt, rt.alloc(), hasher, MAX_DEVICES);
    assert_eq!(rt; full, Ok(MAX_DEVICES));
    let over = count_read(&rt, rt.alloc(), hasher, MAX_DEVICES + 1);
    assert_eq!(rt; over, Err(PlanError::TooManyDevices));
}

fn joined_lines(rt: &impl Abort, alloc: Global, text: &[u8]) -> Vec<u8> {
    let mut joined = Vec::new(alloc);
    for line in lines_of(text) {
        joined.extend_from_slice(line).expect(rt, "memory");
        joined.push(b'|').expect(rt, "memory");
    }
    joined
}

fn is_cut_into(rt: &impl Abort, alloc: Global, text: &[u8], lines: &[u8]) {
    let joined = joined_lines(rt, alloc, text);
    assert_eq!(rt; joined.as_slice(), lines);
}

/// Lines end with a line feed, which takes one carriage return with it; the last may lack its line feed.
#[test]
fn texts_are_cut_into_lines(rt: HostRuntime) {
    const ROWS: &[(&[u8], &[u8])] = &[
        (b"", b""),
        (b"a", b"a|"),
        (b"a\n\n", b"a||"),
        (b"a\r\nb\r\r\nc\r", b"a|b\r|c\r|"),
    ];
    for (text, lines) in ROWS {
        is_cut_into(&rt, rt.alloc(), *text, *lines);
    }
}

fn may_stand_in_a_line(rt: &impl Abort, byte: u8, lawful: bool) {
    assert_eq!(rt; is_line_byte(byte), lawful);
    assert_eq!(rt; is_line(&[b'a', byte]), lawful);
}

/// A line has tabs and the bytes 0x20 to 0x7e alone.
#[test]
fn bytes_of_lines(rt: HostRuntime) {
    const ROWS: &[(u8, bool)] = &[
        (8, false),
        (b'\t', true),
        (b'\r', false),
        (31, false),
        (b' ', true),
        (b'~', true),
        (127, false),
    ];
    for (byte, lawful) in ROWS {
        may_stand_in_a_line(&rt, *byte, *lawful);
    }
}

fn joined_fields(rt: &impl Abort, alloc: Global, line: &[u8]) -> Vec<u8> {
    let mut joined = Vec::new(alloc);
    for field in Fields::of(line) {
        joined.extend_from_slice(field).expect(rt, "memory");
        joined.push(b'|').expect(rt, "memory");
    }
    joined
}

fn has_fields(rt: &impl Abort, alloc: Global, line: &[u8], fields: &[u8], skipped: bool) {
    let joined = joined_fields(rt, alloc, line);
    assert_eq!(rt; joined.as_slice(), fields);
    assert_eq!(rt; Fields::of(line).is_skipped(), skipped);
}

/// Fields stand between spaces and tabs; a line without one, or whose first begins with `#`, is skipped.
#[test]
fn lines_are_cut_into_fields(rt: HostRuntime) {
    const ROWS: &[(&[u8], &[u8], bool)] = &[
        (b"", b"", true),
        (b" \t ", b"", true),
        (b"#", b"#|", true),
        (b"\t # a", b"#|a|", true),
        (b"a #", b"a|#|", false),
        (b" \tbegin  /a\t#x ", b"begin|/a|#x|", false),
    ];
    for (line, fields, skipped) in ROWS {
        has_fields(&rt, rt.alloc(), *line, *fields, *skipped);
    }
}

fn first_field<'a>(line: &'a [u8]) -> Result<Option<&'a [u8]>, PlanError> {
    match Fields::read(7, line)? {
        Some(mut fields) => Ok(fields.next()),
        None => Ok(None),
    }
}

fn is_read_as(rt: &impl Abort, line: &[u8], read: Result<Option<&[u8]>, PlanError>) {
    assert_eq!(rt; first_field(line), read);
}

/// A line is read as its fields, as nothing where it is skipped, or refused with its number.
#[test]
fn lines_are_read(rt: HostRuntime) {
    const ROWS: &[(&[u8], Result<Option<&[u8]>, PlanError>)] = &[
        (b"", Ok(None)),
        (b" # a", Ok(None)),
        (b" a\t#b ", Ok(Some(b"a"))),
        (b"a\r", Err(PlanError::BadLine(7))),
        (b"#\r", Err(PlanError::BadLine(7))),
    ];
    for (line, read) in ROWS {
        is_read_as(&rt, *line, *read);
    }
}
