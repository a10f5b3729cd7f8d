//! The text of a schedule.

ghost use Rattle.std.specs.Prelude.{◌≡◌, ◌<◌, ◌++◌, length, option_to_list, All, IfOk, IfSome, OnOk, MatchResult, true, false};
ghost use Rattle.dt_tree.specs.Path.{is_path};
ghost use Rattle.bus_plan.specs.Plan.{device_at};
ghost use Rattle.bus_plan.specs.PlanFile.{Answers};
ghost use Rattle.bus_core.specs.Replay.{IsEventOf};
ghost use Rattle.bus_core.specs.Schedule.{event_of_two, event_of_three, event_of_four, device_event, event_of, line_meaning, missing_of, IsSchedule, IsMisread};

use crate::driver_line::driver_event;
use crate::event::{Event, Report};
use bus_plan::{Device, Fields, Plan, PlanError, lines_of};
use dt_tree::is_path;
use std::alloc::{AllocError, Global};

// The device at a line's field, which has to be a path. What a device has is one, so few fields are tested.
fn found_at(plan: &Plan, number: usize, path: &[u8]) -> Result<Option<Device>, PlanError>
    ensures { MatchResult result
        (λ found. (found ≡ device_at plan.now path.now) × (is_path path.now ≡ true) × IfSome found (λ d. d < length plan.now))
        (λ e. (is_path path.now ≡ false) × (e ≡ PlanError.BadLine number)) }
{
    plan.check();
    match plan.device(path) {
        Some(device) => Ok(Some(device)),
        None if is_path(path) => Ok(None),
        None => Err(PlanError::BadLine(number)),
    }
}

// The device that was found at a line's path.
fn known(found: Option<Device>, number: usize) -> Result<Device, PlanError>
    ensures { MatchResult result (λ d. found ≡ Some d) (λ e. (found ≡ None) × (e ≡ PlanError.UnknownPath number)) }
{
    match found {
        Some(device) => Ok(device),
        None => Err(PlanError::UnknownPath(number)),
    }
}

// `begin PATH` and `abandon PATH`
fn event_of_two(plan: &Plan, number: usize, word: &[u8], path: &[u8]) -> Result<Event, PlanError>
    ensures event { result ≡ event_of_two plan.now number word.now path.now }
    ensures within { IfOk result (IsEventOf plan.now) }
{
    let found = found_at(plan, number, path)?;
    if word == b"begin".as_slice() {
        return Ok(Event::Begin(known(found, number)?));
    }
    if word != b"abandon".as_slice() {
        return Err(PlanError::BadLine(number));
    }
    Ok(Event::Abandon(known(found, number)?))
}

// `finish PATH settled`
fn event_of_three(
    plan: &Plan,
    number: usize,
    word: &[u8],
    path: &[u8],
    said: &[u8],
) -> Result<Event, PlanError>
    ensures event { result ≡ event_of_three plan.now number word.now path.now said.now }
    ensures within { IfOk result (IsEventOf plan.now) }
{
    let found = found_at(plan, number, path)?;
    if word != b"finish".as_slice() {
        return Err(PlanError::BadLine(number));
    }
    if said != b"settled".as_slice() {
        return Err(PlanError::BadLine(number));
    }
    Ok(Event::Finish(known(found, number)?, Report::Settled))
}

fn missing_of(
    plan: &Plan,
    number: usize,
    found: Option<Device>,
    supplier: Option<Device>,
) -> Result<Event, PlanError>
    requires { IfSome found (λ d. d < length plan.now) }
    ensures event { result ≡ missing_of number found supplier }
    ensures within { IfOk result (IsEventOf plan.now) }
{
    match (found, supplier) {
        (Some(device), Some(supplier)) => Ok(Event::Finish(device, Report::Missing(supplier))),
        _ => Err(PlanError::UnknownPath(number)),
    }
}

// `finish PATH missing SUPPLIER`
fn event_of_four(
    plan: &Plan,
    number: usize,
    word: &[u8],
    path: &[u8],
    said: &[u8],
    supplier: &[u8],
) -> Result<Event, PlanError>
    ensures event { result ≡ event_of_four plan.now number word.now path.now said.now supplier.now }
    ensures within { IfOk result (IsEventOf plan.now) }
{
    let found = found_at(plan, number, path)?;
    let found_supplier = found_at(plan, number, supplier)?;
    if word != b"finish".as_slice() {
        return Err(PlanError::BadLine(number));
    }
    if said != b"missing".as_slice() {
        return Err(PlanError::BadLine(number));
    }
    missing_of(plan, number, found, found_supplier)
}

// The event of a line that names a device, by its word and the one, two or three fields behind it. A fourth is the last
// that is asked for.
fn device_event(
    plan: &Plan,
    number: usize,
    word: &[u8],
    mut fields: Fields<'_>,
) -> Result<Event, PlanError>
    ensures event { result ≡ device_event plan.now number word.now fields.entry }
    ensures within { IfOk result (IsEventOf plan.now) }
{
    let path = fields.next().ok_or(PlanError::BadLine(number))?;
    let Some(said) = fields.next() else {
        return event_of_two(plan, number, word, path);
    };
    let Some(supplier) = fields.next() else {
        return event_of_three(plan, number, word, path, said);
    };
    match fields.next() {
        None => event_of_four(plan, number, word, path, said, supplier),
        Some(_) => Err(PlanError::BadLine(number)),
    }
}

// The event of a line with these fields.
fn event_of(
    alloc: Global,
    plan: &Plan,
    number: usize,
    mut fields: Fields<'_>,
) -> Result<Event, PlanError>
    ensures event { Answers (event_of plan.now number fields.entry) result }
    ensures within { IfOk result (IsEventOf plan.now) }
{
    let Some(word) = fields.next() else {
        return Err(PlanError::BadLine(number));
    };
    if word == b"driver".as_slice() {
        return driver_event(alloc, number, fields);
    }
    device_event(plan, number, word, fields)
}

fn read_line(
    alloc: Global,
    plan: &Plan,
    number: usize,
    line: &[u8],
) -> Result<Option<Event>, PlanError>
    ensures line { Answers (line_meaning plan.now number line.now) result }
    ensures within { IfOk result (λ event. IfSome event (IsEventOf plan.now)) }
{
    let Some(fields) = Fields::read(number, line)? else {
        return Ok(None);
    };
    match event_of(alloc, plan, number, fields) {
        Ok(event) => Ok(Some(event)),
        Err(error) => Err(error),
    }
}

// Appends what a line says.
fn append(events: &mut Vec<Event>, event: Option<Event>) -> Result<(), AllocError>
    ensures { OnOk result (events.new.items ≡ events.old.items ++ option_to_list event) }
{
    // The prover has to meet the type inside `Event` by name where a `Vec` of them changes.
    let _met = Report::Settled;
    match event {
        Some(event) => {
            events.push(event)?;
            Ok(())
        }
        None => Ok(()),
    }
}

/// The events of a schedule: `begin PATH`, `finish PATH settled`, `finish PATH missing SUPPLIER`, `abandon PATH` and
/// `driver NAME COMPATIBLE..`, a line each. A line of another form is refused with `BadLine`, a path that no device of the plan has with
/// `UnknownPath`, by the first such line.
pub fn read_schedule(alloc: Global, plan: &Plan, text: &[u8]) -> Result<Vec<Event>, PlanError>
    ensures schedule { MatchResult result (λ es. IsSchedule plan.now text.now es.items) (IsMisread plan.now text.now) }
    ensures within { IfOk result (λ events. All (IsEventOf plan.now) events.items) }
{
    let _met = Report::Settled;
    let mut events = Vec::new(alloc);
    let mut number = 0;
    for line in lines_of(text) {
        number += 1;
        append(&mut events, read_line(alloc, plan, number, line)?)?;
    }
    Ok(events)
}
