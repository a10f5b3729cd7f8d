//! Drivers that come late: to a keeper, and to a core that a run goes on from.

ghost use Rattle.std.specs.Prelude.{◌≡◌, ◌<◌, length, true};
ghost use Rattle.bus_plan.specs.Plan.{is_driver_name};

use crate::replays::CLOCK_AND_UART;
use crate::runs::has_run;
use bus_core::{Compatibles, Core, Event, Refusal, Report, Ticket, read_schedule, replay};
use bus_manager::{Keeper, MAX_WORKERS, RunError, TableProber, run_core};
use bus_plan::{is_driver_name, read_plan};
use dt_tree::Name;
use std::alloc::Global;
use std::hash::RandomState;
use std::process::Abort;
use std::thread::Threads;

/// The plan of row `late-driver`.
const LATE: &str = "/clk fixed ok\n/uart - - /clk\ncompatible /uart ns16550a\n";

// A row's name, its plan, its schedule, the end report of a run that goes on from there, and whether each device settles
// by that run.
type Row = (
    &'static str,
    &'static str,
    &'static str,
    &'static str,
    &'static [bool],
);

const ROWS: &[Row] = &[
    (
        "late-driver",
        LATE,
        "begin /clk\nfinish /clk settled\ndriver ns ns16550a\n",
        "/clk bound fixed\n/uart bound ns\nquiet\n",
        &[false, true],
    ),
    (
        "late-driver-refused",
        LATE,
        "begin /clk\nfinish /clk settled\ndriver ns other\n",
        "/clk bound fixed\n/uart unmatched\nquiet\n",
        &[false, false],
    ),
    (
        "open flight",
        LATE,
        "begin /clk\ndriver ns other ns16550a\n",
        "/clk bound fixed\n/uart bound ns\nquiet\n",
        &[true, true],
    ),
    (
        "waiting",
        CLOCK_AND_UART,
        "begin /uart\nfinish /uart missing /clk\n",
        "/clk bound fixed\n/uart bound ns\nquiet\n",
        &[true, true],
    ),
    (
        "missing-then-due",
        CLOCK_AND_UART,
        "begin /uart\nbegin /clk\nfinish /clk settled\nfinish /uart missing /clk\n",
        "/clk bound fixed\n/uart bound ns\nquiet\n",
        &[false, true],
    ),
    (
        "failed-supplier",
        "/s x fail\n/d y ok /s\n",
        "begin /s\nfinish /s settled\n",
        "/s failed x\n/d waiting /s\nquiet\n",
        &[false, false],
    ),
];

// The core that a plan's schedule leaves.
fn replayed(
    rt: &impl Abort,
    alloc: Global,
    hasher: RandomState,
    plan: &[u8],
    schedule: &[u8],
) -> Core {
    let plan = read_plan(alloc, hasher, plan).expect(rt, "a plan");
    let events = read_schedule(alloc, &plan, schedule).expect(rt, "a schedule");
    match replay(alloc, plan, events.as_slice()) {
        Ok(core) => core,
        Err(_) => panic!(rt; "an event is refused"),
    }
}

fn goes_on<R: Threads + Sync + Abort>(
    rt: &R,
    alloc: Global,
    hasher: RandomState,
    row: &Row,
    workers: usize,
) {
    let (name, plan, schedule, report, settled) = row;
    let core = replayed(rt, alloc, hasher, plan.as_bytes(), schedule.as_bytes());
    let ran = run_core(rt, alloc, core, &TableProber, workers).expect(rt, "a run");
    has_run(rt, *name, &ran, *report, *settled);
}

/// Row `late-driver` and its like: the run leaves no note of what had settled before.
#[test]
fn goes_on_from_a_core(rt: HostRuntime) {
    let hasher = RandomState::new(&rt).expect(&rt, "a seed");
    for row in ROWS {
        for workers in [1, 2, 4, MAX_WORKERS] {
            goes_on(&rt, rt.alloc(), hasher, row, workers);
        }
    }
}

fn is_refused<R: Threads + Sync + Abort>(
    rt: &R,
    alloc: Global,
    hasher: RandomState,
    workers: usize,
) {
    let core = replayed(rt, alloc, hasher, LATE.as_bytes(), b"begin /clk\n");
    let answer = run_core(rt, alloc, core, &TableProber, workers);
    let refusal = answer.err().expect(rt, "it ran");
    assert_eq!(rt; refusal, RunError::TooManyWorkers);
}

#[test]
fn goes_on_by_lawful_numbers_alone(rt: HostRuntime) {
    let hasher = RandomState::new(&rt).expect(&rt, "a seed");
    for workers in [0, 65, usize::MAX] {
        is_refused(&rt, rt.alloc(), hasher, workers);
    }
}

fn opened(rt: &impl Abort, alloc: Global, hasher: RandomState) -> Keeper {
    let plan = read_plan(alloc, hasher, LATE.as_bytes()).expect(rt, "a plan");
    Keeper::new(alloc, plan).expect(rt, "a keeper")
}

// The driver of a schedule's line.
fn driver(rt: &impl Abort, alloc: Global, keeper: &Keeper, line: &[u8]) -> (Name, Compatibles) {
    let mut events = read_schedule(alloc, keeper.core().plan(), line).expect(rt, "a schedule");
    match events.pop() {
        Some(Event::Register(name, compatibles)) => (name, compatibles),
        _ => panic!(rt; "no driver"),
    }
}

// A call asks that the name is a driver's, and looks before.
fn is_named(rt: &impl Abort, name: &Name)
    ensures { is_driver_name name.now ≡ true }
{
    assert!(rt; is_driver_name(name.as_bytes()), "no driver's name");
}

fn register(
    rt: &impl Abort,
    alloc: Global,
    keeper: &mut Keeper,
    line: &[u8],
) -> Result<usize, Refusal> {
    let (name, compatibles) = driver(rt, alloc, keeper, line);
    is_named(rt, &name);
    keeper.register(alloc, &name, compatibles.as_slice())
}

fn is_of_plan(rt: &impl Abort, keeper: &Keeper, ticket: &Ticket)
    ensures { ticket.now.device < length keeper.now.plan }
{
    assert!(rt;
        ticket.device.index() < keeper.core().plan().len(),
        "not of the plan"
    );
}

// Binds the one device that is due.
fn binds(rt: &impl Abort, keeper: &mut Keeper) {
    let (ticket, _) = keeper
        .take()
        .expect(rt, "a take")
        .expect(rt, "a device due");
    is_of_plan(rt, keeper, &ticket);
    let _reply = keeper
        .finish(&ticket, Report::Settled)
        .expect(rt, "a reply");
}

fn the_driver_comes_late(rt: &impl Abort, alloc: Global, keeper: &mut Keeper) {
    binds(rt, keeper);
    assert!(rt; keeper.core().is_quiet());
    assert_eq!(rt; register(rt, alloc, keeper, b"driver x other\n"), Ok(0));
    assert_eq!(rt; register(rt, alloc, keeper, b"driver ns ns16550a\n"), Ok(1));
    let known = register(rt, alloc, keeper, b"driver fixed ns16550a\n");
    assert_eq!(rt; known, Err(Refusal::KnownDriver));
    let again = register(rt, alloc, keeper, b"driver x ns16550a\n");
    assert_eq!(rt; again, Err(Refusal::KnownDriver));
}

/// A keeper, and a driver that may come.
struct Coming {
    keeper: Keeper,
    name: Name,
    compatibles: Compatibles,
}

fn coming_if_there_is_memory(alloc: Global, hasher: RandomState, line: &[u8]) -> Option<Coming> {
    let plan = read_plan(alloc, hasher, LATE.as_bytes()).ok()?;
    let mut events = read_schedule(alloc, &plan, line).ok()?;
    let keeper = Keeper::new(alloc, plan).ok()?;
    match events.pop()? {
        Event::Register(name, compatibles) => Some(Coming {
            keeper,
            name,
            compatibles,
        }),
        _ => None,
    }
}

fn is_known(rt: &impl Abort, alloc: Global, coming: Coming) {
    let Coming {
        mut keeper,
        name,
        compatibles,
    } = coming;
    is_named(rt, &name);
    let answer = keeper.register(alloc, &name, compatibles.as_slice());
    assert_eq!(rt; answer, Err(Refusal::KnownDriver));
}

/// A driver that is known is refused before memory is asked for. Run with `--fail-alloc N`, which refuses the Nth request,
/// this test finds the same answer unless that is one of those that make the keeper and the driver.
#[test]
fn known_drivers_take_no_memory(rt: HostRuntime) {
    let hasher = RandomState::new(&rt).expect(&rt, "a seed");
    let line = b"driver fixed ns16550a\n";
    if let Some(coming) = coming_if_there_is_memory(rt.alloc(), hasher, line) {
        is_known(&rt, rt.alloc(), coming);
    }
}

fn its_device_is_bound(rt: &impl Abort, alloc: Global, keeper: &mut Keeper) {
    binds(rt, keeper);
    let report = keeper.report(alloc).expect(rt, "a report");
    let end = b"/clk bound fixed\n/uart bound ns\nquiet\n".as_slice();
    assert_eq!(rt; report.as_slice(), end);
}

/// Row `late-driver` by a keeper.
#[test]
fn late_driver(rt: HostRuntime) {
    let hasher = RandomState::new(&rt).expect(&rt, "a seed");
    let mut keeper = opened(&rt, rt.alloc(), hasher);
    the_driver_comes_late(&rt, rt.alloc(), &mut keeper);
    its_device_is_bound(&rt, rt.alloc(), &mut keeper);
}
