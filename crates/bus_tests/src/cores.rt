//! Events of the probing core, and schedules.

ghost use Rattle.std.specs.Prelude.{◌<◌, length};

use crate::replays::{CLOCK_AND_UART, REPLAYS};
use bus_core::{
    Core, Outcome, Refusal, Reply, Report, Settle, Status, Ticket, end_report_is_one,
    events_keep_history, quiet_is_least, quiet_report_is_the_end, read_schedule, replay,
    replay_goes_on, replay_is_after, replay_keeps_history, replay_stops, suppliers_come_first,
};
use bus_plan::{Device, PlanError, read_plan};
use std::alloc::Global;
use std::hash::RandomState;
use std::process::Abort;

/// A core that begins with the plan of this text.
pub(crate) fn opened(rt: &impl Abort, alloc: Global, hasher: RandomState, text: &[u8]) -> Core {
    let plan = read_plan(alloc, hasher, text).expect(rt, "a plan");
    Core::new(alloc, plan).expect(rt, "a core")
}

// The device at a path of the core's plan.
fn at(rt: &impl Abort, core: &Core, path: &[u8]) -> Device {
    core.plan().device(path).expect(rt, "a device")
}

// The core's calls ask that a device is the plan's. The next four look before they call.
fn is_of_plan(rt: &impl Abort, core: &Core, device: Device)
    ensures { device < length core.now.plan }
{
    assert!(rt; device.index() < core.plan().len(), "not of the plan");
}

fn begin(rt: &impl Abort, core: &mut Core, device: Device) -> Ticket {
    is_of_plan(rt, core, device);
    core.begin(device).expect(rt, "a ticket")
}

fn finish(
    rt: &impl Abort,
    core: &mut Core,
    ticket: &Ticket,
    report: Report,
) -> Result<Reply, Refusal> {
    is_of_plan(rt, core, ticket.device);
    core.finish(ticket, report)
}

fn abandon(rt: &impl Abort, core: &mut Core, device: Device) -> Result<(), Refusal> {
    is_of_plan(rt, core, device);
    core.abandon(device)
}

fn status(rt: &impl Abort, core: &Core, device: Device) -> Status {
    is_of_plan(rt, core, device);
    core.status(device)
}

// The line of a schedule's fault.
fn fault_line(rt: &impl Abort, alloc: Global, fault: &PlanError) -> Vec<u8> {
    let line = fault.line().expect(rt, "a line");
    let (number, name) = (fault.number(), fault.name());
    format!(in alloc; "error {number} {name} line {line}")
        .expect(rt, "a text")
        .into_bytes()
}

// The line of a refused event.
fn refused_line(rt: &impl Abort, alloc: Global, event: usize, refusal: Refusal) -> Vec<u8> {
    let (number, name) = (refusal.number(), refusal.name());
    format!(in alloc; "error {number} {name} event {event}")
        .expect(rt, "a text")
        .into_bytes()
}

// The report of a replay, or the event that it refused.
fn told(rt: &impl Abort, alloc: Global, replayed: Result<Core, (usize, Refusal)>) -> Vec<u8> {
    match replayed {
        Ok(core) => core.report(alloc).expect(rt, "a report"),
        Err((event, refusal)) => refused_line(rt, alloc, event, refusal),
    }
}

// What the replay of a plan and a schedule gives.
fn replayed(
    rt: &impl Abort,
    alloc: Global,
    hasher: RandomState,
    plan: &[u8],
    schedule: &[u8],
) -> Vec<u8> {
    let plan = read_plan(alloc, hasher, plan).expect(rt, "a plan");
    match read_schedule(alloc, &plan, schedule) {
        Ok(events) => told(rt, alloc, replay(alloc, plan, events.as_slice())),
        Err(fault) => fault_line(rt, alloc, &fault),
    }
}

fn is_replayed(
    rt: &impl Abort,
    alloc: Global,
    hasher: RandomState,
    row: &(&str, &str, &str, &str),
) {
    let (name, plan, schedule, report) = row;
    let answer = replayed(rt, alloc, hasher, plan.as_bytes(), schedule.as_bytes());
    assert_eq!(rt; answer.as_slice(), report.as_bytes(), "{name}");
}

#[test]
fn replays(rt: HostRuntime) {
    let hasher = RandomState::new(&rt).expect(&rt, "a seed");
    for row in REPLAYS {
        is_replayed(&rt, rt.alloc(), hasher, row);
    }
}

// What a probe of the device would answer now: the last supplier that isn't bound, if there is one.
fn answer_of(rt: &impl Abort, core: &Core, device: Device) -> Report {
    is_of_plan(rt, core, device);
    let mut report = Report::Settled;
    for supplier in core.plan().suppliers(device) {
        if !core.is_bound(*supplier) {
            report = Report::Missing(*supplier);
        }
    }
    report
}

/// Begins and finishes a due device, whose probe ends as its driver would answer, and says whether there was one.
pub(crate) fn step(rt: &impl Abort, core: &mut Core) -> bool {
    let Some(device) = core.next() else {
        return false;
    };
    let report = answer_of(rt, core, device);
    let ticket = begin(rt, core, device);
    let _reply = finish(rt, core, &ticket, report).expect(rt, "a reply");
    true
}

/// Begins and finishes whatever is due, and counts the begins.
pub(crate) fn drain(rt: &impl Abort, core: &mut Core) -> usize {
    for begins in 0..10_000 {
        if !step(rt, core) {
            return begins;
        }
    }
    panic!(rt; "it never ends")
}

const DRAINED: &[(&str, &str, &str)] = &[
    (
        "clock-and-uart",
        CLOCK_AND_UART,
        "/clk bound fixed\n/uart bound ns\nquiet\n",
    ),
    (
        "cycle-waits",
        "/a x ok /b\n/b y ok /a\n",
        "/a waiting /b\n/b waiting /a\nquiet\n",
    ),
    (
        "failed-supplier",
        "/s x fail\n/d y ok /s\n",
        "/s failed x\n/d waiting /s\nquiet\n",
    ),
    (
        "failed-supplier",
        "/s ! -\n/d y ok /s\n",
        "/s disabled\n/d waiting /s\nquiet\n",
    ),
];

fn report_of_drained(rt: &impl Abort, alloc: Global, core: &mut Core) -> Vec<u8> {
    let _begins = drain(rt, core);
    core.report(alloc).expect(rt, "a report")
}

// The report once nothing of the plan is due.
fn drained(rt: &impl Abort, alloc: Global, hasher: RandomState, plan: &[u8]) -> Vec<u8> {
    let mut core = opened(rt, alloc, hasher, plan);
    report_of_drained(rt, alloc, &mut core)
}

fn is_drained(rt: &impl Abort, alloc: Global, hasher: RandomState, row: &(&str, &str, &str)) {
    let (name, plan, report) = row;
    let answer = drained(rt, alloc, hasher, plan.as_bytes());
    assert_eq!(rt; answer.as_slice(), report.as_bytes(), "{name}");
}

#[test]
fn drains(rt: HostRuntime) {
    let hasher = RandomState::new(&rt).expect(&rt, "a seed");
    for row in DRAINED {
        is_drained(&rt, rt.alloc(), hasher, row);
    }
}

// The core of row `clock-and-uart`'s plan.
fn clock_and_uart(rt: &impl Abort, alloc: Global, hasher: RandomState) -> Core {
    opened(rt, alloc, hasher, CLOCK_AND_UART.as_bytes())
}

// The first of the uart's two tickets, whose flight was abandoned.
fn stale_ticket(rt: &impl Abort, core: &mut Core) -> Ticket {
    let uart = at(rt, core, b"/uart");
    let first = begin(rt, core, uart);
    abandon(rt, core, uart).expect(rt, "a flight");
    let second = begin(rt, core, uart);
    assert_eq!(rt; (first.attempt, second.attempt), (1, 2));
    first
}

fn is_stale(rt: &impl Abort, core: &mut Core, ticket: &Ticket) {
    let refused = finish(rt, core, ticket, Report::Settled);
    assert_eq!(rt; refused, Err(Refusal::StaleTicket));
}

fn reports(rt: &impl Abort, alloc: Global, core: &Core, wanted: &[u8]) {
    let report = core.report(alloc).expect(rt, "a report");
    assert_eq!(rt; report.as_slice(), wanted);
}

fn a_stale_ticket_is_refused(rt: &impl Abort, alloc: Global, core: &mut Core) {
    let first = stale_ticket(rt, core);
    let before = core.report(alloc).expect(rt, "a report");
    is_stale(rt, core, &first);
    reports(rt, alloc, core, before.as_slice());
}

/// Row `stale-ticket`.
#[test]
fn refuses_a_stale_ticket(rt: HostRuntime) {
    let hasher = RandomState::new(&rt).expect(&rt, "a seed");
    let mut core = clock_and_uart(&rt, rt.alloc(), hasher);
    a_stale_ticket_is_refused(&rt, rt.alloc(), &mut core);
}

fn the_uart_waits(rt: &impl Abort, core: &mut Core) {
    let (clk, uart) = (at(rt, core, b"/clk"), at(rt, core, b"/uart"));
    let ticket = begin(rt, core, uart);
    assert_eq!(rt; status(rt, core, uart), Status::Probing);
    let reply = finish(rt, core, &ticket, Report::Missing(clk));
    assert_eq!(rt; reply, Ok(Reply::Waiting));
    assert_eq!(rt; core.next(), Some(clk));
    assert!(rt; !core.is_quiet());
}

#[test]
fn defers(rt: HostRuntime) {
    let hasher = RandomState::new(&rt).expect(&rt, "a seed");
    let mut core = clock_and_uart(&rt, rt.alloc(), hasher);
    the_uart_waits(&rt, &mut core);
}

fn the_clock_has_settled(rt: &impl Abort, core: &mut Core) {
    let (clk, uart) = (at(rt, core, b"/clk"), at(rt, core, b"/uart"));
    core.check();
    assert!(rt; !core.is_bound(clk));
    binds(rt, core, clk);
    assert!(rt; core.is_bound(clk) && !core.is_bound(uart));
    let settled = [Settle {
        device: clk,
        outcome: Outcome::Bound,
    }];
    assert_eq!(rt; core.history(), settled.as_slice());
}

#[test]
fn tells_who_has_settled(rt: HostRuntime) {
    let hasher = RandomState::new(&rt).expect(&rt, "a seed");
    let mut core = clock_and_uart(&rt, rt.alloc(), hasher);
    the_clock_has_settled(&rt, &mut core);
}

// Both devices begun at once: the clock is bound before the uart's probe answers that it misses it.
fn the_uart_is_due_again(rt: &impl Abort, core: &mut Core) {
    let (clk, uart) = (at(rt, core, b"/clk"), at(rt, core, b"/uart"));
    let deferred = begin(rt, core, uart);
    let settled = begin(rt, core, clk);
    let bound = finish(rt, core, &settled, Report::Settled);
    assert_eq!(rt; bound, Ok(Reply::Bound));
    let again = finish(rt, core, &deferred, Report::Missing(clk));
    assert_eq!(rt; again, Ok(Reply::Again));
    assert_eq!(rt; core.next(), Some(uart));
}

fn is_abandoned(rt: &impl Abort, core: &mut Core, device: Device) {
    let _dropped = begin(rt, core, device);
    assert_eq!(rt; abandon(rt, core, device), Ok(()));
    assert_eq!(rt; status(rt, core, device), Status::Due);
}

fn binds(rt: &impl Abort, core: &mut Core, device: Device) {
    let ticket = begin(rt, core, device);
    let bound = finish(rt, core, &ticket, Report::Settled);
    assert_eq!(rt; bound, Ok(Reply::Bound));
}

fn the_uart_is_bound(rt: &impl Abort, core: &mut Core) {
    let uart = at(rt, core, b"/uart");
    is_abandoned(rt, core, uart);
    binds(rt, core, uart);
    assert!(rt; core.is_quiet() && core.is_bound(uart));
    assert_eq!(rt; core.history().len(), 2);
}

fn both_are_bound(rt: &impl Abort, core: &mut Core) {
    the_uart_is_due_again(rt, core);
    the_uart_is_bound(rt, core);
}

fn opened_if_there_is_memory(alloc: Global, hasher: RandomState, text: &[u8]) -> Option<Core> {
    let plan = read_plan(alloc, hasher, text).ok()?;
    Core::new(alloc, plan).ok()
}

// Once the core is made its events take no memory. Run with `--fail-alloc N`, which refuses the Nth request, this test
// finds the same answers unless that is one of the plan's or the core's.
#[test]
fn events_take_no_memory(rt: HostRuntime) {
    let text = CLOCK_AND_UART.as_bytes();
    let hasher = RandomState::new(&rt).expect(&rt, "a seed");
    if let Some(mut core) = opened_if_there_is_memory(rt.alloc(), hasher, text) {
        both_are_bound(&rt, &mut core);
    }
}

#[test]
fn laws_are_called() {
    events_keep_history();
    quiet_is_least();
    suppliers_come_first();
    quiet_report_is_the_end();
    end_report_is_one();
    replay_is_after();
    replay_keeps_history();
    replay_goes_on();
    replay_stops();
}
