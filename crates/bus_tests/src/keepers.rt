//! A keeper by hand: what its probes see, and how its flights end.

ghost use Rattle.std.specs.Prelude.{◌<◌, length};

use bus_core::{MAX_BEGINS, Refusal, Reply, Report, Ticket};
use bus_manager::{Keeper, Prober, Seen, TableProber};
use bus_plan::{Device, read_plan};
use std::alloc::Global;
use std::hash::RandomState;
use std::process::Abort;

fn uart_and_clock(rt: &impl Abort, alloc: Global, hasher: RandomState) -> Keeper {
    let text = b"/uart ns ok /clk\n/clk fixed ok\n";
    let plan = read_plan(alloc, hasher, text).expect(rt, "a plan");
    Keeper::new(alloc, plan).expect(rt, "a keeper")
}

// The device at a path of the keeper's plan.
fn at(rt: &impl Abort, keeper: &Keeper, path: &[u8]) -> Device {
    keeper.core().plan().device(path).expect(rt, "a device")
}

fn take(rt: &impl Abort, keeper: &mut Keeper) -> (Ticket, Seen) {
    keeper
        .take()
        .expect(rt, "a take")
        .expect(rt, "a device due")
}

// The calls ask that a device is the plan's. The next three look before they call.
fn is_of_plan(rt: &impl Abort, keeper: &Keeper, device: Device)
    ensures { device < length keeper.now.plan }
{
    assert!(rt;
        device.index() < keeper.core().plan().len(),
        "not of the plan"
    );
}

fn finish(
    rt: &impl Abort,
    keeper: &mut Keeper,
    ticket: &Ticket,
    report: Report,
) -> Result<Reply, Refusal> {
    is_of_plan(rt, keeper, ticket.device);
    keeper.finish(ticket, report)
}

fn abandon(rt: &impl Abort, keeper: &mut Keeper, device: Device) -> Result<(), Refusal> {
    is_of_plan(rt, keeper, device);
    keeper.abandon(device)
}

fn probe(rt: &impl Abort, keeper: &Keeper, device: Device, seen: &Seen) -> (Report, Device) {
    is_of_plan(rt, keeper, device);
    TableProber.probe(keeper.core().plan(), device, seen)
}

fn first_probes_see_nothing(rt: &impl Abort, keeper: &mut Keeper) {
    let (uart, clk) = (at(rt, keeper, b"/uart"), at(rt, keeper, b"/clk"));
    keeper.check();
    let (_, seen) = take(rt, keeper);
    let (_, other) = take(rt, keeper);
    assert!(rt; keeper.take().expect(rt, "a take").is_none());
    assert!(rt; !seen.contains(clk) && !seen.contains(uart));
    assert!(rt; !other.contains(clk) && !other.contains(uart));
    let (report, note) = probe(rt, keeper, uart, &seen);
    assert_eq!(rt; report, Report::Missing(clk));
    assert_eq!(rt; note, uart);
}

// Both tickets, this device's first.
fn with_first(one: Ticket, other: Ticket, device: Device) -> (Ticket, Ticket) {
    if one.device == device {
        (one, other)
    } else {
        (other, one)
    }
}

// The replies to the first probes: the uart's, which misses the clock, and then the clock's.
fn first_replies(rt: &impl Abort, keeper: &mut Keeper, uart: Device, clk: Device) -> [Reply; 2] {
    let (one, _) = take(rt, keeper);
    let (other, _) = take(rt, keeper);
    let (needing, supplying) = with_first(one, other, uart);
    let waiting = finish(rt, keeper, &needing, Report::Missing(clk)).expect(rt, "a reply");
    let bound = finish(rt, keeper, &supplying, Report::Settled).expect(rt, "a reply");
    [waiting, bound]
}

fn the_second_probe_sees_the_clock(rt: &impl Abort, keeper: &mut Keeper) {
    let (uart, clk) = (at(rt, keeper, b"/uart"), at(rt, keeper, b"/clk"));
    let replies = first_replies(rt, keeper, uart, clk);
    assert_eq!(rt; replies, [Reply::Waiting, Reply::Bound]);
    let (again, seen) = take(rt, keeper);
    assert_eq!(rt; again.device, uart);
    assert!(rt; seen.contains(clk) && !seen.contains(uart));
    let (report, note) = probe(rt, keeper, uart, &seen);
    assert_eq!(rt; report, Report::Settled);
    assert_eq!(rt; note, uart);
}

fn the_flight_is_abandoned(rt: &impl Abort, keeper: &mut Keeper) {
    let uart = at(rt, keeper, b"/uart");
    let (again, _) = take(rt, keeper);
    assert_eq!(rt; abandon(rt, keeper, uart), Ok(()));
    let stale = finish(rt, keeper, &again, Report::Settled);
    assert_eq!(rt; stale, Err(Refusal::StaleTicket));
    assert_eq!(rt; abandon(rt, keeper, uart), Err(Refusal::NotInFlight));
}

fn the_last_flight_settles(rt: &impl Abort, alloc: Global, keeper: &mut Keeper) {
    let (last, _) = take(rt, keeper);
    let bound = finish(rt, keeper, &last, Report::Settled);
    assert_eq!(rt; bound, Ok(Reply::Bound));
    assert!(rt; keeper.core().is_quiet());
    let report = keeper.report(alloc).expect(rt, "a report");
    let end = b"/uart bound ns\n/clk bound fixed\nquiet\n".as_slice();
    assert_eq!(rt; report.as_slice(), end);
}

/// Both are taken, and neither probe sees the other's device bound.
#[test]
fn first_probes(rt: HostRuntime) {
    let hasher = RandomState::new(&rt).expect(&rt, "a seed");
    let mut keeper = uart_and_clock(&rt, rt.alloc(), hasher);
    first_probes_see_nothing(&rt, &mut keeper);
}

/// Once the clock is bound the uart's probe sees it.
#[test]
fn second_probe(rt: HostRuntime) {
    let hasher = RandomState::new(&rt).expect(&rt, "a seed");
    let mut keeper = uart_and_clock(&rt, rt.alloc(), hasher);
    the_second_probe_sees_the_clock(&rt, &mut keeper);
}

// A keeper whose clock is bound.
fn clock_bound(rt: &impl Abort, alloc: Global, hasher: RandomState) -> Keeper {
    let mut keeper = uart_and_clock(rt, alloc, hasher);
    bind_the_clock(rt, &mut keeper);
    keeper
}

fn bind_the_clock(rt: &impl Abort, keeper: &mut Keeper) {
    let (uart, clk) = (at(rt, keeper, b"/uart"), at(rt, keeper, b"/clk"));
    let _replies = first_replies(rt, keeper, uart, clk);
}

/// An abandoned flight's ticket is stale, and the device is due again.
#[test]
fn abandoned_flight(rt: HostRuntime) {
    let hasher = RandomState::new(&rt).expect(&rt, "a seed");
    let mut keeper = clock_bound(&rt, rt.alloc(), hasher);
    the_flight_is_abandoned(&rt, &mut keeper);
    the_last_flight_settles(&rt, rt.alloc(), &mut keeper);
}

// Begins the device that is due and drops its flight, unless memory is refused.
fn begins_in_vain(rt: &impl Abort, keeper: &mut Keeper) {
    match keeper.take() {
        Ok(taken) => {
            let (ticket, _) = taken.expect(rt, "a device due");
            assert_eq!(rt; abandon(rt, keeper, ticket.device), Ok(()));
        }
        Err(refusal) => assert_eq!(rt; refusal, Refusal::NoMemory),
    }
}

fn uses_up_its_begins(rt: &impl Abort, keeper: &mut Keeper) {
    for _begin in 0..MAX_BEGINS {
        begins_in_vain(rt, keeper);
    }
}

/// Once all begins are used up a due device is refused, time and again.
#[test]
fn begins_are_used_up(rt: HostRuntime) {
    let hasher = RandomState::new(&rt).expect(&rt, "a seed");
    let mut keeper = uart_and_clock(&rt, rt.alloc(), hasher);
    uses_up_its_begins(&rt, &mut keeper);
    for _take in 0..3 {
        let refusal = keeper.take().err().expect(&rt, "it began");
        assert_eq!(&rt; refusal, Refusal::TooManyEvents);
    }
    assert!(&rt; !keeper.core().is_quiet());
}
