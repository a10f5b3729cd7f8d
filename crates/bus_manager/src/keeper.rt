//! A core that keeps the events that it accepted.

ghost use Rattle.std.specs.Prelude.{◌≡◌, ◌<◌, ◌≤◌, ◌++◌, ◌∷◌, [], ℕ, false, true, nat_lt, length, vec_len, vec_capacity, MatchResult, IfOk, IfErr, OnOk, OnErr, IfNone, IfSome, None};
ghost use Rattle.std.specs.Result.{result_err};
ghost use Rattle.bus_plan.specs.LateDriver.{gaining};
ghost use Rattle.bus_plan.specs.Plan.{is_driver_name};
ghost use Rattle.bus_core.specs.Due.{is_due};
ghost use Rattle.bus_core.specs.Report.{report_text};
ghost use Rattle.bus_core.specs.History.{bound_in};
ghost use Rattle.bus_core.specs.Step.{begin_refusal, finish_refusal, IsReply, abandon_refusal, register_refusal, IsRefused};
ghost use Rattle.bus_core.specs.declared.refusal.Refusal.TheVariants.{NoMemory};
ghost use Rattle.bus_manager.specs.Keeper.{IsKept, first_keeper, finished_keeper, abandoned_keeper, registered_keeper, IsNoneDue, IsTaken, IsTakeRefused};
ghost use Rattle.bus_manager.specs.Private.Counts.{open_flights};
ghost use Rattle.bus_manager.specs.Private.Seen.{IsSeenAfter};
ghost use Rattle.bus_manager.specs.Seen.{sees};

use crate::seen::Seen;
use bus_core::{Compatibles, Core, Event, Refusal, Reply, Report, Ticket};
use bus_plan::{Device, MAX_DEVICES, Plan, copy_strings};
use dt_tree::{Bytes, Name};
use std::alloc::{AllocError, Global};
use std::marker::Model;

/// A core with the events that it accepted, of which it is the replay. It has room for the end of each open flight.
#[derive(Drop)]
pub struct Keeper {
    core: Core,
    events: Vec<Event>,
    // the devices that are bound, and how many flights are open
    bound: Seen,
    flying: usize,
}

impl Model for Keeper {
    ghost use Rattle.bus_manager.specs.Keeper.{KeeperValue};

    ghost Value = { KeeperValue };

    ghost use Rattle.bus_manager.specs.Private.KeeperView.{keeper_value, IsKeeper};

    ghost view = { keeper_value };

    ghost invariant = { IsKeeper };
}

impl Keeper {
    /// Nothing begun.
    pub fn new(alloc: Global, plan: Plan) -> Result<Keeper, Refusal>
        ensures { MatchResult result (λ keeper. keeper ≡ first_keeper plan) (λ refusal. refusal ≡ NoMemory) }
    {
        Ok(Keeper {
            core: Core::new(alloc, plan)?,
            events: Vec::new(alloc),
            bound: Seen::new(),
            flying: 0,
        })
    }

    /// Costs nothing: tells a caller's proof what holds of every keeper.
    pub fn check(&self)
        ensures { IsKept self.now }
    {
        let _ = &self.flying;
    }

    /// The core.
    pub fn core(&self) -> &Core
        ensures plan { result.now.plan ≡ self.now.plan }
        ensures state { result.now.state ≡ self.now.state }
    {
        &self.core
    }

    /// Begins a due device, if there is one, and gives its ticket with the devices that are bound now.
    pub fn take(&mut self) -> Result<Option<(Ticket, Seen)>, Refusal>
        ensures none { IfOk result (λ taken. IfNone taken (IsNoneDue self.old self.new)) }
        ensures some { IfOk result (λ taken. IfSome taken (λ t. IsTaken self.old self.new t.0 t.1)) }
        ensures refused { IfErr result (IsTakeRefused self.old) }
        ensures err { OnErr result (self.new ≡ self.old) }
    {
        let Some(device) = self.core.next() else {
            return Ok(None);
        };
        match self.begin_due(device) {
            Ok(taken) => Ok(Some(taken)),
            Err(refusal) => Err(refusal),
        }
    }

    fn begin_due(&mut self, device: Device) -> Result<(Ticket, Seen), Refusal>
        requires within { device < length self.old.plan }
        requires due { is_due self.old.plan self.old.state device ≡ true }
        ensures taken { IfOk result (λ t. IsTaken self.old self.new t.0 t.1) }
        ensures refused { IfErr result (IsTakeRefused self.old) }
        ensures err { OnErr result (self.new ≡ self.old) }
    {
        match self.core.begin_refusal(device) {
            Some(refusal) => Err(refusal),
            None => self.begin(device),
        }
    }

    // Begins a due device that isn't refused.
    fn begin(&mut self, device: Device) -> Result<(Ticket, Seen), Refusal>
        requires within { device < length self.old.plan }
        requires due { is_due self.old.plan self.old.state device ≡ true }
        requires allowed { begin_refusal self.old.plan self.old.state device ≡ None }
        ensures taken { IfOk result (λ t. IsTaken self.old self.new t.0 t.1) }
        ensures err { IfErr result (λ refusal. (refusal ≡ NoMemory) × (self.new ≡ self.old)) }
    {
        // room for this begin, and for the end of each flight, its own among them
        self.events.reserve(self.flying + 2)?;
        let ticket = self.core.begin(device)?;
        store(&mut self.events, Event::Begin(device));
        self.flying += 1;
        Ok((ticket, self.bound))
    }

    /// Ends the flight of the ticket by what its probe found. It takes no memory.
    pub fn finish(&mut self, ticket: &Ticket, report: Report) -> Result<Reply, Refusal>
        requires { ticket.now.device < length self.old.plan }
        ensures refused { result_err result ≡ finish_refusal self.old.plan self.old.state ticket.now report }
        ensures reply { IfOk result (IsReply self.new.plan self.new.state ticket.now.device report) }
        ensures finished { OnOk result (self.new ≡ finished_keeper self.old ticket.now.device report) }
        ensures err { OnErr result (self.new ≡ self.old) }
    {
        self.end(ticket, &report)
    }

    /// Drops the device's flight. It takes no memory.
    pub fn abandon(&mut self, device: Device) -> Result<(), Refusal>
        requires { device < length self.old.plan }
        ensures refused { result_err result ≡ abandon_refusal self.old.state device }
        ensures abandoned { OnOk result (self.new ≡ abandoned_keeper self.old device) }
        ensures err { OnErr result (self.new ≡ self.old) }
    {
        self.core.abandon(device)?;
        store(&mut self.events, Event::Abandon(device));
        self.flying -= 1;
        Ok(())
    }

    /// A driver comes late, by its name and the `compatible` strings that it matches: each available device without a
    /// driver that has one of them gets it, and is due. It tells how many did.
    pub fn register(
        &mut self,
        alloc: Global,
        name: &Name,
        compatibles: &[Bytes],
    ) -> Result<usize, Refusal>
        requires { is_driver_name name.now ≡ true }
        ensures refused { IfErr result (IsRefused (register_refusal self.old.plan self.old.state name.now)) }
        ensures allowed { OnOk result (register_refusal self.old.plan self.old.state name.now ≡ None) }
        ensures registered { OnOk result (self.new ≡ registered_keeper self.old name.now compatibles.now) }
        ensures gained { IfOk result (λ count. count ≡ gaining self.old.plan compatibles.now) }
        ensures err { OnErr result (self.new ≡ self.old) }
    {
        match self.core.register_refusal(name) {
            Some(refusal) => Err(refusal),
            None => self.add_driver(alloc, name, compatibles),
        }
    }

    // Registers a driver that isn't refused.
    fn add_driver(
        &mut self,
        alloc: Global,
        name: &Name,
        compatibles: &[Bytes],
    ) -> Result<usize, Refusal>
        requires named { is_driver_name name.now ≡ true }
        requires allowed { register_refusal self.old.plan self.old.state name.now ≡ None }
        ensures registered { OnOk result (self.new ≡ registered_keeper self.old name.now compatibles.now) }
        ensures gained { IfOk result (λ count. count ≡ gaining self.old.plan compatibles.now) }
        ensures err { IfErr result (λ refusal. (refusal ≡ NoMemory) × (self.new ≡ self.old)) }
    {
        let event = register_event(alloc, name, compatibles)?;
        // room for this event, and for the end of each flight
        self.events.reserve(self.flying + 1)?;
        let count = self.core.register(alloc, name, compatibles)?;
        append(&mut self.events, event);
        Ok(count)
    }

    /// The report text.
    pub fn report(&self, alloc: Global) -> Result<Vec<u8>, Refusal>
        ensures text { IfOk result (λ text. text.items ≡ report_text self.now.plan self.now.state) }
        ensures err { IfErr result (λ refusal. refusal ≡ NoMemory) }
    {
        self.core.report(alloc)
    }

    /// Whether a flight is open.
    pub(crate) fn is_flying(&self) -> bool
        ensures { result ≡ nat_lt 0 (open_flights self.now.state) }
    {
        self.flying > 0
    }

    /// The devices that are bound now.
    pub(crate) fn seen(&self) -> Seen
        ensures { (d : ℕ) → sees result d ≡ bound_in self.now.state.history d }
    {
        self.bound
    }

    fn end(&mut self, ticket: &Ticket, report: &Report) -> Result<Reply, Refusal>
        requires { ticket.now.device < length self.old.plan }
        ensures refused { result_err result ≡ finish_refusal self.old.plan self.old.state ticket.now report.now }
        ensures reply { IfOk result (IsReply self.new.plan self.new.state ticket.now.device report.now) }
        ensures finished { OnOk result (self.new ≡ finished_keeper self.old ticket.now.device report.now) }
        ensures err { OnErr result (self.new ≡ self.old) }
    {
        let reply = self.core.finish(ticket, *report)?;
        self.core.plan().check();
        note_reply(&mut self.bound, ticket.device, reply);
        append(&mut self.events, Event::Finish(ticket.device, *report));
        self.flying -= 1;
        Ok(reply)
    }
}

// The set of bound devices after a reply.
fn note_reply(bound: &mut Seen, device: Device, reply: Reply)
    requires { device < MAX_DEVICES }
    ensures { IsSeenAfter bound.old bound.new device reply }
{
    if matches!(reply, Reply::Bound) {
        bound.insert(device);
    }
}

/// One item more, in room that is there.
pub(crate) fn append<T: Drop>(items: &mut Vec<T>, item: T)
    requires { vec_len items.old < vec_capacity items.old }
    ensures items { items.new.items ≡ items.old.items ++ item ∷ [] }
    ensures room { vec_capacity items.old ≤ vec_capacity items.new }
{
    match items.push(item) {
        Ok(()) => {}
        Err(_) => unreachable!(),
    }
}

// The event of a driver that comes late.
fn register_event(alloc: Global, name: &Name, compatibles: &[Bytes]) -> Result<Event, AllocError>
    ensures { IfOk result (λ event. event ≡ Event.Register name.now compatibles.now) }
{
    let strings = copy_strings(alloc, compatibles)?;
    Ok(Event::Register(name.copy(alloc)?, Compatibles::new(strings)))
}

// One event more, in room that is there. The prover has to meet the type inside `Event` by name.
fn store(events: &mut Vec<Event>, event: Event)
    requires { vec_len events.old < vec_capacity events.old }
    ensures items { events.new.items ≡ events.old.items ++ event ∷ [] }
    ensures room { vec_capacity events.old ≤ vec_capacity events.new }
{
    let _report: Option<Report> = None;
    append(events, event);
}
