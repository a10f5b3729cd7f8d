//! The events of devices. None takes memory: the room of every settle was made with the core.

ghost use Rattle.std.specs.Prelude.{◌≡◌, ◌<◌, length, IfOk, IfNone, OnOk, OnErr, vec_len, vec_capacity, ◌≤◌, ◌==◌, true, ◌++◌, ◌∷◌, [], Some, None};
ghost use Rattle.std.specs.List.{list_any};
ghost use Rattle.std.specs.Result.{result_err};
ghost use Rattle.bus_plan.specs.Plan.{verdict_of};
ghost use Rattle.bus_core.specs.CoreState.{flight_of, is_in_flight};
ghost use Rattle.bus_core.specs.Due.{is_idle};
ghost use Rattle.bus_core.specs.History.{outcome_by, bound_in};
ghost use Rattle.bus_core.specs.Limits.{begin_limit};
ghost use Rattle.bus_core.specs.Ready.{is_ready};
ghost use Rattle.bus_core.specs.Step.{begin_refusal, begun_core, next_ticket, finish_refusal, finished_core, IsReply, report_refusal, missing_refusal, abandon_refusal, landed_core, settled_reply, is_supplier, settled_at_begin, begins, finishes, abandons, step};

use crate::counts::lower;
use crate::event::{Reply, Report, Ticket};
use crate::limits::MAX_BEGINS;
use crate::phase::{Phase, is_matched, phase_of, was_bound};
use crate::refusal::Refusal;
use crate::room::push_in_room;
use crate::settle::{Outcome, Settle};
use crate::state::Core;
use bus_plan::{Device, Plan, Verdict};

// Whether a device is among another's suppliers, looked for in the shorter of the suppliers of the one and the consumers of
// the other.
fn is_supplier(plan: &Plan, device: Device, supplier: Device) -> bool
    requires { device < length plan.now }
    ensures { result ≡ is_supplier plan.now device supplier }
{
    plan.check();
    if supplier.index() >= plan.len() {
        return false;
    }
    let suppliers = plan.suppliers(device);
    let consumers = plan.consumers(supplier);
    if consumers.len() < suppliers.len() {
        return is_among(consumers, device);
    }
    is_among(suppliers, supplier)
}

fn is_among(devices: &[Device], device: Device) -> bool
    ensures { result ≡ list_any (λ d. d == device) devices.now }
{
    devices.iter().any(|other| other.index() == device.index())
}

impl Core {
    /// Begins a probe of the device: a flight that is open until it is finished or abandoned.
    pub fn begin(&mut self, device: Device) -> Result<Ticket, Refusal>
        requires { device < length self.old.plan }
        ensures refused { result_err result ≡ begin_refusal self.old.plan self.old.state device }
        ensures ticket { IfOk result (λ ticket. ticket ≡ next_ticket self.old.state device) }
        ensures begun { OnOk result (self.new ≡ begun_core self.old device) }
        ensures err { OnErr result (self.new ≡ self.old) }
        ensures step { self.new ≡ step self.old (begins device) }
    {
        match self.begin_refusal(device) {
            Some(refusal) => Err(refusal),
            None => Ok(self.open_flight(device)),
        }
    }

    /// Why the device can't begin, where it can't: it has no driver, it is in flight or settled, or the begins are used up.
    pub fn begin_refusal(&self, device: Device) -> Option<Refusal>
        requires { device < length self.now.plan }
        ensures refusal { result ≡ begin_refusal self.now.plan self.now.state device }
        ensures idle { IfNone result (is_idle self.now.state device ≡ true) }
        ensures few { IfNone result (self.now.state.begins < begin_limit) }
    {
        if !is_matched(&self.plan, device) {
            return Some(Refusal::Unmatched);
        }
        if !phase_of(&self.phases, device).is_idle() {
            return Some(Refusal::NotIdle);
        }
        if self.begins >= MAX_BEGINS {
            return Some(Refusal::TooManyEvents);
        }
        None
    }

    // The next flight, of an idle device.
    fn open_flight(&mut self, device: Device) -> Ticket
        requires within { device < length self.old.plan }
        requires idle { is_idle self.old.state device ≡ true }
        requires few { self.old.state.begins < begin_limit }
        ensures ticket { result ≡ next_ticket self.old.state device }
        ensures begun { self.new ≡ begun_core self.old device }
    {
        self.begins += 1;
        self.flights += 1;
        self.phases[device.index()] = Phase::InFlight(self.begins, self.history.len());
        self.due.remove(device);
        Ticket {
            device,
            attempt: self.begins,
        }
    }

    // Ends the flight of a device that doesn't settle.
    fn close_flight(&mut self, device: Device)
        requires within { device < length self.old.plan }
        requires flying { is_in_flight self.old.state device ≡ true }
        ensures { self.new ≡ landed_core self.old device }
    {
        let is_ready = self.is_ready(device);
        self.flights -= 1;
        self.phases[device.index()] = Phase::Begun;
        self.due.put(device, is_ready);
    }

    /// Drops the device's flight. The device counts as begun.
    pub fn abandon(&mut self, device: Device) -> Result<(), Refusal>
        requires { device < length self.old.plan }
        ensures refused { result_err result ≡ abandon_refusal self.old.state device }
        ensures abandoned { OnOk result (self.new ≡ landed_core self.old device) }
        ensures err { OnErr result (self.new ≡ self.old) }
        ensures step { self.new ≡ step self.old (abandons device) }
    {
        if !phase_of(&self.phases, device).is_in_flight() {
            return Err(Refusal::NotInFlight);
        }
        self.close_flight(device);
        Ok(())
    }

    /// Ends the flight of the ticket by what its probe found.
    pub fn finish(&mut self, ticket: &Ticket, report: Report) -> Result<Reply, Refusal>
        requires { ticket.now.device < length self.old.plan }
        ensures refused { result_err result ≡ finish_refusal self.old.plan self.old.state ticket.now report }
        ensures reply { IfOk result (IsReply self.new.plan self.new.state ticket.now.device report) }
        ensures finished { OnOk result (self.new ≡ finished_core self.old ticket.now.device report) }
        ensures err { OnErr result (self.new ≡ self.old) }
        ensures step { self.new ≡ step self.old (finishes ticket.now report) }
    {
        match phase_of(&self.phases, ticket.device) {
            Phase::InFlight(attempt, settled) if attempt == ticket.attempt => self.land(
                ticket.device,
                settled,
                report,
            ),
            _ => Err(Refusal::StaleTicket),
        }
    }

    /// Ends the flight of a device, which began when so many had settled.
    pub(crate) fn land(
        &mut self,
        device: Device,
        settled: usize,
        report: Report,
    ) -> Result<Reply, Refusal>
        requires within { device < length self.old.plan }
        requires flying { is_in_flight self.old.state device ≡ true }
        requires since { settled_at_begin (flight_of self.old.state device) ≡ settled }
        ensures refused { result_err result ≡ report_refusal self.old.plan self.old.state device report }
        ensures reply { IfOk result (IsReply self.new.plan self.new.state device report) }
        ensures finished { OnOk result (self.new ≡ finished_core self.old device report) }
        ensures err { OnErr result (self.new ≡ self.old) }
    {
        match report {
            Report::Settled => self.settle(device),
            Report::Missing(supplier) => self.defer(device, settled, supplier),
        }
    }

    fn settle(&mut self, device: Device) -> Result<Reply, Refusal>
        requires within { device < length self.old.plan }
        requires flying { is_in_flight self.old.state device ≡ true }
        ensures refused { result_err result ≡ report_refusal self.old.plan self.old.state device Report.Settled }
        ensures reply { IfOk result (λ reply. reply ≡ settled_reply (outcome_by (verdict_of self.old.plan device))) }
        ensures finished { OnOk result (self.new ≡ finished_core self.old device Report.Settled) }
        ensures err { OnErr result (self.new ≡ self.old) }
    {
        if !self.is_ready(device) {
            return Err(Refusal::NotReady);
        }
        match self.plan.verdict(device) {
            Verdict::Binds => {
                self.bind(device);
                Ok(Reply::Bound)
            }
            Verdict::Fails => {
                self.fail(device);
                Ok(Reply::Failed)
            }
        }
    }

    // Settles a ready device whose driver binds it.
    fn bind(&mut self, device: Device)
        requires within { device < length self.old.plan }
        requires flying { is_in_flight self.old.state device ≡ true }
        requires ready { is_ready self.old.plan (bound_in self.old.state.history) device ≡ true }
        requires binds { verdict_of self.old.plan device ≡ Verdict.Binds }
        ensures { self.new ≡ finished_core self.old device Report.Settled }
    {
        self.plan.check();
        self.flights -= 1;
        self.phases[device.index()] = Phase::Bound(self.history.len());
        push_in_room(
            &mut self.history,
            Settle {
                device,
                outcome: Outcome::Bound,
            },
        );
        lower(
            &self.plan,
            &self.phases,
            &mut self.missing,
            &mut self.due,
            device,
        );
    }

    // Settles a ready device whose driver fails.
    fn fail(&mut self, device: Device)
        requires within { device < length self.old.plan }
        requires flying { is_in_flight self.old.state device ≡ true }
        requires ready { is_ready self.old.plan (bound_in self.old.state.history) device ≡ true }
        requires fails { verdict_of self.old.plan device ≡ Verdict.Fails }
        ensures { self.new ≡ finished_core self.old device Report.Settled }
    {
        self.flights -= 1;
        self.phases[device.index()] = Phase::Failed;
        push_in_room(
            &mut self.history,
            Settle {
                device,
                outcome: Outcome::Failed,
            },
        );
    }

    fn defer(&mut self, device: Device, settled: usize, supplier: Device) -> Result<Reply, Refusal>
        requires within { device < length self.old.plan }
        requires flying { is_in_flight self.old.state device ≡ true }
        requires since { settled_at_begin (flight_of self.old.state device) ≡ settled }
        ensures refused { result_err result ≡ missing_refusal self.old.plan self.old.state device supplier }
        ensures reply { IfOk result (IsReply self.new.plan self.new.state device (Report.Missing supplier)) }
        ensures finished { OnOk result (self.new ≡ landed_core self.old device) }
        ensures err { OnErr result (self.new ≡ self.old) }
    {
        if !is_supplier(&self.plan, device, supplier) {
            return Err(Refusal::WasBound);
        }
        if was_bound(&self.phases, supplier, settled) {
            return Err(Refusal::WasBound);
        }
        self.close_flight(device);
        if self.is_due(device) {
            return Ok(Reply::Again);
        }
        Ok(Reply::Waiting)
    }
}
