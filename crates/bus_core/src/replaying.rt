//! A plan's core after a schedule's events.

ghost use Rattle.std.specs.Prelude.{◌≡◌, ◌<◌, ◌⊎◌, length, All, IfOk, IfErr, OnOk, OnErr, Ok, Err, None};
ghost use Rattle.std.specs.Result.{result_err};
ghost use Rattle.bus_core.specs.Replay.{event_refusal, event_core, IsEventOf, replay_from, replay_of};
ghost use Rattle.bus_core.specs.Step.{IsRefused};
ghost use Rattle.bus_core.specs.declared.refusal.Refusal.TheVariants.{NoMemory};

use crate::event::{Event, Report};
use crate::phase::{Phase, phase_of};
use crate::refusal::Refusal;
use crate::state::Core;
use bus_plan::{Device, Plan};
use std::alloc::Global;

// What a replay answers of a refused event: its number, but none where memory was refused.
fn refused(number: usize, refusal: Refusal) -> (usize, Refusal)
    ensures memory { refusal ≡ NoMemory → result ≡ (0, NoMemory) }
    ensures event { (result ≡ (0, NoMemory)) ⊎ (result ≡ (number, refusal)) }
{
    match refusal {
        Refusal::NoMemory => (0, refusal),
        _ => (number, refusal),
    }
}

impl Core {
    // Ends the flight that the device has.
    fn finish_flight(&mut self, device: Device, report: Report) -> Result<(), Refusal>
        requires { device < length self.old.plan }
        ensures refused { result_err result ≡ event_refusal self.old (Event.Finish device report) }
        ensures taken { OnOk result (self.new ≡ event_core self.old (Event.Finish device report)) }
        ensures err { OnErr result (self.new ≡ self.old) }
    {
        match phase_of(&self.phases, device) {
            Phase::InFlight(_, settled) => match self.land(device, settled, report) {
                Ok(_) => Ok(()),
                Err(refusal) => Err(refusal),
            },
            _ => Err(Refusal::NotInFlight),
        }
    }

    // One event of a schedule.
    fn take(&mut self, alloc: Global, event: &Event) -> Result<(), Refusal>
        requires { IsEventOf self.old.plan event.now }
        ensures refused { IfErr result (IsRefused (event_refusal self.old event.now)) }
        ensures allowed { OnOk result (event_refusal self.old event.now ≡ None) }
        ensures taken { OnOk result (self.new ≡ event_core self.old event.now) }
        ensures err { OnErr result (self.new ≡ self.old) }
    {
        match event {
            Event::Begin(device) => match self.begin(*device) {
                Ok(_) => Ok(()),
                Err(refusal) => Err(refusal),
            },
            Event::Finish(device, report) => self.finish_flight(*device, *report),
            Event::Abandon(device) => self.abandon(*device),
            Event::Register(name, compatibles) => {
                match self.register(alloc, name, compatibles.as_slice()) {
                    Ok(_) => Ok(()),
                    Err(refusal) => Err(refusal),
                }
            }
        }
    }

    // All events of a schedule, or the number and the refusal of the first refused one.
    fn take_all(&mut self, alloc: Global, events: &[Event]) -> Result<(), (usize, Refusal)>
        requires { All (IsEventOf self.old.plan) events.now }
        ensures taken { OnOk result (replay_from 0 self.old events.now ≡ Ok self.new) }
        ensures refused { IfErr result (λ e. (e ≡ (0, NoMemory)) ⊎ (replay_from 0 self.old events.now ≡ Err e)) }
    {
        for (index, event) in events.iter().enumerate() {
            match self.take(alloc, event) {
                Ok(()) => {}
                Err(refusal) => return Err(refused(index + 1, refusal)),
            }
        }
        Ok(())
    }
}

/// The core after all events, or the number (from 1; 0 where memory was refused) and the refusal of the first refused
/// event.
pub fn replay(alloc: Global, plan: Plan, events: &[Event]) -> Result<Core, (usize, Refusal)>
    requires { All (IsEventOf plan) events.now }
    ensures replayed { IfOk result (λ core. replay_of plan events.now ≡ Ok core) }
    ensures refused { IfErr result (λ e. (e ≡ (0, NoMemory)) ⊎ (replay_of plan events.now ≡ Err e)) }
{
    let mut core = match Core::new(alloc, plan) {
        Ok(core) => core,
        Err(refusal) => return Err((0, refusal)),
    };
    match core.take_all(alloc, events) {
        Ok(()) => Ok(core),
        Err(refused) => Err(refused),
    }
}
