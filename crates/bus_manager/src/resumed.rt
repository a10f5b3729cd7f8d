//! A run that goes on from a core.

ghost use Rattle.std.specs.Prelude.{◌≡◌, ◌<◌, ℕ, false, length, IfOk, IfErr};
ghost use Rattle.bus_core.specs.History.{is_settled};
ghost use Rattle.bus_core.specs.Parting.{has_flight};
ghost use Rattle.bus_core.specs.declared.refusal.Refusal.TheVariants.{NoMemory};
ghost use Rattle.bus_manager.specs.Private.Resumed.{IsEased};
ghost use Rattle.bus_manager.specs.Private.Flying.{IsFree};
ghost use Rattle.bus_manager.specs.Run.{IsRunOf};
ghost use Rattle.bus_manager.specs.Seen.{sees};

use crate::boarded::run_opened;
use crate::notes::{Ran, has_settled};
use crate::prober::Prober;
use crate::seen::Seen;
use bus_board::{Board, Seat};
use bus_core::{Core, Refusal};
use bus_plan::{Device, Plan};
use std::alloc::Global;
use std::thread::Threads;

// Drops a device's flight, if it has one.
fn drop_flight(core: &mut Core, device: Device)
    requires { device < length core.old.plan }
    ensures { IsEased core.old core.new device }
{
    match core.abandon(device) {
        Ok(()) => {}
        Err(_) => {}
    }
}

// Drops all open flights.
fn drop_flights(core: &mut Core)
    ensures plan { core.new.plan ≡ core.old.plan }
    ensures history { core.new.state.history ≡ core.old.state.history }
    ensures landed { has_flight core.new.state ≡ false }
{
    for index in 0..core.plan().len() {
        drop_flight(core, Device::new(index));
    }
    core.check_flights();
}

// Whether the device has settled.
fn is_settled(core: &Core, device: Device) -> bool
    requires { device < length core.now.plan }
    ensures { result ≡ is_settled core.now.state.history device }
{
    has_settled(core.status(device))
}

// The devices that have settled.
fn settled_devices(core: &Core) -> Seen
    ensures { (d : ℕ) → d < length core.now.plan → sees result d ≡ is_settled core.now.state.history d }
{
    core.plan().check();
    let mut settled = Seen::new();
    for index in 0..core.plan().len() {
        let device = Device::new(index);
        settled.put(device, is_settled(core, device));
    }
    settled
}

// A board over a core without open flights, and a copy of its plan.
fn opened(alloc: Global, core: Core) -> Result<(Plan, (Board, Seat)), Refusal>
    requires { has_flight core.state ≡ false }
    ensures plan { IfOk result (λ r. r.0 ≡ core.plan) }
    ensures board { IfOk result (λ r. r.1.0.plan ≡ core.plan) }
    ensures own { IfOk result (λ r. IsFree r.1.0 r.1.1) }
    ensures err { IfErr result (λ refusal. refusal ≡ NoMemory) }
{
    let plan = core.plan().copy(alloc)?;
    match Board::open_core(alloc, core) {
        Ok(opened) => Ok((plan, opened)),
        Err((_core, refusal)) => Err(refusal),
    }
}

/// A run over a board that goes on from a core, whose open flights are dropped.
pub fn run_resumed<P: Prober, R: Threads + Sync>(
    rt: &R,
    alloc: Global,
    mut core: Core,
    prober: &P,
    workers: usize,
) -> Result<Ran<P::Note>, Refusal>
    ensures ran { IfOk result (λ ran. IsRunOf (P.attests prober.now core.plan) core ran.report.items ran.notes.items) }
    ensures err { IfErr result (λ refusal. refusal ≡ NoMemory) }
{
    drop_flights(&mut core);
    let before = settled_devices(&core);
    let (plan, opened) = opened(alloc, core)?;
    run_opened(rt, alloc, &plan, prober, &before, opened, workers)
}
