//! The notes of a run: one place a device.

ghost use Rattle.std.specs.Prelude.{◌≡◌, ◌<◌, true, false, length, replicate, slice_set, IfOk, None};
ghost use Rattle.std.specs.List.{list_all};
ghost use Rattle.bus_core.specs.Report.{status_of};
ghost use Rattle.bus_plan.specs.Plan.{suppliers_of};
ghost use Rattle.bus_manager.specs.Notes.{has_settled, leaves_note};
ghost use Rattle.bus_manager.specs.Seen.{sees};
ghost use Rattle.bus_manager.specs.Private.Notes.{AreAttested, AreForced, AreNoted, AreNotes, IsNoted, IsShown};

use crate::keeper::Keeper;
use crate::prober::{Prober, probe};
use crate::seen::Seen;
use crate::worker::Noted;
use bus_core::Status;
use bus_plan::{Device, Plan};
use std::alloc::{AllocError, Global};

/// The end report of a run, and for each device its note where the report has it bound or failed and it hadn't settled before
/// the run.
#[derive(Drop)]
pub struct Ran<N> {
    pub report: Vec<u8>,
    pub notes: Vec<Option<N>>,
}

/// A place for each device, and no note.
pub fn no_notes<N: Drop>(alloc: Global, count: usize) -> Result<Vec<Option<N>>, AllocError>
    ensures { IfOk result (λ notes. notes.items ≡ replicate count None) }
{
    let mut notes = Vec::with_capacity(alloc, count)?;
    for _i in 0..count {
        notes.push(None)?;
    }
    Ok(notes)
}

/// Writes a device's place.
pub fn put<N: Drop>(notes: &mut Vec<Option<N>>, device: Device, note: Option<N>)
    requires { device < length notes.old.items }
    ensures { notes.new.items ≡ slice_set notes.old.items device note }
{
    notes[device.index()] = note;
}

/// The other notes go behind these, or are lost where memory for them is refused.
pub fn add_notes<P: Prober>(
    plan: &Plan,
    prober: &P,
    notes: &mut Vec<Noted<P::Note>>,
    mut found: Vec<Noted<P::Note>>,
)
    requires notes { AreAttested (P.attests prober.now plan.now) plan.now notes.old.items }
    requires found { AreAttested (P.attests prober.now plan.now) plan.now found.items }
    ensures { AreAttested (P.attests prober.now plan.now) plan.now notes.new.items }
{
    match notes.append(&mut found) {
        Ok(()) => {}
        Err(_) => {}
    }
}

/// Puts what the workers found into its places.
pub fn place_some<P: Prober>(
    plan: &Plan,
    prober: &P,
    notes: &mut Vec<Option<P::Note>>,
    mut found: Vec<Noted<P::Note>>,
)
    requires notes { AreNotes (P.attests prober.now plan.now) plan.now notes.old.items }
    requires found { AreAttested (P.attests prober.now plan.now) plan.now found.items }
    ensures { AreNotes (P.attests prober.now plan.now) plan.now notes.new.items }
{
    'placing: while let Some(noted) = found.pop() {
        place_one(plan, prober, notes, noted);
    }
}

fn place_one<P: Prober>(
    plan: &Plan,
    prober: &P,
    notes: &mut Vec<Option<P::Note>>,
    noted: Noted<P::Note>,
)
    requires notes { AreNotes (P.attests prober.now plan.now) plan.now notes.old.items }
    requires noted { IsShown (P.attests prober.now plan.now noted.device) plan.now noted.device noted.note }
    ensures { AreNotes (P.attests prober.now plan.now) plan.now notes.new.items }
{
    let Noted { device, note } = noted;
    if device.index() < plan.len() {
        put(notes, device, Some(note));
    }
}

/// Whether a run leaves a note of a device that ends with this status.
pub fn leaves_note(before: bool, status: Status) -> bool
    ensures { result ≡ leaves_note before status }
{
    if before {
        return false;
    }
    has_settled(status)
}

/// Whether it is bound or failed.
pub fn has_settled(status: Status) -> bool
    ensures { result ≡ has_settled status }
{
    matches!(status, Status::Bound | Status::Failed)
}

/// Leaves a note of a device that has settled by the run, by a probe of the bound devices where none came, and none of another.
pub fn settle_note<P: Prober>(
    plan: &Plan,
    prober: &P,
    notes: &mut Vec<Option<P::Note>>,
    device: Device,
    settled: bool,
    seen: &Seen,
)
    requires within { device < length plan.now }
    requires forced { AreForced plan.now (sees seen.now) }
    requires suppliers { settled ≡ true → list_all (sees seen.now) (suppliers_of plan.now device) ≡ true }
    requires notes { AreNotes (P.attests prober.now plan.now) plan.now notes.old.items }
    ensures notes { AreNotes (P.attests prober.now plan.now) plan.now notes.new.items }
    ensures noted { IsNoted settled notes.old.items notes.new.items device }
{
    if !settled {
        put(notes, device, None);
        return;
    }
    if notes[device.index()].is_some() {
        return;
    }
    let (_report, note) = probe(plan, prober, device, seen);
    put(notes, device, Some(note));
}

/// Leaves a note of each device that has settled.
pub fn settle_notes<P: Prober>(
    keeper: &Keeper,
    plan: &Plan,
    prober: &P,
    notes: &mut Vec<Option<P::Note>>,
)
    requires plan { keeper.now.plan ≡ plan.now }
    requires notes { AreNotes (P.attests prober.now plan.now) plan.now notes.old.items }
    ensures notes { AreNotes (P.attests prober.now plan.now) plan.now notes.new.items }
    ensures noted { AreNoted plan.now (λ d. false) (status_of plan.now keeper.now.state) notes.new.items }
{
    keeper.check();
    let seen = keeper.seen();
    for index in 0..plan.len() {
        let device = Device::new(index);
        let settled = has_settled(keeper.core().status(device));
        settle_note(plan, prober, notes, device, settled, &seen);
    }
}
