//! The core.

ghost use Rattle.std.specs.Prelude.{◌≡◌, IfOk};
ghost use Rattle.bus_core.specs.CoreState.{first_core};
ghost use Rattle.bus_core.specs.History.{IsBusHistory};
ghost use Rattle.bus_core.specs.declared.refusal.Refusal.TheVariants.{NoMemory};
ghost use Rattle.std.specs.Prelude.{MatchResult, replicate, ◌≤◌, ℕ, [], false, length, slice_index_or, vec_capacity};
ghost use Rattle.bus_plan.specs.Plan.{is_matched};
ghost use Rattle.bus_core.specs.RefinementCounts.{supplier_counts};

use crate::counts::{matched_devices, supplier_counts};
use crate::device_set::DeviceSet;
use crate::phase::Phase;
use crate::refusal::Refusal;
use crate::settle::Settle;
use bus_plan::{PathIndex, Plan};
use std::alloc::{AllocError, Global};
use std::marker::Model;

/// A plan and what has happened to its devices: the phase of each, and the settled ones in their order. The rest saves
/// walks over the plan.
#[derive(Drop)]
pub struct Core {
    pub(crate) plan: Plan,
    pub(crate) phases: Vec<Phase>,
    pub(crate) history: Vec<Settle>,
    pub(crate) begins: u32,
    /// How many suppliers of each device aren't bound.
    pub(crate) missing: Vec<usize>,
    /// The devices whose probe is due.
    pub(crate) due: DeviceSet,
    /// How many flights are open.
    pub(crate) flights: usize,
    /// The names of the drivers that came late.
    pub(crate) registered: PathIndex,
}

impl Model for Core {
    ghost use Rattle.bus_core.specs.CoreState.{CoreValue};

    ghost Value = { CoreValue };

    ghost use Rattle.bus_core.specs.RefinementView.{core_value, IsKept};

    ghost view = { core_value };

    ghost invariant = { IsKept };
}

/// So many devices that were never begun.
fn fresh_phases(alloc: Global, count: usize) -> Result<Vec<Phase>, AllocError>
    ensures { IfOk result (λ phases. phases.items ≡ replicate count Phase.Fresh) }
{
    let mut phases = Vec::with_capacity(alloc, count)?;
    for _i in 0..count {
        phases.push(Phase::Fresh)?;
    }
    Ok(phases)
}

/// What a core keeps beside its plan: the settled devices, the phase of each, how many of its suppliers aren't bound, and
/// the devices that are due.
type Kept = (Vec<Settle>, Vec<Phase>, Vec<usize>, DeviceSet);

// What a core keeps before anything has begun. The plan is lent, so that no way out has to drop it.
fn first_kept(alloc: Global, plan: &Plan) -> Result<Kept, AllocError>
    ensures history { IfOk result (λ kept. kept.0.items ≡ []) }
    ensures room { IfOk result (λ kept. length plan.now ≤ vec_capacity kept.0) }
    ensures phases { IfOk result (λ kept. kept.1.items ≡ replicate (length plan.now) Phase.Fresh) }
    ensures missing { IfOk result (λ kept. kept.2.items ≡ supplier_counts plan.now) }
    ensures places { IfOk result (λ kept. length kept.3 ≡ length plan.now) }
    ensures due { IfOk result (λ kept. (d : ℕ) → slice_index_or kept.3 d false ≡ is_matched plan.now d) }
{
    let count = plan.len();
    let history = Vec::with_capacity(alloc, count)?;
    let phases = fresh_phases(alloc, count)?;
    let missing = supplier_counts(alloc, plan)?;
    let due = matched_devices(alloc, plan)?;
    Ok((history, phases, missing, due))
}

impl Core {
    /// Nothing begun. It makes the room for all settles, so that none of the devices' events takes memory.
    pub fn new(alloc: Global, plan: Plan) -> Result<Core, Refusal>
        ensures { MatchResult result (λ core. core ≡ first_core plan) (λ refusal. refusal ≡ NoMemory) }
    {
        match first_kept(alloc, &plan) {
            Ok((history, phases, missing, due)) => {
                let registered = PathIndex::new(alloc, plan.hasher());
                Ok(Core {
                    plan,
                    phases,
                    history,
                    begins: 0,
                    missing,
                    due,
                    flights: 0,
                    registered,
                })
            }
            Err(_) => Err(Refusal::NoMemory),
        }
    }

    /// The settled devices with their outcomes, in the order in which they settled.
    pub fn history(&self) -> &[Settle]
        ensures { result.now ≡ self.now.state.history }
    {
        self.history.as_slice()
    }

    /// Costs nothing: tells a caller's proof that the settled devices are a history of the sequential bus.
    pub fn check(&self)
        ensures { IsBusHistory self.now.plan self.now.state.history }
    {
        let _ = &self.phases;
    }

    /// The plan, with the drivers so far.
    pub fn plan(&self) -> &Plan
        ensures { result.now ≡ self.now.plan }
    {
        &self.plan
    }
}
