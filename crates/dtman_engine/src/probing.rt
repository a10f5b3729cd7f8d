//! The devices of a blob probed by workers, from bytes to the end report.
ghost use Rattle.std.specs.Prelude.{◌≡◌, Some, IfOk, IfErr};
ghost use Rattle.dt_tree.specs.TreeData.{TreeData};
ghost use Rattle.dt_blob.specs.declared.error.BlobError.{BlobError};
ghost use Rattle.dt_blob.specs.HeaderWords.{header_fault};
ghost use Rattle.dt_blob.specs.Holds.{Holds};
ghost use Rattle.dtman_engine.specs.declared.culprit.BlobRole.TheVariants.{Sole};
ghost use Rattle.dtman_engine.specs.Culprit.{Places, IsOfNoBlob};
ghost use Rattle.dtman_engine.specs.Fault.{Tells, fault_value};
ghost use Rattle.dtman_engine.specs.BlobFaults.{blob_fault};
ghost use Rattle.dtman_engine.specs.Probe.{IsProbe, IsProbeRefusal, Probes};
ghost use Rattle.dtman_engine.specs.RunFaults.{AreTooMany};
ghost use Rattle.dtman_engine.specs.Private.Running.{Runs};

use crate::fault::Fault;
use crate::planning::planned;
use bus_manager::{Prober, Ran, run};
use bus_plan::Plan;
use std::alloc::Global;
use std::hash::RandomState;
use std::thread::Threads;

/// Plans a blob by the drivers of a file, and probes its devices by so many workers, 1 to 64.
///
/// The faults of `plan_bytes` come first, then `TooManyWorkers`.
pub fn probe_bytes<P: Prober, R: Threads + Sync>(
    rt: &R,
    alloc: Global,
    hasher: RandomState,
    blob: &[u8],
    drivers: &[u8],
    prober: &P,
    workers: usize,
) -> Result<Ran<P::Note>, Fault>
    // The one end report of the plan of a tree that the bytes hold, with a note of each device that has settled.
    ensures answer { IfOk result (IsProbe (P.attests prober.now) blob.now drivers.now) }
    // The plan of a tree that the bytes hold is run, or its first fault told.
    ensures held { (t : TreeData) → Holds blob.now t → Probes (P.attests prober.now) t drivers.now workers result }
    // No run has no worker, or too many.
    ensures many { IfOk result (λ _. ¬ (AreTooMany workers)) }
    // Each refusal has its reason in the bytes or, where they have a plan, in the number of workers.
    ensures refused { IfErr result (λ fault. IsProbeRefusal blob.now drivers.now workers (fault_value fault)) }
    // A fault of the header comes before all else.
    ensures header { (e : BlobError) → header_fault blob.now ≡ Some e → Tells result (blob_fault e) }
    // The word of the bytes at which they are refused is told.
    ensures word { IfErr result (Places Sole blob.now) }
{
    let plan = planned(alloc, hasher, blob, drivers)?;
    plan_run(rt, alloc, &plan, prober, workers)
}

fn plan_run<P: Prober, R: Threads + Sync>(
    rt: &R,
    alloc: Global,
    plan: &Plan,
    prober: &P,
    workers: usize,
) -> Result<Ran<P::Note>, Fault>
    ensures run { Runs (P.attests prober.now plan.now) plan.now workers result }
    ensures many { IfOk result (λ _. ¬ (AreTooMany workers)) }
    ensures word { IfErr result (λ fault. IsOfNoBlob fault.culprit) }
{
    match run(rt, alloc, plan, prober, workers) {
        Ok(ran) => Ok(ran),
        Err(error) => Err(Fault::from(error)),
    }
}
