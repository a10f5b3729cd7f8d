//! The plan of a blob and a driver file, from bytes to bytes.
ghost use Rattle.std.specs.Prelude.{◌≡◌, Some, IfOk, IfErr};
ghost use Rattle.dt_tree.specs.TreeData.{TreeData};
ghost use Rattle.dt_blob.specs.declared.error.BlobError.{BlobError};
ghost use Rattle.dt_blob.specs.HeaderWords.{header_fault};
ghost use Rattle.dt_blob.specs.Holds.{Holds};
ghost use Rattle.bus_plan.specs.PlanFile.{Answers};
ghost use Rattle.bus_plan.specs.PlanText.{text_of};
ghost use Rattle.dtman_engine.specs.declared.culprit.BlobRole.TheVariants.{Sole};
ghost use Rattle.dtman_engine.specs.Culprit.{IsOfNoBlob, Places};
ghost use Rattle.dtman_engine.specs.Fault.{Tells, fault_value};
ghost use Rattle.dtman_engine.specs.BlobFaults.{blob_fault};
ghost use Rattle.dtman_engine.specs.Plan.{planning, IsPlanned, IsPlanText, IsPlanRefusal, Plans, PrintsPlan};
ghost use Rattle.dtman_engine.specs.Private.Printing.{Prints};

use crate::culprit::BlobRole;
use crate::fault::Fault;
use crate::reading::tree_of;
use bus_drivers::{PlanFault, plan, read_drivers};
use bus_plan::{Plan, plan_text};
use dt_tree::Tree;
use std::alloc::Global;
use std::hash::RandomState;

/// The plan of the tree that a blob holds, by the drivers of a file.
///
/// The blob's fault comes first, then the driver file's with its line, then the plan's.
pub fn planned(
    alloc: Global,
    hasher: RandomState,
    blob: &[u8],
    drivers: &[u8],
) -> Result<Plan, Fault>
    ensures answer { IfOk result (IsPlanned blob.now drivers.now) }
    ensures held { (tree : TreeData) → Holds blob.now tree → Plans tree drivers.now result }
    ensures refused { IfErr result (λ fault. IsPlanRefusal blob.now drivers.now (fault_value fault)) }
    ensures header { (e : BlobError) → header_fault blob.now ≡ Some e → Tells result (blob_fault e) }
    // The word of the bytes at which they are refused is told.
    ensures word { IfErr result (Places Sole blob.now) }
{
    let tree = tree_of(alloc, BlobRole::Sole, blob)?;
    match plan_tree(alloc, hasher, &tree, drivers) {
        Ok(plan) => Ok(plan),
        Err(refused) => Err(Fault::from(refused)),
    }
}

fn plan_tree(
    alloc: Global,
    hasher: RandomState,
    tree: &Tree,
    drivers: &[u8],
) -> Result<Plan, PlanFault>
    ensures { Answers (planning tree.now drivers.now) result }
{
    let drivers = read_drivers(alloc, hasher, drivers)?;
    plan(alloc, hasher, tree, &drivers)
}

/// The text of the plan of the tree that a blob holds, by the drivers of a file. A plan file's reader takes it.
pub fn plan_bytes(
    alloc: Global,
    hasher: RandomState,
    blob: &[u8],
    drivers: &[u8],
) -> Result<Vec<u8>, Fault>
    // What is printed is the plan of a tree that the bytes hold.
    ensures answer { IfOk result (λ text. IsPlanText blob.now drivers.now text.items) }
    // The plan of a tree that the bytes hold is printed, or its first fault told.
    ensures held { (tree : TreeData) → Holds blob.now tree → PrintsPlan tree drivers.now result }
    // Each refusal has its reason in the bytes.
    ensures refused { IfErr result (λ fault. IsPlanRefusal blob.now drivers.now (fault_value fault)) }
    // A fault of the header comes before all else.
    ensures header { (e : BlobError) → header_fault blob.now ≡ Some e → Tells result (blob_fault e) }
    // The word of the bytes at which they are refused is told.
    ensures word { IfErr result (Places Sole blob.now) }
{
    let plan = planned(alloc, hasher, blob, drivers)?;
    text_of(alloc, &plan)
}

fn text_of(alloc: Global, plan: &Plan) -> Result<Vec<u8>, Fault>
    ensures made { Prints (text_of plan.now) result }
    ensures word { IfErr result (λ fault. IsOfNoBlob fault.culprit) }
{
    match plan_text(alloc, plan) {
        Ok(text) => Ok(text),
        Err(_) => Err(Fault::no_memory()),
    }
}
