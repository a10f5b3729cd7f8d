//! The items of a source in dtc's language that name a node.
ghost use Rattle.std.specs.Prelude.{◌≡◌, IfOk, OnOk, Some, false, is_ok, not, true};
ghost use Rattle.dt_source.specs.TreeMeaning.DtcStatements.{begins_fragment, dtc_item};
ghost use Rattle.dt_source.specs.TreeMeaning.DtcEdits.{named_node};
ghost use Rattle.dt_source.specs.TreeMeaning.Syntax.{Deletes, OfLabel, Omits};
ghost use Rattle.dt_source.specs.Tree.{labels_view, reference_at, target_view, views};
ghost use Rattle.dt_live.specs.Placed.PlacedTrees.{IsPlacedTree};
ghost use Rattle.dt_build.specs.Edit.DtcFaultPlaces.{dtc_extension_place};
ghost use Rattle.dt_build.specs.Edit.EditFault.{Gives};
ghost use Rattle.dt_build.specs.Edit.FaultPlaces.{IsPlaced};
ghost use Rattle.dt_build.specs.Edit.Private.DtcEdited.{IsDtcReady, dtc_extended, placed_of};

use crate::edit::dtc_body::edit_dtc_body;
use crate::edit::dtc_child::give_labels;
use crate::edit::dtc_targets::dtc_target_of;
use crate::edit::error::{EditError, EditErrorKind};
use dt_live::placed::PlacedTree;
use dt_source::{Labels, Reference, Statement, Value};
use std::alloc::{AllocError, Global};
use std::hash::RandomState;

pub(crate) fn delete<'d, 't>(
    alloc: Global,
    hasher: RandomState,
    placed: &mut PlacedTree<'d, &'d Value<'t>>,
    target: &'d Reference<'t>,
) -> Result<(), EditError>
    requires ready { IsDtcReady placed.old }
    ensures sound { OnOk result (IsPlacedTree placed.new) }
    ensures begun { OnOk result (placed.new.begun ≡ true) }
    ensures item { Gives (dtc_item false (Deletes (target_view target.now)) (placed_of placed.old))
        (λ _. placed_of placed.new) result }
    ensures at { IsPlaced (Some (reference_at target.now)) result }
{
    let node = dtc_target_of(alloc, hasher, placed, target)?;
    if node == 0 {
        return Err(EditError {
            kind: EditErrorKind::ReservedName,
            at: target.at(),
        });
    }
    placed.remove_node(node);
    Ok(())
}

pub(crate) fn omit<'d, 't>(
    alloc: Global,
    hasher: RandomState,
    placed: &mut PlacedTree<'d, &'d Value<'t>>,
    target: &'d Reference<'t>,
) -> Result<(), EditError>
    requires ready { IsDtcReady placed.old }
    ensures sound { OnOk result (IsPlacedTree placed.new) }
    ensures begun { OnOk result (placed.new.begun ≡ true) }
    ensures item { Gives (dtc_item false (Omits (target_view target.now)) (placed_of placed.old))
        (λ _. placed_of placed.new) result }
    ensures at { IsPlaced (Some (reference_at target.now)) result }
{
    let node = dtc_target_of(alloc, hasher, placed, target)?;
    placed.mark(node)?;
    Ok(())
}

pub(crate) fn extend<'d, 't>(
    alloc: Global,
    hasher: RandomState,
    placed: &mut PlacedTree<'d, &'d Value<'t>>,
    labels: &'d Labels<'t>,
    target: &'d Reference<'t>,
    body: &'d [Statement<'t>],
) -> Result<(), EditError>
    requires ready { IsDtcReady placed.old }
    ensures sound { OnOk result (IsPlacedTree placed.new) }
    ensures begun { OnOk result (placed.new.begun ≡ true) }
    ensures item { Gives (dtc_extended (labels_view labels.now) (target_view target.now) (views body.now)
        (placed_of placed.old)) (λ _. placed_of placed.new) result }
    ensures at { IsPlaced (dtc_extension_place labels.now target.now body.now (placed_of placed.old)) result }
{
    let node = dtc_target_of(alloc, hasher, placed, target)?;
    let labels: &'d [&'d [u8]] = labels.as_slice();
    give_labels(placed, node, labels, target.at())?;
    let depth = placed.depth(node);
    edit_dtc_body(placed, false, node, depth, body)
}

/// Whether no node has a label.
fn is_unused<'d, 't>(
    alloc: Global,
    hasher: RandomState,
    placed: &PlacedTree<'d, &'d Value<'t>>,
    label: &'d [u8],
) -> Result<bool, AllocError>
    requires ready { IsDtcReady placed.now }
    ensures { IfOk result (λ unused. unused ≡ not (is_ok (named_node (OfLabel label.now) (placed_of placed.now)))) }
{
    let node = placed.labelled(alloc, hasher, label)?;
    Ok(node.is_none())
}

/// Whether an extension makes a fragment: in a plugin that of a path, or of a label that no node has, where it has no labels itself.
pub(crate) fn begins_fragment<'d, 't>(
    alloc: Global,
    hasher: RandomState,
    plugin: bool,
    placed: &PlacedTree<'d, &'d Value<'t>>,
    labels: &'d Labels<'t>,
    target: &'d Reference<'t>,
) -> Result<bool, AllocError>
    requires ready { IsDtcReady placed.now }
    ensures { IfOk result (λ begins. begins ≡ begins_fragment plugin (labels_view labels.now) (target_view target.now)
        (placed_of placed.now)) }
{
    if !plugin {
        return Ok(false);
    }
    if !labels.as_slice().is_empty() {
        return Ok(false);
    }
    match target {
        Reference::Path { .. } => Ok(true),
        Reference::Label { at: _, label } => is_unused(alloc, hasher, placed, *label),
    }
}
