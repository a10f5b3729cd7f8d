//! What references name in the tree so far, in dtc's language.
ghost use Rattle.std.specs.Prelude.{◌≡◌, IfOk, OnOk, Some, true};
ghost use Rattle.dt_source.specs.TreeMeaning.DtcEdits.{named_node};
ghost use Rattle.dt_source.specs.TreeMeaning.Syntax.{OfLabel, OfPath};
ghost use Rattle.dt_source.specs.Tree.{reference_at, target_view};
ghost use Rattle.dt_live.specs.Placed.PlacedTrees.{IsStanding, node_path};
ghost use Rattle.dt_build.specs.Edit.EditFault.{Gives};
ghost use Rattle.dt_build.specs.Edit.FaultPlaces.{IsPlaced};
ghost use Rattle.dt_build.specs.Edit.Private.DtcEdited.{IsDtcReady, placed_of};

use crate::edit::error::{EditError, EditErrorKind};
use dt_live::placed::PlacedTree;
use dt_source::{Reference, Value};
use std::alloc::Global;
use std::hash::RandomState;

fn node_of_label<'d, 't>(
    alloc: Global,
    hasher: RandomState,
    placed: &PlacedTree<'d, &'d Value<'t>>,
    at: u32,
    label: &'d [u8],
) -> Result<usize, EditError>
    requires ready { IsDtcReady placed.now }
    ensures node { Gives (named_node (OfLabel label.now) (placed_of placed.now)) (node_path placed.now) result }
    ensures stands { IfOk result (IsStanding placed.now) }
    ensures begun { OnOk result (placed.now.begun ≡ true) }
    ensures at { IsPlaced (Some at) result }
{
    let found = placed.labelled(alloc, hasher, label)?;
    match found {
        Some(node) => Ok(node),
        None => Err(EditError {
            kind: EditErrorKind::UnknownLabel,
            at,
        }),
    }
}

fn node_of_path<'d, 't>(
    placed: &PlacedTree<'d, &'d Value<'t>>,
    at: u32,
    path: &'d [u8],
) -> Result<usize, EditError>
    requires ready { IsDtcReady placed.now }
    ensures node { Gives (named_node (OfPath path.now) (placed_of placed.now)) (node_path placed.now) result }
    ensures stands { IfOk result (IsStanding placed.now) }
    ensures begun { OnOk result (placed.now.begun ≡ true) }
    ensures at { IsPlaced (Some at) result }
{
    match placed.at_path(path) {
        Some(node) => Ok(node),
        None => Err(EditError {
            kind: EditErrorKind::UnknownPath,
            at,
        }),
    }
}

/// The node that a reference names.
pub(crate) fn dtc_target_of<'d, 't>(
    alloc: Global,
    hasher: RandomState,
    placed: &PlacedTree<'d, &'d Value<'t>>,
    target: &'d Reference<'t>,
) -> Result<usize, EditError>
    requires ready { IsDtcReady placed.now }
    ensures node { Gives (named_node (target_view target.now) (placed_of placed.now)) (node_path placed.now) result }
    ensures stands { IfOk result (IsStanding placed.now) }
    ensures begun { OnOk result (placed.now.begun ≡ true) }
    ensures at { IsPlaced (Some (reference_at target.now)) result }
{
    match target {
        Reference::Label { at, label } => node_of_label(alloc, hasher, placed, *at, *label),
        Reference::Path { at, path } => node_of_path(placed, *at, *path),
    }
}
