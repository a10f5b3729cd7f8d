//! A child in dtc's language: it is made or merged, marked and labelled.
ghost use Rattle.std.specs.Prelude.{◌≡◌, ◌+◌, ◌&&◌, IfOk, OnOk, Some, map, reverse, true};
ghost use Rattle.dt_source.specs.TreeMeaning.DtcEdits.{given_in_turn, made_node, with_labels_at, with_mark};
ghost use Rattle.dt_source.specs.TreeMeaning.DtcStatements.{is_first};
ghost use Rattle.dt_live.specs.Placed.PlacedTrees.{IsPlacedTree, IsStanding, child_path, node_path};
ghost use Rattle.dt_live.specs.Placed.PlacedEdits.{Grows, HasSameNodes, IsFresh, IsMade, Keeps};
ghost use Rattle.dt_build.specs.Edit.EditFault.{Gives};
ghost use Rattle.dt_build.specs.Edit.FaultPlaces.{IsPlaced};
ghost use Rattle.dt_build.specs.Edit.Private.DtcEdited.{IsDtcPlace, placed_of};

use crate::edit::error::EditError;
use dt_live::placed::{MadeNode, PlacedTree};
use dt_source::Value;
use std::alloc::AllocError;

/// Gives labels to a node, in their order; `at` is where the text has what they stand before.
pub(crate) fn give_labels<'d, 't>(
    placed: &mut PlacedTree<'d, &'d Value<'t>>,
    node: usize,
    labels: &[&'d [u8]],
    at: u32,
) -> Result<(), AllocError>
    requires sound { IsPlacedTree placed.old }
    requires node { IsStanding placed.old node }
    ensures sound { OnOk result (IsPlacedTree placed.new) }
    ensures nodes { OnOk result (HasSameNodes placed.old placed.new) }
    ensures begun { placed.new.begun ≡ placed.old.begun }
    ensures tree { OnOk result (placed_of placed.new ≡ with_labels_at (map (λ l. l.now) labels.now)
        (node_path placed.old node) (placed_of placed.old)) }
{
    for label in labels {
        placed.give_label(*label, node, at)?;
    }
    Ok(())
}

/// Gives labels to a node, the last one first.
fn give_labels_backwards<'d, 't>(
    placed: &mut PlacedTree<'d, &'d Value<'t>>,
    node: usize,
    labels: &[&'d [u8]],
    at: u32,
) -> Result<(), AllocError>
    requires sound { IsPlacedTree placed.old }
    requires node { IsStanding placed.old node }
    ensures sound { OnOk result (IsPlacedTree placed.new) }
    ensures nodes { OnOk result (HasSameNodes placed.old placed.new) }
    ensures begun { placed.new.begun ≡ placed.old.begun }
    ensures tree { OnOk result (placed_of placed.new ≡ with_labels_at (reverse (map (λ l. l.now) labels.now))
        (node_path placed.old node) (placed_of placed.old)) }
{
    for index in 0..labels.len() {
        placed.give_label(labels[labels.len() - 1 - index], node, at)?;
    }
    Ok(())
}

/// Marks a node, where `/omit-if-no-ref/` counts for it.
fn mark_child<'d, 't>(
    placed: &mut PlacedTree<'d, &'d Value<'t>>,
    node: usize,
    counts: bool,
) -> Result<(), AllocError>
    requires sound { IsPlacedTree placed.old }
    requires node { IsStanding placed.old node }
    ensures sound { OnOk result (IsPlacedTree placed.new) }
    ensures nodes { OnOk result (HasSameNodes placed.old placed.new) }
    ensures begun { placed.new.begun ≡ placed.old.begun }
    ensures tree { OnOk result (placed_of placed.new ≡ with_mark counts (node_path placed.old node)
        (placed_of placed.old)) }
{
    if !counts {
        return Ok(());
    }
    placed.mark(node)
}

/// Marks a child and gives it its labels: where it begins, the last of them comes first.
pub(crate) fn dress_child<'d, 't>(
    placed: &mut PlacedTree<'d, &'d Value<'t>>,
    made: MadeNode,
    omitted: bool,
    labels: &[&'d [u8]],
    at: u32,
) -> Result<(), AllocError>
    requires sound { IsPlacedTree placed.old }
    requires node { IsStanding placed.old made.node }
    ensures sound { OnOk result (IsPlacedTree placed.new) }
    ensures nodes { OnOk result (HasSameNodes placed.old placed.new) }
    ensures begun { placed.new.begun ≡ placed.old.begun }
    ensures tree { OnOk result (placed_of placed.new ≡ with_labels_at
        (given_in_turn made.begins (map (λ l. l.now) labels.now)) (node_path placed.old made.node)
        (with_mark (omitted && made.begins) (node_path placed.old made.node) (placed_of placed.old))) }
{
    mark_child(placed, made.node, omitted && made.begins)?;
    if made.begins {
        give_labels_backwards(placed, made.node, labels, at)
    } else {
        give_labels(placed, made.node, labels, at)
    }
}

/// Makes or merges a child of a node, in the body with which the node begins or in a later one.
pub(crate) fn make_child<'d, 't>(
    placed: &mut PlacedTree<'d, &'d Value<'t>>,
    first: bool,
    node: usize,
    depth: usize,
    at: u32,
    name: &'d [u8],
) -> Result<MadeNode, EditError>
    requires place { IsDtcPlace placed.old first node depth }
    ensures sound { OnOk result (IsPlacedTree placed.new) }
    ensures made { IfOk result (λ x. IsMade placed.new node x.node (child_path placed.old node name.now)) }
    ensures fresh { IfOk result (λ x. x.begins ≡ true → IsFresh placed.new x.node) }
    ensures keeps { OnOk result (Keeps node placed.old placed.new) }
    ensures grows { OnOk result (first ≡ true → Grows placed.old placed.new) }
    ensures begun { placed.new.begun ≡ placed.old.begun }
    ensures begins { IfOk result (λ x. x.begins ≡ is_first first (child_path placed.old node name.now)
        (placed_of placed.old)) }
    ensures step { Gives (made_node (is_first first (child_path placed.old node name.now) (placed_of placed.old))
        (child_path placed.old node name.now) (placed_of placed.old)) (λ _. placed_of placed.new) result }
    ensures at { IsPlaced (Some at) result }
{
    if first {
        match placed.new_node(node, name, at) {
            Ok(child) => {
                Ok(MadeNode {
                    node: child,
                    begins: true,
                })
            }
            Err(error) => Err(EditError::of_place(error, at)),
        }
    } else {
        match placed.make_node(node, name, at) {
            Ok(made) => Ok(made),
            Err(error) => Err(EditError::of_place(error, at)),
        }
    }
}
