//! The statements of a body in dtc's language.
ghost use Rattle.std.specs.Prelude.{◌≡◌, OnOk, Some};
ghost use Rattle.dt_source.specs.TreeMeaning.DtcEdits.{made_property, unmade_node, unmade_property};
ghost use Rattle.dt_source.specs.TreeMeaning.DtcStatements.{dtc_body, dtc_entry};
ghost use Rattle.dt_source.specs.Tree.{view, views};
ghost use Rattle.dt_live.specs.Placed.PlacedTrees.{child_path, node_path};
ghost use Rattle.dt_build.specs.Edit.DtcFaultPlaces.{dtc_entry_place, dtc_place_in};
ghost use Rattle.dt_build.specs.Edit.EditFault.{Gives};
ghost use Rattle.dt_build.specs.Edit.FaultPlaces.{IsPlaced, Spotted, spot, spots};
ghost use Rattle.dt_build.specs.Edit.Said.{pieces};
ghost use Rattle.dt_build.specs.Edit.Private.DtcEdited.{IsDtcEdited, IsDtcPlace, dtc_child, placed_of};

use crate::edit::dtc_child::{dress_child, make_child};
use crate::edit::error::{EditError, EditErrorKind};
use dt_live::placed::PlacedTree;
use dt_source::{Statement, Value};
use dt_tree::MAX_DEPTH;
use std::alloc::AllocError;

fn set_property<'d, 't>(
    placed: &mut PlacedTree<'d, &'d Value<'t>>,
    first: bool,
    node: usize,
    depth: usize,
    name: &'d [u8],
    value: &'d Value<'t>,
) -> Result<(), EditError>
    requires place { IsDtcPlace placed.old first node depth }
    ensures edited { OnOk result (IsDtcEdited first node placed.old placed.new) }
    ensures step { Gives (made_property first (node_path placed.old node) name.now (pieces value.entry)
        (placed_of placed.old)) (λ _. placed_of placed.new) result }
    ensures at { IsPlaced (Some value.now.at) result }
{
    if first {
        match placed.new_property(node, name, value) {
            Ok(()) => Ok(()),
            Err(error) => Err(EditError::of_place(error, value.at)),
        }
    } else {
        match placed.set_property(node, name, value) {
            Ok(()) => Ok(()),
            Err(error) => Err(EditError::of_place(error, value.at)),
        }
    }
}

fn remove_property<'d, 't>(
    placed: &mut PlacedTree<'d, &'d Value<'t>>,
    first: bool,
    node: usize,
    depth: usize,
    name: &'d [u8],
) -> Result<(), AllocError>
    requires place { IsDtcPlace placed.old first node depth }
    ensures edited { OnOk result (IsDtcEdited first node placed.old placed.new) }
    ensures step { OnOk result (placed_of placed.new ≡ unmade_property first (node_path placed.old node) name.now
        (placed_of placed.old)) }
{
    if first {
        return placed.reserve_property(node, name);
    }
    placed.remove_property(node, name);
    Ok(())
}

fn remove_child<'d, 't>(
    placed: &mut PlacedTree<'d, &'d Value<'t>>,
    first: bool,
    node: usize,
    depth: usize,
    at: u32,
    name: &'d [u8],
) -> Result<(), EditError>
    requires place { IsDtcPlace placed.old first node depth }
    ensures edited { OnOk result (IsDtcEdited first node placed.old placed.new) }
    ensures step { Gives (unmade_node first (child_path placed.old node name.now) (placed_of placed.old))
        (λ _. placed_of placed.new) result }
    ensures at { IsPlaced (Some at) result }
{
    if first {
        match placed.reserve_node(node, name) {
            Ok(()) => Ok(()),
            Err(error) => Err(EditError::of_place(error, at)),
        }
    } else {
        placed.remove_child(node, name);
        Ok(())
    }
}

#[cycle(dtc_edits)]
fn edit_dtc_child<'d, 't>(
    placed: &mut PlacedTree<'d, &'d Value<'t>>,
    first: bool,
    node: usize,
    depth: usize,
    at: u32,
    omitted: bool,
    labels: &'d [&'t [u8]],
    name: &'t [u8],
    body: &'d [Statement<'t>],
) -> Result<(), EditError>
    requires place { IsDtcPlace placed.old first node depth }
    ensures edited { OnOk result (IsDtcEdited first node placed.old placed.new) }
    ensures step { Gives (dtc_entry (dtc_child omitted labels.now name.now body.now) first (node_path placed.old node)
        (placed_of placed.old)) (λ _. placed_of placed.new) result }
    ensures at { IsPlaced (dtc_entry_place (dtc_child omitted labels.now name.now body.now)
        (Spotted at (spots body.now)) first (node_path placed.old node) (placed_of placed.old)) result }
{
    // the tree holds them for as long as it lives itself
    let name: &'d [u8] = name;
    let labels: &'d [&'d [u8]] = labels;
    if depth >= MAX_DEPTH {
        let kind = EditErrorKind::TooDeep;
        return Err(EditError { kind, at });
    }
    let made = make_child(placed, first, node, depth, at, name)?;
    dress_child(placed, made, omitted, labels, at)?;
    edit_dtc_body(placed, made.begins, made.node, depth + 1, body)
}

#[cycle(dtc_edits)]
fn edit_dtc<'d, 't>(
    placed: &mut PlacedTree<'d, &'d Value<'t>>,
    first: bool,
    node: usize,
    depth: usize,
    statement: &'d Statement<'t>,
) -> Result<(), EditError>
    requires place { IsDtcPlace placed.old first node depth }
    ensures edited { OnOk result (IsDtcEdited first node placed.old placed.new) }
    ensures step { Gives (dtc_entry (view statement.now) first (node_path placed.old node) (placed_of placed.old))
        (λ _. placed_of placed.new) result }
    ensures at { IsPlaced (dtc_entry_place (view statement.now) (spot statement.now) first (node_path placed.old node)
        (placed_of placed.old)) result }
{
    match statement {
        Statement::Property { name, value } => {
            set_property(placed, first, node, depth, *name, value)
        }
        Statement::DeleteProperty { at: _, name } => {
            remove_property(placed, first, node, depth, *name)?;
            Ok(())
        }
        Statement::DeleteNode { at, name } => remove_child(placed, first, node, depth, *at, *name),
        Statement::Node {
            at,
            omit_if_no_ref,
            labels,
            name,
            body,
        } => {
            edit_dtc_child(
                placed,
                first,
                node,
                depth,
                *at,
                *omit_if_no_ref,
                labels.as_slice(),
                *name,
                body.as_slice(),
            )
        }
    }
}

/// Does what the statements of a body say to a node, in dtc's language; `first` says that the node begins with it. After a refusal
/// the tree is of no more use.
#[cycle(dtc_edits)]
pub(crate) fn edit_dtc_body<'d, 't>(
    placed: &mut PlacedTree<'d, &'d Value<'t>>,
    first: bool,
    node: usize,
    depth: usize,
    body: &'d [Statement<'t>],
) -> Result<(), EditError>
    requires place { IsDtcPlace placed.old first node depth }
    ensures edited { OnOk result (IsDtcEdited first node placed.old placed.new) }
    ensures body { Gives (dtc_body (views body.now) first (node_path placed.old node) (placed_of placed.old))
        (λ _. placed_of placed.new) result }
    ensures at { IsPlaced (dtc_place_in body.now first (node_path placed.old node) (placed_of placed.old)) result }
{
    for statement in body {
        edit_dtc(placed, first, node, depth, statement)?;
    }
    Ok(())
}
