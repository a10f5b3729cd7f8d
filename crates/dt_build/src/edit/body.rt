//! The statements of a body.
ghost use Rattle.std.specs.Prelude.{◌≡◌, ◌≤◌, ◌<◌, ◌+◌, IfOk, OnOk, Some};
ghost use Rattle.dt_tree.specs.declared.limits.TheConstants.{MAX_DEPTH};
ghost use Rattle.dt_source.specs.TreeMeaning.Paths.{Path};
ghost use Rattle.dt_source.specs.Tree.{view};
ghost use Rattle.dt_live.specs.Index.{IsSetAt};
ghost use Rattle.dt_live.specs.Rows.{HasSamePropertyStamps, IsKept, child_path, child_stamp, node_path};
ghost use Rattle.dt_build.specs.Edit.FaultPlaces.{IsPlaced, Spotted, place_in, spot, spots};
ghost use Rattle.dt_build.specs.Edit.Private.Edited.{Admits, Does, IsEdited, IsPlace, IsPlacedIn, Passes, Tells, body_step, child_entry};
ghost use Rattle.dt_build.specs.Edit.Private.Made.{IsExact};

use crate::edit::error::{EditError, EditErrorKind};
use crate::edit::made::Made;
use dt_live::LiveTree;
use dt_source::{Statement, Value};
use dt_tree::MAX_DEPTH;
use std::alloc::AllocError;

/// Lets a child with its labels into the tree, unless this body has it already, or it can't stand there.
fn admit_child<'d, 't>(
    live: &mut LiveTree<'d, &'d Value<'t>>,
    made: &Made<'d>,
    node: usize,
    depth: usize,
    stamp: usize,
    at: u32,
    labels: &'d [&'t [u8]],
    name: &'t [u8],
) -> Result<usize, EditError>
    requires place { IsPlace live.old node depth }
    requires counted { stamp ≤ live.old.stamps }
    requires exact { IsExact made.now }
    ensures place { IfOk result (λ child. IsPlace live.new child (depth + 1)) }
    ensures count { OnOk result (live.new.stamps ≡ live.old.stamps) }
    ensures path { IfOk result (λ child. node_path live.new child ≡ child_path live.old node name.now) }
    ensures kept { OnOk result ((p : Path) → IsKept p live.old live.new) }
    ensures children { OnOk result (IsSetAt node name.now stamp (child_stamp live.old) (child_stamp live.new)) }
    ensures properties { OnOk result (HasSamePropertyStamps live.old live.new) }
    ensures shallow { OnOk result (depth < MAX_DEPTH) }
    ensures step { Admits labels.now name.now live.old live.new node stamp made.now result }
    ensures at { IsPlaced (Some at) result }
{
    // the live tree holds them for as long as it lives itself
    let name: &'d [u8] = name;
    let labels: &'d [&'d [u8]] = labels;
    let (child, first) = live.define_child(node, name, stamp, at)?;
    if let Err(error) = live.give_labels(labels, child) {
        return Err(EditError::of_label(error, at));
    }
    if !first {
        let kind = EditErrorKind::DuplicateInBody;
        return Err(EditError { kind, at });
    }
    if made.is_taken(node, name) {
        let kind = EditErrorKind::ReservedName;
        return Err(EditError { kind, at });
    }
    if depth >= MAX_DEPTH {
        let kind = EditErrorKind::TooDeep;
        return Err(EditError { kind, at });
    }
    Ok(child)
}

#[cycle(edits)]
fn edit_child<'d, 't>(
    live: &mut LiveTree<'d, &'d Value<'t>>,
    made: &Made<'d>,
    node: usize,
    depth: usize,
    stamp: usize,
    at: u32,
    labels: &'d [&'t [u8]],
    name: &'t [u8],
    body: &'d [Statement<'t>],
) -> Result<(), EditError>
    requires place { IsPlace live.old node depth }
    requires counted { stamp ≤ live.old.stamps }
    requires exact { IsExact made.now }
    ensures edited { OnOk result (IsEdited (node_path live.old node) live.old live.new) }
    ensures step { Passes (child_entry labels.now name.now body.now) live.old live.new node stamp made.now result }
    ensures at { Tells (child_entry labels.now name.now body.now)
        (Spotted at (spots body.now)) live.old node stamp made.now result }
{
    let child = admit_child(live, made, node, depth, stamp, at, labels, name)?;
    edit_body(live, made, child, depth + 1, body)?;
    Ok(())
}

#[cycle(edits)]
fn edit<'d, 't>(
    live: &mut LiveTree<'d, &'d Value<'t>>,
    made: &Made<'d>,
    node: usize,
    depth: usize,
    stamp: usize,
    statement: &'d Statement<'t>,
) -> Result<(), EditError>
    requires place { IsPlace live.old node depth }
    requires counted { stamp ≤ live.old.stamps }
    requires exact { IsExact made.now }
    ensures edited { OnOk result (IsEdited (node_path live.old node) live.old live.new) }
    ensures step { Passes (view statement.now) live.old live.new node stamp made.now result }
    ensures at { Tells (view statement.now) (spot statement.now) live.old node stamp made.now result }
{
    match statement {
        Statement::Property { name, value } => {
            if !live.set_property(node, *name, value, stamp)? {
                return Err(EditError {
                    kind: EditErrorKind::DuplicateInBody,
                    at: value.at,
                });
            }
            Ok(())
        }
        Statement::DeleteProperty { at: _, name } => {
            live.remove_property(node, *name);
            Ok(())
        }
        Statement::DeleteNode { at: _, name } => {
            live.remove_child(node, *name);
            Ok(())
        }
        Statement::Node {
            at,
            omit_if_no_ref: _,
            labels,
            name,
            body,
        } => {
            edit_child(
                live,
                made,
                node,
                depth,
                stamp,
                *at,
                labels.as_slice(),
                *name,
                body.as_slice(),
            )
        }
    }
}

/// Does what the statements of a body say to a node. After a refusal the live tree is of no more use.
#[cycle(edits)]
pub(crate) fn edit_body<'d, 't>(
    live: &mut LiveTree<'d, &'d Value<'t>>,
    made: &Made<'d>,
    node: usize,
    depth: usize,
    body: &'d [Statement<'t>],
) -> Result<(), EditError>
    requires place { IsPlace live.old node depth }
    requires exact { IsExact made.now }
    ensures edited { OnOk result (IsEdited (node_path live.old node) live.old live.new) }
    ensures body { Does (body_step body.now (node_path live.old node)) live.old made.now live.new made.now result }
    ensures at { IsPlacedIn (place_in body.now (node_path live.old node)) live.old made.now result }
{
    let stamp = match live.new_stamp() {
        Some(stamp) => stamp,
        // 2^64 bodies don't fit into memory
        None => return Err(EditError::from(AllocError)),
    };
    for statement in body {
        edit(live, made, node, depth, stamp, statement)?;
    }
    Ok(())
}
