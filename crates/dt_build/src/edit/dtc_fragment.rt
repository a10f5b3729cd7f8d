//! The fragments that extensions of a plugin make, in dtc's language.
ghost use Rattle.std.specs.Prelude.{◌≡◌, ◌∷◌, ◌++◌, [], IfOk, OnOk, Some, true};
ghost use Rattle.dt_source.specs.TreeMeaning.Names.{overlay_name};
ghost use Rattle.dt_source.specs.TreeMeaning.Statements.{target_name, target_value};
ghost use Rattle.dt_source.specs.TreeMeaning.DtcEdits.{made_node, made_property};
ghost use Rattle.dt_source.specs.TreeMeaning.DtcStatements.{dtc_fragment};
ghost use Rattle.dt_source.specs.Tree.{target_view, views};
ghost use Rattle.dt_live.specs.Placed.PlacedTrees.{IsPlacedTree, IsStanding, node_path};
ghost use Rattle.dt_live.specs.Placed.PlacedEdits.{HasSameNodes, IsFresh, IsMade};
ghost use Rattle.dt_build.specs.Edit.DtcFaultPlaces.{dtc_fragment_place};
ghost use Rattle.dt_build.specs.Edit.EditFault.{Gives};
ghost use Rattle.dt_build.specs.Edit.FaultPlaces.{IsPlaced};
ghost use Rattle.dt_build.specs.Edit.Said.{pieces};
ghost use Rattle.dt_build.specs.Edit.Private.DtcEdited.{fragment_begun, placed_of};

use crate::edit::adding::target_name;
use crate::edit::dtc_body::edit_dtc_body;
use crate::edit::error::{EditError, EditErrorKind};
use dt_live::placed::PlacedTree;
use dt_source::{Reference, Statement, Value};

/// The node of a fragment, behind all that stands.
fn begin_fragment<'d, 't>(
    placed: &mut PlacedTree<'d, &'d Value<'t>>,
    at: u32,
    name: &'d [u8],
) -> Result<usize, EditError>
    requires sound { IsPlacedTree placed.old }
    ensures sound { OnOk result (IsPlacedTree placed.new) }
    ensures made { IfOk result (λ node. IsMade placed.new 0 node (name.now ∷ [])) }
    ensures fresh { IfOk result (IsFresh placed.new) }
    ensures begun { placed.new.begun ≡ placed.old.begun }
    ensures step { Gives (fragment_begun name.now (placed_of placed.old)) (λ _. placed_of placed.new) result }
    ensures at { IsPlaced (Some at) result }
{
    if placed.has_child(0, name) {
        let kind = EditErrorKind::DuplicateInBody;
        return Err(EditError { kind, at });
    }
    placed.count_fragment()?;
    match placed.make_node(0, name, at) {
        Ok(made) => Ok(made.node),
        Err(error) => Err(EditError::of_place(error, at)),
    }
}

/// What a fragment extends.
fn put_target<'d, 't>(
    placed: &mut PlacedTree<'d, &'d Value<'t>>,
    fragment: usize,
    at: u32,
    name: &'d [u8],
    value: &'d Value<'t>,
) -> Result<(), EditError>
    requires sound { IsPlacedTree placed.old }
    requires node { IsStanding placed.old fragment }
    ensures sound { OnOk result (IsPlacedTree placed.new) }
    ensures nodes { HasSameNodes placed.old placed.new }
    ensures begun { placed.new.begun ≡ placed.old.begun }
    ensures step { Gives (made_property true (node_path placed.old fragment) name.now (pieces value.entry)
        (placed_of placed.old)) (λ _. placed_of placed.new) result }
    ensures at { IsPlaced (Some at) result }
{
    match placed.new_property(fragment, name, value) {
        Ok(()) => Ok(()),
        Err(error) => Err(EditError::of_place(error, at)),
    }
}

/// The node of a fragment's overlay.
fn begin_overlay<'d, 't>(
    placed: &mut PlacedTree<'d, &'d Value<'t>>,
    fragment: usize,
    at: u32,
) -> Result<usize, EditError>
    requires sound { IsPlacedTree placed.old }
    requires node { IsStanding placed.old fragment }
    requires fresh { IsFresh placed.old fragment }
    ensures sound { OnOk result (IsPlacedTree placed.new) }
    ensures made { IfOk result (λ node. IsMade placed.new fragment node
        (node_path placed.old fragment ++ overlay_name ∷ [])) }
    ensures fresh { IfOk result (IsFresh placed.new) }
    ensures begun { placed.new.begun ≡ placed.old.begun }
    ensures step { Gives (made_node true (node_path placed.old fragment ++ overlay_name ∷ []) (placed_of placed.old))
        (λ _. placed_of placed.new) result }
    ensures at { IsPlaced (Some at) result }
{
    match placed.new_node(fragment, b"__overlay__".as_slice(), at) {
        Ok(overlay) => Ok(overlay),
        Err(error) => Err(EditError::of_place(error, at)),
    }
}

/// Makes the fragment of this name with what the body of its extension says.
pub(crate) fn add_dtc_fragment<'d, 't>(
    placed: &mut PlacedTree<'d, &'d Value<'t>>,
    name: &'d [u8],
    target: &'d Reference<'t>,
    value: &'d Value<'t>,
    body: &'d [Statement<'t>],
) -> Result<(), EditError>
    requires sound { IsPlacedTree placed.old }
    requires value { pieces value ≡ target_value (target_view target.now) }
    ensures sound { OnOk result (IsPlacedTree placed.new) }
    ensures begun { OnOk result (placed.new.begun ≡ placed.old.begun) }
    ensures item { Gives (dtc_fragment (target_view target.now) (views body.now) name.now (placed_of placed.old))
        (λ _. placed_of placed.new) result }
    ensures at { IsPlaced (dtc_fragment_place target.now body.now name.now (placed_of placed.old)) result }
{
    let fragment = begin_fragment(placed, target.at(), name)?;
    put_target(placed, fragment, target.at(), target_name(target), value)?;
    let overlay = begin_overlay(placed, fragment, target.at())?;
    edit_dtc_body(placed, true, overlay, 2, body)
}
