//! The items of a source in dtc's language.
ghost use Rattle.std.specs.Prelude.{◌≡◌, ◌≤◌, ◌∷◌, [], IfOk, List, OnOk, false, map, not, true};
ghost use Rattle.dt_source.specs.TreeMeaning.Syntax.{Edit, Rooted};
ghost use Rattle.dt_source.specs.TreeMeaning.DtcEdits.{node_has_place, nothing};
ghost use Rattle.dt_source.specs.TreeMeaning.DtcStatements.{dtc_item, dtc_items, with_root};
ghost use Rattle.dt_source.specs.Tree.{item_view, views};
ghost use Rattle.dt_live.specs.Placed.PlacedTrees.{IsPlacedTree};
ghost use Rattle.dt_live.specs.Placed.Tables.{rows_in};
ghost use Rattle.dt_build.specs.Edit.DtcFaultPlaces.{dtc_item_place, dtc_items_place, dtc_place_in};
ghost use Rattle.dt_build.specs.Edit.EditFault.{Gives};
ghost use Rattle.dt_build.specs.Edit.FaultPlaces.{IsPlaced};
ghost use Rattle.dt_build.specs.Edit.Fragments.{AreFragments};
ghost use Rattle.dt_build.specs.Edit.Private.DtcEdited.{IsDtcReady, placed_of};
ghost use Rattle.dt_build.specs.Edit.Private.Ready.{IsReady};

use crate::edit::dtc_body::edit_dtc_body;
use crate::edit::dtc_fragment::add_dtc_fragment;
use crate::edit::dtc_named::{begins_fragment, delete, extend, omit};
use crate::edit::error::EditError;
use crate::edit::fragments::Fragments;
use crate::edit::items::extensions_in;
use dt_live::placed::PlacedTree;
use dt_source::{Item, Statement, Value};
use std::alloc::Global;
use std::hash::RandomState;

/// Does what a body of the root says; the first one makes the root.
fn edit_dtc_root<'d, 't>(
    placed: &mut PlacedTree<'d, &'d Value<'t>>,
    body: &'d [Statement<'t>],
) -> Result<(), EditError>
    requires sound { IsPlacedTree placed.old }
    requires empty { placed.old.begun ≡ false → rows_in placed.old.nodes ≡ [] }
    ensures sound { OnOk result (IsPlacedTree placed.new) }
    ensures begun { OnOk result (placed.new.begun ≡ true) }
    ensures item { Gives (dtc_item false (Rooted (views body.now)) (placed_of placed.old))
        (λ _. placed_of placed.new) result }
    ensures at { IsPlaced (dtc_place_in body.now (not (node_has_place [] (placed_of placed.old))) []
        (with_root (placed_of placed.old))) result }
{
    let first = !placed.is_begun();
    placed.begin();
    edit_dtc_body(placed, first, 0, 0, body)
}

/// Does what an item says; `extension` counts the extensions before it.
fn edit_dtc_item<'d, 't>(
    alloc: Global,
    hasher: RandomState,
    placed: &mut PlacedTree<'d, &'d Value<'t>>,
    plugin: bool,
    fragments: &'d Fragments<'t>,
    extension: usize,
    item: &'d Item<'t>,
) -> Result<(), EditError>
    requires ready { IsDtcReady placed.old }
    requires counted { placed.old.fragments ≤ extension }
    requires fragments { (rest : List Edit) × IsReady fragments.now extension (item_view item.now ∷ rest) }
    ensures sound { OnOk result (IsPlacedTree placed.new) }
    ensures begun { OnOk result (placed.new.begun ≡ true) }
    ensures item { Gives (dtc_item plugin (item_view item.now) (placed_of placed.old))
        (λ _. placed_of placed.new) result }
    ensures at { IsPlaced (dtc_item_place plugin item.now (placed_of placed.old)) result }
{
    match item {
        Item::Root { at: _, body } => edit_dtc_root(placed, body.as_slice()),
        Item::Delete(target) => delete(alloc, hasher, placed, target),
        Item::Omit(target) => omit(alloc, hasher, placed, target),
        Item::Extend {
            labels,
            target,
            body,
        } => {
            let begins = begins_fragment(alloc, hasher, plugin, placed, labels, target)?;
            if begins {
                placed.begin();
                let made = placed.fragments();
                let name = fragments.names[made].as_slice();
                let value = &fragments.targets[extension];
                add_dtc_fragment(placed, name, target, value, body.as_slice())
            } else {
                extend(alloc, hasher, placed, labels, target, body.as_slice())
            }
        }
    }
}

/// The tree that the items of a source make, in their order.
pub(crate) fn edit_dtc_items<'d, 't>(
    alloc: Global,
    hasher: RandomState,
    plugin: bool,
    fragments: &'d Fragments<'t>,
    items: &'d [Item<'t>],
) -> Result<PlacedTree<'d, &'d Value<'t>>, EditError>
    requires fragments { AreFragments (map item_view items.now) fragments.now }
    ensures sound { IfOk result IsPlacedTree }
    ensures items { Gives (dtc_items plugin (map item_view items.now) nothing) placed_of result }
    ensures at { IsPlaced (dtc_items_place plugin items.now nothing) result }
{
    let mut placed = PlacedTree::new(alloc, hasher);
    let mut extensions = 0;
    for item in items {
        let edited = edit_dtc_item(
            alloc,
            hasher,
            &mut placed,
            plugin,
            fragments,
            extensions,
            item,
        );
        if let Err(error) = edited {
            return Err(error);
        }
        extensions += extensions_in(item);
    }
    Ok(placed)
}
