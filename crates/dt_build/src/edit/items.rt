//! The items of a source.
ghost use Rattle.std.specs.Prelude.{◌≡◌, ◌+◌, ◌≤◌, ◌∷◌, List, Some, length, map, OnOk};
ghost use Rattle.dt_source.specs.TreeMeaning.Syntax.{Edit};
ghost use Rattle.dt_source.specs.TreeMeaning.Statements.{after_item, after_items};
ghost use Rattle.dt_source.specs.Tree.{item_view, reference_at};
ghost use Rattle.dt_live.specs.Rows.{IsLiveTree, IsStamped};
ghost use Rattle.dt_build.specs.Edit.EditFault.{Shows};
ghost use Rattle.dt_build.specs.Edit.FaultPlaces.{IsPlaced, extension_place, item_place, items_place};
ghost use Rattle.dt_build.specs.Edit.Fragments.{AreFragments, target_values};
ghost use Rattle.dt_build.specs.declared.edit.made.Made.{Made};
ghost use Rattle.dt_build.specs.Edit.Private.Edited.{Does, IsPlacedIn, delete_step, extend_step};
ghost use Rattle.dt_build.specs.Edit.Private.Made.{IsExact};
ghost use Rattle.dt_build.specs.Edit.Private.Ready.{IsReady};
ghost use Rattle.dt_build.specs.Edit.Said.{tree_of};

use crate::edit::adding::{add_fragment, makes_fragment};
use crate::edit::body::edit_body;
use crate::edit::error::{EditError, EditErrorKind};
use crate::edit::fragments::Fragments;
use crate::edit::made::Made;
use crate::edit::targets::target_of;
use dt_live::LiveTree;
use dt_source::{Item, Labels, Reference, Statement, Value};
use std::alloc::Global;

fn delete<'d, 't>(
    live: &mut LiveTree<'d, &'d Value<'t>>,
    target: &'d Reference<'t>,
) -> Result<(), EditError>
    requires sound { IsLiveTree live.old }
    requires stamped { IsStamped live.old }
    ensures sound { OnOk result (IsLiveTree live.new) }
    ensures stamped { OnOk result (IsStamped live.new) }
    ensures item { (made : Made) → Does (delete_step target.now) live.old made live.new made result }
    ensures at { IsPlaced (Some (reference_at target.now)) result }
{
    let node = target_of(live, target)?;
    if node == 0 {
        return Err(EditError {
            kind: EditErrorKind::ReservedName,
            at: target.at(),
        });
    }
    live.remove_node(node);
    Ok(())
}

fn extend<'d, 't>(
    live: &mut LiveTree<'d, &'d Value<'t>>,
    made: &Made<'d>,
    labels: &'d Labels<'t>,
    target: &'d Reference<'t>,
    body: &'d [Statement<'t>],
) -> Result<(), EditError>
    requires sound { IsLiveTree live.old }
    requires stamped { IsStamped live.old }
    requires exact { IsExact made.now }
    ensures sound { OnOk result (IsLiveTree live.new) }
    ensures stamped { OnOk result (IsStamped live.new) }
    ensures item { Does (extend_step labels.now target.now body.now) live.old made.now live.new made.now result }
    ensures at { IsPlacedIn (extension_place labels.now target.now body.now) live.old made.now result }
{
    let node = target_of(live, target)?;
    if let Err(error) = live.give_labels(labels.as_slice(), node) {
        return Err(EditError::of_label(error, target.at()));
    }
    let depth = live.depth(node);
    edit_body(live, made, node, depth, body)
}

/// How many extensions an item is.
pub(crate) fn extensions_in<'t>(item: &Item<'t>) -> usize
    ensures count { result ≡ length (target_values (item_view item.now)) }
    ensures one { result ≤ 1 }
{
    match item {
        Item::Extend { .. } => 1,
        Item::Root { .. } | Item::Delete(_) | Item::Omit(_) => 0,
    }
}

fn edit_item<'d, 't>(
    live: &mut LiveTree<'d, &'d Value<'t>>,
    made: &mut Made<'d>,
    plugin: bool,
    fragments: &'d Fragments<'t>,
    extension: usize,
    item: &'d Item<'t>,
) -> Result<(), EditError>
    requires sound { IsLiveTree live.old }
    requires stamped { IsStamped live.old }
    requires exact { IsExact made.old }
    requires counted { made.old.count ≤ extension }
    requires ready { (rest : List Edit) × IsReady fragments.now extension (item_view item.now ∷ rest) }
    ensures sound { OnOk result (IsLiveTree live.new) }
    ensures stamped { OnOk result (IsStamped live.new) }
    ensures exact { OnOk result (IsExact made.new) }
    ensures counted { OnOk result (made.new.count ≤ extension + length (target_values (item_view item.now))) }
    ensures item { Does (after_item plugin (item_view item.now)) live.old made.old live.new made.new result }
    ensures at { IsPlacedIn (item_place plugin item.now) live.old made.old result }
{
    match item {
        Item::Root { at: _, body } => edit_body(live, made, 0, 0, body.as_slice()),
        Item::Delete(target) => delete(live, target),
        // the profile's grammar has no such item
        Item::Omit(_) => Ok(()),
        Item::Extend {
            labels,
            target,
            body,
        } => {
            if makes_fragment(plugin, live, labels, target) {
                let name = fragments.names[made.count].as_slice();
                let value = &fragments.targets[extension];
                add_fragment(live, made, name, target, value, body.as_slice())
            } else {
                extend(live, made, labels, target, body.as_slice())
            }
        }
    }
}

/// Does what the items of a source say, in their order. After a refusal the live tree is of no more use.
pub fn edit_items<'d, 't>(
    alloc: Global,
    live: &mut LiveTree<'d, &'d Value<'t>>,
    plugin: bool,
    fragments: &'d Fragments<'t>,
    items: &'d [Item<'t>],
) -> Result<(), EditError>
    requires sound { IsLiveTree live.old }
    requires stamped { IsStamped live.old }
    requires unmade { (tree_of live.old).fragments ≡ 0 }
    requires fragments { AreFragments (map item_view items.now) fragments.now }
    ensures sound { OnOk result (IsLiveTree live.new) }
    ensures stamped { OnOk result (IsStamped live.new) }
    ensures items { Shows (after_items plugin (map item_view items.now) (tree_of live.old)) live.new result }
    ensures at { IsPlaced (items_place plugin items.now (tree_of live.old)) result }
{
    let mut made = Made::new(alloc);
    let mut extensions = 0;
    for item in items {
        if let Err(error) = edit_item(live, &mut made, plugin, fragments, extensions, item) {
            return Err(error);
        }
        extensions += extensions_in(item);
    }
    Ok(())
}
