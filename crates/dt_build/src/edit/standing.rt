//! What stands when a source in dtc's language is read.
ghost use Rattle.dt_source.specs.Meaning.{meaning_of};
ghost use Rattle.dt_live.specs.Placed.PlacedTrees.{IsPlacedTree};
ghost use Rattle.dt_build.specs.Edit.DtcFaultPlaces.{IsDtcPlaced};
ghost use Rattle.dt_build.specs.Edit.Fragments.{AreFragments};
ghost use Rattle.dt_build.specs.Edit.Private.AllRead.{Leaves};
ghost use Rattle.dt_build.specs.Edit.Private.DtcEdited.{placed_of};
ghost use Rattle.dt_build.specs.Edit.Standing.{Edits};

use crate::edit::boot_processor::boot_processor;
use crate::edit::dtc_items::edit_dtc_items;
use crate::edit::error::EditError;
use crate::edit::fragments::Fragments;
use dt_live::LiveTree;
use dt_live::placed::PlacedTree;
use dt_source::{Source, Value};
use std::alloc::Global;
use std::hash::RandomState;

/// What stands when a source in dtc's language is read: the tree in the order of its places, its labels in the order of the symbols;
/// of each node, by its number in the tree, whether `/omit-if-no-ref/` counts for it and whether it ever had a label; and the processor
/// on which the system boots, where the command line names none.
#[derive(Drop)]
pub struct Standing<'d, 't> {
    pub live: LiveTree<'d, &'d Value<'t>>,
    pub marked: Vec<bool>,
    pub labelled: Vec<bool>,
    pub boot_processor: u32,
}

// What a tree of dtc's language leaves, unless a label stands at two nodes.
fn standing_of<'d, 't>(
    alloc: Global,
    hasher: RandomState,
    placed: &PlacedTree<'d, &'d Value<'t>>,
) -> Result<Standing<'d, 't>, EditError>
    requires { IsPlacedTree placed.now }
    ensures { Leaves (placed_of placed.now) result }
{
    match placed.stand(alloc, hasher) {
        Ok(shown) => {
            let marked = placed.marked(alloc, &shown)?;
            let labelled = placed.ever_labelled(alloc, &shown)?;
            let boot_processor = boot_processor(alloc, placed)?;
            Ok(Standing {
                live: shown.live,
                marked,
                labelled,
                boot_processor,
            })
        }
        Err(error) => Err(EditError::of_stand(error)),
    }
}

/// Does what the items of a source in dtc's language say, in their order: what stands when all is read, or the first fault. A label
/// at two nodes is one, once all is read.
pub fn edit_dtc<'d, 't>(
    alloc: Global,
    hasher: RandomState,
    fragments: &'d Fragments<'t>,
    source: &'d Source<'t>,
) -> Result<Standing<'d, 't>, EditError>
    requires { AreFragments (meaning_of source.now).items fragments.now }
    ensures all { Edits (meaning_of source.now) result }
    ensures at { IsDtcPlaced source.now result }
{
    let items = source.items.as_slice();
    match edit_dtc_items(alloc, hasher, source.plugin, fragments, items) {
        Ok(placed) => standing_of(alloc, hasher, &placed),
        Err(error) => Err(error),
    }
}
