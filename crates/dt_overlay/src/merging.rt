//! The fragments of an overlay, merged into the base.
ghost use Rattle.std.specs.Prelude.{◌≡◌, ◌+◌, OnOk, length};
ghost use Rattle.dt_live.specs.ByRow.{KeepsRows};
ghost use Rattle.dt_live.specs.Rows.{IsLiveTree, state_of};
ghost use Rattle.dt_live.specs.Flattened.{IsWhole};
ghost use Rattle.dt_overlay.specs.Private.Fragments.{AreItsFragments};
ghost use Rattle.dt_overlay.specs.Private.Merging.{AreKept, IsMergeable, MergesAll, MergesFragment};

use crate::fixup::{OverlayError, PatchedOverlay};
use crate::fragments::{Fragment, target_fault};
use crate::part::merge_part;
use dt_live::LiveTree;
use std::alloc::Global;

/// Merges all fragments into the base, in order. After a refusal the live tree is of no more use.
pub(crate) fn merge_fragments<'s, 't>(
    alloc: Global,
    live: &mut LiveTree<'s, &'s [u8]>,
    patched: &'s PatchedOverlay<'t>,
    list: &[Fragment],
) -> Result<(), OverlayError>
    requires base { IsWhole live.old }
    requires fragments { AreItsFragments live.old patched.now list.now }
    ensures whole { OnOk result (IsWhole live.new) }
    ensures merged { MergesAll patched.now live.old live.new result }
{
    patched.check();
    let mut base_nodes = vec![in alloc; 0; patched.nodes().len() + 1]?;
    for fragment in list {
        merge_fragment(live, patched, *fragment, base_nodes.as_mut_slice())?;
    }
    Ok(())
}

// Merges a fragment into the base's node that it targets. There is room for the base node of each node of the overlay.
fn merge_fragment<'s, 't>(
    live: &mut LiveTree<'s, &'s [u8]>,
    patched: &'s PatchedOverlay<'t>,
    fragment: Fragment,
    base_nodes: &mut [usize],
) -> Result<(), OverlayError>
    requires sound { IsLiveTree live.old }
    requires rows { IsMergeable patched.now.live live.old fragment }
    requires room { length base_nodes.old ≡ length patched.now.live.nodes.items + 1 }
    ensures sound { OnOk result (IsLiveTree live.new) }
    ensures kept { OnOk result (AreKept live.old live.new) }
    ensures rows { OnOk result (KeepsRows live.old live.new) }
    ensures labels { OnOk result ((state_of live.new).labels ≡ (state_of live.old).labels) }
    ensures merged { MergesFragment patched.now fragment live.old live.new result }
{
    match fragment.target {
        None => {
            let fragment = fragment.node;
            let fault = target_fault(patched, fragment);
            Err(OverlayError::NoTarget { fragment, fault })
        }
        Some(target) => {
            merge_part(live, patched, target, fragment.body, base_nodes)?;
            Ok(())
        }
    }
}
