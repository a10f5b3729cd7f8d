//! Properties and nodes that become NOPs.
ghost use Rattle.std.specs.Prelude.{◌≡◌, ◌⊎◌};
ghost use Rattle.dt_patch.specs.Nopping.{HasNode, HasProperty, IsNopped, RefusesNode, RefusesProperty};
ghost use Rattle.dtman_view_c.specs.Told.{IsRefusedSo, done};

use crate::told::{ViewTold, done, unchanged};
use dt_patch::view::{NodeOffset, PropertyOffset};
use dt_patch::{nop_node, nop_property};

/// Makes NOPs of the property that begins right at an offset.
#[unsafe(no_mangle)]
pub extern "C" fn dtman_edit_nop_property(blob: &mut [u8], property: usize) -> ViewTold
    ensures nopped { result ≡ done 0 → IsNopped HasProperty blob.old property blob.new }
    ensures fault { (result ≡ done 0) ⊎ IsRefusedSo (RefusesProperty blob.old property) result }
    ensures refused { (result ≡ done 0) ⊎ (blob.new ≡ blob.old) }
{
    match nop_property(blob, PropertyOffset { at: property }) {
        Ok(()) => done(0),
        Err(error) => unchanged(error),
    }
}

/// Makes NOPs of the node that begins right at an offset, with all below it.
#[unsafe(no_mangle)]
pub extern "C" fn dtman_edit_nop_node(blob: &mut [u8], node: usize) -> ViewTold
    ensures nopped { result ≡ done 0 → IsNopped HasNode blob.old node blob.new }
    ensures fault { (result ≡ done 0) ⊎ IsRefusedSo (RefusesNode blob.old node) result }
    ensures refused { (result ≡ done 0) ⊎ (blob.new ≡ blob.old) }
{
    match nop_node(blob, NodeOffset { at: node }) {
        Ok(()) => done(0),
        Err(error) => unchanged(error),
    }
}
