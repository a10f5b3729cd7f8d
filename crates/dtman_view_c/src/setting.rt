//! Parts of values set in place.
ghost use Rattle.std.specs.Prelude.{◌≡◌, ◌+◌, ◌⊎◌, None, Some, length};
ghost use Rattle.dt_tree.specs.NodeData.{NodeData};
ghost use Rattle.dt_tree.specs.PathMap.{value_of};
ghost use Rattle.dt_blob.specs.declared.error.BlobError.{BlobError};
ghost use Rattle.dt_blob.specs.HeaderWords.{header_fault};
ghost use Rattle.dt_patch.specs.declared.view.view.View.{View};
ghost use Rattle.dt_patch.specs.Parts.{IsPartSet, part_fault};
ghost use Rattle.dt_patch.specs.View.Shows.{IsOver};
ghost use Rattle.dt_patch.specs.View.Standing.{HasNoNode, StandsAt};
ghost use Rattle.dtman_view_c.specs.Told.{bad_offset, done, edited, refused};

use crate::told::{ViewTold, done, unchanged};
use dt_patch::set_part;
use dt_patch::view::NodeOffset;

/// Sets a part of a value, from a place of it on, of a property of the node at an offset.
#[unsafe(no_mangle)]
pub extern "C" fn dtman_edit_set_part(
    blob: &mut [u8],
    node: usize,
    name: &[u8],
    index: usize,
    part: &[u8],
) -> ViewTold
    ensures set { result ≡ done 0 → IsPartSet blob.old node name.now index part.now blob.new }
    ensures fault { header_fault blob.old ≡ None → (view : View) (d : NodeData) → IsOver blob.old view → StandsAt view node d
        → result ≡ edited (part_fault (value_of d.properties name.now) (index + length part.now)) }
    ensures none { header_fault blob.old ≡ None → (view : View) → IsOver blob.old view → HasNoNode view node
        → result ≡ bad_offset }
    ensures header { (error : BlobError) → header_fault blob.old ≡ Some error → result ≡ refused error }
    ensures unchanged { (result ≡ done 0) ⊎ (blob.new ≡ blob.old) }
{
    match set_part(blob, NodeOffset { at: node }, name, index, part) {
        Ok(()) => done(0),
        Err(error) => unchanged(error),
    }
}
