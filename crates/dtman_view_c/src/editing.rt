//! Changes of a blob in place.
ghost use Rattle.std.specs.Prelude.{◌≡◌, ◌⊎◌, length};
ghost use Rattle.dt_blob.specs.Holds.{Holds};
ghost use Rattle.dt_patch.specs.Adding.{HoldsWithNode, add_node_fault};
ghost use Rattle.dt_patch.specs.Removing.{HoldsWithoutNode, HoldsWithoutProperty, delete_node_fault, delete_property_fault};
ghost use Rattle.dt_patch.specs.Reserving.{reserve_fault, unreserve_fault, with_reservation, without_reservation};
ghost use Rattle.dt_patch.specs.Setting.{HoldsWith, change_fault, set_fault};
ghost use Rattle.dt_tree.specs.Path.{path_names};
ghost use Rattle.dt_tree.specs.TreeData.{TreeData};
ghost use Rattle.dtman_view_c.specs.Told.{done, edited};

use crate::told::{ViewTold, done, unchanged};
use dt_patch::{
    add_node, add_reservation, delete_node, delete_property, delete_reservation, set, set_in_place,
};

/// Sets a property of the node at a path to a value of the same length.
#[unsafe(no_mangle)]
pub extern "C" fn dtman_edit_set_in_place(
    blob: &mut [u8],
    path: &[u8],
    name: &[u8],
    value: &[u8],
) -> ViewTold
    ensures held { result ≡ done 0 → (tree : TreeData) → Holds blob.old tree
        → HoldsWith blob.new tree (path_names path.now) name.now value.now }
    ensures fault { (tree : TreeData) → Holds blob.old tree
        → result ≡ edited (set_fault blob.old tree path.now name.now (length value.now)) }
    ensures refused { (result ≡ done 0) ⊎ (blob.new ≡ blob.old) }
{
    match set_in_place(blob, path, name, value) {
        Ok(()) => done(0),
        Err(error) => unchanged(error),
    }
}

/// Sets a property of the node at a path to a value of any length.
#[unsafe(no_mangle)]
pub extern "C" fn dtman_edit_set(
    buffer: &mut [u8],
    path: &[u8],
    name: &[u8],
    value: &[u8],
) -> ViewTold
    ensures held { result ≡ done 0 → (tree : TreeData) → Holds buffer.old tree
        → HoldsWith buffer.new tree (path_names path.now) name.now value.now }
    ensures fault { (tree : TreeData) → Holds buffer.old tree
        → result ≡ edited (change_fault buffer.old tree path.now name.now (length value.now)) }
    ensures refused { (result ≡ done 0) ⊎ (buffer.new ≡ buffer.old) }
{
    match set(buffer, path, name, value) {
        Ok(()) => done(0),
        Err(error) => unchanged(error),
    }
}

/// Deletes a property of the node at a path.
#[unsafe(no_mangle)]
pub extern "C" fn dtman_edit_delete_property(blob: &mut [u8], path: &[u8], name: &[u8]) -> ViewTold
    ensures held { result ≡ done 0 → (tree : TreeData) → Holds blob.old tree
        → HoldsWithoutProperty blob.new tree (path_names path.now) name.now }
    ensures fault { (tree : TreeData) → Holds blob.old tree
        → result ≡ edited (delete_property_fault blob.old tree path.now name.now) }
    ensures refused { (result ≡ done 0) ⊎ (blob.new ≡ blob.old) }
{
    match delete_property(blob, path, name) {
        Ok(()) => done(0),
        Err(error) => unchanged(error),
    }
}

/// Adds an empty node of a name to the node at a path.
#[unsafe(no_mangle)]
pub extern "C" fn dtman_edit_add_node(buffer: &mut [u8], path: &[u8], name: &[u8]) -> ViewTold
    ensures held { result ≡ done 0 → (tree : TreeData) → Holds buffer.old tree
        → HoldsWithNode buffer.new tree (path_names path.now) name.now }
    ensures fault { (tree : TreeData) → Holds buffer.old tree
        → result ≡ edited (add_node_fault buffer.old tree path.now name.now) }
    ensures refused { (result ≡ done 0) ⊎ (buffer.new ≡ buffer.old) }
{
    match add_node(buffer, path, name) {
        Ok(()) => done(0),
        Err(error) => unchanged(error),
    }
}

/// Deletes the node at a path with all below it.
#[unsafe(no_mangle)]
pub extern "C" fn dtman_edit_delete_node(blob: &mut [u8], path: &[u8]) -> ViewTold
    ensures held { result ≡ done 0 → (tree : TreeData) → Holds blob.old tree
        → HoldsWithoutNode blob.new tree (path_names path.now) }
    ensures fault { (tree : TreeData) → Holds blob.old tree
        → result ≡ edited (delete_node_fault blob.old tree path.now) }
    ensures refused { (result ≡ done 0) ⊎ (blob.new ≡ blob.old) }
{
    match delete_node(blob, path) {
        Ok(()) => done(0),
        Err(error) => unchanged(error),
    }
}

/// Adds an address and a size to the reserved memory.
#[unsafe(no_mangle)]
pub extern "C" fn dtman_edit_reserve(buffer: &mut [u8], address: u64, size: u64) -> ViewTold
    ensures held { result ≡ done 0 → (tree : TreeData) → Holds buffer.old tree
        → Holds buffer.new (with_reservation (address, size) tree) }
    ensures fault { (tree : TreeData) → Holds buffer.old tree
        → result ≡ edited (reserve_fault buffer.old tree (address, size)) }
    ensures refused { (result ≡ done 0) ⊎ (buffer.new ≡ buffer.old) }
{
    match add_reservation(buffer, address, size) {
        Ok(()) => done(0),
        Err(error) => unchanged(error),
    }
}

/// Takes the reservation at a place out of the reserved memory.
#[unsafe(no_mangle)]
pub extern "C" fn dtman_edit_unreserve(blob: &mut [u8], index: usize) -> ViewTold
    ensures held { result ≡ done 0 → (tree : TreeData) → Holds blob.old tree
        → Holds blob.new (without_reservation index tree) }
    ensures fault { (tree : TreeData) → Holds blob.old tree
        → result ≡ edited (unreserve_fault blob.old tree index) }
    ensures refused { (result ≡ done 0) ⊎ (blob.new ≡ blob.old) }
{
    match delete_reservation(blob, index) {
        Ok(()) => done(0),
        Err(error) => unchanged(error),
    }
}
