//! Where the value of a property stands.
ghost use Rattle.std.specs.Prelude.{◌≡◌, IfOk, MatchResult, None, Some, ℕ};
ghost use Rattle.dt_tree.specs.TreeData.{TreeData};
ghost use Rattle.dt_blob.specs.Holds.{Holds};
ghost use Rattle.dt_patch.specs.View.Placing.{IsPlaced};
ghost use Rattle.dt_patch.specs.View.Shows.{Views};
ghost use Rattle.dt_patch.specs.Private.Places.{IsNodeOf, IsPropertyOf, IsValuePlace};
ghost use Rattle.dt_patch.specs.Setting.{path_fault, set_fault, value_fault};

use crate::error::PatchError;
use crate::layout::ordered_structure;
use crate::view::{NodeOffset, PlacedProperty, View, ViewError, held_is_shown};
use dt_blob::BlobError;

/// The bytes of a property's token before its value.
pub(crate) const PROPERTY_HEAD: usize = 12;

pub(crate) fn node_place(view: &View<'_>, path: &[u8]) -> Result<NodeOffset, PatchError>
    ensures { (tree : TreeData) → Views view.now tree
        → MatchResult result (λ n. IsNodeOf view.now tree path.now n)
        (λ e. path_fault tree.root path.now ≡ Some e) }
{
    match view.find(path) {
        Ok(Some(node)) => Ok(node),
        Ok(None) => Err(PatchError::NoNode),
        Err(ViewError::BadPath) => Err(PatchError::BadPath),
        Err(ViewError::BadOffset) => Err(PatchError::Blob(BlobError::BadToken)),
    }
}

pub(crate) fn property_place<'a>(
    view: &View<'a>,
    path: &[u8],
    name: &[u8],
) -> Result<PlacedProperty<'a>, PatchError>
    ensures stands { (tree : TreeData) → Views view.now tree
        → MatchResult result (λ p. IsPropertyOf view.now tree path.now name.now p)
        (λ e. (size : ℕ) → value_fault tree.root path.now name.now size ≡ Some e) }
    ensures placed { IfOk result (λ p. IsPlaced view.now p name.now) }
{
    let node = node_place(view, path)?;
    match view.placed(node, name) {
        Ok(Some(place)) => Ok(place),
        Ok(None) => Err(PatchError::NoProperty),
        Err(_) => Err(PatchError::Blob(BlobError::BadToken)),
    }
}

/// Where a value of this size stands in the blob, which may be set to another of the same size.
pub(crate) fn value_place(
    blob: &[u8],
    path: &[u8],
    name: &[u8],
    size: usize,
) -> Result<usize, PatchError>
    ensures place { IfOk result (λ at. IsValuePlace blob.now path.now name.now size at) }
    ensures fault { (tree : TreeData) → Holds blob.now tree
        → MatchResult result (λ _. set_fault blob.now tree path.now name.now size ≡ None)
        (λ e. set_fault blob.now tree path.now name.now size ≡ Some e) }
{
    held_is_shown();
    let view = match View::over(blob) {
        Ok(view) => view,
        Err(error) => return Err(PatchError::Blob(error)),
    };
    let place = property_place(&view, path, name)?;
    if place.value.len() != size {
        return Err(PatchError::OtherLength);
    }
    let Some(reserved) = view.reserved_size() else {
        return Err(PatchError::Blob(BlobError::BadLayout));
    };
    let structure_at = ordered_structure(blob, reserved)?;
    Ok(structure_at + place.at + PROPERTY_HEAD)
}
