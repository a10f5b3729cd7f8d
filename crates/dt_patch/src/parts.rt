//! Parts of values set in place, of nodes by their offsets.
ghost use Rattle.std.specs.Prelude.{◌≡◌, ◌+◌, Err, IfOk, MatchResult, None, OnErr, OnOk, Some, length};
ghost use Rattle.dt_tree.specs.NodeData.{NodeData};
ghost use Rattle.dt_tree.specs.PathMap.{value_of};
ghost use Rattle.dt_blob.specs.declared.error.BlobError.{BlobError};
ghost use Rattle.dt_blob.specs.HeaderWords.{header_fault};
ghost use Rattle.dt_patch.specs.declared.view.view.View.{View};
ghost use Rattle.dt_patch.specs.Parts.{IsPartSet, part_fault};
ghost use Rattle.dt_patch.specs.Private.PartPlaces.{IsOwn, IsPartAt, IsPartOf};
ghost use Rattle.dt_patch.specs.View.Placing.{IsPlaced};
ghost use Rattle.dt_patch.specs.View.Shows.{IsOver};
ghost use Rattle.dt_patch.specs.View.Standing.{HasNoNode, StandsAt};

use crate::bytes::put;
use crate::error::PatchError;
use crate::layout::structure_at;
use crate::placing::PROPERTY_HEAD;
use crate::view::{NodeOffset, PlacedProperty, View};

/// The property of a name of the node at an offset.
fn placed<'a>(
    view: &View<'a>,
    node: NodeOffset,
    name: &[u8],
) -> Result<PlacedProperty<'a>, PatchError>
    ensures placed { IfOk result (λ p. IsPlaced view.now p name.now) }
    ensures own { IfOk result (λ p. IsOwn view.now node.at name.now p.at) }
    ensures stands { (d : NodeData) → StandsAt view.now node.at d
        → MatchResult result (λ p. value_of d.properties name.now ≡ Some p.value.now)
        (λ e. (e ≡ PatchError.NoProperty) × (value_of d.properties name.now ≡ None)) }
    ensures none { HasNoNode view.now node.at → result ≡ Err PatchError.BadOffset }
{
    match view.placed(node, name) {
        Ok(Some(place)) => Ok(place),
        Ok(None) => Err(PatchError::NoProperty),
        Err(_) => Err(PatchError::BadOffset),
    }
}

/// The same, where its value has a part of this size from a place on.
fn part_of<'a>(
    view: &View<'a>,
    node: NodeOffset,
    name: &[u8],
    index: usize,
    size: usize,
) -> Result<PlacedProperty<'a>, PatchError>
    ensures found { IfOk result (λ p. IsPartOf view.now node.at name.now index size p) }
    ensures fault { (d : NodeData) → StandsAt view.now node.at d
        → MatchResult result (λ _. part_fault (value_of d.properties name.now) (index + size) ≡ None)
        (λ e. part_fault (value_of d.properties name.now) (index + size) ≡ Some e) }
    ensures none { HasNoNode view.now node.at → result ≡ Err PatchError.BadOffset }
{
    let place = placed(view, node, name)?;
    if place.value.len() < size {
        return Err(PatchError::OtherLength);
    }
    if place.value.len() - size < index {
        return Err(PatchError::OtherLength);
    }
    Ok(place)
}

/// Where that part stands in a blob.
fn part_place(
    blob: &[u8],
    node: NodeOffset,
    name: &[u8],
    index: usize,
    size: usize,
) -> Result<usize, PatchError>
    ensures place { IfOk result (λ at. IsPartAt blob.now node.at name.now index size at) }
    ensures fault { header_fault blob.now ≡ None → (view : View) (d : NodeData) → IsOver blob.now view → StandsAt view node.at d
        → MatchResult result (λ _. part_fault (value_of d.properties name.now) (index + size) ≡ None)
        (λ e. part_fault (value_of d.properties name.now) (index + size) ≡ Some e) }
    ensures none { header_fault blob.now ≡ None → (view : View) → IsOver blob.now view → HasNoNode view node.at
        → result ≡ Err PatchError.BadOffset }
    ensures header { (error : BlobError) → header_fault blob.now ≡ Some error → result ≡ Err (PatchError.Blob error) }
{
    let view = match View::over(blob) {
        Ok(view) => view,
        Err(error) => return Err(PatchError::Blob(error)),
    };
    let place = part_of(&view, node, name, index, size)?;
    Ok(structure_at(blob) + place.at + PROPERTY_HEAD + index)
}

/// Sets a part of a value, from a place of it on, of the property of this name of the node at an offset: in place, nothing moves
/// (Devicetree Specification v0.4, section 5.4.1). A few words of the header are tested, and the node's properties are read up to this one.
///
/// Fails with `Blob`, the header's first fault, or with `BadOffset`, `NoProperty`, or `OtherLength` where the value ends before the part
/// does; the blob is then as it was. Where no node of a tree stands at the offset, a value that looks like one may be taken for one.
pub fn set_part(
    blob: &mut [u8],
    node: NodeOffset,
    name: &[u8],
    index: usize,
    part: &[u8],
) -> Result<(), PatchError>
    // The part stands in the value, and no other byte is another.
    ensures set { OnOk result (IsPartSet blob.old node.at name.now index part.now blob.new) }
    // Where a node stands at the offset each refusal has its reason, and each reason is told.
    ensures fault { header_fault blob.old ≡ None → (view : View) (d : NodeData) → IsOver blob.old view → StandsAt view node.at d
        → MatchResult result (λ _. part_fault (value_of d.properties name.now) (index + length part.now) ≡ None)
        (λ e. part_fault (value_of d.properties name.now) (index + length part.now) ≡ Some e) }
    // Where none begins there, this is told.
    ensures none { header_fault blob.old ≡ None → (view : View) → IsOver blob.old view → HasNoNode view node.at
        → result ≡ Err PatchError.BadOffset }
    ensures header { (error : BlobError) → header_fault blob.old ≡ Some error → result ≡ Err (PatchError.Blob error) }
    ensures refused { OnErr result (blob.new ≡ blob.old) }
{
    let at = part_place(blob, node, name, index, part.len())?;
    put(blob, at, part);
    Ok(())
}
