//! Properties and nodes taken out of a blob.
ghost use Rattle.std.specs.Prelude.{◌≡◌, IfOk, List, ℕ, [], MatchResult, None, Some, OnErr, OnOk, length};
ghost use Rattle.dt_tree.specs.Path.{path_names};
ghost use Rattle.dt_tree.specs.TreeData.{TreeData};
ghost use Rattle.dt_blob.specs.Holds.{Holds};
ghost use Rattle.dt_patch.specs.View.Shows.{Views};
ghost use Rattle.dt_patch.specs.Private.Cutting.{IsChange, Comes};
ghost use Rattle.dt_patch.specs.Private.Planning.{Lies};
ghost use Rattle.dt_patch.specs.Removing.{HoldsWithoutNode, HoldsWithoutProperty, IsWithoutNode, IsWithoutProperty, absence_fault, delete_node_fault, delete_property_fault, removal_fault};

use crate::error::PatchError;
use crate::placing::{node_place, property_place};
use crate::planning::plan_of;
use crate::splicing::{Plan, Span, splice};
use crate::view::{View, held_is_shown};
use dt_blob::BlobError;

/// Where the property of a name of the node at a path stands.
fn property_span(view: &View<'_>, path: &[u8], name: &[u8]) -> Result<Span, PatchError>
    ensures stands { (tree : TreeData) → Views view.now tree
        → MatchResult result (λ _. absence_fault tree.root path.now name.now ≡ None)
        (λ e. absence_fault tree.root path.now name.now ≡ Some e) }
    ensures turns { IfOk result (λ s. (bytes : List ℕ) (tree : TreeData) → Views view.now tree → Holds bytes tree
        → Comes (IsWithoutProperty (path_names path.now) name.now) view.now tree s []) }
    ensures inside { IfOk result (λ s. Lies view.now s) }
{
    let place = property_place(view, path, name)?;
    Ok(Span {
        at: place.at,
        next: place.next,
    })
}

/// The change that takes a property out.
fn property_plan(blob: &[u8], path: &[u8], name: &[u8]) -> Result<Plan, PatchError>
    ensures plan { IfOk result (λ p. IsChange (IsWithoutProperty (path_names path.now) name.now) blob.now p []) }
    ensures fault { (tree : TreeData) → Holds blob.now tree
        → MatchResult result (λ _. delete_property_fault blob.now tree path.now name.now ≡ None)
        (λ e. delete_property_fault blob.now tree path.now name.now ≡ Some e) }
{
    held_is_shown();
    let view = match View::over(blob) {
        Ok(view) => view,
        Err(error) => return Err(PatchError::Blob(error)),
    };
    let span = property_span(&view, path, name)?;
    plan_of(blob, &view, span)
}

/// Deletes the property of this name of the node at a path, in place. All else of the tree that the blob holds is as it was, and its name
/// stays in the strings. What stands behind the property is moved once.
///
/// Fails with `Blob`, the header's first fault, or with `BadPath`, `NoNode`, `NoProperty` or `Unordered`, the first of these; the blob is
/// then as it was. Bytes that hold no tree are changed somehow, or refused so.
pub fn delete_property(blob: &mut [u8], path: &[u8], name: &[u8]) -> Result<(), PatchError>
    // A tree that was held is held without the property.
    ensures held { OnOk result ((tree : TreeData) → Holds blob.old tree
        → HoldsWithoutProperty blob.new tree (path_names path.now) name.now) }
    // Of bytes that hold a tree each refusal has its reason, and each reason is told.
    ensures fault { (tree : TreeData) → Holds blob.old tree
        → MatchResult result (λ _. delete_property_fault blob.old tree path.now name.now ≡ None)
        (λ e. delete_property_fault blob.old tree path.now name.now ≡ Some e) }
    ensures refused { OnErr result (blob.new ≡ blob.old) }
    ensures size { length blob.new ≡ length blob.old }
{
    let plan = property_plan(blob, path, name)?;
    splice(blob, &plan, &[])
}

/// Where the node at a path stands, which isn't the root.
fn node_span(view: &View<'_>, path: &[u8]) -> Result<Span, PatchError>
    ensures stands { (tree : TreeData) → Views view.now tree
        → MatchResult result (λ _. removal_fault tree.root path.now ≡ None)
        (λ e. removal_fault tree.root path.now ≡ Some e) }
    ensures turns { IfOk result (λ s. (bytes : List ℕ) (tree : TreeData) → Views view.now tree → Holds bytes tree
        → Comes (IsWithoutNode (path_names path.now)) view.now tree s []) }
    ensures inside { IfOk result (λ s. Lies view.now s) }
{
    let node = node_place(view, path)?;
    if path.len() < 2 {
        return Err(PatchError::Root);
    }
    match view.behind(node) {
        Ok(next) => Ok(Span { at: node.at, next }),
        Err(_) => Err(PatchError::Blob(BlobError::BadToken)),
    }
}

/// The change that takes a node out.
fn node_plan(blob: &[u8], path: &[u8]) -> Result<Plan, PatchError>
    ensures plan { IfOk result (λ p. IsChange (IsWithoutNode (path_names path.now)) blob.now p []) }
    ensures fault { (tree : TreeData) → Holds blob.now tree
        → MatchResult result (λ _. delete_node_fault blob.now tree path.now ≡ None)
        (λ e. delete_node_fault blob.now tree path.now ≡ Some e) }
{
    held_is_shown();
    let view = match View::over(blob) {
        Ok(view) => view,
        Err(error) => return Err(PatchError::Blob(error)),
    };
    let span = node_span(&view, path)?;
    plan_of(blob, &view, span)
}

/// Deletes the node at a path with all below it, in place. All else of the tree that the blob holds is as it was. What stands behind the
/// node is moved once.
///
/// Fails with `Blob`, the header's first fault, or with `BadPath`, `Root`, `NoNode` or `Unordered`, the first of these; the blob is then
/// as it was. Bytes that hold no tree are changed somehow, or refused so.
pub fn delete_node(blob: &mut [u8], path: &[u8]) -> Result<(), PatchError>
    // A tree that was held is held without the node.
    ensures held { OnOk result ((tree : TreeData) → Holds blob.old tree
        → HoldsWithoutNode blob.new tree (path_names path.now)) }
    // Of bytes that hold a tree each refusal has its reason, and each reason is told.
    ensures fault { (tree : TreeData) → Holds blob.old tree
        → MatchResult result (λ _. delete_node_fault blob.old tree path.now ≡ None)
        (λ e. delete_node_fault blob.old tree path.now ≡ Some e) }
    ensures refused { OnErr result (blob.new ≡ blob.old) }
    ensures size { length blob.new ≡ length blob.old }
{
    let plan = node_plan(blob, path)?;
    splice(blob, &plan, &[])
}
