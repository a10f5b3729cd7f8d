//! Nodes added to a blob.
ghost use Rattle.std.specs.Prelude.{◌≡◌, ◌∷◌, [], ◌≤◌, IfOk, List, ℕ, MatchResult, None, Some, OnErr, OnOk, count_by, false, length, take, true};
ghost use Rattle.dt_tree.specs.Name.{is_name};
ghost use Rattle.dt_tree.specs.NodeData.{NodeData, child_names};
ghost use Rattle.dt_tree.specs.Path.{is_slash, path_names};
ghost use Rattle.dt_tree.specs.Sound.{is_among};
ghost use Rattle.dt_tree.specs.TreeData.{TreeData};
ghost use Rattle.dt_blob.specs.Holds.{Holds};
ghost use Rattle.dt_blob.specs.Token.{begin_node, end_node};
ghost use Rattle.dt_patch.specs.View.Shows.{Views};
ghost use Rattle.dt_patch.specs.View.Standing.{StandsAt};
ghost use Rattle.dt_patch.specs.Adding.{HoldsWithNode, IsWithNode, add_node_fault, growth_fault, node_size};
ghost use Rattle.dt_patch.specs.Private.Cutting.{IsChange, Comes, growth_plan_fault, node_bytes};
ghost use Rattle.dt_patch.specs.Private.Planning.{Lies};

use crate::bytes::put_node;
use crate::error::PatchError;
use crate::placing::node_place;
use crate::planning::{end_span, plan_of};
use crate::splicing::{Plan, Span, splice};
use crate::view::{NodeOffset, View, held_is_shown};
use dt_blob::BlobError;
use dt_tree::{MAX_DEPTH, behind, is_name};

/// The bytes of an empty node of the longest name: two words, and 255 bytes with a zero byte.
const NODE_ROOM: usize = 264;

/// How many slashes a text has.
fn count_slashes(text: &[u8]) -> usize
    ensures count { result ≡ count_by is_slash text.now }
    ensures few { result ≤ length text.now }
{
    text.iter().filter(|byte| **byte == b'/').count()
}

/// How many names a path has.
fn depth_of(path: &[u8]) -> usize
    ensures { result ≡ length (path_names path.now) }
{
    if path.len() < 2 {
        return 0;
    }
    count_slashes(behind(path, 1)) + 1
}

/// The size in bytes of an empty node whose name has so many.
fn node_size(len: usize) -> usize
    requires { len ≤ 255 }
    ensures { result ≡ node_size len }
{
    8 + (len + 4) / 4 * 4
}

/// The first bytes of some.
fn first_bytes(bytes: &[u8], count: usize) -> &[u8]
    requires { count ≤ length bytes.now }
    ensures { result.now ≡ take count bytes.now }
{
    &bytes[..count]
}

/// Refuses a name that a child of the node has.
fn check_free(view: &View<'_>, node: NodeOffset, name: &[u8]) -> Result<(), PatchError>
    ensures { (d : NodeData) → StandsAt view.now node.at d
        → MatchResult result (λ _. is_among name.now (child_names d.children) ≡ false)
        (λ e. (e ≡ PatchError.Exists) × (is_among name.now (child_names d.children) ≡ true)) }
{
    match view.child(node, name) {
        Ok(None) => Ok(()),
        Ok(Some(_)) => Err(PatchError::Exists),
        Err(_) => Err(PatchError::Blob(BlobError::BadToken)),
    }
}

/// Where a node of this name is added to the one at a path.
fn growth_span(view: &View<'_>, path: &[u8], name: &[u8]) -> Result<Span, PatchError>
    ensures stands { (tree : TreeData) → Views view.now tree
        → MatchResult result (λ _. growth_fault tree.root path.now name.now ≡ None)
        (λ e. growth_fault tree.root path.now name.now ≡ Some e) }
    ensures turns { IfOk result (λ s. (bytes : List ℕ) (tree : TreeData) → Views view.now tree → Holds bytes tree
        → Comes (IsWithNode (path_names path.now) name.now) view.now tree s (begin_node name.now ∷ end_node ∷ [])) }
    ensures inside { IfOk result (λ s. Lies view.now s) }
    ensures empty { IfOk result (λ s. s.next ≡ s.at) }
    ensures named { IfOk result (λ _. is_name name.now ≡ true) }
{
    let node = node_place(view, path)?;
    if !is_name(name) {
        return Err(PatchError::BadName);
    }
    check_free(view, node, name)?;
    if depth_of(path) >= MAX_DEPTH {
        return Err(PatchError::TooDeep);
    }
    let span = end_span(view, node)?;
    Ok(span)
}

/// The change that adds a node.
fn growth_plan(blob: &[u8], path: &[u8], name: &[u8]) -> Result<Plan, PatchError>
    ensures plan { IfOk result (λ p.
        IsChange (IsWithNode (path_names path.now) name.now) blob.now p (begin_node name.now ∷ end_node ∷ [])) }
    ensures fault { (tree : TreeData) → Holds blob.now tree
        → MatchResult result (λ _. growth_plan_fault blob.now tree path.now name.now ≡ None)
        (λ e. growth_plan_fault blob.now tree path.now name.now ≡ Some e) }
    ensures empty { IfOk result (λ p. p.span.next ≡ p.span.at) }
    ensures named { IfOk result (λ _. is_name name.now ≡ true) }
{
    held_is_shown();
    let view = match View::over(blob) {
        Ok(view) => view,
        Err(error) => return Err(PatchError::Blob(error)),
    };
    let span = growth_span(&view, path, name)?;
    let plan = plan_of(blob, &view, span)?;
    Ok(plan)
}

/// Adds an empty node of this name to the node at a path, in the caller's buffer: behind its properties, before its first child, as libfdt
/// does. All else of the tree that the blob holds is as it was (Devicetree Specification v0.4, section 5.4.1). The buffer may have room
/// behind the blob; what stands behind the properties is moved once.
///
/// Fails with `Blob`, the header's first fault, or with `BadPath`, `NoNode`, `BadName`, `Exists`, `TooDeep`, `Unordered` or `Short`, the
/// first of these; the blob is then as it was. `Short` tells how many bytes the buffer wants. Bytes that hold no tree are changed somehow,
/// or refused so.
pub fn add_node(blob: &mut [u8], path: &[u8], name: &[u8]) -> Result<(), PatchError>
    // A tree that was held is held with the node.
    ensures held { OnOk result ((tree : TreeData) → Holds blob.old tree
        → HoldsWithNode blob.new tree (path_names path.now) name.now) }
    // Of bytes that hold a tree each refusal has its reason, and each reason is told.
    ensures fault { (tree : TreeData) → Holds blob.old tree
        → MatchResult result (λ _. add_node_fault blob.old tree path.now name.now ≡ None)
        (λ e. add_node_fault blob.old tree path.now name.now ≡ Some e) }
    ensures refused { OnErr result (blob.new ≡ blob.old) }
    ensures size { length blob.new ≡ length blob.old }
{
    let plan = growth_plan(blob, path, name)?;
    let mut node = [0; NODE_ROOM];
    put_node(&mut node, 0, name);
    let size = node_size(name.len());
    splice(blob, &plan, first_bytes(&node, size))
}
