//! Properties and nodes that become NOPs.
ghost use Rattle.std.specs.Prelude.{◌≡◌, ◌-◌, ◌%◌, ◌≤◌, ◌<◌, None, IfOk, MatchResult, OnErr, OnOk, length};
ghost use Rattle.dt_blob.specs.Blocks.{structure_in};
ghost use Rattle.dt_blob.specs.HeaderWords.{header_fault, strings_of};
ghost use Rattle.dt_patch.specs.Nopping.{HasNode, HasProperty, IsNopped, RefusesNode, RefusesProperty, with_nops};
ghost use Rattle.dt_patch.specs.Private.Ends.{IsNoNode, IsNoProperty};

use crate::bytes::put_nops;
use crate::error::PatchError;
use crate::layout::structure_at;
use crate::view::{NodeOffset, PropertyOffset, View};
use dt_blob::BlobError;

/// Where the property ends that begins right at an offset.
fn property_end(view: &View<'_>, at: usize) -> Result<usize, PatchError>
    ensures { MatchResult result (λ next. HasProperty view.now.strings.now view.now.structure.now at next)
        (λ e. IsNoProperty view.now at e) }
{
    match view.property_end(at) {
        Ok(next) => Ok(next),
        Err(_) => Err(PatchError::BadOffset),
    }
}

/// The same of a blob.
fn property_end_in(blob: &[u8], at: usize) -> Result<usize, PatchError>
    ensures found { IfOk result (λ next. HasProperty (strings_of blob.now) (structure_in blob.now) at next) }
    ensures fault { MatchResult result (λ _. header_fault blob.now ≡ None) (λ e. RefusesProperty blob.now at e) }
{
    match View::over(blob) {
        Ok(view) => property_end(&view, at),
        Err(error) => Err(PatchError::Blob(error)),
    }
}

/// Where the node ends that begins right at an offset.
fn node_end(view: &View<'_>, at: usize) -> Result<usize, PatchError>
    ensures { MatchResult result (λ next. HasNode view.now.strings.now view.now.structure.now at next)
        (λ e. IsNoNode view.now at e) }
{
    let inside = match view.beginning_end(at) {
        Ok(next) => next,
        Err(_) => return Err(PatchError::BadOffset),
    };
    match view.node_end(inside) {
        Ok(next) => Ok(next),
        Err(_) => Err(PatchError::Blob(BlobError::BadToken)),
    }
}

/// The same of a blob.
fn node_end_in(blob: &[u8], at: usize) -> Result<usize, PatchError>
    ensures found { IfOk result (λ next. HasNode (strings_of blob.now) (structure_in blob.now) at next) }
    ensures fault { MatchResult result (λ _. header_fault blob.now ≡ None) (λ e. RefusesNode blob.now at e) }
{
    match View::over(blob) {
        Ok(view) => node_end(&view, at),
        Err(error) => Err(PatchError::Blob(error)),
    }
}

/// Makes NOPs of what the structure block has from one offset up to another.
fn put_out(blob: &mut [u8], at: usize, next: usize)
    requires header { 40 ≤ length blob.old }
    requires first { at < next }
    requires whole { (next - at) % 4 ≡ 0 }
    requires inside { next ≤ length (structure_in blob.old) }
    ensures { blob.new ≡ with_nops at next blob.old }
{
    let from = structure_at(blob) + at;
    put_nops(blob, from, (next - at) / 4);
}

/// Makes NOPs of the property that begins right at an offset: nothing moves, and its name stays in the strings (Devicetree Specification
/// v0.4, section 5.4.1). A few words of the header are tested, and the one token.
///
/// Fails with `Blob`, the header's first fault, or with `BadOffset`; the blob is then as it was.
pub fn nop_property(blob: &mut [u8], property: PropertyOffset) -> Result<(), PatchError>
    // The property is NOPs, and no other byte is another.
    ensures nopped { OnOk result (IsNopped HasProperty blob.old property.at blob.new) }
    // Each refusal has its reason, and each reason is told.
    ensures fault { MatchResult result (λ _. header_fault blob.old ≡ None)
        (λ e. RefusesProperty blob.old property.at e) }
    ensures refused { OnErr result (blob.new ≡ blob.old) }
{
    let next = property_end_in(blob, property.at)?;
    put_out(blob, property.at, next);
    Ok(())
}

/// Makes NOPs of the node that begins right at an offset, with all below it: nothing moves, and names stay in the strings (Devicetree
/// Specification v0.4, section 5.4.1). A few words of the header are tested, and the node's tokens are read once. The root's, too, can go:
/// the bytes then hold no tree.
///
/// Fails with `Blob`, the header's first fault, or `BadToken` where the node has no end; with `BadOffset` where none begins there. The blob
/// is then as it was.
pub fn nop_node(blob: &mut [u8], node: NodeOffset) -> Result<(), PatchError>
    // The node is NOPs, and no other byte is another.
    ensures nopped { OnOk result (IsNopped HasNode blob.old node.at blob.new) }
    // Each refusal has its reason, and each reason is told.
    ensures fault { MatchResult result (λ _. header_fault blob.old ≡ None)
        (λ e. RefusesNode blob.old node.at e) }
    ensures refused { OnErr result (blob.new ≡ blob.old) }
{
    let next = node_end_in(blob, node.at)?;
    put_out(blob, node.at, next);
    Ok(())
}
