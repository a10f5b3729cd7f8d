//! The view and how it is opened.
ghost use Rattle.std.specs.Prelude.{◌≡◌, ◌⊎◌, ◌↔◌, IfOk, IsErrOf, IsOkAnd, None, Some, MatchResult};
ghost use Rattle.dt_tree.specs.TreeData.{TreeData};
ghost use Rattle.dt_blob.specs.HeaderWords.{header_fault, reserves_of};
ghost use Rattle.dt_blob.specs.Holds.{HaveNoEnd};
ghost use Rattle.dt_patch.specs.View.Shows.{IsOver, Shows, Views};

use crate::view::checking::{check_reserves, check_structure};
use dt_blob::{BlobBlocks, BlobError, blocks_in};

/// A blob that is read in place: its blocks, over the caller's bytes.
#[repr(C)]
#[derive(Clone, Copy)]
pub struct View<'a> {
    /// From the reserved memory on, up to the end of the blob.
    pub reserves: &'a [u8],
    pub structure: &'a [u8],
    pub strings: &'a [u8],
    pub boot_cpu: u32,
}

fn view_of(blocks: BlobBlocks<'_>) -> View<'_>
    ensures reserves { result.reserves.now ≡ blocks.entry.reserves.now }
    ensures structure { result.structure.now ≡ blocks.entry.structure.now }
    ensures strings { result.strings.now ≡ blocks.entry.strings.now }
    ensures boot_cpu { result.boot_cpu ≡ blocks.entry.boot_cpu }
{
    View {
        reserves: blocks.reserves,
        structure: blocks.structure,
        strings: blocks.strings,
        boot_cpu: blocks.boot_cpu,
    }
}

impl<'a> View<'a> {
    /// A view by the header's tests alone, for bytes that were opened before: a few words are read. Over bytes that hold no tree each
    /// call of it still returns, with some answer.
    ///
    /// Fails with `TooLarge`, `Truncated`, `BadMagic`, `BadVersion` or `BadLayout`, the header's first fault.
    pub fn over(bytes: &'a [u8]) -> Result<Self, BlobError>
        ensures shown { (tree : TreeData) → Shows bytes.now tree → IsOkAnd result (λ view. Views view tree) }
        ensures blocks { IfOk result (λ view. IsOver bytes.now view) }
        ensures fault { MatchResult result (λ _. header_fault bytes.now ≡ None)
            (λ e. header_fault bytes.now ≡ Some e) }
    {
        let parts = blocks_in(bytes)?;
        Ok(view_of(parts))
    }

    /// The view of a blob, once all tests of `read` of `dt_blob` are passed, in their order, but for one: that siblings and the
    /// properties of a node differ. Of equal names each call answers the first. Takes time in the length of the blob.
    pub fn open(bytes: &'a [u8]) -> Result<Self, BlobError>
        // What is opened shows a tree.
        ensures found { IfOk result (λ view. (tree : TreeData) × Shows bytes.now tree × Views view tree) }
        // What shows a tree is opened.
        ensures only { (tree : TreeData) → Shows bytes.now tree → IsOkAnd result (λ view. Views view tree) }
        // These refusals come exactly where the header has that fault first.
        ensures too_large { IsErrOf result BlobError.TooLarge ↔ (header_fault bytes.now ≡ Some BlobError.TooLarge) }
        ensures truncated { IsErrOf result BlobError.Truncated ↔ (header_fault bytes.now ≡ Some BlobError.Truncated) }
        ensures bad_magic { IsErrOf result BlobError.BadMagic ↔ (header_fault bytes.now ≡ Some BlobError.BadMagic) }
        ensures bad_version { IsErrOf result BlobError.BadVersion ↔ (header_fault bytes.now ≡ Some BlobError.BadVersion) }
        // This one too, and else the reserved memory has no end.
        ensures bad_layout { header_fault bytes.now ≡ Some BlobError.BadLayout
            → IsErrOf result BlobError.BadLayout }
        ensures no_end { IsErrOf result BlobError.BadLayout
            → (header_fault bytes.now ≡ Some BlobError.BadLayout) ⊎ ((header_fault bytes.now ≡ None)
            × HaveNoEnd (reserves_of bytes.now)) }
    {
        let parts = blocks_in(bytes)?;
        check_reserves(parts.reserves)?;
        check_structure(parts.strings, parts.structure, parts.is_sized)?;
        Ok(view_of(parts))
    }
}
