//! Fixups: the sites of the phandles of a base's nodes.
ghost use Rattle.std.specs.Prelude.{◌≡◌};
ghost use Rattle.dt_live.specs.Flattened.{IsWhole};
ghost use Rattle.dt_overlay.specs.Fixup.Private.Fixing.{ResolvesFixups};

use crate::fixup::error::OverlayError;
use crate::fixup::patched_overlay::PatchedOverlay;
use crate::fixup::reading::read_fixups;
use crate::fixup::taken_sites::take_named_sites;
use crate::fixup::writing::write_sites;
use dt_live::LiveTree;
use std::alloc::Global;

/// Writes the phandles of the base's nodes at the sites that the fixups name.
pub(crate) fn resolve_fixups<'t>(
    alloc: Global,
    base: &LiveTree<'t, &'t [u8]>,
    patched: &mut PatchedOverlay<'t>,
) -> Result<(), OverlayError>
    requires base { IsWhole base.now }
    ensures live { patched.new.live ≡ patched.old.live }
    ensures fixups { ResolvesFixups base.now patched.old patched.new result }
{
    let mut found = Vec::new(alloc);
    if let Err(error) = read_fixups(&mut found, patched.live()) {
        return Err(error);
    }
    let mut taken = Vec::new(alloc);
    if let Err(error) = take_named_sites(patched, &found, &mut taken) {
        return Err(error);
    }
    write_sites(base, patched, &taken)
}
