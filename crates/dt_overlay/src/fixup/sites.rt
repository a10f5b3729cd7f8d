//! Where fixup sites lie.
ghost use Rattle.std.specs.Prelude.{◌≡◌, ◌+◌, ◌≤◌, ℕ, length, Some, IfOk};
ghost use Rattle.dt_live.specs.Rows.{IsNode, property_of};
ghost use Rattle.dt_source.specs.OverlayMeaning.Shifted.{take_site as site_taken};
ghost use Rattle.dt_overlay.specs.Fixup.PatchedOverlay.{value_at};
ghost use Rattle.dt_overlay.specs.Fixup.Private.Walk.{IsOpenRow, IsStep, site_at};

use crate::fixup::error::OverlayError;
use crate::fixup::patched_overlay::PatchedOverlay;
use crate::fixup::place::FixupEntry;
use crate::fixup::reason::EntryFault;
use dt_live::is_reserved;

/// The row of the property that four bytes at an offset lie in, or why they may not be written.
fn open_row<'t>(
    patched: &PatchedOverlay<'t>,
    node: usize,
    name: &'t [u8],
    offset: usize,
) -> Result<usize, EntryFault>
    requires known { IsNode patched.now.live node }
    ensures { IsOpenRow patched.now node name.now offset result }
{
    patched.check();
    let Some(row) = patched.property(node, name) else {
        return Err(EntryFault::NoProperty);
    };
    let length = patched.value(row).len();
    if length < 4 {
        return Err(EntryFault::Outside);
    }
    if length - 4 < offset {
        return Err(EntryFault::Outside);
    }
    if is_reserved(patched.nodes(), node) {
        return Err(EntryFault::Reserved);
    }
    if name == b"phandle".as_slice() {
        return Err(EntryFault::Phandle);
    }
    Ok(row)
}

/// Takes the four bytes at an offset of a node's property for the site that an entry names, and answers the property's row.
pub(crate) fn take_site<'t>(
    patched: &mut PatchedOverlay<'t>,
    node: usize,
    name: &'t [u8],
    offset: usize,
    entry: FixupEntry,
) -> Result<usize, OverlayError>
    requires known { IsNode patched.old.live node }
    ensures live { patched.new.live ≡ patched.old.live }
    ensures values { (k : ℕ) → value_at patched.new k ≡ value_at patched.old k }
    ensures row { IfOk result (λ row. property_of patched.old.live node name.now ≡ Some row) }
    ensures fits { IfOk result (λ row. offset + 4 ≤ length (value_at patched.new row)) }
    ensures step { IsStep (site_taken (site_at patched.old node name.now offset)) patched.old patched.new result }
{
    patched.check();
    let row = match open_row(patched, node, name, offset) {
        Ok(row) => row,
        Err(fault) => return Err(OverlayError::BadFixup { entry, fault }),
    };
    if !patched.take(row, offset)? {
        let fault = EntryFault::Taken;
        return Err(OverlayError::BadFixup { entry, fault });
    }
    Ok(row)
}
