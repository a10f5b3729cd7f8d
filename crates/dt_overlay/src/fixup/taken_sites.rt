//! Fixup sites, which are taken before a symbol is looked up.
ghost use Rattle.std.specs.Prelude.{◌≡◌, [], ℕ, All, map, IfOk, OnOk};
ghost use Rattle.dt_source.specs.OverlayMeaning.Shifted as meaning;
ghost use Rattle.dt_overlay.specs.Fixup.PatchedOverlay.{value_at};
ghost use Rattle.dt_overlay.specs.Fixup.Private.Fixing.{fixup_named, sites_taken};
ghost use Rattle.dt_overlay.specs.Fixup.Private.TakenSites.{IsInside, fixup_taken};
ghost use Rattle.dt_overlay.specs.Fixup.Private.Walk.{IsStep};

use crate::fixup::error::OverlayError;
use crate::fixup::patched_overlay::PatchedOverlay;
use crate::fixup::place::{FixupEntry, ValuePlace};
use crate::fixup::reading::NamedSite;
use crate::fixup::reason::EntryFault;
use crate::fixup::sites::take_site;

/// A fixup site that was taken: the row of its property, its offset, the name of the symbol, and the text that names it.
#[derive(Clone, Copy)]
pub(crate) struct TakenSite<'t> {
    pub symbol: &'t [u8],
    pub row: usize,
    pub offset: usize,
    pub entry: ValuePlace,
}

impl TakenSite<'_> {
    /// Where its bytes begin.
    pub fn place(&self) -> ValuePlace {
        ValuePlace {
            property: self.row,
            byte: self.offset,
        }
    }
}

/// Takes the site of a fixup.
fn take_named_site<'t>(
    patched: &mut PatchedOverlay<'t>,
    fixup: NamedSite<'t>,
) -> Result<TakenSite<'t>, OverlayError>
    ensures live { patched.new.live ≡ patched.old.live }
    ensures values { (k : ℕ) → value_at patched.new k ≡ value_at patched.old k }
    ensures step { IsStep (meaning.take_site (fixup_named fixup.entry).at) patched.old patched.new result }
    ensures taken { IfOk result (λ taken. fixup_taken patched.old.live taken ≡ fixup_named fixup.entry) }
    ensures inside { IfOk result (λ taken. IsInside patched.new taken) }
{
    patched.check();
    let entry = FixupEntry::Text(fixup.entry);
    let Some(node) = patched.at_path(fixup.site.path) else {
        let fault = EntryFault::NoNode;
        return Err(OverlayError::BadFixup { entry, fault });
    };
    let row = take_site(patched, node, fixup.site.name, fixup.site.offset, entry)?;
    Ok(TakenSite {
        symbol: fixup.symbol,
        row,
        offset: fixup.site.offset,
        entry: fixup.entry,
    })
}

/// Takes the sites of all fixups, in order.
pub(crate) fn take_named_sites<'t>(
    patched: &mut PatchedOverlay<'t>,
    fixups: &[NamedSite<'t>],
    taken: &mut Vec<TakenSite<'t>>,
) -> Result<(), OverlayError>
    requires none { taken.old.items ≡ [] }
    ensures live { patched.new.live ≡ patched.old.live }
    ensures step { IsStep (sites_taken fixups.now) patched.old patched.new result }
    ensures taken { OnOk result (map (fixup_taken patched.old.live) taken.new.items ≡ map fixup_named fixups.now) }
    ensures inside { OnOk result (All (IsInside patched.new) taken.new.items) }
{
    for fixup in fixups {
        match take_named_site(patched, *fixup) {
            Ok(site) => taken.push(site)?,
            Err(error) => return Err(error),
        }
    }
    Ok(())
}
