//! The phandles that are written at fixup sites.
ghost use Rattle.std.specs.Prelude.{◌≡◌, ℕ, All, Some, length, IfSome, OnOk};
ghost use Rattle.dt_live.specs.Flattened.{IsWhole, lists};
ghost use Rattle.dt_source.specs.OverlayMeaning.Shifted as meaning;
ghost use Rattle.dt_overlay.specs.Fixup.PatchedOverlay.{value_at};
ghost use Rattle.dt_overlay.specs.Fixup.Private.Fixing.{IsPhandleOrFault};
ghost use Rattle.dt_overlay.specs.Fixup.Private.TakenSites.{IsInside, WritesSite, WritesSites};

use crate::fixup::error::OverlayError;
use crate::fixup::patched_overlay::PatchedOverlay;
use crate::fixup::reason::SymbolFault;
use crate::fixup::symbols::symbol_phandle;
use crate::fixup::taken_sites::TakenSite;
use dt_live::LiveTree;
use std::alloc::AllocError;

/// The phandle of a symbol that was looked up last, else looks it up.
fn known_phandle<'t>(
    base: &LiveTree<'t, &'t [u8]>,
    last: Option<(&'t [u8], u32)>,
    symbol: &'t [u8],
) -> Result<u32, SymbolFault>
    requires whole { IsWhole base.now }
    requires last { IfSome last (λ both. meaning.symbol_phandle (lists base.now) both.0.now ≡ Some both.1) }
    ensures { IsPhandleOrFault (meaning.symbol_phandle (lists base.now) symbol.now) result }
{
    if let Some((known, phandle)) = last {
        if known == symbol {
            return Ok(phandle);
        }
    }
    symbol_phandle(base, symbol)
}

/// Writes the phandle of a symbol's node at a site.
fn write_site<'t>(
    patched: &mut PatchedOverlay<'t>,
    site: TakenSite<'t>,
    phandle: u32,
) -> Result<(), AllocError>
    requires inside { IsInside patched.old site }
    ensures live { patched.new.live ≡ patched.old.live }
    ensures lengths { OnOk result ((k : ℕ) → length (value_at patched.new k) ≡ length (value_at patched.old k)) }
    ensures written { OnOk result (WritesSite site.entry phandle patched.old patched.new) }
{
    patched.check();
    patched.write(site.row, site.offset, phandle)?;
    Ok(())
}

/// Writes the phandles of the symbols' nodes at the sites, in order. A symbol is looked up once for sites in a row.
pub(crate) fn write_sites<'t>(
    base: &LiveTree<'t, &'t [u8]>,
    patched: &mut PatchedOverlay<'t>,
    sites: &[TakenSite<'t>],
) -> Result<(), OverlayError>
    requires base { IsWhole base.now }
    requires inside { All (IsInside patched.old) sites.now }
    ensures live { patched.new.live ≡ patched.old.live }
    ensures written { WritesSites base.now sites.now patched.old patched.new result }
{
    let mut last = None;
    for site in sites {
        let phandle = match known_phandle(base, last, site.symbol) {
            Ok(phandle) => phandle,
            Err(fault) => {
                let entry = site.entry;
                let site = site.place();
                return Err(OverlayError::UnknownSymbol { entry, site, fault });
            }
        };
        last = Some((site.symbol, phandle));
        write_site(patched, *site, phandle)?;
    }
    Ok(())
}
