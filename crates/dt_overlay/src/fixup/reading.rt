//! The fixups that an overlay's texts name.
ghost use Rattle.std.specs.Prelude.{◌<◌, [], length};
ghost use Rattle.dt_live.specs.Flattened.{IsWhole};
ghost use Rattle.dt_source.specs.TreeMeaning.Edits.{definition};
ghost use Rattle.dt_tree.specs.Steps.{each};
ghost use Rattle.dt_source.specs.OverlayMeaning.Shifted.{fixup_in, fixups_in};
ghost use Rattle.dt_source.specs.OverlayMeaning.Texts.{parts};
ghost use Rattle.dt_overlay.specs.Fixup.Private.Fixing.{AddsFixups, fixups_of, gathered, row_fixups};

use crate::fixup::error::OverlayError;
use crate::fixup::patched_overlay::lent;
use crate::fixup::place::{FixupEntry, ValuePlace};
use crate::fixup::reason::EntryFault;
use crate::fixup::texts::{SiteText, site_in, unended};
use dt_live::{LiveTree, is_root_child};
use std::alloc::Global;

/// A fixup as its text names it, with the name of the symbol and the place of the text.
#[derive(Clone, Copy)]
pub(crate) struct NamedSite<'t> {
    pub symbol: &'t [u8],
    pub site: SiteText<'t>,
    pub entry: ValuePlace,
}

/// Adds the fixups of texts between zero bytes, in the value of a property.
fn read_texts<'t>(
    found: &mut Vec<NamedSite<'t>>,
    property: usize,
    symbol: &'t [u8],
    texts: &'t [u8],
) -> Result<(), OverlayError>
    ensures { AddsFixups (each (fixup_in symbol.now) (parts 0 texts.now)) found.old.items found.new.items result }
{
    let mut byte: usize = 0;
    for text in texts.split(|byte| *byte == 0) {
        let entry = ValuePlace { property, byte };
        let Some(site) = site_in(text) else {
            return Err(OverlayError::BadFixup {
                entry: FixupEntry::Text(entry),
                fault: EntryFault::NoSite,
            });
        };
        found.push(NamedSite {
            symbol,
            site,
            entry,
        })?;
        byte = byte.saturating_add(text.len()).saturating_add(1);
    }
    Ok(())
}

/// Adds the fixups of a property.
fn read_value<'t>(
    found: &mut Vec<NamedSite<'t>>,
    property: usize,
    symbol: &'t [u8],
    value: &'t [u8],
) -> Result<(), OverlayError>
    ensures { AddsFixups (fixups_in (definition [] symbol.now value.now)) found.old.items found.new.items result }
{
    match unended(value) {
        None => Err(OverlayError::BadFixup {
            entry: FixupEntry::Text(ValuePlace { property, byte: 0 }),
            fault: EntryFault::NoTexts,
        }),
        Some(texts) => read_texts(found, property, symbol, texts),
    }
}

/// Adds the fixups of a property's row, where it has some.
fn read_row<'t>(
    found: &mut Vec<NamedSite<'t>>,
    live: &LiveTree<'t, &'t [u8]>,
    row: usize,
) -> Result<(), OverlayError>
    requires whole { IsWhole live.now }
    requires known { row < length live.now.properties.items }
    ensures { AddsFixups (row_fixups live.now row) found.old.items found.new.items result }
{
    let property = live.properties()[row];
    if !is_root_child(live.nodes(), property.node, b"__fixups__".as_slice()) {
        return Ok(());
    }
    read_value(found, row, property.name, lent(property.value))
}

/// Adds all fixups of an overlay, in order.
pub(crate) fn read_fixups<'t>(
    found: &mut Vec<NamedSite<'t>>,
    live: &LiveTree<'t, &'t [u8]>,
) -> Result<(), OverlayError>
    requires whole { IsWhole live.now }
    ensures { AddsFixups (gathered (fixups_of live.now)) found.old.items found.new.items result }
{
    for row in 0..live.properties().len() {
        if let Err(error) = read_row(found, live, row) {
            return Err(error);
        }
    }
    Ok(())
}
