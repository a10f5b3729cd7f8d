//! The phandles of the nodes that a base's symbols name.
ghost use Rattle.std.specs.Prelude.{◌≡◌, ◌<◌, length};
ghost use Rattle.dt_live.specs.ByRow.{lent};
ghost use Rattle.dt_live.specs.Flattened.{IsWhole, lists};
ghost use Rattle.dt_live.specs.Rows.{property_at};
ghost use Rattle.dt_source.specs.OverlayMeaning.Shifted as meaning;
ghost use Rattle.dt_source.specs.OverlayMeaning.Texts as texts;
ghost use Rattle.dt_overlay.specs.Fixup.Private.Fixing.{IsPathOrFault, IsPhandleOrFault, symbol_value};

use crate::fixup::patched_overlay::lent;
use crate::fixup::phandle::row_phandle;
use crate::fixup::reason::SymbolFault;
use crate::fixup::texts::ended_path;
use dt_live::{LiveTree, PropertyRow};

fn row_value<'t>(rows: &[PropertyRow<'t, &'t [u8]>], row: usize) -> &'t [u8]
    requires { row < length rows.now }
    ensures { result.now ≡ lent (property_at rows.now row).value }
{
    lent(rows[row].value)
}

/// The path that a symbol names.
fn symbol_path<'t>(base: &LiveTree<'t, &'t [u8]>, symbol: &'t [u8]) -> Result<&'t [u8], SymbolFault>
    requires { IsWhole base.now }
    ensures { IsPathOrFault (texts.ended_path (symbol_value base.now symbol.now)) result }
{
    let Some(symbols) = (&*base).child(0, b"__symbols__".as_slice()) else {
        return Err(SymbolFault::NoSymbols);
    };
    let Some(row) = base.property(symbols, symbol) else {
        return Err(SymbolFault::NoSymbol);
    };
    let value = row_value(base.properties(), row);
    match ended_path(value) {
        Some(path) => Ok(path),
        None => Err(SymbolFault::NoPath),
    }
}

/// The phandle of the node that a symbol names.
pub(crate) fn symbol_phandle<'t>(
    base: &LiveTree<'t, &'t [u8]>,
    symbol: &'t [u8],
) -> Result<u32, SymbolFault>
    requires { IsWhole base.now }
    ensures { IsPhandleOrFault (meaning.symbol_phandle (lists base.now) symbol.now) result }
{
    let path = match symbol_path(base, symbol) {
        Ok(path) => path,
        Err(fault) => return Err(fault),
    };
    let Some(node) = base.at_path(path) else {
        return Err(SymbolFault::NoNode);
    };
    let Some(row) = base.property(node, b"phandle".as_slice()) else {
        return Err(SymbolFault::NoPhandle);
    };
    match row_phandle(base, row) {
        Some(phandle) => Ok(phandle),
        None => Err(SymbolFault::NoPhandle),
    }
}
