//! The symbols of an overlay, with the paths that their nodes have in the base.
ghost use Rattle.std.specs.Prelude.{◌≡◌, ◌≤◌, ◌<◌, All, length, map, IfOk, IfSome, OnOk, true};
ghost use Rattle.dt_tree.specs.Name.{is_name};
ghost use Rattle.dt_live.specs.ByRow.{KeepsRows};
ghost use Rattle.dt_live.specs.Rows.{IsLiveTree, IsGrown, state_of};
ghost use Rattle.dt_live.specs.Flattened.{IsWhole, lists};
ghost use Rattle.dt_overlay.specs.Private.SymbolTargets.{AreTargets};
ghost use Rattle.dt_overlay.specs.Private.Symbols.{PutsSymbol, symbol_by_row, symbol_value, symbols_over, text_below, values_in, with_all};

use crate::fixup::PatchedOverlay;
use crate::symbol_sizes::{is_symbols_node, text_size};
use crate::symbol_target::symbol_target;
use dt_live::{LiveTree, NodeRow, append_names};
use std::alloc::{AllocError, Global};

/// A symbol and the path of its node, with a zero byte.
#[derive(Drop)]
pub(crate) struct Symbol<'t> {
    pub(crate) name: &'t [u8],
    pub(crate) value: Vec<u8>,
}

/// The symbols of an overlay whose paths begin in a fragment, in order, each with its path in the base.
pub(crate) fn find_symbols<'t>(
    alloc: Global,
    base: &LiveTree<'t, &'t [u8]>,
    patched: &PatchedOverlay<'t>,
    targets: &[Option<usize>],
) -> Result<Vec<Symbol<'t>>, AllocError>
    requires base { IsWhole base.now }
    requires targets { AreTargets base.now patched.now targets.now }
    ensures named { IfOk result (λ symbols. All (λ s. is_name s.name.now ≡ true) symbols.items) }
    ensures symbols { IfOk result (λ symbols. map symbol_value symbols.items ≡ symbols_over base.now patched.now) }
{
    patched.check();
    let mut symbols = Vec::new(alloc);
    for row in 0..patched.properties().len() {
        if is_symbols_node(patched.nodes(), patched.properties()[row].node) {
            if let Some(symbol) = symbol_of(alloc, base, patched, targets, row)? {
                symbols.push(symbol)?;
            }
        }
    }
    Ok(symbols)
}

// The text of a path below a node of the base, with a zero byte, in room that is taken once.
fn symbol_text(
    alloc: Global,
    nodes: &[NodeRow<'_>],
    node: usize,
    rest: &[u8],
) -> Result<Vec<u8>, AllocError>
    requires grown { IsGrown nodes.now }
    requires known { node ≤ length nodes.now }
    ensures { IfOk result (λ value. value.items ≡ text_below nodes.now node rest.now) }
{
    let mut value = Vec::with_capacity(alloc, text_size(nodes, node, rest))?;
    append_names(&mut value, nodes, node)?;
    value.extend_from_slice(rest)?;
    if value.is_empty() {
        value.push(b'/')?;
    }
    value.push(0)?;
    Ok(value)
}

// The symbol of a row with its path in the base, none where that begins in no fragment.
fn symbol_of<'t>(
    alloc: Global,
    base: &LiveTree<'t, &'t [u8]>,
    patched: &PatchedOverlay<'t>,
    targets: &[Option<usize>],
    row: usize,
) -> Result<Option<Symbol<'t>>, AllocError>
    requires base { IsWhole base.now }
    requires targets { AreTargets base.now patched.now targets.now }
    requires known { row < length patched.now.live.properties.items }
    ensures value { IfOk result (λ found. values_in found ≡ symbol_by_row base.now patched.now row) }
    ensures named { IfOk result (λ found. IfSome found (λ symbol. is_name symbol.name.now ≡ true)) }
{
    patched.check();
    match symbol_target(&*patched, targets, patched.value(row)) {
        None => Ok(None),
        Some((node, rest)) => {
            let value = symbol_text(alloc, base.nodes(), node, rest)?;
            let name = patched.properties()[row].name;
            Ok(Some(Symbol { name, value }))
        }
    }
}

// The stamp of what defines symbols: none is asked for here.
const STAMP: usize = 1;

// No text has their node.
const NOWHERE: u32 = 0;

// Puts a symbol over those of a live tree.
fn put_symbol<'s>(
    live: &mut LiveTree<'s, &'s [u8]>,
    name: &'s [u8],
    value: &'s [u8],
) -> Result<(), AllocError>
    requires { IsLiveTree live.old }
    ensures sound { OnOk result (IsLiveTree live.new) }
    ensures rows { OnOk result (KeepsRows live.old live.new) }
    ensures labels { OnOk result ((state_of live.new).labels ≡ (state_of live.old).labels) }
    ensures put { OnOk result (PutsSymbol name.now value.now live.old live.new) }
{
    let (node, _) = live.define_child(0, b"__symbols__".as_slice(), STAMP, NOWHERE)?;
    live.set_property(node, name, value, STAMP)?;
    Ok(())
}

/// Puts the symbols over those of a live tree, whose node is made where there is one. After a refusal the live tree is of no more use.
pub(crate) fn put_symbols<'s, 't>(
    live: &mut LiveTree<'s, &'s [u8]>,
    symbols: &'s [Symbol<'t>],
) -> Result<(), AllocError>
    requires whole { IsWhole live.old }
    requires named { All (λ s. is_name s.name.now ≡ true) symbols.now }
    ensures whole { OnOk result (IsWhole live.new) }
    ensures put { OnOk result (lists live.new ≡ with_all (map symbol_value symbols.now) (lists live.old)) }
{
    for symbol in symbols {
        put_symbol(live, symbol.name, symbol.value.as_slice())?;
    }
    Ok(())
}
