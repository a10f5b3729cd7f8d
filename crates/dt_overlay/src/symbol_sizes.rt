//! How long an overlay's symbols are, before any is made.
ghost use Rattle.std.specs.Prelude.{◌≡◌, ◌-◌, ◌^◌, ◌<◌, ◌≤◌, [], ◌∷◌, length, min};
ghost use Rattle.dt_source.specs.TreeMeaning.Names.{symbols_name};
ghost use Rattle.dt_source.specs.TreeMeaning.Paths.{same_path};
ghost use Rattle.dt_live.specs.Rows.{IsGrown, path_of};
ghost use Rattle.dt_live.specs.Builder.Sizes.{size_in};
ghost use Rattle.dt_live.specs.Flattened.{IsWhole};
ghost use Rattle.dt_overlay.specs.Private.Symbols.{symbol_said, symbols_over, text_below};
ghost use Rattle.dt_overlay.specs.Private.SymbolTargets.{AreTargets};

use crate::fixup::PatchedOverlay;
use crate::symbol_target::symbol_target;
use dt_live::{LiveTree, NodeRow, is_root_child, names_size};

/// How many bytes the symbols' values have together, or the greatest number where there are more. Takes no memory.
pub(crate) fn symbols_size<'t>(
    base: &LiveTree<'t, &'t [u8]>,
    patched: &PatchedOverlay<'t>,
    targets: &[Option<usize>],
) -> usize
    requires base { IsWhole base.now }
    requires targets { AreTargets base.now patched.now targets.now }
    ensures { result ≡ min (size_in (symbols_over base.now patched.now)) (2 ^ 64 - 1) }
{
    patched.check();
    let mut size: usize = 0;
    for row in 0..patched.properties().len() {
        if is_symbols_node(patched.nodes(), patched.properties()[row].node) {
            size = size.saturating_add(symbol_size(base, patched, targets, row));
        }
    }
    size
}

/// Whether a node is the one whose properties are symbols.
pub(crate) fn is_symbols_node(nodes: &[NodeRow<'_>], node: usize) -> bool
    requires grown { IsGrown nodes.now }
    requires known { node ≤ length nodes.now }
    ensures { result ≡ same_path (symbols_name ∷ []) (path_of nodes.now node) }
{
    is_root_child(nodes, node, b"__symbols__".as_slice())
}

// How many bytes the value of a symbol has that a row is for, or the greatest number where there are more.
fn symbol_size<'t>(
    base: &LiveTree<'t, &'t [u8]>,
    patched: &PatchedOverlay<'t>,
    targets: &[Option<usize>],
    row: usize,
) -> usize
    requires base { IsWhole base.now }
    requires targets { AreTargets base.now patched.now targets.now }
    requires known { row < length patched.now.live.properties.items }
    ensures { result ≡ min (size_in (symbol_said base.now patched.now row [])) (2 ^ 64 - 1) }
{
    match symbol_target(patched, targets, patched.value(row)) {
        None => 0,
        Some((node, rest)) => text_size(base.nodes(), node, rest),
    }
}

/// How many bytes the text of a path below a node has with its zero byte, or the greatest number where there are more.
pub(crate) fn text_size(nodes: &[NodeRow<'_>], node: usize, rest: &[u8]) -> usize
    requires grown { IsGrown nodes.now }
    requires known { node ≤ length nodes.now }
    ensures { result ≡ min (length (text_below nodes.now node rest.now)) (2 ^ 64 - 1) }
{
    let names = names_size(nodes, node).saturating_add(rest.len());
    if names == 0 {
        return 2;
    }
    names.saturating_add(1)
}
