//! The labels of a tree, as properties of the root's child `__symbols__`.
ghost use Rattle.std.specs.Prelude.{◌≡◌, ◌==◌, ◌||◌, ◌∷◌, ◌-◌, ◌^◌, [], true, false, length, map, not, IfOk, min};
ghost use Rattle.dt_tree.specs.Name.{is_name};
ghost use Rattle.dt_source.specs.TreeMeaning.Resolved.{names_taken, symbol};
ghost use Rattle.dt_live.specs.Rows.{IsLiveTree, IsNode};
ghost use Rattle.dt_build.specs.Edit.Said.{tree_of};
ghost use Rattle.dt_live.specs.Builder.Builders.{built_lists};
ghost use Rattle.dt_live.specs.Builder.Standing.{walked};
ghost use Rattle.dt_live.specs.Builder.Sizes.{size_in};
ghost use Rattle.dt_build.specs.Private.Made.{as_symbols, plain_lists, symbol_at, symbol_lists};
ghost use Rattle.dt_build.specs.Private.Ready.{IsReady};

use crate::draft::Draft;
use dt_live::builder::TreeBuilder;
use dt_live::{LabelRow, LiveTree, append_path, path_size};
use dt_source::Value;
use dt_tree::{Bytes, Property, lawful_name};
use std::alloc::{AllocError, Global};

// A label's property: the path of its node.
fn symbol_of<'t>(
    alloc: Global,
    live: &LiveTree<'t, &'_ Value<'t>>,
    row: &LabelRow<'t>,
) -> Result<Property, AllocError>
    requires sound { IsLiveTree live.now }
    requires known { IsNode live.now row.now.node }
    requires named { is_name row.now.label.now ≡ true }
    ensures { IfOk result (λ made. as_symbols (made ∷ []) ≡ symbol_at live.now row.now ∷ []) }
{
    let nodes = live.nodes();
    let mut value = Vec::with_capacity(alloc, path_size(nodes, row.node))?;
    append_path(&mut value, nodes, row.node)?;
    Ok(Property {
        name: lawful_name(alloc, row.label)?,
        value: Bytes::from_vec(value),
    })
}

// The labels of nodes that stand, in order of definition.
fn symbols_of(alloc: Global, draft: &Draft<'_, '_>) -> Result<Vec<Property>, AllocError>
    requires { IsReady draft.now }
    ensures { IfOk result (λ made. as_symbols made.items ≡ map symbol (tree_of draft.now.live).labels) }
{
    let live = &draft.live;
    let mut symbols = Vec::new(alloc);
    for row in live.labels() {
        if live.is_in_tree(row.node) {
            symbols.push(symbol_of(alloc, live, row)?)?;
        }
    }
    Ok(symbols)
}

/// How many bytes the labels' properties have together, or the greatest number where there are more. Takes no memory.
pub(crate) fn symbols_size(draft: &Draft<'_, '_>) -> usize
    requires { IsReady draft.now }
    ensures { result ≡ min (size_in (map symbol (tree_of draft.now.live).labels)) (2 ^ 64 - 1) }
{
    let live = &draft.live;
    let mut size: usize = 0;
    for label in live.labels() {
        if live.is_in_tree(label.node) {
            size = size.saturating_add(path_size(live.nodes(), label.node));
        }
    }
    size
}

// Whether there is a node of symbols.
fn has_node(draft: &Draft<'_, '_>, symbols: &[Property]) -> bool
    ensures { result ≡ (draft.now.labelled || not (length symbols.now == 0)) }
{
    if draft.labelled {
        return true;
    }
    !symbols.is_empty()
}

/// The tree with the labels' node behind all others, where a node has a label, or the draft asks for one.
pub(crate) fn with_symbols(
    alloc: Global,
    draft: &Draft<'_, '_>,
    builder: TreeBuilder,
) -> Result<TreeBuilder, AllocError>
    requires ready { IsReady draft.now }
    requires free { names_taken true draft.now.plugin (tree_of draft.now.live) ≡ false }
    requires made { built_lists builder ≡ walked (plain_lists draft.now) }
    ensures { IfOk result (λ whole. built_lists whole ≡ walked (symbol_lists true draft.now)) }
{
    let symbols = symbols_of(alloc, draft)?;
    if !has_node(draft, symbols.as_slice()) {
        return Ok(builder);
    }
    let name = lawful_name(alloc, b"__symbols__".as_slice())?;
    builder.push(alloc, 1, name, symbols)
}
