//! The nodes of a tree, each made once.
ghost use Rattle.std.specs.Prelude.{◌≡◌, false, [], IfOk};
ghost use Rattle.std.specs.List.{list_any};
ghost use Rattle.dt_tree.specs.PathMap.{path_map};
ghost use Rattle.dt_source.specs.TreeMeaning.MapOf.{map_of};
ghost use Rattle.dt_source.specs.TreeMeaning.Resolved.{is_too_deep, names_taken};
ghost use Rattle.dt_build.specs.Edit.Said.{tree_of};
ghost use Rattle.dt_live.specs.Builder.Builders.{built_lists};
ghost use Rattle.dt_live.specs.Builder.Standing.{walked};
ghost use Rattle.dt_build.specs.Private.Made.{lists, plain_lists, symbol_lists};
ghost use Rattle.dt_build.specs.Private.NodePhandles.{AreNodePhandles};
ghost use Rattle.dt_build.specs.Private.FixupSites.{AreSites};
ghost use Rattle.dt_build.specs.Private.Ready.{IsReady};

use crate::draft::Draft;
use crate::fixup_sites::FixupSite;
use crate::fixups::with_fixups;
use crate::local_nodes::with_local_fixups;
use crate::node_phandles::NodePhandles;
use crate::source_values::SourceValues;
use crate::symbols::with_symbols;
use dt_live::builder::TreeBuilder;
use dt_live::making::make_nodes;
use dt_tree::Node;
use std::alloc::{AllocError, Global};

// All nodes but that of the labels.
fn with_nodes(
    alloc: Global,
    draft: &Draft<'_, '_>,
    node_phandles: &NodePhandles,
) -> Result<TreeBuilder, AllocError>
    requires ready { IsReady draft.now }
    requires node_phandles { AreNodePhandles draft.now node_phandles.now }
    ensures { IfOk result (λ builder. built_lists builder ≡ walked (plain_lists draft.now)) }
{
    let mut values = SourceValues {
        draft,
        node_phandles,
        targets: draft.targets.as_slice(),
    };
    make_nodes(alloc, &draft.live, &draft.in_preorder, &mut values)
}

// The nodes of the source, with symbols the labels' node last.
fn with_labels(
    alloc: Global,
    draft: &Draft<'_, '_>,
    node_phandles: &NodePhandles,
    symbols: bool,
) -> Result<TreeBuilder, AllocError>
    requires ready { IsReady draft.now }
    requires node_phandles { AreNodePhandles draft.now node_phandles.now }
    requires free { names_taken symbols draft.now.plugin (tree_of draft.now.live) ≡ false }
    ensures { IfOk result (λ builder. built_lists builder ≡ walked (symbol_lists symbols draft.now)) }
{
    let nodes = with_nodes(alloc, draft, node_phandles)?;
    if !symbols {
        return Ok(nodes);
    }
    with_symbols(alloc, draft, nodes)
}

// With a plugin's fixups behind all others.
fn with_all(
    alloc: Global,
    draft: &Draft<'_, '_>,
    node_phandles: &NodePhandles,
    sites: &[FixupSite<'_>],
    symbols: bool,
) -> Result<TreeBuilder, AllocError>
    requires ready { IsReady draft.now }
    requires node_phandles { AreNodePhandles draft.now node_phandles.now }
    requires sites { AreSites draft.now sites.now }
    requires free { names_taken symbols draft.now.plugin (tree_of draft.now.live) ≡ false }
    requires shallow { list_any is_too_deep (lists symbols draft.now).nodes ≡ false }
    ensures { IfOk result (λ builder. built_lists builder ≡ walked (lists symbols draft.now)) }
{
    let builder = with_labels(alloc, draft, node_phandles, symbols)?;
    if !draft.plugin {
        return Ok(builder);
    }
    let builder = with_fixups(alloc, draft, sites, symbols, builder)?;
    with_local_fixups(alloc, draft, sites, symbols, builder)
}

/// The root with all below it: the nodes of the source, with symbols the labels' node, and a plugin's fixups last.
pub(crate) fn make(
    alloc: Global,
    draft: &Draft<'_, '_>,
    node_phandles: &NodePhandles,
    sites: &[FixupSite<'_>],
    symbols: bool,
) -> Result<Node, AllocError>
    requires ready { IsReady draft.now }
    requires node_phandles { AreNodePhandles draft.now node_phandles.now }
    requires sites { AreSites draft.now sites.now }
    requires free { names_taken symbols draft.now.plugin (tree_of draft.now.live) ≡ false }
    requires shallow { list_any is_too_deep (lists symbols draft.now).nodes ≡ false }
    ensures name { IfOk result (λ root. root.name ≡ []) }
    ensures map { IfOk result (λ root. path_map root ≡ map_of (lists symbols draft.now)) }
{
    with_all(alloc, draft, node_phandles, sites, symbols)?.finish()
}
