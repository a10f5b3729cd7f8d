//! The phandles and the targets of a tree.
ghost use Rattle.std.specs.Prelude.{◌≡◌, true, All, map, IfOk};
ghost use Rattle.dt_source.specs.TreeMeaning.References.{in_order, preorder};
ghost use Rattle.dt_live.specs.Rows.{IsLiveTree, IsNode, is_standing, node_path, state_of};
ghost use Rattle.dt_live.specs.Preorder.{definition_of};
ghost use Rattle.dt_build.specs.Resolve.NodePhandles.{AreStanding};
ghost use Rattle.dt_build.specs.Resolve.Private.Filled.{Resolves};
ghost use Rattle.dt_build.specs.Resolve.Private.Targets.{AreTargets};

use crate::resolve::error::{BuildError, BuildErrorKind};
use crate::resolve::labelled::named_nodes;
use crate::resolve::names::name_taken;
use crate::resolve::node_phandles::{Given, NodePhandle, given_phandles};
use crate::resolve::references::{Targets, find_targets};
use crate::resolve::wanted::number_nodes;
use dt_live::{LiveTree, NodeProperty};
use dt_source::Value;
use std::alloc::Global;

/// The phandles that a source gives, the targets of its references, and the phandles that nodes get.
#[derive(Drop)]
pub struct Resolution {
    pub given: Given,
    pub targets: Targets,
    pub new: Vec<NodePhandle>,
}

/// Finds the references of a source, and gives phandles to the nodes that are named in cells and, with symbols, to the labelled ones.
pub(crate) fn resolve<'d, 't>(
    alloc: Global,
    live: &LiveTree<'d, &'d Value<'t>>,
    order: &[usize],
    properties: &[NodeProperty<'d, &'d Value<'t>>],
    symbols: bool,
    plugin: bool,
) -> Result<Resolution, BuildError>
    requires sound { IsLiveTree live.now }
    requires known { All (λ n. IsNode live.now n) order.now }
    requires there { All (λ n. is_standing live.now n ≡ true) order.now }
    requires nodes { map (node_path live.now) order.now ≡ preorder (state_of live.now).nodes }
    requires owners { All (λ x. IsNode live.now x.node) properties.now }
    requires stand { All (λ x. is_standing live.now x.node ≡ true) properties.now }
    requires definitions { map (definition_of live.now) properties.now ≡ in_order (state_of live.now) }
    ensures targets { IfOk result (λ all. AreTargets live.now all.targets) }
    ensures given { IfOk result (λ all. AreStanding live.now.nodes.items all.given.phandles.items) }
    ensures new { IfOk result (λ all. AreStanding live.now.nodes.items all.new.items) }
    ensures resolved { Resolves symbols plugin live.now result }
{
    if let Some(at) = name_taken(live, symbols, plugin) {
        let kind = BuildErrorKind::ReservedName;
        return Err(BuildError { kind, at });
    }
    let given = match given_phandles(alloc, live.nodes(), properties) {
        Ok(given) => given,
        Err(error) => return Err(error),
    };
    let targets = match find_targets(alloc, live, properties, plugin) {
        Ok(targets) => targets,
        Err(error) => return Err(error),
    };
    let named = named_nodes(alloc, live, order, targets.cells.as_slice(), symbols)?;
    let new = number_nodes(alloc, live, &given, 0, named.as_slice())?;
    Ok(Resolution {
        given,
        targets,
        new,
    })
}
