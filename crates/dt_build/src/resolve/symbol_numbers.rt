//! The numbers that nodes get for their symbols in dtc's language.
ghost use Rattle.std.specs.Prelude.{◌≡◌, All, IfOk, true};
ghost use Rattle.dt_live.specs.Rows.{IsLiveTree, IsNode, is_standing};
ghost use Rattle.dt_build.specs.Resolve.NodePhandles.{AreStanding};
ghost use Rattle.dt_build.specs.Resolve.Private.SymbolNumbers.{AreSymbolNumbers, IsLastOf, standing_phandles};
ghost use Rattle.dt_build.specs.Resolve.Private.Wanted.{HasTaken};

use crate::resolve::node_phandles::{Given, NodePhandle, take};
use crate::resolve::wanted::number_nodes;
use dt_live::LiveTree;
use dt_source::Value;
use std::alloc::{AllocError, Global};
use std::collections::BTreeSet;

// The phandles of a list whose nodes are left.
fn left_phandles<'d, 't>(
    alloc: Global,
    live: &LiveTree<'d, &'d Value<'t>>,
    phandles: &[NodePhandle],
) -> Result<Given, AllocError>
    requires sound { IsLiveTree live.now }
    requires known { All (λ x. IsNode live.now x.node) phandles.now }
    ensures phandles { IfOk result (λ left. left.phandles.items ≡ standing_phandles live.now phandles.now) }
    ensures owners { IfOk result (λ left. AreStanding live.now.nodes.items left.phandles.items) }
    ensures taken { IfOk result (λ left. HasTaken live.now.nodes.items left) }
{
    let mut left = Given {
        phandles: Vec::with_capacity(alloc, phandles.len())?,
        taken: BTreeSet::new(alloc),
    };
    for one in phandles {
        if live.is_in_tree(one.node) {
            take(&mut left.taken, one.phandle)?;
            left.phandles.push(*one)?;
        }
    }
    Ok(left)
}

// The number before the last one that was given out, 0 where none was.
fn number_before_last(of_cells: &[NodePhandle]) -> u32
    ensures { IsLastOf of_cells.now result }
{
    match of_cells.last() {
        None => 0,
        Some(one) => one.phandle.saturating_sub(1),
    }
}

/// The numbers of those nodes of a list that have none, in their order: they go on from the last one that was given out, which is free
/// again if its node went.
pub(crate) fn numbers_of_symbols<'d, 't>(
    alloc: Global,
    live: &LiveTree<'d, &'d Value<'t>>,
    given: &[NodePhandle],
    of_cells: &[NodePhandle],
    nodes: &[usize],
) -> Result<Vec<NodePhandle>, AllocError>
    requires sound { IsLiveTree live.now }
    requires given { All (λ x. IsNode live.now x.node) given.now }
    requires of_cells { All (λ x. IsNode live.now x.node) of_cells.now }
    requires known { All (λ n. IsNode live.now n) nodes.now }
    requires there { All (λ n. is_standing live.now n ≡ true) nodes.now }
    ensures stand { IfOk result (λ new. AreStanding live.now.nodes.items new.items) }
    ensures numbers { IfOk result (λ new. AreSymbolNumbers live.now given.now of_cells.now nodes.now new.items) }
{
    let mut all = Vec::from_slice(alloc, given)?;
    all.extend_from_slice(of_cells)?;
    let left = left_phandles(alloc, live, all.as_slice())?;
    number_nodes(alloc, live, &left, number_before_last(of_cells), nodes)
}
