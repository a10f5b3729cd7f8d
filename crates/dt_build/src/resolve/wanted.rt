//! The nodes that want a phandle, and the phandles that they get.
ghost use Rattle.std.specs.Prelude.{IfSome, ◌≡◌, ◌<◌, All, IfOk, length, true, ◌==◌};
ghost use Rattle.std.specs.List.{list_any};
ghost use Rattle.dt_live.specs.Rows.{IsLiveTree, IsNode, is_standing};
ghost use Rattle.dt_build.specs.Resolve.NodePhandles.{AreMarks, AreStanding};
ghost use Rattle.dt_build.specs.Resolve.Private.Wanted.{AreNumbered, HasTaken, free_after, is_taken, new_phandles, new_rows};

use crate::resolve::node_phandles::{Given, NodePhandle};
use dt_live::LiveTree;
use dt_source::Value;
use std::alloc::{AllocError, Global};
use std::collections::BTreeSet;

/// Whether each node has one of these phandles.
pub fn nodes_with_phandles(
    alloc: Global,
    count: usize,
    phandles: &[NodePhandle],
) -> Result<Vec<bool>, AllocError>
    requires { All (λ x. x.node < count) phandles.now }
    ensures count { IfOk result (λ marks. length marks.items ≡ count) }
    ensures marks { IfOk result (λ marks. AreMarks (λ n. list_any (λ x. x.node == n) phandles.now) marks.items) }
{
    let mut marks = vec![in alloc; false; count]?;
    for one in phandles {
        marks[one.node] = true;
    }
    Ok(marks)
}

// The nodes of a list that have no phandle from the source, each once, where it is first.
fn wanting(
    alloc: Global,
    count: usize,
    given: &[NodePhandle],
    named: &[usize],
) -> Result<Vec<usize>, AllocError>
    requires given { All (λ x. x.node < count) given.now }
    requires named { All (λ n. n < count) named.now }
    ensures { IfOk result (λ nodes. nodes.items ≡ new_rows (λ n. list_any (λ x. x.node == n) given.now) named.now) }
{
    let mut known = nodes_with_phandles(alloc, count, given)?;
    let mut nodes = Vec::new(alloc);
    for node in named {
        if !known[*node] {
            known[*node] = true;
            nodes.push(*node)?;
        }
    }
    Ok(nodes)
}

// The first number above the last one that isn't taken: of one more than so many numbers, one is free. None where numbers
// ran out, which 2^32 nodes would take.
fn free_phandle(taken: &BTreeSet<u32>, tries: usize, last: u32) -> Option<u32>
    ensures { IfSome result (λ phandle. phandle ≡ free_after (is_taken taken.now) tries last) }
{
    let mut phandle = last.checked_add(1)?;
    for _ in 0..tries {
        if !taken.contains(&phandle) {
            return Some(phandle);
        }
        phandle = phandle.checked_add(1)?;
    }
    Some(phandle)
}

// Gives each node the next phandle above the last one that isn't given.
fn assign_phandles(
    alloc: Global,
    given: &Given,
    last: u32,
    nodes: &[usize],
) -> Result<Vec<NodePhandle>, AllocError>
    ensures { IfOk result (λ phandles. phandles.items ≡ new_phandles given.now last nodes.now) }
{
    let mut phandles = Vec::with_capacity(alloc, nodes.len())?;
    let mut last = last;
    for node in nodes {
        last = match free_phandle(&given.taken, given.phandles.len(), last) {
            Some(phandle) => phandle,
            None => return Err(AllocError),
        };
        phandles.push(NodePhandle {
            node: *node,
            phandle: last,
        })?;
    }
    Ok(phandles)
}

/// Gives each node of a list that has no phandle the next one above the last that isn't given, in their order.
pub(crate) fn number_nodes<'d, 't>(
    alloc: Global,
    live: &LiveTree<'d, &'d Value<'t>>,
    given: &Given,
    last: u32,
    nodes: &[usize],
) -> Result<Vec<NodePhandle>, AllocError>
    requires sound { IsLiveTree live.now }
    requires owners { AreStanding live.now.nodes.items given.now.phandles.items }
    requires taken { HasTaken live.now.nodes.items given.now }
    requires known { All (λ n. IsNode live.now n) nodes.now }
    requires there { All (λ n. is_standing live.now n ≡ true) nodes.now }
    ensures stand { IfOk result (λ new. AreStanding live.now.nodes.items new.items) }
    ensures numbers { IfOk result (λ new. AreNumbered live.now given.now last nodes.now new.items) }
{
    let count = live.nodes().len() + 1;
    let wanted = wanting(alloc, count, given.phandles.as_slice(), nodes)?;
    let new = assign_phandles(alloc, given, last, wanted.as_slice())?;
    Ok(new)
}
