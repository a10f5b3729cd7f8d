//! The nodes that go when a source in dtc's language is read.
ghost use Rattle.std.specs.Prelude.{◌≡◌, ◌+◌, ◌<◌, All, IfOk, length};
ghost use Rattle.std.specs.List.{list_any};
ghost use Rattle.dt_live.specs.Rows.{IsLiveTree};
ghost use Rattle.dt_build.specs.Resolve.NodePhandles.{AreMarks};
ghost use Rattle.dt_build.specs.Resolve.Private.Gone.{IsBelow, goes_by, gone_rows, is_marked, is_target};

use crate::edit::Standing;
use std::alloc::{AllocError, Global};

// Whether a reference names each node.
fn named_marks(
    alloc: Global,
    count: usize,
    targets: &[Option<usize>],
) -> Result<Vec<bool>, AllocError>
    requires { All (IsBelow count) targets.now }
    ensures count { IfOk result (λ marks. length marks.items ≡ count) }
    ensures marks { IfOk result (λ marks. AreMarks (λ n. list_any (is_target n) targets.now) marks.items) }
{
    let mut marks = vec![in alloc; false; count]?;
    for target in targets {
        if let Some(node) = *target {
            marks[node] = true;
        }
    }
    Ok(marks)
}

// Whether a node goes: it is marked, no reference names it, and with symbols it never had a label.
fn goes(standing: &Standing<'_, '_>, named: &[bool], symbols: bool, node: usize) -> bool
    requires marked { node < length standing.now.marked.items }
    requires labelled { node < length standing.now.labelled.items }
    requires named { node < length named.now }
    ensures { result ≡ goes_by (is_marked named.now) standing.now symbols node }
{
    if !standing.marked[node] {
        return false;
    }
    if named[node] {
        return false;
    }
    if symbols {
        return !standing.labelled[node];
    }
    true
}

/// The nodes that go, in order of definition.
pub(crate) fn gone_nodes(
    alloc: Global,
    standing: &Standing<'_, '_>,
    targets: &[Option<usize>],
    symbols: bool,
) -> Result<Vec<usize>, AllocError>
    requires sound { IsLiveTree standing.now.live }
    requires marked { length standing.now.marked.items ≡ length standing.now.live.nodes.items + 1 }
    requires labelled { length standing.now.labelled.items ≡ length standing.now.live.nodes.items + 1 }
    requires targets { All (IsBelow (length standing.now.live.nodes.items + 1)) targets.now }
    ensures { IfOk result (λ gone. gone.items ≡ gone_rows standing.now targets.now symbols) }
{
    let count = standing.live.nodes().len();
    let named = named_marks(alloc, count + 1, targets)?;
    let mut gone = Vec::new(alloc);
    for row in 0..count {
        let node = row + 1;
        if goes(standing, named.as_slice(), symbols, node) {
            if standing.live.is_in_tree(node) {
                gone.push(node)?;
            }
        }
    }
    Ok(gone)
}
