//! The nodes that have labels.
ghost use Rattle.std.specs.Prelude.{◌≡◌, ◌+◌, ◌<◌, ◌==◌, All, IfOk, length};
ghost use Rattle.std.specs.List.{list_any};
ghost use Rattle.dt_live.specs.Rows.{IsLiveTree, IsNode};
ghost use Rattle.dt_build.specs.Resolve.NodePhandles.{AreMarks};
ghost use Rattle.dt_build.specs.Resolve.Private.Wanted.{labelled_rows, marked_rows, named_rows};
ghost use Rattle.dt_build.specs.Resolve.Private.Gone.{is_marked};

use dt_live::{LabelRow, LiveTree, is_reserved};
use dt_source::Value;
use std::alloc::{AllocError, Global};

// Whether each node has got a label.
fn label_marks(
    alloc: Global,
    count: usize,
    labels: &[LabelRow<'_>],
) -> Result<Vec<bool>, AllocError>
    requires { All (λ r. r.node < count) labels.now }
    ensures count { IfOk result (λ marks. length marks.items ≡ count) }
    ensures marks { IfOk result (λ marks. AreMarks (λ n. list_any (λ r. r.node == n) labels.now) marks.items) }
{
    let mut marks = vec![in alloc; false; count]?;
    for row in labels {
        marks[row.node] = true;
    }
    Ok(marks)
}

/// The nodes of a list that are marked, without the reserved ones.
pub(crate) fn marked_nodes<'d, 't>(
    alloc: Global,
    live: &LiveTree<'d, &'d Value<'t>>,
    order: &[usize],
    marks: &[bool],
) -> Result<Vec<usize>, AllocError>
    requires sound { IsLiveTree live.now }
    requires known { All (λ n. IsNode live.now n) order.now }
    requires marks { length marks.now ≡ length live.now.nodes.items + 1 }
    ensures { IfOk result (λ nodes. nodes.items ≡ marked_rows live.now (is_marked marks.now) order.now) }
{
    let mut nodes = Vec::new(alloc);
    for node in order {
        if marks[*node] {
            if !is_reserved(live.nodes(), *node) {
                nodes.push(*node)?;
            }
        }
    }
    Ok(nodes)
}

/// The nodes of a list that have labels, without the reserved ones.
pub(crate) fn labelled_nodes<'d, 't>(
    alloc: Global,
    live: &LiveTree<'d, &'d Value<'t>>,
    order: &[usize],
) -> Result<Vec<usize>, AllocError>
    requires sound { IsLiveTree live.now }
    requires known { All (λ n. IsNode live.now n) order.now }
    ensures { IfOk result (λ nodes. nodes.items ≡ labelled_rows live.now order.now) }
{
    let marks = label_marks(alloc, live.nodes().len() + 1, live.labels())?;
    marked_nodes(alloc, live, order, marks.as_slice())
}

/// The nodes that are named in cells, and with symbols the labelled ones behind them.
pub(crate) fn named_nodes<'d, 't>(
    alloc: Global,
    live: &LiveTree<'d, &'d Value<'t>>,
    order: &[usize],
    cells: &[usize],
    symbols: bool,
) -> Result<Vec<usize>, AllocError>
    requires sound { IsLiveTree live.now }
    requires known { All (λ n. IsNode live.now n) order.now }
    ensures { IfOk result (λ named. named.items ≡ named_rows live.now order.now cells.now symbols) }
{
    let mut named = Vec::from_slice(alloc, cells)?;
    if symbols {
        let labelled = labelled_nodes(alloc, live, order)?;
        named.extend_from_slice(labelled.as_slice())?;
    }
    Ok(named)
}
