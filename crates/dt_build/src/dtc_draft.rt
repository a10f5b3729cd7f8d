//! The draft of a source in dtc's language.
ghost use Rattle.std.specs.Prelude.{◌≡◌, ◌<◌, All, IfOk, length};
ghost use Rattle.std.specs.List.{filter};
ghost use Rattle.dt_live.specs.Rows.{IsLiveTree, IsNode};
ghost use Rattle.dt_build.specs.Resolve.NodePhandles.{AreMarks};
ghost use Rattle.dt_build.specs.Resolve.Private.Gone.{is_marked};
ghost use Rattle.dt_build.specs.Private.DtcDrafts.{IsDtcDraft, has_own_row, is_added, kept_properties};

use crate::draft::Draft;
use crate::node_names::repeats_name;
use crate::resolve::{Gathered, NodePhandle};
use dt_live::{LiveTree, NodeProperty, Preorder};
use dt_source::Value;
use std::alloc::{AllocError, Global};

// The properties but those that repeat the names of their nodes. Their targets stay the same: such a value has none.
fn without_names<'d, 't>(
    alloc: Global,
    live: &LiveTree<'d, &'d Value<'t>>,
    properties: &[NodeProperty<'d, &'d Value<'t>>],
) -> Result<Vec<NodeProperty<'d, &'d Value<'t>>>, AllocError>
    requires sound { IsLiveTree live.now }
    requires known { All (λ x. IsNode live.now x.node) properties.now }
    ensures { IfOk result (λ kept. kept.items ≡ kept_properties live.now properties.now) }
{
    let mut kept = Vec::with_capacity(alloc, properties.len())?;
    for property in properties {
        if !repeats_name(live, property) {
            kept.push(*property)?;
        }
    }
    Ok(kept)
}

// Whether each node has its own property `phandle`.
fn own_marks<'d, 't>(
    alloc: Global,
    count: usize,
    properties: &[NodeProperty<'d, &'d Value<'t>>],
) -> Result<Vec<bool>, AllocError>
    requires { All (λ x. x.node < count) properties.now }
    ensures count { IfOk result (λ marks. length marks.items ≡ count) }
    ensures marks { IfOk result (λ marks. AreMarks (has_own_row properties.now) marks.items) }
{
    let mut marks = vec![in alloc; false; count]?;
    for property in properties {
        if property.name == b"phandle".as_slice() {
            marks[property.node] = true;
        }
    }
    Ok(marks)
}

// Whether a phandle gets a property: its node is left, and has none of its own.
fn gets_property<'d, 't>(live: &LiveTree<'d, &'d Value<'t>>, own: &[bool], one: NodePhandle) -> bool
    requires sound { IsLiveTree live.now }
    requires known { IsNode live.now one.node }
    requires own { one.node < length own.now }
    ensures { result ≡ is_added live.now (is_marked own.now) one }
{
    if !live.is_in_tree(one.node) {
        return false;
    }
    !own[one.node]
}

// The phandles that get a property.
fn added_phandles<'d, 't>(
    alloc: Global,
    live: &LiveTree<'d, &'d Value<'t>>,
    own: &[bool],
    phandles: &[NodePhandle],
) -> Result<Vec<NodePhandle>, AllocError>
    requires sound { IsLiveTree live.now }
    requires known { All (λ x. IsNode live.now x.node) phandles.now }
    requires own { All (λ x. x.node < length own.now) phandles.now }
    ensures { IfOk result (λ added. added.items ≡ filter (is_added live.now (is_marked own.now)) phandles.now) }
{
    let mut added = Vec::with_capacity(alloc, phandles.len())?;
    for one in phandles {
        if gets_property(live, own, *one) {
            added.push(*one)?;
        }
    }
    Ok(added)
}

/// The draft of what is gathered of a source in dtc's language, whose system boots on this processor.
pub(crate) fn dtc_draft_of<'d, 't>(
    alloc: Global,
    gathered: Gathered<'d, 't>,
    plugin: bool,
    processor: u32,
) -> Result<Draft<'d, 't>, AllocError>
    requires sound { IsLiveTree gathered.live }
    requires owners { All (λ x. IsNode gathered.live x.node) gathered.in_preorder.properties.items }
    requires new { All (λ x. IsNode gathered.live x.node) gathered.new.items }
    ensures { IfOk result (λ draft. IsDtcDraft plugin processor gathered.entry draft) }
{
    let Gathered {
        live,
        in_preorder,
        targets,
        anew,
        given,
        new,
        labelled,
    } = gathered;
    let found = in_preorder.properties.as_slice();
    let own = own_marks(alloc, live.nodes().len() + 1, found)?;
    let added = added_phandles(alloc, &live, own.as_slice(), new.as_slice())?;
    let properties = without_names(alloc, &live, found)?;
    Ok(Draft {
        asks: true,
        plugin,
        live,
        in_preorder: Preorder {
            nodes: in_preorder.nodes,
            properties,
        },
        targets,
        anew,
        given,
        new,
        added,
        labelled,
        processor,
    })
}
