//! The local fixups of a plugin's nodes below the root's child `__local_fixups__`.
ghost use Rattle.std.specs.Prelude.{◌≡◌, ◌≤◌, ◌<◌, ◌+◌, [], true, false, IfOk, OnOk, length, map, replicate};
ghost use Rattle.std.specs.List.{list_any};
ghost use Rattle.dt_source.specs.TreeMeaning.Resolved.{is_too_deep, names_taken};
ghost use Rattle.dt_build.specs.Edit.Said.{tree_of};
ghost use Rattle.dt_live.specs.Builder.Builders.{built_lists};
ghost use Rattle.dt_live.specs.Builder.Standing.{walked};
ghost use Rattle.dt_build.specs.Private.Made.{fixup_lists, lists as lists_of};
ghost use Rattle.dt_build.specs.Private.FixupSites.{AreSites};
ghost use Rattle.dt_build.specs.Private.LocalFixups.{AreListsFrom, AreMadeTo, AreMarks, ArePlaced, IsAtNode, ListsNodes, MarksNode, MarksNodes};
ghost use Rattle.dt_build.specs.Private.Ready.{IsReady};

use crate::draft::Draft;
use crate::fixup_sites::FixupSite;
use crate::local_properties::{LocalFixup, local_properties};
use dt_live::builder::TreeBuilder;
use dt_tree::{Bytes, Property, lawful_name};
use std::alloc::{AllocError, Global};
use std::mem;

// Marks a node and all above it but the root.
fn mark(marks: &mut Vec<bool>, draft: &Draft<'_, '_>, node: usize)
    requires ready { IsReady draft.now }
    requires node { IsAtNode draft.now node }
    requires count { length marks.old.items ≡ length draft.now.live.nodes.items + 1 }
    ensures count { length marks.new.items ≡ length marks.old.items }
    ensures marks { MarksNode draft.now node marks.old.items marks.new.items }
{
    let rows = draft.live.nodes();
    let mut at = node;
    'up: while at != 0 {
        marks[at] = true;
        at = rows[at - 1].parent;
    }
}

// Whether each node but the root, or one below it, is that of a local fixup.
fn local_marks(
    alloc: Global,
    draft: &Draft<'_, '_>,
    locals: &[LocalFixup],
) -> Result<Vec<bool>, AllocError>
    requires ready { IsReady draft.now }
    requires places { ArePlaced draft.now locals.now }
    ensures count { IfOk result (λ marks. length marks.items ≡ length draft.now.live.nodes.items + 1) }
    ensures marks { IfOk result (λ marks. MarksNodes draft.now locals.now marks.items) }
{
    let mut marks = vec![in alloc; false; draft.live.nodes().len() + 1]?;
    for one in locals {
        let property = draft.in_preorder.properties[one.property];
        mark(&mut marks, draft, property.node);
    }
    Ok(marks)
}

// An empty list for each.
fn empty_lists(alloc: Global, count: usize) -> Result<Vec<Vec<Property>>, AllocError>
    ensures { IfOk result (λ lists. map (λ list. list.items) lists.items ≡ replicate count []) }
{
    let mut lists = Vec::with_capacity(alloc, count)?;
    for _ in 0..count {
        lists.push(Vec::new(alloc))?;
    }
    Ok(lists)
}

// The local fixups of each node.
fn local_lists(
    alloc: Global,
    draft: &Draft<'_, '_>,
    locals: Vec<LocalFixup>,
) -> Result<Vec<Vec<Property>>, AllocError>
    requires ready { IsReady draft.now }
    requires places { ArePlaced draft.now locals.items }
    ensures count { IfOk result (λ lists. length lists.items ≡ length draft.now.live.nodes.items + 1) }
    ensures lists { IfOk result (λ lists. ListsNodes draft.now locals.items (map (λ list. list.items) lists.items)) }
{
    let mut lists = empty_lists(alloc, draft.live.nodes().len() + 1)?;
    for one in locals {
        let property = draft.in_preorder.properties[one.property];
        lists[property.node].push(Property {
            name: lawful_name(alloc, property.name)?,
            value: Bytes::from_vec(one.cells),
        })?;
    }
    Ok(lists)
}

// The tree with the node at a place in preorder behind all others, where it or one below it has local fixups.
fn with_local_node(
    alloc: Global,
    draft: &Draft<'_, '_>,
    symbols: bool,
    place: usize,
    marks: &[bool],
    lists: &mut Vec<Vec<Property>>,
    builder: TreeBuilder,
) -> Result<TreeBuilder, AllocError>
    requires ready { IsReady draft.now }
    requires free { names_taken symbols draft.now.plugin (tree_of draft.now.live) ≡ false }
    requires shallow { list_any is_too_deep (lists_of symbols draft.now).nodes ≡ false }
    requires plugin { draft.now.plugin ≡ true }
    requires some { 1 ≤ place }
    requires below { place < length draft.now.in_preorder.nodes.items }
    requires marks { AreMarks draft.now marks.now }
    requires lists { AreListsFrom place draft.now (map (λ list. list.items) lists.old.items) }
    requires made { AreMadeTo symbols draft.now place builder }
    ensures lists { OnOk result (AreListsFrom (place + 1) draft.now (map (λ list. list.items) lists.new.items)) }
    ensures made { IfOk result (λ more. AreMadeTo symbols draft.now (place + 1) more) }
{
    let node = draft.in_preorder.nodes[place];
    if !marks[node] {
        return Ok(builder);
    }
    let name = lawful_name(alloc, draft.live.nodes()[node - 1].name)?;
    let properties = mem::replace(&mut lists[node], Vec::new(alloc));
    let depth = draft.live.depth(node) + 1;
    builder.push(alloc, depth, name, properties)
}

/// The tree with the local fixups behind all other nodes, where the plugin has a phandle of its own in cells.
pub(crate) fn with_local_fixups(
    alloc: Global,
    draft: &Draft<'_, '_>,
    sites: &[FixupSite<'_>],
    symbols: bool,
    builder: TreeBuilder,
) -> Result<TreeBuilder, AllocError>
    requires ready { IsReady draft.now }
    requires sites { AreSites draft.now sites.now }
    requires free { names_taken symbols draft.now.plugin (tree_of draft.now.live) ≡ false }
    requires shallow { list_any is_too_deep (lists_of symbols draft.now).nodes ≡ false }
    requires made { built_lists builder ≡ walked (fixup_lists symbols draft.now) }
    ensures { IfOk result (λ whole. built_lists whole ≡ walked (lists_of symbols draft.now)) }
{
    let locals = local_properties(alloc, draft, sites)?;
    if locals.is_empty() {
        return Ok(builder);
    }
    let marks = local_marks(alloc, draft, locals.as_slice())?;
    let mut lists = local_lists(alloc, draft, locals)?;
    let name = lawful_name(alloc, b"__local_fixups__".as_slice())?;
    let properties = mem::replace(&mut lists[0], Vec::new(alloc));
    let mut builder = builder.push(alloc, 1, name, properties)?;
    let mut place = 1;
    'each: while place < draft.in_preorder.nodes.len() {
        builder = with_local_node(
            alloc,
            draft,
            symbols,
            place,
            marks.as_slice(),
            &mut lists,
            builder,
        )?;
        place += 1;
    }
    Ok(builder)
}
