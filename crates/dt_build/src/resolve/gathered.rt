//! All that making a tree in dtc's language needs.
ghost use Rattle.std.specs.Prelude.{◌≡◌, ◌+◌, ◌<◌, true, All, IfOk, OnOk, length};
ghost use Rattle.std.specs.List.{list_any};
ghost use Rattle.dt_source.specs.TreeMeaning.DtcEdits.{DtcTree};
ghost use Rattle.dt_live.specs.Rows.{IsLiveTree, IsNode, is_standing};
ghost use Rattle.dt_build.specs.Edit.Standing.{IsStandingOf};
ghost use Rattle.dt_build.specs.Resolve.Gathered.{Gathers};
ghost use Rattle.dt_build.specs.Resolve.Private.Gathering.{AreAllNumbers, Extends, FindsAnew, GathersIn, IsInOrder, IsWithout, NumbersCells};
ghost use Rattle.dt_build.specs.Resolve.Private.Gone.{IsThereIn, is_marked};

use crate::edit::Standing;
use crate::resolve::error::{BuildError, BuildErrorKind};
use crate::resolve::given_by_both::given_by_both;
use crate::resolve::gone::gone_nodes;
use crate::resolve::labelled::marked_nodes;
use crate::resolve::leaving::{left_nodes, left_properties, remove_nodes};
use crate::resolve::names::name_taken;
use crate::resolve::node_phandles::NodePhandle;
use crate::resolve::references::find_targets;
use crate::resolve::symbol_numbers::numbers_of_symbols;
use crate::resolve::wanted::number_nodes;
use dt_live::{LiveTree, Preorder, preorder_of};
use dt_source::Value;
use std::alloc::{AllocError, Global};

/// What a tree in dtc's language is made of.
#[derive(Drop)]
pub struct Gathered<'d, 't> {
    /// what is left of the tree that stood
    pub live: LiveTree<'d, &'d Value<'t>>,
    pub in_preorder: Preorder<'d, &'d Value<'t>>,
    /// the targets of its references, also those that went
    pub targets: Vec<Option<usize>>,
    /// the targets found anew, where nodes of a plugin went
    pub anew: Option<Vec<Option<usize>>>,
    /// the phandles that properties give, also those of nodes that went
    pub given: Vec<NodePhandle>,
    /// the phandles that nodes get, in the order in which they get them
    pub new: Vec<NodePhandle>,
    /// whether one of its nodes ever had a label
    pub labelled: bool,
}

/// A tree in preorder, and the targets of its references.
#[derive(Drop)]
pub(crate) struct Rest<'d, 't> {
    pub(crate) in_preorder: Preorder<'d, &'d Value<'t>>,
    pub(crate) targets: Vec<Option<usize>>,
}

/// And the phandles that are given and that references in cells want.
#[derive(Drop)]
pub(crate) struct Numbered<'d, 't> {
    pub(crate) rest: Rest<'d, 't>,
    pub(crate) given: Vec<NodePhandle>,
    pub(crate) of_cells: Vec<NodePhandle>,
}

/// All but the tree itself.
#[derive(Drop)]
pub(crate) struct Gathering<'d, 't> {
    pub(crate) rest: Rest<'d, 't>,
    pub(crate) anew: Option<Vec<Option<usize>>>,
    pub(crate) given: Vec<NodePhandle>,
    pub(crate) new: Vec<NodePhandle>,
    pub(crate) labelled: bool,
}

// Finds the references of a tree, and numbers the nodes that they name in cells.
fn number_cells<'d, 't>(
    alloc: Global,
    live: &LiveTree<'d, &'d Value<'t>>,
    plugin: bool,
) -> Result<Numbered<'d, 't>, BuildError>
    requires sound { IsLiveTree live.now }
    ensures { NumbersCells plugin live.now result }
{
    let in_preorder = preorder_of(alloc, live)?;
    let properties = in_preorder.properties.as_slice();
    let targets = match find_targets(alloc, live, properties, plugin) {
        Ok(targets) => targets,
        Err(error) => return Err(error),
    };
    let given = match given_by_both(alloc, live, properties, targets.all.as_slice()) {
        Ok(given) => given,
        Err(error) => return Err(error),
    };
    let of_cells = number_nodes(alloc, live, &given, 0, targets.cells.as_slice())?;
    Ok(Numbered {
        rest: Rest {
            in_preorder,
            targets: targets.all,
        },
        given: given.phandles,
        of_cells,
    })
}

// Removes the nodes that go. Where none goes, nothing is made anew.
fn leave<'d, 't>(
    alloc: Global,
    live: &mut LiveTree<'d, &'d Value<'t>>,
    rest: &mut Rest<'d, 't>,
    gone: &[usize],
) -> Result<(), AllocError>
    requires sound { IsLiveTree live.old }
    requires gone { All (IsThereIn live.old) gone.now }
    requires order { IsInOrder live.old rest.old }
    ensures sound { OnOk result (IsLiveTree live.new) }
    ensures left { OnOk result (IsWithout gone.now live.old rest.old live.new rest.new) }
{
    if gone.is_empty() {
        return Ok(());
    }
    remove_nodes(live, gone);
    let nodes = left_nodes(alloc, &*live, rest.in_preorder.nodes.as_slice())?;
    let left = left_properties(
        alloc,
        &*live,
        rest.in_preorder.properties.as_slice(),
        rest.targets.as_slice(),
    )?;
    *rest = Rest {
        in_preorder: Preorder {
            nodes,
            properties: left.properties,
        },
        targets: left.targets,
    };
    Ok(())
}

// In a plugin from which nodes went, the targets of what is left.
fn find_anew<'d, 't>(
    alloc: Global,
    live: &LiveTree<'d, &'d Value<'t>>,
    rest: &Rest<'d, 't>,
    plugin: bool,
    gone: &[usize],
) -> Result<Option<Vec<Option<usize>>>, BuildError>
    requires sound { IsLiveTree live.now }
    requires order { IsInOrder live.now rest.now }
    ensures { FindsAnew plugin gone.now live.now rest.now result }
{
    if !plugin {
        return Ok(None);
    }
    if gone.is_empty() {
        return Ok(None);
    }
    match find_targets(alloc, live, rest.in_preorder.properties.as_slice(), true) {
        Ok(targets) => Ok(Some(targets.all)),
        Err(error) => Err(error),
    }
}

// The numbers of cells, and with symbols those of the nodes that ever had a label.
fn number_symbols<'d, 't>(
    alloc: Global,
    live: &LiveTree<'d, &'d Value<'t>>,
    order: &[usize],
    labelled: &[bool],
    given: &[NodePhandle],
    of_cells: &[NodePhandle],
    symbols: bool,
) -> Result<Vec<NodePhandle>, AllocError>
    requires sound { IsLiveTree live.now }
    requires known { All (λ n. IsNode live.now n) order.now }
    requires there { All (λ n. is_standing live.now n ≡ true) order.now }
    requires labelled { length labelled.now ≡ length live.now.nodes.items + 1 }
    requires given { All (λ x. IsNode live.now x.node) given.now }
    requires of_cells { All (λ x. IsNode live.now x.node) of_cells.now }
    ensures numbers { IfOk result (λ new. AreAllNumbers live.now order.now labelled.now given.now of_cells.now symbols new.items) }
    ensures extends { IfOk result (λ new. Extends live.now of_cells.now new.items) }
{
    let mut new = Vec::from_slice(alloc, of_cells)?;
    if symbols {
        let nodes = marked_nodes(alloc, live, order, labelled)?;
        let of_symbols = numbers_of_symbols(alloc, live, given, of_cells, nodes.as_slice())?;
        new.extend_from_slice(of_symbols.as_slice())?;
    }
    Ok(new)
}

// Whether one of the nodes is marked.
fn is_one_marked(marks: &[bool], nodes: &[usize]) -> bool
    requires { All (λ n. n < length marks.now) nodes.now }
    ensures { result ≡ list_any (is_marked marks.now) nodes.now }
{
    for node in nodes {
        if marks[*node] {
            return true;
        }
    }
    false
}

// Gathers all in the tree that stands, from which nodes go.
fn gather_in<'d, 't>(
    alloc: Global,
    standing: &mut Standing<'d, 't>,
    symbols: bool,
    plugin: bool,
) -> Result<Gathering<'d, 't>, BuildError>
    requires sound { IsLiveTree standing.old.live }
    requires marked { length standing.old.marked.items ≡ length standing.old.live.nodes.items + 1 }
    requires labelled { length standing.old.labelled.items ≡ length standing.old.live.nodes.items + 1 }
    ensures { (t : DtcTree) → IsStandingOf standing.old t → GathersIn symbols plugin t standing.new.live result }
{
    if let Some(at) = name_taken(&standing.live, symbols, plugin) {
        let kind = BuildErrorKind::ReservedName;
        return Err(BuildError { kind, at });
    }
    let mut numbered = match number_cells(alloc, &standing.live, plugin) {
        Ok(numbered) => numbered,
        Err(error) => return Err(error),
    };
    let gone = gone_nodes(alloc, standing, numbered.rest.targets.as_slice(), symbols)?;
    leave(
        alloc,
        &mut standing.live,
        &mut numbered.rest,
        gone.as_slice(),
    )?;
    let anew = match find_anew(
        alloc,
        &standing.live,
        &numbered.rest,
        plugin,
        gone.as_slice(),
    ) {
        Ok(anew) => anew,
        Err(error) => return Err(error),
    };
    let order = numbered.rest.in_preorder.nodes.as_slice();
    let labelled = is_one_marked(standing.labelled.as_slice(), order);
    let new = number_symbols(
        alloc,
        &standing.live,
        order,
        standing.labelled.as_slice(),
        numbered.given.as_slice(),
        numbered.of_cells.as_slice(),
        symbols,
    )?;
    Ok(Gathering {
        rest: numbered.rest,
        anew,
        given: numbered.given,
        new,
        labelled,
    })
}

/// Gathers all that making the tree of a source in dtc's language needs: finds its references and the phandles that it gives, numbers
/// the nodes that are named in cells, omits the nodes before which `/omit-if-no-ref/` counts and that no reference names, and with symbols
/// numbers what is left and ever had a label.
pub fn gather<'d, 't>(
    alloc: Global,
    standing: Standing<'d, 't>,
    symbols: bool,
    plugin: bool,
) -> Result<Gathered<'d, 't>, BuildError>
    requires sound { IsLiveTree standing.live }
    requires marked { length standing.marked.items ≡ length standing.live.nodes.items + 1 }
    requires labelled { length standing.labelled.items ≡ length standing.live.nodes.items + 1 }
    ensures { (t : DtcTree) → IsStandingOf standing.entry t → Gathers symbols plugin t result }
{
    let mut standing = standing;
    match gather_in(alloc, &mut standing, symbols, plugin) {
        Ok(gathering) => Ok(Gathered {
            live: standing.live,
            in_preorder: gathering.rest.in_preorder,
            targets: gathering.rest.targets,
            anew: gathering.anew,
            given: gathering.given,
            new: gathering.new,
            labelled: gathering.labelled,
        }),
        Err(error) => Err(error),
    }
}
