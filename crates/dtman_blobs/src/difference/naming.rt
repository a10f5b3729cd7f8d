//! What the phandles of a tree name.
ghost use Rattle.std.specs.Prelude.{◌≡◌, ◌∷◌, ◌++◌, ℕ, nat_eq, IfOk, OnOk, None};
ghost use Rattle.indexmap.specs.IndexMap.{get};
ghost use Rattle.dtman_blobs.specs.Difference.Named.{own};
ghost use Rattle.dtman_blobs.specs.Difference.Private.Kept.{IsNaming, IsNamedWith, named_at};

use dt_tree::{Node, Tree, is_reserved_name};
use indexmap::IndexMap;
use std::alloc::{AllocError, Global};
use std::hash::RandomState;
use std::marker::Model;

/// A node that is named, and its path: each name behind a slash, and of the root nothing.
#[derive(Drop)]
pub struct Named<'t> {
    path: Vec<u8>,
    node: &'t Node,
}

impl<'t> Model for Named<'t> {
    ghost use Rattle.dtman_blobs.specs.Difference.Named.{NamedNode};

    ghost Value = { NamedNode };

    ghost view = { λ n. record { path = n.path.items; properties = n.node.now.properties } };
}

impl<'t> Named<'t> {
    fn new(path: Vec<u8>, node: &'t Node) -> Self
        ensures { result ≡ record { path = path.items; properties = node.now.properties } }
    {
        Self { path, node }
    }

    /// The path.
    pub fn path(&self) -> &[u8]
        ensures { result.now ≡ self.now.path }
    {
        self.path.as_slice()
    }

    /// The node.
    pub fn node(&self) -> &'t Node
        ensures { result.now.properties ≡ self.now.properties }
    {
        self.node
    }
}

/// What each phandle of a tree names, found without a walk. Contracts see the tree's root.
#[derive(Drop)]
pub struct Naming<'t> {
    root: &'t Node,
    named: IndexMap<u32, Named<'t>, RandomState>,
}

impl<'t> Model for Naming<'t> {
    ghost use Rattle.dt_tree.specs.NodeData.{NodeData};
    ghost use Rattle.dt_tree.specs.NodeCode.{coded_node};
    ghost use Rattle.dtman_blobs.specs.Difference.Private.Kept.{IsNaming};

    ghost Value = { NodeData };

    ghost coded = { coded_node };

    ghost view = { λ s. s.root.now };

    ghost use Rattle.std.specs.Prelude.{nat_eq};
    ghost use Rattle.indexmap.specs.IndexMap.{get};

    ghost invariant = { λ s. IsNaming s.root.now (get nat_eq s.named) };
}

/// Puts a name behind a path.
pub(crate) fn path_below(alloc: Global, path: &[u8], name: &[u8]) -> Result<Vec<u8>, AllocError>
    ensures { IfOk result (λ below. below.items ≡ path.now ++ 47 ∷ name.now) }
{
    let mut below = Vec::with_capacity(alloc, path.len())?;
    below.extend_from_slice(path)?;
    below.push(b'/')?;
    below.extend_from_slice(name)?;
    Ok(below)
}

// Of several nodes with one phandle, the first stays.
fn keep<'t>(
    alloc: Global,
    named: &mut IndexMap<u32, Named<'t>, RandomState>,
    path: &[u8],
    node: &'t Node,
) -> Result<(), AllocError>
    ensures { OnOk result (IsNamedWith (own path.now node.now.properties) (get nat_eq named.old) (get nat_eq named.new)) }
{
    let Some(phandle) = node.phandle() else {
        return Ok(());
    };
    if !named.contains_key(&phandle) {
        named.insert(phandle, Named::new(Vec::from_slice(alloc, path)?, node))?;
    }
    Ok(())
}

fn visit<'t>(
    alloc: Global,
    named: &mut IndexMap<u32, Named<'t>, RandomState>,
    path: &[u8],
    node: &'t Node,
) -> Result<(), AllocError>
    ensures { OnOk result (IsNamedWith (named_at path.now node.now) (get nat_eq named.old) (get nat_eq named.new)) }
{
    keep(alloc, named, path, node)?;
    for child in node.children() {
        let below = path_below(alloc, path, child.name_bytes())?;
        visit(alloc, named, below.as_slice(), child)?;
    }
    Ok(())
}

fn visit_tree<'t>(
    alloc: Global,
    named: &mut IndexMap<u32, Named<'t>, RandomState>,
    root: &'t Node,
) -> Result<(), AllocError>
    requires { (phandle : ℕ) → get nat_eq named.old phandle ≡ None }
    ensures { OnOk result (IsNaming root.now (get nat_eq named.new)) }
{
    keep(alloc, named, b"", root)?;
    for top in root.children() {
        if is_reserved_name(top.name_bytes()) {
            continue;
        }
        let below = path_below(alloc, b"", top.name_bytes())?;
        visit(alloc, named, below.as_slice(), top)?;
    }
    Ok(())
}

impl<'t> Naming<'t> {
    ghost use Rattle.std.specs.Option.{option_copied};
    ghost use Rattle.dtman_blobs.specs.Difference.Named.{named_by};

    /// Of a tree.
    pub fn of(alloc: Global, hasher: RandomState, tree: &'t Tree) -> Result<Self, AllocError>
        ensures { IfOk result (λ naming. naming ≡ tree.now.root) }
    {
        let root = tree.root();
        let mut named = IndexMap::with_hasher(alloc, hasher);
        visit_tree(alloc, &mut named, root)?;
        Ok(Self { root, named })
    }

    /// What a phandle names.
    pub fn named(&self, phandle: u32) -> Option<&Named<'t>>
        ensures { option_copied result ≡ named_by self.now phandle }
    {
        self.named.get(&phandle)
    }
}
