ghost use Rattle.std.specs.Prelude.{◌≡◌, ◌≢◌, ◌<◌, ◌^◌, [], filter, IfOk, MatchResult};
ghost use Rattle.std.specs.Option.{option_copied};
ghost use Rattle.dt_tree.specs.Answers.{IsFirstPath};
ghost use Rattle.dt_tree.specs.Path.{path_names};
ghost use Rattle.dt_tree.specs.PathMap.{node_at, path_map};
ghost use Rattle.dt_tree.specs.Phandle.{IsGreatest};
ghost use Rattle.dt_tree.specs.TreeData.{tree_data, is_reserve, AreLong, IsTree};

mod changing;
mod merging;

use crate::error::TreeError;
use crate::node::Node;
use crate::path::Path;
use std::alloc::{AllocError, Global};
use std::marker::Model;

/// A root node, with the memory that is reserved and the processor that boots.
#[derive(Debug, Drop)]
pub struct Tree {
    reserves: Vec<(u64, u64)>,
    boot_cpu: u32,
    root: Node,
}

impl Model for Tree {
    ghost use Rattle.dt_tree.specs.TreeData.{TreeData, coded_tree, IsTree};
    ghost use Rattle.dt_tree.specs.TreeView.{tree_of};

    ghost Value = { TreeData };

    ghost coded = { coded_tree };

    ghost view = { tree_of };

    ghost invariant = { λ a. IsTree (tree_of a) };
}

impl Tree {
    /// Each reserve is an address and a size in bytes; those of (0, 0) are left out, as they end the list in a blob.
    /// Fails with `BadName` where the root has a name.
    pub fn new(mut reserves: Vec<(u64, u64)>, boot_cpu: u32, root: Node) -> Result<Tree, TreeError>
        ensures tree { IfOk result (λ tree. tree ≡ tree_data (filter is_reserve reserves.items) boot_cpu root) }
        ensures name { MatchResult result (λ _. root.name ≡ []) (λ e. (e ≡ TreeError.BadName) × (root.name ≢ [])) }
    {
        if !root.name_bytes().is_empty() {
            return Err(TreeError::BadName);
        }
        root.check();
        check_reserves(reserves.as_slice());
        drop_ends(&mut reserves);
        Ok(Tree {
            reserves,
            boot_cpu,
            root,
        })
    }

    /// What the tree is made of: its reserved memory, the processor that boots, the root. Takes no memory.
    pub fn into_parts(self) -> (Vec<(u64, u64)>, u32, Node)
        ensures { tree_data result.0.items result.1 result.2 ≡ self }
    {
        (self.reserves, self.boot_cpu, self.root)
    }

    /// The reserved memory: addresses and sizes in bytes, in order.
    pub fn reserves(&self) -> &[(u64, u64)]
        ensures { result.now ≡ self.now.reserves }
    {
        self.reserves.as_slice()
    }

    /// The number of the processor that boots.
    pub fn boot_cpu(&self) -> u32
        ensures { result ≡ self.now.boot_cpu }
    {
        self.boot_cpu
    }

    /// The root node.
    pub fn root(&self) -> &Node
        ensures { result.now ≡ self.now.root }
    {
        &self.root
    }

    /// Costs nothing: tells a caller's proof what is true of each tree.
    pub fn check(&self)
        ensures { IsTree self.now }
    {
        let _ = &self.root;
    }

    /// The node at a path. Takes no memory.
    pub fn find(&self, path: &Path) -> Option<&Node>
        ensures { option_copied result ≡ node_at self.now.root (path_names path.now) }
    {
        self.root.find(path)
    }

    /// The greatest phandle, or 0 where no node has one. Takes no memory.
    pub fn greatest_phandle(&self) -> u32
        ensures { IsGreatest (path_map self.now.root) result }
    {
        self.root.check();
        self.root.greatest_in_tree()
    }

    /// The path of the first node with this phandle, in the order in which a tree is read.
    pub fn by_phandle(&self, alloc: Global, phandle: u32) -> Result<Option<Path>, AllocError>
        ensures { IfOk result (λ found. IsFirstPath (path_map self.now.root) phandle found) }
    {
        self.root.check();
        self.root.path_to(alloc, phandle)
    }

    /// An equal tree.
    pub fn copy(&self, alloc: Global) -> Result<Tree, AllocError>
        ensures { IfOk result (λ tree. tree ≡ self.now) }
    {
        let mut reserves = Vec::new(alloc);
        reserves.extend_from_slice(self.reserves.as_slice())?;
        let root = self.root.copy(alloc)?;
        Ok(Tree {
            reserves,
            boot_cpu: self.boot_cpu,
            root,
        })
    }
}

fn is_reserve(reserve: &(u64, u64)) -> bool
    ensures { result ≡ is_reserve reserve.now }
{
    reserve.0 != 0 || reserve.1 != 0
}

/// Tells the caller's proof that a number has 64 bits.
fn check_long(number: u64)
    ensures { number < 2 ^ 64 }
{
    let _ = number;
}

/// The same of addresses and sizes.
fn check_reserves(reserves: &[(u64, u64)])
    ensures { AreLong reserves.now }
{
    for reserve in reserves {
        check_long(reserve.0);
        check_long(reserve.1);
    }
}

fn drop_ends(reserves: &mut Vec<(u64, u64)>)
    ensures { reserves.new.items ≡ filter is_reserve reserves.old.items }
{
    reserves.retain(|reserve| is_reserve(reserve));
}
