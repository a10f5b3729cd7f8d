//! Trees in the making.
ghost use Rattle.std.specs.Prelude.{◌≡◌, ◌+◌, ◌≤◌, ◌<◌, ◌++◌, ◌∷◌, [], IfOk, false, true, length, take};
ghost use Rattle.dt_tree.specs.declared.limits.TheConstants.{MAX_DEPTH};
ghost use Rattle.dt_tree.specs.NodeData.{property_names};
ghost use Rattle.dt_tree.specs.PathMap.{path_map};
ghost use Rattle.dt_tree.specs.Sound.{are_distinct};
ghost use Rattle.dt_source.specs.TreeMeaning.MapOf.{map_of};
ghost use Rattle.dt_source.specs.TreeMeaning.Paths.{is_listed};
ghost use Rattle.dt_live.specs.Builder.Lists.{defined_at};
ghost use Rattle.dt_live.specs.Builder.Builders.{GainsNode, built_lists, tree_of, last_path, next_path, parent_path};

use crate::builder::node_builder::NodeBuilder;
use dt_tree::{Name, Node, Property};
use std::alloc::{AllocError, Global};
use std::marker::Model;

/// A tree in the making: the node that came last, and those above it, the root first.
#[derive(Drop)]
pub struct TreeBuilder {
    last: NodeBuilder,
    above: Vec<NodeBuilder>,
}

impl Model for TreeBuilder {
    ghost use Rattle.std.specs.Prelude.{List};
    ghost use Rattle.std.specs.Coded.{coded_list};
    ghost use Rattle.dt_tree.specs.NodeData.{NodeData};
    ghost use Rattle.dt_tree.specs.NodeCode.{coded_node};
    ghost use Rattle.dt_live.specs.Builder.Builders.{IsTreeBuilder};
    ghost use Rattle.dt_live.specs.Builder.Private.NodeBuilders.{builder_nodes};

    ghost Value = { List NodeData };

    ghost coded = { coded_list coded_node };

    ghost view = { builder_nodes };

    ghost invariant = { λ a. IsTreeBuilder (builder_nodes a) };
}

impl TreeBuilder {
    /// A root with these properties. Takes no memory.
    pub fn new(alloc: Global, properties: Vec<Property>) -> TreeBuilder
        requires { are_distinct (property_names properties.items) ≡ true }
        ensures nodes { (built_lists result).nodes ≡ [] }
        ensures properties { (built_lists result).properties ≡ defined_at [] properties.items }
        ensures last_node { last_path result ≡ [] }
    {
        TreeBuilder {
            last: NodeBuilder::new(alloc, None, properties),
            above: Vec::new(alloc),
        }
    }

    /// Puts a node behind all others, so many levels below the root: the last child of the last node that is one level higher.
    ///
    /// Fails for want of memory alone, and then the tree builder is gone. A node costs constant time, beside those that it closes.
    pub fn push(
        self,
        alloc: Global,
        depth: usize,
        name: Name,
        properties: Vec<Property>,
    ) -> Result<TreeBuilder, AllocError>
        requires below { 1 ≤ depth }
        requires reached { depth ≤ length (last_path self) + 1 }
        requires shallow { depth ≤ MAX_DEPTH }
        requires new { is_listed (next_path self depth name) (built_lists self).nodes ≡ false }
        requires properties { are_distinct (property_names properties.items) ≡ true }
        ensures nodes { IfOk result (GainsNode (next_path self depth name) properties.items self) }
        ensures last_node { IfOk result (λ builder. last_path builder ≡ next_path self depth name) }
    {
        let parent = self.closed_to(depth - 1)?;
        parent.with_node(alloc, name, properties)
    }

    /// The root with all below it. Fails for want of memory alone.
    pub fn finish(self) -> Result<Node, AllocError>
        ensures name { IfOk result (λ root. root.name ≡ []) }
        ensures map { IfOk result (λ root. path_map root ≡ map_of (built_lists self)) }
    {
        let root = self.closed_to(0)?.closed();
        root.check();
        Ok(root)
    }

    fn depth(&self) -> usize
        ensures { result ≡ length (last_path self.now) }
    {
        self.above.len()
    }

    // Closes nodes until the last one is so many levels below the root.
    fn closed_to(self, depth: usize) -> Result<TreeBuilder, AllocError>
        ensures tree { IfOk result (λ builder. tree_of builder ≡ tree_of self) }
        ensures last_node { IfOk result (λ builder. last_path builder ≡ take depth (last_path self)) }
    {
        let mut builder = self;
        while builder.depth() > depth {
            builder = builder.without_last()?;
        }
        Ok(builder)
    }

    // The last node gets no more children.
    fn without_last(self) -> Result<TreeBuilder, AllocError>
        requires { 0 < length (last_path self) }
        ensures tree { IfOk result (λ builder. tree_of builder ≡ tree_of self) }
        ensures last_node { IfOk result (λ builder. last_path builder ≡ parent_path self) }
    {
        let last = self.last;
        let mut above = self.above;
        match above.pop() {
            None => Ok(TreeBuilder { last, above }),
            Some(parent) => {
                let last = parent.with_child(last.closed())?;
                Ok(TreeBuilder { last, above })
            }
        }
    }

    // The last node, which gets no more children, where no node is above it.
    fn closed(self) -> Node
        requires { last_path self ≡ [] }
        ensures { result ≡ tree_of self }
    {
        self.last.closed()
    }

    // Puts a child below the last node.
    fn with_node(
        self,
        alloc: Global,
        name: Name,
        properties: Vec<Property>,
    ) -> Result<TreeBuilder, AllocError>
        requires shallow { length (last_path self) < MAX_DEPTH }
        requires new { is_listed (last_path self ++ name ∷ []) (built_lists self).nodes ≡ false }
        requires properties { are_distinct (property_names properties.items) ≡ true }
        ensures nodes { IfOk result (GainsNode (last_path self ++ name ∷ []) properties.items self) }
        ensures last_node { IfOk result (λ builder. last_path builder ≡ last_path self ++ name ∷ []) }
    {
        name.check();
        let last = self.last;
        let mut above = self.above;
        above.push(last)?;
        Ok(TreeBuilder {
            last: NodeBuilder::new(alloc, Some(name), properties),
            above,
        })
    }
}
