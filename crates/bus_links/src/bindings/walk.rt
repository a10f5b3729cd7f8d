//! One walk over a tree, from the root down.
ghost use Rattle.std.specs.Prelude.{◌≡◌, ◌≤◌, IfOk, OnOk, length};
ghost use Rattle.std.specs.List.{slice_index_or};
ghost use Rattle.bus_links.specs.Bindings.LinkNodes.{here, with_node, tree_nodes, root_above, met_root, with_siblings};
ghost use Rattle.bus_links.specs.Bindings.Private.Walk.{with_tree};

use crate::bindings::link_node::LinkNode;
use bus_drivers::{is_compatible, is_okay};
use dt_tree::{Node, is_reserved_name};
use std::alloc::{AllocError, Global};
use std::marker::Model;

/// What a node says of those below it: its place, whether it is usable, its device.
#[derive(Clone, Copy)]
struct Above {
    place: usize,
    usable: bool,
    device: Option<usize>,
}

impl Model for Above {
    ghost use Rattle.bus_links.specs.Bindings.LinkNodes.{Above as Data};

    ghost Value = { Data };

    ghost view = { λ a. record { place = a.place; usable = a.usable; device = a.device } };

    ghost inverse = { λ a. record { place = a.place; usable = a.usable; device = a.device } };
}

/// The nodes met so far, and how many of them are devices.
#[derive(Drop)]
pub struct Walk<'t> {
    nodes: Vec<LinkNode<'t>>,
    devices: usize,
}

impl<'t> Model for Walk<'t> {
    ghost use Rattle.std.specs.Prelude.{◌≤◌, length};
    ghost use Rattle.bus_links.specs.Bindings.LinkNodes.{Met};

    ghost Value = { Met };

    ghost view = { λ w. record { nodes = w.nodes.items; devices = w.devices } };

    ghost invariant = { λ w. w.devices ≤ length w.nodes.items };
}

impl<'t> Walk<'t> {
    // The root, which is no device.
    fn of_root(alloc: Global, root: &'t Node) -> Result<Self, AllocError>
        ensures { IfOk result (λ walk. walk ≡ met_root root.now) }
    {
        let mut nodes = Vec::new(alloc);
        nodes.push(LinkNode::new(root, 0, is_okay(root), None))?;
        Ok(Self { nodes, devices: 0 })
    }

    // Keeps a node, and tells what it says of those below it.
    fn meet(&mut self, node: &'t Node, above: &Above) -> Result<Above, AllocError>
        ensures above { IfOk result (λ below. below ≡ here above.now self.old node.now.properties) }
        ensures walk { OnOk result (self.new ≡ with_node above.now self.old node.now.name node.now.properties) }
    {
        let usable = above.usable && is_okay(node);
        let place = self.nodes.len();
        if is_compatible(node) {
            let device = Some(self.devices);
            self.nodes
                .push(LinkNode::new(node, above.place, usable, device))?;
            self.devices += 1;
            return Ok(Above {
                place,
                usable,
                device,
            });
        }
        let device = above.device;
        self.nodes
            .push(LinkNode::new(node, above.place, usable, device))?;
        Ok(Above {
            place,
            usable,
            device,
        })
    }

    // Keeps a node and all below it.
    fn visit(&mut self, node: &'t Node, above: &Above) -> Result<(), AllocError>
        ensures { OnOk result (self.new ≡ with_tree above.now self.old node.now) }
    {
        let here = self.meet(node, above)?;
        for child in node.children() {
            self.visit(child, &here)?;
        }
        Ok(())
    }

    // Keeps the nodes below the root, but for the reserved ones.
    fn keep_tops(&mut self, root: &'t Node) -> Result<(), AllocError>
        requires { self.old ≡ met_root root.now }
        ensures { OnOk result (self.new.nodes ≡ tree_nodes root.now) }
    {
        let above = Above {
            place: 0,
            usable: is_okay(root),
            device: None,
        };
        for top in root.children() {
            if is_reserved_name(top.name_bytes()) {
                continue;
            }
            self.visit(top, &above)?;
        }
        Ok(())
    }

    /// The nodes of the tree of this root, in preorder.
    pub fn over(alloc: Global, root: &'t Node) -> Result<Vec<LinkNode<'t>>, AllocError>
        ensures { IfOk result (λ nodes. nodes.items ≡ tree_nodes root.now) }
    {
        let mut walk = Self::of_root(alloc, root)?;
        walk.keep_tops(root)?;
        Ok(walk.nodes)
    }
}
