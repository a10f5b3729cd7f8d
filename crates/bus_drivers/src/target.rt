ghost use Rattle.std.specs.Prelude.{◌≡◌};

use bus_plan::Device;
use dt_tree::Node;
use std::marker::Model;

/// The node that a phandle leads to, and the device that it belongs to: the nearest at or above it.
#[derive(Drop)]
pub struct Target<'t> {
    node: &'t Node,
    device: Option<Device>,
}

impl<'t> Model for Target<'t> {
    ghost use Rattle.bus_drivers.specs.Nodes.{Target};

    ghost Value = { Target };

    ghost view = { λ t. record { properties = t.node.now.properties; device = t.device } };
}

impl<'t> Target<'t> {
    /// The target of these parts.
    pub fn new(node: &'t Node, device: Option<Device>) -> Self
        ensures { result ≡ record { properties = node.now.properties; device = device } }
    {
        Self { node, device }
    }

    /// The node.
    pub fn node(&self) -> &'t Node
        ensures { result.now.properties ≡ self.now.properties }
    {
        self.node
    }

    /// The device that the node belongs to.
    pub fn device(&self) -> Option<Device>
        ensures { result ≡ self.now.device }
    {
        self.device
    }
}
