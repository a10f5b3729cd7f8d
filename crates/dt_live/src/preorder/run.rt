//! The run of a node's properties.
ghost use Rattle.std.specs.Prelude.{◌≡◌, ◌==◌, drop};
ghost use Rattle.std.specs.List.{prefix_len};
ghost use Rattle.dt_live.specs.Preorder.{run_in};

use crate::preorder::{NodeProperty, Preorder};
use dt_tree::behind;

// How many of the first properties are a node's.
fn run_length<'d, V: Copy>(properties: &[NodeProperty<'d, V>], node: usize) -> usize
    ensures { result ≡ prefix_len (λ x. node == x.node) properties.now }
{
    for (place, property) in properties.iter().enumerate() {
        if node != property.node {
            return place;
        }
    }
    properties.len()
}

impl<'d, V: Copy> Preorder<'d, V> {
    /// The properties of a node, which begin at a place.
    pub fn run_of<'l>(&'l self, node: usize, place: usize) -> &'l [NodeProperty<'d, V>]
        ensures { result.now ≡ run_in node (drop place self.now.properties.items) }
    {
        let rest = behind(self.properties.as_slice(), place);
        &rest[..run_length(rest, node)]
    }
}
