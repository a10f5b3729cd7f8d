//! Whether a node is a device, and whether it may be used.
ghost use Rattle.std.specs.Prelude.{◌≡◌};
ghost use Rattle.bus_drivers.specs.Nodes.{is_compatible, is_okay, is_okay_value};

use dt_tree::Node;

/// Whether the node has `compatible`.
pub fn is_compatible(node: &Node) -> bool
    ensures { result ≡ is_compatible node.now.properties }
{
    node.value(b"compatible").is_some()
}

fn is_okay_value(value: &[u8]) -> bool
    ensures { result ≡ is_okay_value value.now }
{
    value == b"okay\0".as_slice() || value == b"ok\0".as_slice()
}

/// Whether the node's `status` lets it be used. Without one it may.
pub fn is_okay(node: &Node) -> bool
    ensures { result ≡ is_okay node.now.properties }
{
    match node.value(b"status") {
        None => true,
        Some(value) => is_okay_value(value.as_slice()),
    }
}
