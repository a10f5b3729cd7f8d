//! Ports of graphs (bindings graph.txt of Linux), by the endpoints below them.
ghost use Rattle.std.specs.Prelude.{◌≡◌};
ghost use Rattle.std.specs.List.{list_any};
ghost use Rattle.dt_check.specs.Ports.{is_endpoint, is_port};

use crate::buses::is_called;
use crate::here::{children, has};
use dt_tree::Node;

fn is_endpoint(node: &Node) -> bool
    ensures { result ≡ is_endpoint node.now }
{
    is_called(node, b"endpoint") || has(node, b"remote-endpoint")
}

fn any_endpoint(nodes: &[Node]) -> bool
    ensures { result ≡ list_any is_endpoint nodes.now }
{
    nodes.iter().any(|node| is_endpoint(node))
}

/// Whether a node is a port: looks at all its children. Of a node of a survey it is known (`Placed::is_port`, `Here::is_port`).
pub fn is_port(node: &Node) -> bool
    ensures { result ≡ is_port node.now }
{
    any_endpoint(children(node))
}
