//! What is wrong with a node that another one led to.
use crate::Fault;
use std::marker::Model;

/// A fault of the node at a place.
#[derive(Drop)]
pub struct LinkFault<'t> {
    pub node: usize,
    pub fault: Fault<'t>,
}

impl<'t> Model for LinkFault<'t> {
    ghost use Rattle.dt_check.specs.Links.Link.{LinkFaultData};

    ghost Value = { LinkFaultData };

    ghost view = { λ f. record { node = f.node; fault = f.fault } };
}

impl<'t> LinkFault<'t> {
    ghost use Rattle.std.specs.Prelude.{◌≡◌};

    /// The fault of this node.
    pub fn at(node: usize, fault: Fault<'t>) -> Self
        ensures { result ≡ record { node = node; fault = fault.entry } }
    {
        Self { node, fault }
    }
}
