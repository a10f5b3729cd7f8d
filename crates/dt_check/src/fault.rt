//! What is wrong with a node.
ghost use Rattle.std.specs.Prelude.{◌≡◌};
ghost use Rattle.dt_check.specs.Fault.{of_node, of_property};

use crate::message::Message;
use std::marker::Model;

/// What is wrong with a node, or with its property of this name.
#[derive(Drop)]
pub struct Fault<'t> {
    pub property: Option<&'t [u8]>,
    pub message: Message,
}

impl<'t> Model for Fault<'t> {
    ghost use Rattle.std.specs.Option.{option_copied};
    ghost use Rattle.dt_check.specs.Fault.{FaultData};

    ghost Value = { FaultData };

    ghost view = { λ f. record { property = option_copied f.property; message = f.message } };
}

impl<'t> Fault<'t> {
    /// Of the node itself.
    pub fn of_node(message: Message) -> Self
        ensures { result ≡ of_node message }
    {
        Self {
            property: None,
            message,
        }
    }

    /// Of its property of this name.
    pub fn of_property(name: &'t [u8], message: Message) -> Self
        ensures { result ≡ of_property name.now message }
    {
        Self {
            property: Some(name),
            message,
        }
    }
}
