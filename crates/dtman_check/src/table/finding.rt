//! What a check found.
ghost use Rattle.std.specs.Prelude.{◌≡◌};
ghost use Rattle.dtman_check.specs.Table.Finding.{finding, failed_prerequisite};

use dt_check::{Fault, Message};
use std::marker::Model;

/// A mistake: the check that found it, by its place in the table; the node, by its place in the survey, and its property, where it is
/// of one; what is wrong.
#[derive(Drop)]
pub struct Finding<'t> {
    pub check: usize,
    pub node: Option<usize>,
    pub property: Option<&'t [u8]>,
    pub message: Message,
}

impl<'t> Model for Finding<'t> {
    ghost use Rattle.std.specs.Option.{option_copied};
    ghost use Rattle.dtman_check.specs.Table.Finding.{FindingData};

    ghost Value = { FindingData };

    ghost view = { λ f. record { check = f.check; node = f.node; property = option_copied f.property; message = f.message } };
}

impl<'t> Finding<'t> {
    /// The fault of a node, found by a check.
    pub fn of(check: usize, node: usize, fault: Fault<'t>) -> Self
        ensures { result ≡ finding check node fault.entry }
    {
        Self {
            check,
            node: Some(node),
            property: fault.property,
            message: fault.message,
        }
    }

    /// A prerequisite of the check didn't pass.
    pub fn of_prerequisite(check: usize, prerequisite: usize) -> Self
        ensures { result ≡ failed_prerequisite check prerequisite }
    {
        Self {
            check,
            node: None,
            property: None,
            message: Message::Prerequisite(prerequisite),
        }
    }
}
