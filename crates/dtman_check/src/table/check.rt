//! A check: its name, what it takes before, what it looks for.

use crate::table::rule::{LinkRule, PropertyRule, Rule};
use crate::table::units::Counted;
use dt_check::links::Listing;
use dt_check::{Bus, Graph};

/// What a mistake comes to, where nothing else is said.
#[derive(Clone, Copy, Debug, PartialEq, Eq)]
pub enum Severity {
    /// Nothing: the check isn't made.
    Off,
    Warning,
    Error,
}

/// Which nodes a check looks at.
#[derive(Clone, Copy)]
pub enum Among {
    All,
    /// Those with a property of this name.
    With(&'static [u8]),
    /// Those with a property of either name.
    WithEither(&'static [u8], &'static [u8]),
    /// The devices on a bus of this kind.
    Below(Bus),
    /// The ports of graphs, or the endpoints.
    Part(Graph),
    /// Those of this name.
    Named(&'static [u8]),
    /// Those with nodes below them.
    Parents,
    /// Those with a unit address.
    WithUnit,
}

/// Which lists of phandles a check looks into.
#[derive(Clone, Copy)]
pub enum Listed {
    /// That of this name.
    Named(&'static [u8]),
    /// All of lines of GPIO controllers, but for a hog's own.
    Lines,
}

/// What a check looks for.
#[derive(Clone, Copy)]
pub enum Finds {
    /// Nothing that a tree can have: who made it refused it.
    Nothing,
    /// Nodes side by side with one unit address: by `find_units`.
    Units(Counted),
    /// Properties that no reference set has: by `find_unknown`.
    Unknown,
    /// In each of these nodes, one rule after the other.
    Node(Among, &'static [Rule]),
    /// In each property.
    Properties(PropertyRule),
    /// In each of these nodes and those that it leads to, one rule after the other.
    Links(Among, &'static [LinkRule]),
    /// In these lists: what stands behind each phandle.
    Lists(Listed, Listing),
    /// In each alias.
    Aliases,
}

/// A check. Others are named by their places in the table.
#[derive(Clone, Copy)]
pub struct Check {
    pub name: &'static str,
    pub severity: Severity,
    /// What has to pass, so that the check is made.
    pub prerequisites: &'static [usize],
    /// These, and what they take in turn, in the order in which they are made.
    pub made_before: &'static [usize],
    pub finds: Finds,
}
