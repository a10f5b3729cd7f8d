//! What one of two trees has and the other hasn't.
ghost use Rattle.std.specs.Prelude.{◌≡◌, ◌∷◌, ◌++◌, [], OnOk};
ghost use Rattle.dtman_blobs.specs.Difference.Private.Sights.{told};
ghost use Rattle.dtman_blobs.specs.Difference.Private.Things.{is_first, thing_data};

use dt_tree::{Node, Property};
use std::alloc::{AllocError, Global};
use std::marker::Model;

/// Which of two trees.
#[derive(Clone, Copy, Debug, PartialEq, Eq)]
pub enum Side {
    First,
    Second,
}

/// A property, or a node with all below it.
#[derive(Clone, Copy, Debug)]
pub enum Thing<'t> {
    Property(&'t Property),
    Node(&'t Node),
}

/// A thing that one of the trees has and the other hasn't, and the path of the node in which it stands: each name behind a slash, of the
/// root nothing. A property that both have, with different values, is the one's and the other's.
#[derive(Drop)]
pub struct Difference<'t> {
    side: Side,
    path: Vec<u8>,
    thing: Thing<'t>,
}

impl<'t> Model for Difference<'t> {
    ghost use Rattle.dtman_blobs.specs.Difference.Difference.{DifferenceData, coded_difference};

    ghost Value = { DifferenceData };

    ghost coded = { coded_difference };

    ghost use Rattle.dtman_blobs.specs.Difference.Private.Things.{is_first, thing_data};

    ghost view = { λ d. record { is_first = is_first d.side; path = d.path.items; thing = thing_data d.thing } };
}

impl<'t> Difference<'t> {
    /// Which of the trees has it.
    pub fn side(&self) -> Side
        ensures { is_first result ≡ self.now.is_first }
    {
        self.side
    }

    /// The path of the node in which it stands.
    pub fn path(&self) -> &[u8]
        ensures { result.now ≡ self.now.path }
    {
        self.path.as_slice()
    }

    /// What it is.
    pub fn thing(&self) -> Thing<'t>
        ensures { thing_data result ≡ self.now.thing }
    {
        self.thing
    }
}

/// Puts a difference behind others.
pub(crate) fn tell<'t>(
    alloc: Global,
    differences: &mut Vec<Difference<'t>>,
    side: Side,
    path: &[u8],
    thing: Thing<'t>,
) -> Result<(), AllocError>
    ensures { OnOk result (differences.new.items ≡ differences.old.items ++ told side path.now thing.entry ∷ []) }
{
    let path = Vec::from_slice(alloc, path)?;
    differences.push(Difference { side, path, thing })?;
    Ok(())
}
