//! The nodes of a placed tree that stand, as a live tree.
ghost use Rattle.std.specs.Prelude.{◌≡◌, ◌<◌, ◌+◌, IfOk, OnOk, length};
ghost use Rattle.dt_live.specs.Placed.Shown.{AreNodeRows, AreShown, Defines};
ghost use Rattle.dt_live.specs.Placed.Tables.{found_in, rows_in};

use crate::LiveTree;
use crate::placed::place::is_row_made;
use crate::placed::table::Table;
use std::alloc::{AllocError, Global};
use std::hash::RandomState;

/// What stands of a placed tree: a live tree in the order of its places, and of each node its number there, none where it doesn't
/// stand.
#[derive(Drop)]
pub struct Shown<'d, W> {
    pub live: LiveTree<'d, W>,
    pub(crate) numbers: Vec<Option<usize>>,
}

impl<'d, W: Copy> Shown<'d, W> {
    // Defines the node of a row, where it stands.
    fn define(&mut self, nodes: &Table<'d, u32>, row: usize) -> Result<Option<usize>, AllocError>
        requires rows { AreNodeRows (rows_in nodes.now) (found_in nodes.now) }
        requires known { row < length (rows_in nodes.now) }
        requires shown { AreShown (rows_in nodes.now) row self.old }
        ensures { IfOk result (λ number. Defines (rows_in nodes.now) row self.old self.new number) }
    {
        if !is_row_made(nodes.rows.as_slice(), row) {
            return Ok(None);
        }
        let place = nodes.rows[row];
        match self.numbers[place.owner] {
            Some(parent) => {
                let (node, _) = self.live.define_child(parent, place.name, 0, place.at())?;
                Ok(Some(node))
            }
            None => Ok(None),
        }
    }

    // Shows the next row, if its node stands.
    fn show(&mut self, nodes: &Table<'d, u32>, row: usize) -> Result<(), AllocError>
        requires rows { AreNodeRows (rows_in nodes.now) (found_in nodes.now) }
        requires known { row < length (rows_in nodes.now) }
        requires shown { AreShown (rows_in nodes.now) row self.old }
        ensures { OnOk result (AreShown (rows_in nodes.now) (row + 1) self.new) }
    {
        let number = self.define(nodes, row)?;
        self.numbers.push(number)?;
        Ok(())
    }
}

/// The nodes that stand, without properties and labels.
pub(crate) fn show_nodes<'d, W: Copy>(
    alloc: Global,
    hasher: RandomState,
    nodes: &Table<'d, u32>,
) -> Result<Shown<'d, W>, AllocError>
    requires { AreNodeRows (rows_in nodes.now) (found_in nodes.now) }
    ensures { IfOk result (λ shown. AreShown (rows_in nodes.now) (length (rows_in nodes.now)) shown) }
{
    let mut shown = Shown {
        live: LiveTree::new(alloc, hasher),
        numbers: Vec::with_capacity(alloc, nodes.rows.len() + 1)?,
    };
    shown.numbers.push(Some(0))?;
    for row in 0..nodes.rows.len() {
        shown.show(nodes, row)?;
    }
    Ok(shown)
}
