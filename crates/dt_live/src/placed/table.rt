//! A table of rows by the node that has them and a name.
ghost use Rattle.std.specs.Prelude.{◌≡◌, ◌<◌, [], IfOk, None, Some, OnOk, false, length, true};
ghost use Rattle.dt_live.specs.Private.Placing.{LastCountsFor, first_place, renewed};
ghost use Rattle.dt_live.specs.Placed.Tables.{Enters, IsTable, found_in, rows_in};

use crate::Index;
use crate::placed::place::Place;
use std::alloc::{AllocError, Global};
use std::hash::RandomState;

/// Rows in order of definition, and an index of the one that counts for each name of each node.
#[derive(Drop)]
pub struct Table<'d, X> {
    pub(crate) rows: Vec<Place<'d, X>>,
    pub(crate) index: Index<'d>,
}

/// The row of a name.
#[derive(Clone, Copy)]
pub enum Entry {
    Found(usize),
    New(usize),
}

impl<'d, X: Copy> Table<'d, X> {
    pub(crate) fn new(alloc: Global, hasher: RandomState) -> Self
        ensures table { IsTable (rows_in result) (found_in result) }
        ensures empty { rows_in result ≡ [] }
    {
        Table {
            rows: Vec::new(alloc),
            index: Index::new(alloc, hasher),
        }
    }

    /// The row that counts for a name.
    pub(crate) fn find(&self, owner: usize, name: &'d [u8]) -> Option<usize>
        ensures { result ≡ found_in self.now owner name.now }
    {
        self.index.get(owner, name)
    }

    /// The row that counts for a name; where it has none, it gets one behind the others. Hashes the name once.
    pub(crate) fn enter(
        &mut self,
        owner: usize,
        name: &'d [u8],
        value: Option<X>,
        made: usize,
    ) -> Result<Entry, AllocError>
        ensures { IfOk result (Enters (first_place owner name.entry value made) self.old self.new) }
    {
        self.rows.reserve(1)?;
        let row = self.rows.len();
        let before = self.index.define(owner, name, row, 0)?;
        match before.row {
            Some(found) => Ok(Entry::Found(found)),
            None => {
                self.rows.push(Place {
                    owner,
                    name,
                    value,
                    made,
                    removed: false,
                    again: false,
                })?;
                Ok(Entry::New(row))
            }
        }
    }

    /// A second row of a name, which counts from now on: nothing stands at the first one any more.
    pub(crate) fn renew(
        &mut self,
        row: usize,
        value: Option<X>,
        made: usize,
    ) -> Result<usize, AllocError>
        requires { row < length (rows_in self.old) }
        ensures row { IfOk result (λ i. i ≡ length (rows_in self.old)) }
        ensures rows { OnOk result (rows_in self.new ≡ renewed (rows_in self.old) row value made) }
        ensures index { OnOk result (LastCountsFor row self.old self.new) }
    {
        self.rows.reserve(1)?;
        let number = self.rows.len();
        let owner = self.rows[row].owner;
        let name = self.rows[row].name;
        self.index.insert(owner, name, number)?;
        self.rows[row].removed = true;
        self.rows.push(Place {
            owner,
            name,
            value,
            made,
            removed: false,
            again: true,
        })?;
        Ok(number)
    }
}
