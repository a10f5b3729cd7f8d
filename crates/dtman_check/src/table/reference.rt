//! A reference set: which properties nodes of a `compatible` have on boards that are known to be right.
ghost use Rattle.std.specs.Prelude.{◌≡◌, IfOk, [], true, false, slice_get, option_map};
ghost use Rattle.std.specs.Option.{option_copied};
ghost use Rattle.std.specs.List.Sorted.{IsPartitionPoint};
ghost use Rattle.dtman_check.specs.Table.Private.Reference.{AreInOrder, AreRowsOf, row_order, is_before, is_upto};
ghost use Rattle.dtman_check.specs.Table.Unknown.{before_end, list_of, list_text};

use dt_tree::Node;
use std::alloc::{AllocError, Global};
use std::cmp::Ordering;
use std::marker::Model;

/// A property that nodes of a `compatible` have. Of the list each string stands as it is, with a blank between two.
#[derive(Clone, Copy)]
pub struct Row<'r> {
    pub compatible: &'r [u8],
    pub name: &'r [u8],
}

/// Rows side by side: the place of the first, and the one behind the last.
#[derive(Clone, Copy, Debug)]
pub struct RowRange {
    pub first: usize,
    pub end: usize,
}

/// What nodes have.
#[derive(Drop)]
pub struct Reference<'r> {
    // in order
    rows: Vec<Row<'r>>,
}

impl<'r> Model for Reference<'r> {
    ghost use Rattle.std.specs.Prelude.{List};
    ghost use Rattle.dtman_check.specs.declared.table.reference.Row.{Row};
    ghost use Rattle.dtman_check.specs.Table.Private.Reference.{AreInOrder};

    ghost Value = { List Row };

    ghost view = { λ reference. reference.rows.items };

    ghost invariant = { λ reference. AreInOrder reference.rows.items };
}

/// Why bytes are no reference set.
#[derive(Clone, Copy, Debug)]
pub enum BadReference {
    NoMemory,
    /// This line, from 1, isn't a list, a tab and a name.
    Line(usize),
}

impl From<AllocError> for BadReference {
    fn from(_error: AllocError) -> Self {
        BadReference::NoMemory
    }
}

impl<T: Drop> From<std::alloc::AllocFailed<T>> for BadReference {
    fn from(_error: std::alloc::AllocFailed<T>) -> Self {
        BadReference::NoMemory
    }
}

fn in_order(one: &Row<'_>, other: &Row<'_>) -> Ordering
    ensures { result ≡ row_order one.now other.now }
{
    match one.compatible.cmp(other.compatible) {
        Ordering::Equal => one.name.cmp(other.name),
        order => order,
    }
}

fn row_of(line: &[u8]) -> Option<Row<'_>> {
    let tab = line.iter().position(|byte| *byte == b'\t')?;
    Some(Row {
        compatible: line.get(..tab)?,
        name: line.get(tab.checked_add(1)?..)?,
    })
}

// How many rows in order are before those of a list.
fn count_before(rows: &[Row<'_>], compatible: &[u8]) -> usize
    requires { AreInOrder rows.now }
    ensures { IsPartitionPoint (λ r. is_before compatible.now r ≡ true) (λ r. is_before compatible.now r ≡ false)
        rows.now result }
{
    rows.partition_point(
        |row: &Row<'_>| -> bool
            ensures { result ≡ is_before compatible.entry.now row.now }
        { row.compatible.cmp(compatible).is_lt() },
    )
}

// And with them.
fn count_with(rows: &[Row<'_>], compatible: &[u8]) -> usize
    requires { AreInOrder rows.now }
    ensures { IsPartitionPoint (λ r. is_upto compatible.now r ≡ true) (λ r. is_upto compatible.now r ≡ false)
        rows.now result }
{
    rows.partition_point(
        |row: &Row<'_>| -> bool
            ensures { result ≡ is_upto compatible.entry.now row.now }
        { row.compatible.cmp(compatible).is_le() },
    )
}

impl<'r> Reference<'r> {
    /// Of no boards.
    pub fn new(alloc: Global) -> Self
        ensures { result ≡ [] }
    {
        Self {
            rows: Vec::new(alloc),
        }
    }

    /// Of the lines of a file, in any order: a list, a tab and a name in each.
    pub fn read(alloc: Global, text: &'r [u8]) -> Result<Self, BadReference> {
        let mut rows = Vec::new(alloc);
        for (index, line) in text.split(|byte| *byte == b'\n').enumerate() {
            if line.is_empty() {
                continue;
            }
            match row_of(line) {
                Some(row) => rows.push(row)?,
                None => return Err(BadReference::Line(index.saturating_add(1))),
            }
        }
        rows.sort_by(
            |one: &Row<'_>, other: &Row<'_>| -> Ordering
                ensures { result ≡ row_order one.now other.now }
            { in_order(one, other) },
        )?;
        Ok(Self { rows })
    }

    /// The row at a place.
    pub fn row(&self, place: usize) -> Option<Row<'r>>
        ensures { result ≡ slice_get self.now place }
    {
        self.rows.get(place).copied()
    }

    /// The places of the rows of a list.
    pub fn places_of(&self, compatible: &[u8]) -> RowRange
        ensures { AreRowsOf self.now compatible.now result }
    {
        let rows = self.rows.as_slice();
        RowRange {
            first: count_before(rows, compatible),
            end: count_with(rows, compatible),
        }
    }
}

// The strings without the zero that ends the last.
fn before_end(value: &[u8]) -> Option<&[u8]>
    ensures { option_copied result ≡ before_end value.now }
{
    if value.is_empty() {
        return None;
    }
    let last = value.len() - 1;
    if value[last] != 0 {
        return None;
    }
    Some(&value[..last])
}

// Between two strings a blank: none where a byte is no text or would end the list.
fn list_text(alloc: Global, strings: &[u8]) -> Result<Option<Vec<u8>>, AllocError>
    ensures { IfOk result (λ list. option_map (λ text. text.items) list ≡ list_text strings.now) }
{
    let mut text = Vec::with_capacity(alloc, strings.len())?;
    for byte in strings {
        match *byte {
            0 => text.push(b' ')?,
            b'!'..=b'~' => text.push(*byte)?,
            _ => return Ok(None),
        }
    }
    Ok(Some(text))
}

/// A node's `compatible` as a row has it: none where there is none, or where a byte is no text or would end the list.
pub fn list_of(alloc: Global, node: &Node) -> Result<Option<Vec<u8>>, AllocError>
    ensures { IfOk result (λ list. option_map (λ text. text.items) list ≡ list_of node.now) }
{
    let Some(value) = node.value(b"compatible") else {
        return Ok(None);
    };
    let Some(strings) = before_end(value.as_slice()) else {
        return Ok(None);
    };
    list_text(alloc, strings)
}
