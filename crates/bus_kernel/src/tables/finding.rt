//! Where tables stand.
ghost use Rattle.std.specs.Prelude.{drop, IfOk, IsTrue, MatchOption, Some, None};
ghost use Rattle.bus_kernel.specs.Image.Width.{bytes_of};
ghost use Rattle.bus_kernel.specs.Private.Search.{HasNoneBefore, IsTableBefore, IsWithin};
ghost use Rattle.bus_kernel.specs.Private.Views.{texts};
ghost use Rattle.bus_kernel.specs.Tables.Tables.{AreTablesBy, AreTablesOf, HasNone, TablesFrom, entry_size};
ghost use Rattle.bus_kernel.specs.Tables.Table.{compatibles_of};

use crate::image::{Width, told_width};
use crate::slices::behind;
use crate::tables::entry::has_entry;
use crate::tables::table::{Run, Table, entry_size, run_of};
use std::alloc::{AllocError, Global};

// Where a search stands, in bytes.
#[derive(Clone, Copy)]
struct Place {
    // Behind the last table that was found.
    behind: usize,
    at: usize,
}

impl Place {
    // Whether an entry stands before this place, behind the last table.
    fn is_within(self, width: Width, image: &[u8]) -> bool
        ensures { IsTrue result → IsWithin (entry_size (bytes_of width)) image.now self.behind self.at }
    {
        let size = entry_size(width);
        if self.at < size || self.at - size < self.behind {
            return false;
        }
        has_entry(behind(image, self.at - size))
    }

    // Whether no table begins here, as no entry does, or as the one before it begins none, which has the same end.
    fn is_passed(self, width: Width, image: &[u8]) -> bool
        requires { HasNoneBefore (bytes_of width) image.now self.behind self.at }
        ensures { IsTrue result → HasNone (entry_size (bytes_of width)) image.now self.at }
    {
        if !has_entry(behind(image, self.at)) {
            return true;
        }
        self.is_within(width, image)
    }
}

// The table that stands at a place.
fn table_at<'a>(
    alloc: Global,
    width: Width,
    image: &'a [u8],
    place: Place,
) -> Result<Option<Run<'a>>, AllocError>
    requires { HasNoneBefore (bytes_of width) image.now place.behind place.at }
    ensures { IfOk result (λ found. MatchOption found
        (HasNone (entry_size (bytes_of width)) image.now place.at)
        (λ run. IsTableBefore (entry_size (bytes_of width)) (drop place.at image.now) (texts run.strings.items) run.behind.now)) }
{
    if place.is_passed(width, image) {
        return Ok(None);
    }
    let run = run_of(alloc, width, behind(image, place.at))?;
    if run.is_table() {
        Ok(Some(run))
    } else {
        Ok(None)
    }
}

// The tables by one width.
fn tables_by<'a>(alloc: Global, width: Width, image: &'a [u8]) -> Result<Vec<Table<'a>>, AllocError>
    ensures { IfOk result (λ tables. TablesFrom (bytes_of width) image.now 0 (compatibles_of tables.items)) }
{
    let mut tables = Vec::new(alloc);
    let mut place = Place { behind: 0, at: 0 };
    while place.at < image.len() {
        match table_at(alloc, width, image, place)? {
            Some(run) => {
                let at = image.len() - run.behind.len() + entry_size(width);
                place = Place { behind: at, at };
                tables.push(Table {
                    compatibles: run.strings,
                })?;
            }
            None => place.at += width.bytes(),
        }
    }
    Ok(tables)
}

// Those of an image that tells no width.
fn untold_tables<'a>(alloc: Global, image: &'a [u8]) -> Result<Vec<Table<'a>>, AllocError>
    ensures { IfOk result (λ tables. AreTablesBy None image.now (compatibles_of tables.items)) }
{
    let tables = tables_by(alloc, Width::Eight, image)?;
    if tables.is_empty() {
        return tables_by(alloc, Width::Four, image);
    }
    Ok(tables)
}

/// The tables of an unpacked image, in the order in which they stand, by the width that the image tells; where it tells none, by eight
/// bytes, or by four where those give no table.
pub fn tables_in<'a>(alloc: Global, image: &'a [u8]) -> Result<Vec<Table<'a>>, AllocError>
    ensures { IfOk result (λ tables. AreTablesOf image.now (compatibles_of tables.items)) }
{
    match told_width(image) {
        Some(width) => tables_by(alloc, width, image),
        None => untold_tables(alloc, image),
    }
}
