//! Mentions as rows of a text.
ghost use Rattle.std.specs.Prelude.{◌≡◌, ◌++◌, ◌<◌, ◌≤◌, OnOk, length};
ghost use Rattle.std.specs.Option.{option_copied};
ghost use Rattle.std.specs.List.{slice_get};
ghost use Rattle.dt_check.specs.Cells.{cells_of};
ghost use Rattle.dt_questions.specs.Rows.{cells_text, digits_of, line_text, nearest, row_at, row_text, sharing_text, window};

use crate::line::{line_of, shares};
use crate::mention::Mention;
use crate::paths::add_path;
use crate::words::add_decimal;
use dt_check::{Survey, next_cell};
use std::alloc::{AllocError, Global};

fn add_line(alloc: Global, text: &mut Vec<u8>, line: Option<u64>) -> Result<(), AllocError>
    ensures { OnOk result (text.new.items ≡ text.old.items ++ line_text line) }
{
    match line {
        None => text.extend_from_slice(b"-"),
        Some(line) => add_decimal(alloc, text, line),
    }
}

// Adds cells, each behind a blank.
fn add_digits(alloc: Global, text: &mut Vec<u8>, cells: &[u8]) -> Result<(), AllocError>
    ensures { OnOk result (text.new.items ≡ text.old.items ++ digits_of (cells_of cells.now)) }
{
    let mut rest = cells;
    while let Some((cell, behind)) = next_cell(rest) {
        rest = behind;
        text.push(b' ')?;
        add_decimal(alloc, text, u64::from(cell))?;
    }
    Ok(())
}

fn add_cells(alloc: Global, text: &mut Vec<u8>, cells: &[u8]) -> Result<(), AllocError>
    ensures { OnOk result (text.new.items ≡ text.old.items ++ cells_text (cells_of cells.now)) }
{
    match next_cell(cells) {
        None => Ok(()),
        Some((cell, behind)) => {
            add_decimal(alloc, text, u64::from(cell))?;
            add_digits(alloc, text, behind)
        }
    }
}

/// How many rows before one are looked at.
pub fn window() -> usize
    ensures { result ≡ window }
{
    64
}

// The nearest of so many mentions before a place that shares the line of another one.
fn nearest<'m, 't>(
    survey: &Survey<'_>,
    rows: &'m [Mention<'t>],
    mention: &Mention<'_>,
    most: usize,
    place: usize,
) -> Option<&'m Mention<'t>>
    requires { place ≤ length rows.now }
    ensures { option_copied result ≡ nearest survey.now rows.now mention.now most place }
{
    let mut at = place;
    let mut left = most;
    while left > 0 && at > 0 {
        left -= 1;
        at -= 1;
        if shares(survey, &rows[at], mention) {
            return Some(&rows[at]);
        }
    }
    None
}

fn add_sharing(
    text: &mut Vec<u8>,
    survey: &Survey<'_>,
    other: Option<&Mention<'_>>,
) -> Result<(), AllocError>
    ensures { OnOk result (text.new.items ≡ text.old.items ++ sharing_text survey.now (option_copied other.entry)) }
{
    match other {
        None => Ok(()),
        Some(other) => {
            text.extend_from_slice(b" shared with ")?;
            add_path(text, survey, other.user)
        }
    }
}

/// Adds a mention as a row: its line, the path of the node that has the property, the property and the entry in it, the specifier, and
/// the path of another one that uses the same line.
pub fn add_row(
    alloc: Global,
    text: &mut Vec<u8>,
    survey: &Survey<'_>,
    mention: &Mention<'_>,
    other: Option<&Mention<'_>>,
) -> Result<(), AllocError>
    ensures { OnOk result (text.new.items ≡ text.old.items ++ row_text survey.now mention.now (option_copied other.entry)) }
{
    add_line(alloc, text, line_of(survey, mention))?;
    text.push(b' ')?;
    add_path(text, survey, mention.user)?;
    text.push(b' ')?;
    text.extend_from_slice(mention.property)?;
    text.push(b'[')?;
    add_decimal(alloc, text, mention.entry as u64)?;
    text.extend_from_slice(b"] <")?;
    add_cells(alloc, text, mention.cells)?;
    text.push(b'>')?;
    add_sharing(text, survey, other)?;
    text.push(b'\n')?;
    Ok(())
}

/// Adds the mention at a place as a row, with the nearest before it that shares its line.
pub fn add_row_at(
    alloc: Global,
    text: &mut Vec<u8>,
    survey: &Survey<'_>,
    rows: &[Mention<'_>],
    place: usize,
    mention: &Mention<'_>,
) -> Result<(), AllocError>
    requires { place ≤ length rows.now }
    ensures { OnOk result (text.new.items ≡ text.old.items ++ row_at survey.now rows.now place mention.now) }
{
    let other = nearest(survey, rows, mention, window(), place);
    add_row(alloc, text, survey, mention, other)
}
