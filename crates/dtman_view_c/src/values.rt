//! Numbers and texts in a value.
ghost use Rattle.std.specs.Prelude.{◌≡◌};
ghost use Rattle.dt_patch.specs.View.Cells.{double_cell_in, number_in, string_in, text_in};
ghost use Rattle.dtman_view_c.specs.Parts.{IsGiven, IsPart};
ghost use Rattle.dtman_view_c.specs.Raw.{behind_text};

use crate::parts::ViewPart;
use crate::told::{ViewTold, done, nothing};
use dt_patch::view::{cell, double_cell, string, text};
use dt_tree::behind;

/// The cell at a place of a value, counted in cells.
#[unsafe(no_mangle)]
pub extern "C" fn dtman_view_cell(value: &[u8], place: usize, into: &mut u32) -> ViewTold
    ensures { IsGiven (number_in value.now place) into.new result }
{
    match cell(value, place) {
        Some(number) => {
            *into = number;
            done(0)
        }
        None => nothing(),
    }
}

/// The number of two cells, the higher one first, at a place counted in cells.
#[unsafe(no_mangle)]
pub extern "C" fn dtman_view_double_cell(value: &[u8], place: usize, into: &mut u64) -> ViewTold
    ensures { IsGiven (double_cell_in value.now place) into.new result }
{
    match double_cell(value, place) {
        Some(number) => {
            *into = number;
            done(0)
        }
        None => nothing(),
    }
}

/// The string at a place of a list of strings.
#[unsafe(no_mangle)]
pub extern "C" fn dtman_view_string<'a>(
    value: &'a [u8],
    place: usize,
    part: &mut ViewPart<'a>,
) -> ViewTold
    ensures { IsPart (string_in value.now place) part.new result }
{
    match string(value, place) {
        Some(text) => {
            part.bytes = text;
            done(0)
        }
        None => nothing(),
    }
}

/// The string that a list of strings begins with.
#[unsafe(no_mangle)]
pub extern "C" fn dtman_view_first_string<'a>(value: &'a [u8], part: &mut ViewPart<'a>) -> ViewTold
    ensures { IsPart (text_in value.now) part.new result }
{
    match text(value) {
        Some(text) => {
            part.bytes = text;
            done(0)
        }
        None => nothing(),
    }
}

/// What a list of strings has behind its first one.
#[unsafe(no_mangle)]
pub extern "C" fn dtman_view_other_strings<'a>(value: &'a [u8], part: &mut ViewPart<'a>) -> ViewTold
    ensures { IsPart (behind_text value.now) part.new result }
{
    match text(value) {
        Some(text) => {
            part.bytes = behind(value, text.len() + 1);
            done(0)
        }
        None => nothing(),
    }
}
