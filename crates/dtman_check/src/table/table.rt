//! The table of checks: dtc's in the order in which it makes them, each behind those that it stands on, in parts of eleven; and then
//! those that dtc doesn't have.

mod links;
mod lists;
mod nodes;
mod own;

ghost use Rattle.std.specs.Prelude.{◌≡◌, ◌*◌, map, take, drop, slice_get};
ghost use Rattle.std.specs.Option.{option_copied, option_map};
ghost use Rattle.dtman_check.specs.Table.Checks.{checks};
ghost use Rattle.dtman_check.specs.Table.CheckView.{check_data};

use crate::table::check::Check;
use crate::table::table::links::part_7;
use crate::table::table::lists::{part_4, part_5, part_6};
use crate::table::table::nodes::{part_0, part_1, part_2, part_3};
use crate::table::table::own::part_8;

/// How many checks there are.
pub const CHECK_COUNT: usize = 90;

/// How many of them are dtc's.
pub const DTC_COUNT: usize = 88;

/// The place of `unknown_property`.
pub const UNKNOWN_PROPERTY: usize = 89;

/// How many there are in a part.
const PART: usize = 11;

/// How many parts there are.
pub const PARTS: usize = 9;

/// A part of the table.
pub fn part(number: usize) -> &'static [Check]
    ensures { map check_data result.now ≡ take PART (drop (PART * number) checks) }
{
    match number {
        0 => part_0(),
        1 => part_1(),
        2 => part_2(),
        3 => part_3(),
        4 => part_4(),
        5 => part_5(),
        6 => part_6(),
        7 => part_7(),
        8 => part_8(),
        _ => &[],
    }
}

/// The check at a place of the table.
pub fn check_at(place: usize) -> Option<&'static Check>
    ensures { option_map check_data (option_copied result) ≡ slice_get checks place }
{
    part(place / PART).get(place % PART)
}
