//! Checks of mistakes that none of dtc's sees: off where nothing is said.

ghost use Rattle.std.specs.Prelude.{◌≡◌, map, take, drop};
ghost use Rattle.dtman_check.specs.Table.Checks.{checks};
ghost use Rattle.dtman_check.specs.Table.CheckView.{check_data};

use crate::table::check::{Among, Check, Finds, Severity};
use crate::table::rule::Rule;

static PART_8: [Check; 2] = [
    Check {
        name: "lost_ranges",
        severity: Severity::Off,
        prerequisites: &[],
        made_before: &[],
        finds: Finds::Node(Among::All, &[Rule::LostRanges]),
    },
    Check {
        name: "unknown_property",
        severity: Severity::Off,
        prerequisites: &[],
        made_before: &[],
        finds: Finds::Unknown,
    },
];

pub fn part_8() -> &'static [Check]
    ensures { map check_data result.now ≡ take 11 (drop 88 checks) }
{
    &PART_8
}
