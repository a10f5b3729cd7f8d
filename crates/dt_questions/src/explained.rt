//! What explains that two nodes have one address.
ghost use Rattle.std.specs.Prelude.{◌≡◌};
ghost use Rattle.dt_questions.specs.Explained.{are_one_line, holds_reserved, is_explained, is_memory, is_reserved, is_within};

use crate::nodes::has_string_at;
use crate::paths::{most_levels, name_at};
use dt_check::Survey;

// Whether a node, or one above it over so many levels, is the one at the place `top`.
fn is_within(survey: &Survey<'_>, levels: usize, top: usize, place: usize) -> bool
    ensures { result ≡ is_within survey.now levels top place }
{
    if levels == 0 {
        return false;
    }
    if place == top {
        return true;
    }
    match survey.above(place) {
        None => false,
        Some(above) => is_within(survey, levels - 1, top, above),
    }
}

// Whether one of two nodes stands above the other, or they are the same.
fn are_one_line(survey: &Survey<'_>, a: usize, b: usize) -> bool
    ensures { result ≡ are_one_line survey.now a b }
{
    is_within(survey, most_levels(), a, b) || is_within(survey, most_levels(), b, a)
}

fn is_memory(survey: &Survey<'_>, place: usize) -> bool
    ensures { result ≡ is_memory survey.now place }
{
    has_string_at(survey, place, b"device_type", b"memory")
}

// Whether a node is a child of `/reserved-memory`.
fn is_reserved(survey: &Survey<'_>, place: usize) -> bool
    ensures { result ≡ is_reserved survey.now place }
{
    match survey.above(place) {
        None => false,
        Some(above) => name_at(survey, above) == b"reserved-memory".as_slice(),
    }
}

fn holds_reserved(survey: &Survey<'_>, a: usize, b: usize) -> bool
    ensures { result ≡ holds_reserved survey.now a b }
{
    is_memory(survey, a) && is_reserved(survey, b) || is_memory(survey, b) && is_reserved(survey, a)
}

/// Whether two nodes may have one address.
pub fn is_explained(survey: &Survey<'_>, a: usize, b: usize) -> bool
    ensures { result ≡ is_explained survey.now a b }
{
    are_one_line(survey, a, b) || holds_reserved(survey, a, b)
}
