//! What the nodes of a survey say: numbers, strings, whether they are used.
ghost use Rattle.std.specs.Prelude.{◌≡◌};
ghost use Rattle.std.specs.Option.{option_copied};
ghost use Rattle.dt_questions.specs.Nodes.{cells_at, has_string_at, is_okay_at, is_used_within, is_used, is_hidden_within, is_hidden};

use crate::paths::{most_levels, name_at};
use crate::question::has_text;
use dt_check::Survey;
use dt_tree::{cell_in, is_reserved_name};

/// The number in a node's property of this name.
pub fn cells_at(survey: &Survey<'_>, place: usize, name: &[u8]) -> Option<u32>
    ensures { result ≡ cells_at survey.now place name.now }
{
    match survey.value(place, name) {
        None => None,
        Some(value) => cell_in(value.as_slice()),
    }
}

/// Whether a node's property of this name has a string.
pub fn has_string_at(survey: &Survey<'_>, place: usize, name: &[u8], string: &[u8]) -> bool
    ensures { result ≡ has_string_at survey.now place name.now string.now }
{
    match survey.value(place, name) {
        None => false,
        Some(value) => has_text(value.as_slice(), string),
    }
}

// Whether a node by itself is okay.
fn is_okay_at(survey: &Survey<'_>, place: usize) -> bool
    ensures { result ≡ is_okay_at survey.now place }
{
    match survey.value(place, b"status") {
        None => true,
        Some(value) => has_text(value.as_slice(), b"okay") || has_text(value.as_slice(), b"ok"),
    }
}

fn is_used_within(survey: &Survey<'_>, levels: usize, place: usize) -> bool
    ensures { result ≡ is_used_within survey.now levels place }
{
    let mut at = place;
    let mut left = levels;
    while left > 0 {
        left -= 1;
        if !is_okay_at(survey, at) {
            return false;
        }
        let Some(above) = survey.above(at) else {
            return true;
        };
        at = above;
    }
    true
}

/// Whether a node and each above it is okay.
pub fn is_used(survey: &Survey<'_>, place: usize) -> bool
    ensures { result ≡ is_used survey.now place }
{
    is_used_within(survey, most_levels(), place)
}

// Whether the node below the root that leads to this one has a name that overlays keep for themselves.
fn is_hidden_within(survey: &Survey<'_>, levels: usize, place: usize) -> bool
    ensures { result ≡ is_hidden_within survey.now levels place }
{
    let mut at = place;
    let mut left = levels;
    while left > 0 {
        left -= 1;
        let Some(above) = survey.above(at) else {
            return false;
        };
        if above == 0 {
            return is_reserved_name(name_at(survey, at));
        }
        at = above;
    }
    false
}

/// Whether a node belongs to what overlays keep in a tree.
pub fn is_hidden(survey: &Survey<'_>, place: usize) -> bool
    ensures { result ≡ is_hidden survey.now place }
{
    is_hidden_within(survey, most_levels(), place)
}
