//! Which line of a node a specifier means, and which mentions share one.
ghost use Rattle.std.specs.Prelude.{◌≡◌, ◌<◌, ◌^◌, IfSome, codes};
ghost use Rattle.dt_tree.specs.PhandleProperties.View.{listing_data as listed_data};
ghost use Rattle.dt_questions.specs.Nodes.{has_string_at};
ghost use Rattle.dt_questions.specs.Lines.{first_of, gic_base, is_gic, is_gpio, is_interrupt, is_same_line, line_of, lists_pins, order_of, pin_of, shares};

use crate::mention::Mention;
use crate::nodes::{has_string_at, is_used};
use dt_check::{Survey, cell_from};
use dt_tree::phandle_properties::{Asker, Listing, Row};

// Whether a node is a GIC.
fn is_gic(survey: &Survey<'_>, place: usize) -> bool
    ensures { result ≡ is_gic survey.now place }
{
    is_one_of(survey, place, b"arm,gic-v3")
        || is_one_of(survey, place, b"arm,gic-400")
        || is_one_of(survey, place, b"arm,cortex-a15-gic")
        || is_one_of(survey, place, b"arm,cortex-a9-gic")
        || is_one_of(survey, place, b"arm,cortex-a7-gic")
        || is_one_of(survey, place, b"arm,cortex-a5-gic")
        || is_one_of(survey, place, b"arm,pl390")
        || is_one_of(survey, place, b"qcom,msm-qgic2")
}

fn is_one_of(survey: &Survey<'_>, place: usize, string: &[u8]) -> bool
    ensures { result ≡ has_string_at survey.now place (codes "compatible") string.now }
{
    has_string_at(survey, place, b"compatible", string)
}

// Where the interrupts of a type begin at a GIC.
fn gic_base(kind: u32) -> u64
    ensures value { result ≡ gic_base kind }
    ensures few { result < 2 ^ 16 }
{
    match kind {
        0 => 32,
        1 => 16,
        2 => 4096,
        3 => 1056,
        _ => 0,
    }
}

// The cell at an offset; 0 where there is none.
fn cell_or_zero(cells: &[u8], offset: usize) -> u32
    ensures { result ≡ first_of offset cells.now }
{
    match cell_from(cells, offset) {
        None => 0,
        Some(cell) => cell,
    }
}

/// The line of its node that a mention means: none without a specifier.
pub fn line_of(survey: &Survey<'_>, mention: &Mention<'_>) -> Option<u64>
    ensures value { result ≡ line_of survey.now mention.now }
    ensures few { IfSome result (λ line. line < 2 ^ 33) }
{
    if mention.cells.len() >= 12 && is_gic(survey, mention.node) {
        let base = gic_base(cell_or_zero(mention.cells, 0));
        return Some(base + u64::from(cell_or_zero(mention.cells, 4)));
    }
    match cell_from(mention.cells, 0) {
        None => None,
        Some(cell) => Some(u64::from(cell)),
    }
}

/// Where a mention stands among those of its node: by its line, those without one first.
pub fn order_of(survey: &Survey<'_>, mention: &Mention<'_>) -> u64
    ensures { result ≡ order_of survey.now mention.now }
{
    match line_of(survey, mention) {
        None => 0,
        Some(line) => line + 1,
    }
}

/// Whether a property's specifiers are interrupts.
pub fn is_interrupt(name: &[u8]) -> bool
    ensures { result ≡ is_interrupt name.now }
{
    name == b"interrupts".as_slice()
        || name == b"interrupts-extended".as_slice()
        || name == b"interrupt-map".as_slice()
}

// Whether what a property lists are pins.
fn lists_pins(listing: Listing) -> bool
    ensures { result ≡ lists_pins (listed_data listing) }
{
    match listing {
        Listing::Counted(cells) => cells == b"#gpio-cells".as_slice(),
        _ => false,
    }
}

// Whether a property's specifiers are pins.
fn is_gpio(name: &[u8]) -> bool
    ensures { result ≡ is_gpio name.now }
{
    match Row::of(Asker::Values, name) {
        None => false,
        Some(row) => lists_pins(row.listing()),
    }
}

// The cells of a pin without its flags, the last cell.
fn pin_of(cells: &[u8]) -> &[u8]
    ensures { result.now ≡ pin_of cells.now }
{
    if cells.len() < 8 {
        return cells;
    }
    &cells[..cells.len() - 4]
}

// Whether two properties mean one line by these specifiers.
fn is_same_line(mention: &Mention<'_>, other: &Mention<'_>) -> bool
    ensures { result ≡ is_same_line mention.now other.now }
{
    if is_interrupt(mention.property) {
        return is_interrupt(other.property) && mention.cells == other.cells;
    }
    is_gpio(mention.property)
        && is_gpio(other.property)
        && pin_of(mention.cells) == pin_of(other.cells)
}

/// Whether two nodes that are used use one line.
pub fn shares(survey: &Survey<'_>, mention: &Mention<'_>, other: &Mention<'_>) -> bool
    ensures { result ≡ shares survey.now mention.now other.now }
{
    mention.node == other.node
        && mention.user != other.user
        && is_same_line(mention, other)
        && is_used(survey, mention.user)
        && is_used(survey, other.user)
}
