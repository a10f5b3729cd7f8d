//! `interrupts` and what takes them (Devicetree Specification v0.4, section 2.4).
ghost use Rattle.std.specs.Prelude.{◌≡◌};
ghost use Rattle.std.specs.Option.{option_copied};
ghost use Rattle.dt_check.specs.Links.Interrupts.{most_levels, named_parent, step, next, search, search_from, lines, length_fault, found_fault, search_fault, missing_fault, wanted_bytes, cells_fault, cells_fault_by};

use crate::links::link::LinkFault;
use crate::{Fault, Message, Survey, is_multiple};
use dt_tree::{Bytes, cell_in};

/// What the way to the node that takes a node's interrupts comes to.
#[derive(Clone, Copy, Debug, PartialEq, Eq)]
pub enum Way {
    /// The node that takes them.
    Found(usize),
    /// The node that `interrupt-parent` leads to takes none.
    NotAProvider(usize),
    /// No node has the phandle in the `interrupt-parent` of this node.
    NoNode(usize),
    /// The `interrupt-parent` of this node holds no phandle.
    NoPhandle(usize),
    /// The phandle is left to the base of a plugin.
    Open,
    /// No node says.
    Nowhere,
}

// More levels than any tree has.
fn most_levels() -> usize
    ensures { result ≡ most_levels }
{
    66
}

fn named_parent(survey: &Survey<'_>, at: usize, value: &[u8]) -> Way
    ensures { result ≡ named_parent survey.now at value.now }
{
    let Some(phandle) = cell_in(value) else {
        return Way::NoPhandle(at);
    };
    if phandle == u32::MAX {
        return Way::Open;
    }
    if phandle == 0 {
        return Way::NoPhandle(at);
    }
    let Some(place) = survey.with_phandle(phandle) else {
        return Way::NoNode(at);
    };
    if survey.is_provider(place) {
        return Way::Found(place);
    }
    Way::NotAProvider(place)
}

// Where the way ends at a node, if it ends there.
fn step(survey: &Survey<'_>, own: usize, at: usize) -> Option<Way>
    ensures { result ≡ step survey.now own at }
{
    if at != own && survey.is_provider(at) {
        return Some(Way::Found(at));
    }
    match survey.value(at, b"interrupt-parent") {
        None => None,
        Some(value) => Some(named_parent(survey, at, value.as_slice())),
    }
}

// The next node on the way, or where the way ends.
fn next(survey: &Survey<'_>, own: usize, at: usize) -> Result<usize, Way>
    ensures { result ≡ next survey.now own at }
{
    if let Some(found) = step(survey, own, at) {
        return Err(found);
    }
    match survey.above(at) {
        None => Err(Way::Nowhere),
        Some(above) => Ok(above),
    }
}

fn search_from(survey: &Survey<'_>, own: usize, levels: usize) -> Way
    ensures { result ≡ search_from survey.now own levels own }
{
    let mut at = own;
    let mut left = levels;
    while left > 0 {
        left -= 1;
        match next(survey, own, at) {
            Err(found) => return found,
            Ok(above) => at = above,
        }
    }
    Way::Nowhere
}

/// The node that takes a node's interrupts.
pub fn search(survey: &Survey<'_>, own: usize) -> Way
    ensures { result ≡ search survey.now own }
{
    search_from(survey, own, most_levels())
}

fn lines<'t>(survey: &Survey<'t>, own: usize) -> Option<&'t Bytes>
    ensures { option_copied result ≡ lines survey.now own }
{
    survey.value(own, b"interrupts")
}

/// `interrupts` isn't made of cells.
pub fn length_fault(survey: &Survey<'_>, own: usize) -> Option<LinkFault<'static>>
    ensures { result ≡ length_fault survey.now own }
{
    let Some(value) = lines(survey, own) else {
        return None;
    };
    let bytes = value.as_slice().len();
    if is_multiple(bytes, 4) {
        return None;
    }
    let message = Message::InterruptLength { bytes, wanted: 4 };
    Some(LinkFault::at(own, Fault::of_property(b"interrupts", message)))
}

fn found_fault(own: usize, found: Way) -> Option<LinkFault<'static>>
    ensures { result ≡ found_fault own found }
{
    match found {
        Way::NoPhandle(at) => Some(LinkFault::at(
            at,
            Fault::of_property(b"interrupt-parent", Message::BadParent),
        )),
        Way::NoNode(at) => Some(LinkFault::at(
            at,
            Fault::of_property(b"interrupt-parent", Message::NoParent),
        )),
        Way::NotAProvider(place) => Some(LinkFault::at(
            place,
            Fault::of_node(Message::NotAProvider(own)),
        )),
        _ => None,
    }
}

/// An `interrupt-parent` on the way leads to no node that takes interrupts: told of the node that says so, or of that node.
pub fn search_fault(survey: &Survey<'_>, own: usize) -> Option<LinkFault<'static>>
    ensures { result ≡ search_fault survey.now own }
{
    match lines(survey, own) {
        None => None,
        Some(_) => found_fault(own, search(survey, own)),
    }
}

/// No node takes the interrupts.
pub fn missing_fault(survey: &Survey<'_>, own: usize) -> Option<LinkFault<'static>>
    ensures { result ≡ missing_fault survey.now own }
{
    let Some(_) = lines(survey, own) else {
        return None;
    };
    match search(survey, own) {
        Way::NoPhandle(_) | Way::Nowhere => Some(LinkFault::at(
            own,
            Fault::of_node(Message::NoInterruptParent),
        )),
        _ => None,
    }
}

// How many bytes a specifier has for the node that the way leads to.
fn wanted_bytes(survey: &Survey<'_>, found: Way) -> Option<usize>
    ensures { result ≡ wanted_bytes survey.now found }
{
    let place = match found {
        Way::Found(place) | Way::NotAProvider(place) => place,
        _ => return None,
    };
    match survey.value(place, b"#interrupt-cells") {
        None => None,
        Some(value) => match cell_in(value.as_slice()) {
            None => None,
            Some(cells) => Some(4 * cells as usize),
        },
    }
}

fn cells_fault_by(bytes: usize, wanted: usize, own: usize) -> Option<LinkFault<'static>>
    ensures { result ≡ cells_fault_by bytes wanted own }
{
    if is_multiple(bytes, wanted) {
        return None;
    }
    let message = Message::InterruptLength { bytes, wanted };
    Some(LinkFault::at(own, Fault::of_property(b"#interrupt-cells", message)))
}

/// `interrupts` isn't made of the specifiers of the node that takes them.
pub fn cells_fault(survey: &Survey<'_>, own: usize) -> Option<LinkFault<'static>>
    ensures { result ≡ cells_fault survey.now own }
{
    let Some(value) = lines(survey, own) else {
        return None;
    };
    match wanted_bytes(survey, search(survey, own)) {
        None => None,
        Some(wanted) => cells_fault_by(value.as_slice().len(), wanted, own),
    }
}
