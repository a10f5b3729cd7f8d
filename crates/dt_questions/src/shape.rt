//! What the entries of a property are made of.
ghost use Rattle.std.specs.Prelude.{◌≡◌, ◌+◌};
ghost use Rattle.std.specs.Option.{option_map};
ghost use Rattle.dt_tree.specs.PhandleProperties.View.{listing_data as listed_data};
ghost use Rattle.dt_questions.specs.Shapes.{shape_of, shape_in, lines_shape, nexus_shape, taker};
ghost use Rattle.dt_questions.specs.ShapeView.{shape_data};

use crate::nodes::cells_at;
use dt_check::Survey;
use dt_check::links::{Way, search};
use dt_tree::phandle_properties::{Asker, Listing, Row};

/// What an entry is made of.
#[derive(Clone, Copy, Debug)]
pub enum Shape {
    /// A phandle, and as many cells as the property of this name of its node says.
    Counted(&'static [u8]),
    /// A phandle.
    Bare,
    /// A cell, a phandle, and two cells.
    Mapped,
    /// A row of the map of a nexus: a unit address and a specifier of so many cells, a phandle, and the unit address and the
    /// specifier at its node.
    Nexus { address: u32, specifier: u32 },
    /// So many cells, for the node at this place.
    Lines { parent: usize, cells: u32 },
}

fn shape_in(listing: Listing) -> Option<Shape>
    ensures { option_map shape_data result ≡ shape_in (listed_data listing) }
{
    match listing {
        Listing::Counted(cells) => Some(Shape::Counted(cells)),
        Listing::Sparse(cells) => Some(Shape::Counted(cells)),
        Listing::Controllers => Some(Shape::Counted(b"#interrupt-cells")),
        Listing::Bare => Some(Shape::Bare),
        Listing::Single => Some(Shape::Bare),
        Listing::Endpoint => Some(Shape::Bare),
        Listing::Mapped => Some(Shape::Mapped),
        Listing::Lines => None,
    }
}

// The node to which the way of interrupts leads.
fn taker(way: Way) -> Option<usize>
    ensures { result ≡ taker way }
{
    match way {
        Way::Found(place) | Way::NotAProvider(place) => Some(place),
        _ => None,
    }
}

// Of `interrupts` of a node.
fn lines_shape(survey: &Survey<'_>, user: usize) -> Option<Shape>
    ensures { option_map shape_data result ≡ lines_shape survey.now user }
{
    let Some(parent) = taker(search(survey, user)) else {
        return None;
    };
    match cells_at(survey, parent, b"#interrupt-cells") {
        None => None,
        Some(cells) => Some(Shape::Lines { parent, cells }),
    }
}

// Of `interrupt-map` of a node.
fn nexus_shape(survey: &Survey<'_>, user: usize) -> Option<Shape>
    ensures { option_map shape_data result ≡ nexus_shape survey.now user }
{
    let Some(specifier) = cells_at(survey, user, b"#interrupt-cells") else {
        return None;
    };
    let address = match cells_at(survey, user, b"#address-cells") {
        None => 2,
        Some(address) => address,
    };
    Some(Shape::Nexus { address, specifier })
}

/// Of a node's property of this name.
pub fn shape_of(survey: &Survey<'_>, user: usize, name: &[u8]) -> Option<Shape>
    ensures { option_map shape_data result ≡ shape_of survey.now user name.now }
{
    if name == b"interrupts".as_slice() {
        if survey.value(user, b"interrupts-extended").is_some() {
            return None;
        }
        return lines_shape(survey, user);
    }
    if name == b"interrupt-map".as_slice() {
        return nexus_shape(survey, user);
    }
    match Row::of(Asker::Values, name) {
        None => None,
        Some(row) => shape_in(row.listing()),
    }
}
