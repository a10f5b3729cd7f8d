//! Places in the user's files: a fault's line, and a diagnosis' locations.
ghost use Rattle.std.specs.Prelude.{◌≡◌};
ghost use Rattle.dtman_engine.specs.Fault.{fault_value};
ghost use Rattle.dtman_host.specs.UserFault.{in_user_file};

use dt_source::Place;
use dt_text::include::{Site, user_place};
use dtman_diagnosis::Location;
use dtman_engine::{Fault, Position};

/// A fault of a whole text, at the line of the user's file: that text is what the file of this name comes to.
pub fn in_user_file(file: &[u8], text: &[u8], fault: Fault) -> Fault
    ensures { fault_value result ≡ in_user_file file.now text.now (fault_value fault) }
{
    match fault.position {
        Position::Line(line) => Fault {
            position: Position::Line(user_place(file, text, line).line),
            ..fault
        },
        Position::At(place) => Fault {
            position: Position::At(Place {
                line: user_place(file, text, place.line).line,
                ..place
            }),
            ..fault
        },
        _ => fault,
    }
}

/// The location of words that take something in.
pub fn site_location(site: Site) -> Location {
    let Site {
        file,
        line,
        text,
        columns,
    } = site;
    Location::Text {
        file,
        line,
        column: columns.start,
        text,
        marked: columns.end.saturating_sub(columns.start),
    }
}

/// The words of a site, as far as their line goes.
pub fn words_of(site: &Site) -> &[u8] {
    let start = site.columns.start.saturating_sub(1);
    let end = site.columns.end.saturating_sub(1);
    site.text.as_slice().get(start..end).unwrap_or(&[])
}
