//! Where findings stand in the user's files.
use crate::answer::Source;
use crate::table::Finding;
use dt_check::{Message, Survey, is_named};
use dt_text::place::{Position, positions_of};
use dt_tree::Node;
use std::alloc::{AllocError, Global};

/// A name in a text of the user's: the file, the line from 1, the columns from 1 of its first byte and behind its last.
#[derive(Clone, Copy)]
pub struct Site<'a> {
    pub file: &'a [u8],
    pub line: usize,
    pub column: usize,
    pub end: usize,
}

/// Where a finding's property or node is defined, and where the node above: as far as a text says so.
#[derive(Clone, Copy)]
pub struct Located<'a> {
    pub own: Option<Site<'a>>,
    pub above: Option<Site<'a>>,
}

/// The bytes of a name in the text.
#[derive(Clone, Copy)]
struct Spot {
    start: usize,
    length: usize,
}

#[derive(Clone, Copy)]
struct Spots {
    own: Option<Spot>,
    above: Option<Spot>,
}

/// The places of these findings, one by one; of a finding of no node, none. In a text that no line marker says the file of, it is
/// this one.
pub fn locate_findings<'a>(
    alloc: Global,
    file: &'a [u8],
    source: Source<'a>,
    survey: &Survey<'_>,
    findings: &[Finding<'_>],
) -> Result<Vec<Located<'a>>, AllocError> {
    let mut spots = Vec::with_capacity(alloc, findings.len())?;
    for finding in findings {
        spots.push(spots_of(source, survey, finding))?;
    }
    let starts = starts_of(alloc, spots.as_slice())?;
    let positions = positions_of(alloc, source.text, starts.as_slice())?;
    let sites = Sites {
        file,
        starts,
        positions,
    };
    let mut located = Vec::with_capacity(alloc, spots.len())?;
    for spots in &spots {
        located.push(Located {
            own: sites.of(spots.own),
            above: sites.of(spots.above),
        })?;
    }
    Ok(located)
}

// Whose property a finding tells of: of the root that of /chosen, which dtc tells there.
fn holder_of(survey: &Survey<'_>, finding: &Finding<'_>, place: usize) -> usize {
    match finding.message {
        Message::ObsoleteController => chosen_in(survey).unwrap_or(place),
        _ => place,
    }
}

fn chosen_in(survey: &Survey<'_>) -> Option<usize> {
    survey.as_slice().iter().position(|placed| placed.above() == Some(0)
        && is_named(placed.node(), b"chosen"))
}

// A property that the compiler added is where its node is; above the root is the root.
fn spots_of(source: Source<'_>, survey: &Survey<'_>, finding: &Finding<'_>) -> Spots {
    let Some(place) = finding.node else {
        return Spots {
            own: None,
            above: None,
        };
    };
    let found = match finding.property {
        None => None,
        Some(name) => { property_spot(source, survey, holder_of(survey, finding, place), name) }
    };
    let own = match found {
        None => node_spot(source, survey, place),
        Some(spot) => Some(spot),
    };
    let above = survey.above(place).unwrap_or(place);
    Spots {
        own,
        above: node_spot(source, survey, above),
    }
}

fn property_spot(
    source: Source<'_>,
    survey: &Survey<'_>,
    place: usize,
    name: &[u8],
) -> Option<Spot> {
    let index = index_of(survey.node(place)?, name)?;
    Some(Spot {
        start: source.places.property(place, index)? as usize,
        length: name.len(),
    })
}

// Which of a node's properties has a name.
fn index_of(node: &Node, name: &[u8]) -> Option<usize> {
    node.properties()
        .iter()
        .position(|property| property.name.as_bytes() == name)
}

// A node is where its name stands, or the reference that a fragment of a plugin is written by.
fn node_spot(source: Source<'_>, survey: &Survey<'_>, place: usize) -> Option<Spot> {
    let node = survey.node(place)?;
    let start = source.places.node(place)? as usize;
    Some(Spot {
        start,
        length: length_at(source.text, start, node.name_bytes()),
    })
}

fn length_at(text: &[u8], start: usize, name: &[u8]) -> usize {
    match text.get(start..) {
        Some([b'&', b'{', path @ ..]) => path_length(path).saturating_add(3),
        Some([b'&', label @ ..]) => label_length(label).saturating_add(1),
        // the root's slash
        _ => name.len().max(1),
    }
}

// Up to the brace that ends a path.
fn path_length(text: &[u8]) -> usize {
    text.iter().position(|byte| *byte == b'}').unwrap_or(0)
}

fn label_length(text: &[u8]) -> usize {
    text.iter()
        .position(|byte| !is_of_label(*byte))
        .unwrap_or(text.len())
}

fn is_of_label(byte: u8) -> bool {
    byte.is_ascii_alphanumeric() || byte == b'_'
}

// The places of all names, in order.
fn starts_of(alloc: Global, spots: &[Spots]) -> Result<Vec<usize>, AllocError> {
    let mut starts = Vec::with_capacity(alloc, spots.len())?;
    for spots in spots {
        if let Some(spot) = spots.own {
            starts.push(spot.start)?;
        }
        if let Some(spot) = spots.above {
            starts.push(spot.start)?;
        }
    }
    starts.sort()?;
    Ok(starts)
}

// Names by their places, in order, with what the text says of each.
#[derive(Drop)]
struct Sites<'a> {
    file: &'a [u8],
    starts: Vec<usize>,
    positions: Vec<Position<'a>>,
}

impl<'a> Sites<'a> {
    fn of(&self, spot: Option<Spot>) -> Option<Site<'a>> {
        let spot = spot?;
        let Ok(index) = self.starts.binary_search(&spot.start) else {
            return None;
        };
        let position = self.positions.get(index)?;
        Some(Site {
            file: position.file.unwrap_or(self.file),
            line: position.line,
            column: position.column,
            end: position.column.saturating_add(spot.length),
        })
    }
}

/// The path of the node above: of the root its own.
pub fn path_above(path: &[u8]) -> &[u8] {
    match path.iter().rposition(|byte| *byte == b'/') {
        None | Some(0) => b"/",
        Some(slash) => path.get(..slash).unwrap_or(path),
    }
}
