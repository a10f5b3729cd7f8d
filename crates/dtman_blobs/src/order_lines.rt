//! Lines of what both blobs have in another order.

use crate::diff_text::add_place;
use crate::difference::{Kind, Reordered};
use std::alloc::AllocError;

/// Where two lists of names differ first, and behind where last.
#[derive(Clone, Copy, Debug)]
struct Stretch {
    from: usize,
    to: usize,
}

fn is_same_at(first: &[&[u8]], second: &[&[u8]], place: usize) -> bool {
    let Some(name) = first.get(place) else {
        return false;
    };
    match second.get(place) {
        Some(other) => *name == *other,
        None => false,
    }
}

fn stretch_of(first: &[&[u8]], second: &[&[u8]]) -> Stretch {
    let mut from = None;
    let mut to = 0;
    for place in 0..first.len() {
        if !is_same_at(first, second, place) {
            from = from.or(Some(place));
            to = place + 1;
        }
    }
    Stretch {
        from: from.unwrap_or(0),
        to,
    }
}

fn words_of(kind: Kind) -> &'static [u8] {
    match kind {
        Kind::Properties => b"properties",
        Kind::Children => b"children",
    }
}

// What stands between the names that both have at one place.
fn add_names(
    text: &mut Vec<u8>,
    mark: u8,
    kind: Kind,
    names: &[&[u8]],
    stretch: Stretch,
) -> Result<(), AllocError> {
    text.push(mark)?;
    text.extend_from_slice(b"\t// order of ")?;
    text.extend_from_slice(words_of(kind))?;
    let mut between = b": ".as_slice();
    for name in names.get(stretch.from..stretch.to).unwrap_or(names) {
        text.extend_from_slice(between)?;
        text.extend_from_slice(*name)?;
        between = b", ";
    }
    Ok(text.push(b'\n')?)
}

/// Puts what stands in another order below the path of its node.
pub(crate) fn add_moved(text: &mut Vec<u8>, moved: &[Reordered<'_>]) -> Result<(), AllocError> {
    for names in moved {
        let (first, second) = (names.first.as_slice(), names.second.as_slice());
        let stretch = stretch_of(first, second);
        add_place(text, names.path.as_slice())?;
        add_names(text, b'-', names.kind, first, stretch)?;
        add_names(text, b'+', names.kind, second, stretch)?;
    }
    Ok(())
}
