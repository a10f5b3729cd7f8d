//! What made the arrows, in words.
use crate::arrows::Arrow;
use crate::escape::add_escaped;
use bus_links::Linked;
use std::alloc::{AllocError, Global};

/// Tells what made an arrow.
pub trait Origins {
    /// The consumer's property: empty where that isn't known.
    fn property(&self, arrow: &Arrow) -> &[u8];

    /// Which entry of the property's list, from 0.
    fn entry(&self, arrow: &Arrow) -> usize;
}

/// Those of a plan of which no more is known.
#[derive(Clone, Copy, Debug)]
pub struct NoOrigins;

impl Origins for NoOrigins {
    fn property(&self, _arrow: &Arrow) -> &[u8] {
        &[]
    }

    fn entry(&self, _arrow: &Arrow) -> usize {
        0
    }
}

impl Origins for Linked<'_> {
    fn property(&self, arrow: &Arrow) -> &[u8] {
        match self.links_of(arrow.consumer).get(arrow.link) {
            None => &[],
            Some(link) if link.is_bus() => b"its bus",
            Some(link) => link.property(),
        }
    }

    fn entry(&self, arrow: &Arrow) -> usize {
        match self.links_of(arrow.consumer).get(arrow.link) {
            None => 0,
            Some(link) => link.entry(),
        }
    }
}

/// Whether the entries of a list are told, too.
#[derive(Clone, Copy, Debug, PartialEq, Eq)]
pub enum Detail {
    Properties,
    Entries,
}

// Whether the arrow at this place is made by the property that made the one before it.
fn is_of_same<O: Origins>(origins: &O, arrows: &[Arrow], place: usize) -> bool {
    match (arrows.get(place.wrapping_sub(1)), arrows.get(place)) {
        (Some(before), Some(arrow)) => origins.property(before) == origins.property(arrow),
        _ => false,
    }
}

fn add_entry<O: Origins>(
    alloc: Global,
    text: &mut Vec<u8>,
    origins: &O,
    arrows: &[Arrow],
    place: usize,
) -> Result<(), AllocError> {
    let Some(arrow) = arrows.get(place) else {
        return Ok(());
    };
    let entry = origins.entry(arrow);
    let is_list = is_of_same(origins, arrows, place)
        || is_of_same(origins, arrows, place.wrapping_add(1));
    if entry > 0 || is_list {
        let number = format!(in alloc; " {entry}")?;
        text.extend_from_slice(number.as_bytes())?;
    }
    Ok(())
}

/// Puts the properties that made these arrows behind a text, each once where its entries follow each other: `clocks 0 1, resets`.
pub fn add_reasons<O: Origins>(
    alloc: Global,
    text: &mut Vec<u8>,
    origins: &O,
    arrows: &[Arrow],
    detail: Detail,
) -> Result<(), AllocError> {
    for (place, arrow) in arrows.iter().enumerate() {
        if !is_of_same(origins, arrows, place) {
            if place > 0 {
                text.extend_from_slice(b", ")?;
            }
            add_escaped(text, origins.property(arrow))?;
        }
        if detail == Detail::Entries {
            add_entry(alloc, text, origins, arrows, place)?;
        }
    }
    Ok(())
}

/// The same by themselves.
pub fn reasons_of<O: Origins>(
    alloc: Global,
    origins: &O,
    arrows: &[Arrow],
    detail: Detail,
) -> Result<Vec<u8>, AllocError> {
    let mut text = Vec::new(alloc);
    add_reasons(alloc, &mut text, origins, arrows, detail)?;
    Ok(text)
}
