//! The modules and the strings that they match, in order of first sight.

use crate::modules::reading::Origin;
use bus_plan::PathIndex;
use std::alloc::{AllocError, Global};
use std::hash::RandomState;

/// An alias that a driver file can't say.
#[derive(Clone, Copy, Debug)]
pub struct Unsaid<'a> {
    pub origin: Origin,
    /// The line or the entry, from 1.
    pub number: usize,
    pub alias: &'a [u8],
}

/// The text of a driver file, and the aliases that it leaves out.
#[derive(Drop)]
pub struct ModuleDrivers<'a> {
    pub text: Vec<u8>,
    pub unsaid: Vec<Unsaid<'a>>,
}

/// The lines of a driver file while they grow.
#[derive(Drop)]
pub struct Modules {
    names: PathIndex,
    /// The names with a string behind each, parted by a space.
    pairs: PathIndex,
    /// The strings that are matched by any.
    strings: PathIndex,
    /// A line for each name.
    lines: Vec<Vec<u8>>,
}

fn joined(alloc: Global, front: &[u8], name: &[u8]) -> Result<Vec<u8>, AllocError> {
    let mut bytes = Vec::new(alloc);
    bytes.extend_from_slice(front)?;
    bytes.push(b' ')?;
    bytes.extend_from_slice(name)?;
    Ok(bytes)
}

impl Modules {
    /// None yet.
    pub fn new(alloc: Global, hasher: RandomState) -> Self {
        Self {
            names: PathIndex::new(alloc, hasher),
            pairs: PathIndex::new(alloc, hasher),
            strings: PathIndex::new(alloc, hasher),
            lines: Vec::new(alloc),
        }
    }

    /// Whether any module matches this string.
    pub fn matches(&self, string: &[u8]) -> bool {
        self.strings.contains(string)
    }

    // The place of a module's line, which is begun where there is none.
    fn place_of(&mut self, alloc: Global, name: &[u8]) -> Result<usize, AllocError> {
        if let Some(place) = self.names.position(name) {
            return Ok(place);
        }
        self.lines.push(joined(alloc, b"driver", name)?)?;
        self.names.add(alloc, name)?;
        Ok(self.lines.len() - 1)
    }

    // A string is matched.
    fn add_string(&mut self, alloc: Global, string: &[u8]) -> Result<(), AllocError> {
        if self.strings.contains(string) {
            return Ok(());
        }
        self.strings.add(alloc, string)
    }

    /// A module matches a string. What it was said to match before isn't said again.
    pub fn add(&mut self, alloc: Global, name: &[u8], string: &[u8]) -> Result<(), AllocError> {
        let pair = joined(alloc, name, string)?;
        if self.pairs.contains(pair.as_slice()) {
            return Ok(());
        }
        self.pairs.add(alloc, pair.as_slice())?;
        self.add_string(alloc, string)?;
        let place = self.place_of(alloc, name)?;
        if let Some(line) = self.lines.get_mut(place) {
            line.push(b' ')?;
            line.extend_from_slice(string)?;
        }
        Ok(())
    }

    /// The text of all lines, behind a head.
    pub fn text(&self, alloc: Global, head: &[u8]) -> Result<Vec<u8>, AllocError> {
        let mut text = Vec::from_slice(alloc, head)?;
        for line in &self.lines {
            text.extend_from_slice(line.as_slice())?;
            text.push(b'\n')?;
        }
        Ok(text)
    }
}
