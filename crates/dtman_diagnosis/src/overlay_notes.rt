//! What there is to say of an overlay that isn't applied, by what its refusal carries.

use crate::alike::{add_labels, nearest};
use crate::diagnosis::{Note, Subject, copied};
use crate::fragments::{Target, below_target, target_round};
use crate::tree_places::{PropertyPlace, node_at, property_at};
use dt_overlay::fixup::ended_path;
use dt_overlay::{
    Clash, EntryFault, FixupEntry, OverlayError, SymbolFault, TargetFault, ValuePlace,
};
use dt_tree::{Node, Path, Tree, cell_in, phandle_in};
use std::alloc::{AllocError, Global};

/// The trees of a refusal, and what was said of it so far.
#[derive(Drop)]
pub(crate) struct OverlayNotes<'t> {
    pub alloc: Global,
    pub base: &'t Tree,
    pub overlay: &'t Tree,
    pub subject: Vec<u8>,
    pub notes: Vec<Note>,
}

/// What the subject of a refusal is.
pub(crate) fn kind_of(error: OverlayError) -> Subject {
    match error {
        OverlayError::NoTarget {
            fault: TargetFault::NoNode,
            ..
        } => Subject::Path,
        OverlayError::UnknownSymbol { .. } => Subject::Label,
        OverlayError::BadFixup {
            entry: FixupEntry::Text(_),
            ..
        } => Subject::Label,
        _ => Subject::Nothing,
    }
}

impl<'t> OverlayNotes<'t> {
    /// Says all that a refusal tells.
    pub fn add(&mut self, error: OverlayError) -> Result<(), AllocError> {
        match error {
            OverlayError::NoMemory => Ok(()),
            OverlayError::NotOverlay => {
                self.add_words("no child of the root has a child `__overlay__`")
            }
            OverlayError::NoTarget { fragment, fault } => self.add_no_target(fragment, fault),
            OverlayError::UnknownSymbol { entry, site, fault } => {
                self.add_unknown_symbol(entry, site, fault)
            }
            OverlayError::BadFixup { entry, fault } => match entry {
                FixupEntry::Text(place) => self.add_text(place, fault),
                FixupEntry::Cell(place) => self.add_cell(place, fault),
            },
            OverlayError::PhandleOverflow {
                place,
                phandle,
                shift,
            } => self.add_overflow(place, phandle, shift),
            OverlayError::PhandleClash(Clash::Same { property, other }) => {
                self.add_same(property, other)
            }
            OverlayError::PhandleClash(Clash::Second { property, target }) => {
                self.add_second(property, target)
            }
            OverlayError::TooDeep { node, target } => self.add_too_deep(node, target),
        }
    }

    fn add_words(&mut self, words: &'static str) -> Result<(), AllocError> {
        self.notes.push(Note::Words(words))?;
        Ok(())
    }

    fn add_node(&mut self, words: &'static str, path: &[u8]) -> Result<(), AllocError> {
        self.notes.push(Note::Node {
            words,
            path: copied(self.alloc, path)?,
        })?;
        Ok(())
    }

    fn add_property(&mut self, place: &PropertyPlace<'_>) -> Result<(), AllocError> {
        let name = place.property.name.as_bytes();
        self.notes.push(Note::In {
            path: copied(self.alloc, place.owner.path.as_slice())?,
            property: Some(copied(self.alloc, name)?),
        })?;
        Ok(())
    }

    // What the fragment targets that a node lies in.
    fn add_target(&mut self, path: &[u8]) -> Result<(), AllocError> {
        match target_round(self.overlay, path) {
            Some(Target::Label(label)) => {
                self.add_node("its fragment targets the label ", label)
            }
            Some(Target::Path(path)) => self.add_node("its fragment targets ", path),
            None => Ok(()),
        }
    }

    fn add_no_target(&mut self, fragment: usize, fault: TargetFault) -> Result<(), AllocError> {
        let Some(place) = node_at(self.alloc, self.overlay, fragment)? else {
            return Ok(());
        };
        let property = match target_name(fault) {
            Some(name) => Some(copied(self.alloc, name)?),
            None => None,
        };
        self.notes.push(Note::In {
            path: place.path,
            property,
        })?;
        match fault {
            TargetFault::NoProperty => self.add_words("it has neither `target` nor `target-path`"),
            TargetFault::NoCell => self.add_words("a `target` has four bytes"),
            TargetFault::NoPath => self.add_words("a `target-path` is a path with a zero byte"),
            TargetFault::NoPhandle(phandle) => {
                self.notes.push(Note::Target(phandle))?;
                Ok(())
            }
            TargetFault::NoNode => {
                self.subject = copied(self.alloc, path_wanted(place.node))?;
                Ok(())
            }
        }
    }

    fn add_unknown_symbol(
        &mut self,
        entry: ValuePlace,
        site: ValuePlace,
        fault: SymbolFault,
    ) -> Result<(), AllocError> {
        if let Some(place) = property_at(self.alloc, self.overlay, site.property)? {
            self.add_property(&place)?;
            if place.property.name.as_bytes() != b"target".as_slice() {
                self.add_target(place.owner.path.as_slice())?;
            }
        }
        self.add_entry(entry)?;
        match fault {
            SymbolFault::NoSymbols => self.add_words(
                "the base has no `__symbols__`: it was compiled without `--symbols`",
            ),
            SymbolFault::NoSymbol => self.add_alike(),
            SymbolFault::NoPath => self.add_words("the base's symbol is no path with a zero byte"),
            SymbolFault::NoNode => self.add_words("the base's symbol leads to no node"),
            SymbolFault::NoPhandle => self.add_words(
                "the node of the base's symbol has no phandle",
            ),
        }
    }

    // The label of an entry of `__fixups__`, and its text.
    fn add_entry(&mut self, entry: ValuePlace) -> Result<(), AllocError> {
        let Some(place) = property_at(self.alloc, self.overlay, entry.property)? else {
            return Ok(());
        };
        self.subject = copied(self.alloc, place.property.name.as_bytes())?;
        let text = text_at(place.property.value.as_slice(), entry.byte);
        self.notes.push(Note::Fixup(copied(self.alloc, text)?))?;
        Ok(())
    }

    // The base's symbols that are spelled as the subject nearly is.
    fn add_alike(&mut self) -> Result<(), AllocError> {
        let mut symbols = Vec::new(self.alloc);
        if let Some(node) = self.base.root().child(b"__symbols__".as_slice()) {
            for property in node.properties() {
                symbols.push(property.name.as_bytes())?;
            }
        }
        let names = nearest(self.alloc, self.subject.as_slice(), symbols.as_slice())?;
        add_labels(&mut self.notes, names)
    }

    fn add_text(&mut self, entry: ValuePlace, fault: EntryFault) -> Result<(), AllocError> {
        let Some(place) = property_at(self.alloc, self.overlay, entry.property)? else {
            return Ok(());
        };
        self.add_property(&place)?;
        self.add_entry_unless(entry, fault, &place)?;
        self.add_words(entry_words(fault))
    }

    // The text of an entry, where the value has texts.
    fn add_entry_unless(
        &mut self,
        entry: ValuePlace,
        fault: EntryFault,
        place: &PropertyPlace<'_>,
    ) -> Result<(), AllocError> {
        if fault == EntryFault::NoTexts {
            self.subject = copied(self.alloc, place.property.name.as_bytes())?;
            return Ok(());
        }
        self.add_entry(entry)
    }

    fn add_cell(&mut self, entry: ValuePlace, fault: EntryFault) -> Result<(), AllocError> {
        let Some(place) = property_at(self.alloc, self.overlay, entry.property)? else {
            return Ok(());
        };
        self.add_property(&place)?;
        if fault != EntryFault::NoCells {
            let offset = cell_behind(place.property.value.as_slice(), entry.byte);
            self.notes.push(Note::Site(offset))?;
        }
        self.add_words(entry_words(fault))
    }

    fn add_overflow(
        &mut self,
        place: ValuePlace,
        phandle: u32,
        shift: usize,
    ) -> Result<(), AllocError> {
        if let Some(place) = property_at(self.alloc, self.overlay, place.property)? {
            self.add_property(&place)?;
            self.add_target(place.owner.path.as_slice())?;
        }
        self.notes.push(Note::Phandle(phandle))?;
        self.notes
            .push(Note::Shift(u32::try_from(shift).unwrap_or(u32::MAX)))?;
        Ok(())
    }

    fn add_same(&mut self, property: usize, other: usize) -> Result<(), AllocError> {
        let Some(place) = property_at(self.alloc, self.overlay, property)? else {
            return Ok(());
        };
        self.add_property(&place)?;
        self.add_target(place.owner.path.as_slice())?;
        if let Some(phandle) = phandle_in(place.property.value.as_slice()) {
            self.notes.push(Note::Phandle(phandle))?;
        }
        if let Some(other) = property_at(self.alloc, self.overlay, other)? {
            self.add_node("the other node is ", other.owner.path.as_slice())?;
        }
        Ok(())
    }

    fn add_second(&mut self, property: usize, target: usize) -> Result<(), AllocError> {
        let (Some(place), Some(target)) = (
            property_at(self.alloc, self.overlay, property)?,
            node_at(self.alloc, self.base, target)?,
        ) else {
            return Ok(());
        };
        self.add_property(&place)?;
        let path = place.owner.path.as_slice();
        self.add_target(path)?;
        let there = below_target(self.alloc, target.path.as_slice(), path)?;
        self.add_node("the node that has one is ", there.as_slice())?;
        if is_applied(self.alloc, self.base, there.as_slice(), place.owner.node) {
            self.add_words(
                "the base's node has properties and children of all these names: is it applied already?",
            )?;
        }
        Ok(())
    }

    fn add_too_deep(&mut self, node: usize, target: usize) -> Result<(), AllocError> {
        let (Some(place), Some(target)) = (
            node_at(self.alloc, self.overlay, node)?,
            node_at(self.alloc, self.base, target)?,
        ) else {
            return Ok(());
        };
        self.notes.push(Note::In {
            path: place.path,
            property: None,
        })?;
        self.add_node("its fragment targets ", target.path.as_slice())
    }
}

// The property that a fragment's target would be of.
fn target_name(fault: TargetFault) -> Option<&'static [u8]> {
    match fault {
        TargetFault::NoProperty => None,
        TargetFault::NoCell | TargetFault::NoPhandle(_) => Some(b"target".as_slice()),
        TargetFault::NoPath | TargetFault::NoNode => Some(b"target-path".as_slice()),
    }
}

// The path that a fragment targets.
fn path_wanted(fragment: &Node) -> &[u8] {
    match fragment.value(b"target-path".as_slice()) {
        Some(value) => ended_path(value.as_slice()).unwrap_or(&[]),
        None => &[],
    }
}

// The text from a byte of a value on, without its zero byte.
fn text_at(value: &[u8], byte: usize) -> &[u8] {
    let rest = value.get(byte..).unwrap_or(&[]);
    match rest.iter().position(|byte| *byte == 0) {
        Some(end) => rest.get(..end).unwrap_or(&[]),
        None => rest,
    }
}

// The cell from a byte of a value on.
fn cell_behind(value: &[u8], byte: usize) -> usize {
    match value.get(byte..byte.saturating_add(4)) {
        Some(cell) => cell_in(cell).unwrap_or(0) as usize,
        None => 0,
    }
}

// Whether a node of the overlay, which has more than a phandle, would stand over one of the base that has properties and children of
// all its names.
fn is_applied(alloc: Global, base: &Tree, path: &[u8], over: &Node) -> bool {
    let Ok(path) = Path::parse(alloc, path) else {
        return false;
    };
    let Some(there) = base.find(&path) else {
        return false;
    };
    (over.properties().len() > 1 || !over.children().is_empty())
        && over
            .properties()
            .iter()
            .all(|property| there.value(property.name.as_bytes()).is_some())
        && over
            .children()
            .iter()
            .all(|child| there.child(child.name_bytes()).is_some())
}

fn entry_words(fault: EntryFault) -> &'static str {
    match fault {
        EntryFault::NoCells => "local fixups are cells, an offset each",
        EntryFault::NoTexts => "fixups are texts, each with a zero byte",
        EntryFault::NoSite => "an entry is `PATH:PROPERTY:OFFSET`",
        EntryFault::NoNode => "the overlay has no such node",
        EntryFault::NoProperty => "the node has no such property",
        EntryFault::Outside => "four bytes don't lie there in the value",
        EntryFault::Reserved => "nothing is written into reserved nodes",
        EntryFault::Phandle => "nothing is written into a property `phandle`",
        EntryFault::Taken => "another entry is for one of these bytes",
    }
}
