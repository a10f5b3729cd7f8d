//! Places in the values of an overlay.

/// A byte of a property's value. Properties are counted from 0 in the order in which the overlay is read.
#[derive(Debug, Clone, Copy, PartialEq, Eq, Drop)]
pub struct ValuePlace {
    pub property: usize,
    pub byte: usize,
}

/// What names a site, by its first byte: a text in a value of `__fixups__`, or a cell in a value below `__local_fixups__`.
#[derive(Debug, Clone, Copy, PartialEq, Eq, Drop)]
pub enum FixupEntry {
    Text(ValuePlace),
    Cell(ValuePlace),
}
