//! What patterns are made of.
use crate::byte_set::ByteSet;

/// A part of a pattern. Parts are named by their places, and stand before what is made of them.
#[derive(Clone, Copy, Debug)]
pub enum Piece {
    Empty,
    /// One byte of a set.
    Set(ByteSet),
    /// The text's start.
    Start,
    /// The text's end, or a line feed that ends it.
    End,
    /// The bytes of the pattern from one place to another don't stand before.
    NotBehind { from: usize, to: usize },
    Both(usize, usize),
    Either(usize, usize),
    Star(usize),
    Maybe(usize),
}

/// A pattern.
#[derive(Drop)]
pub struct Pattern<'p> {
    pub(crate) source: &'p [u8],
    pub(crate) pieces: Vec<Piece>,
    /// The piece that follows each; the number of pieces where the pattern ends.
    pub(crate) next: Vec<usize>,
    pub(crate) root: usize,
    /// Whether it begins at the text's start alone.
    pub(crate) is_anchored: bool,
    /// The byte with which each text begins that it fits, where that is one.
    pub(crate) first: Option<u8>,
}

impl<'p> Pattern<'p> {
    /// The text that it was made of.
    pub fn source(&self) -> &'p [u8] {
        self.source
    }
}
