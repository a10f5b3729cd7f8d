//! The words that begin the tokens of the structure block.

pub(crate) const BEGIN_NODE_WORD: u32 = 1;

pub(crate) const END_NODE_WORD: u32 = 2;

pub(crate) const PROPERTY_WORD: u32 = 3;

pub(crate) const NOP_WORD: u32 = 4;

pub(crate) const END_WORD: u32 = 9;
