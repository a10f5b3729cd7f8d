//! Cells.
use dt_text::lexeme::{Fault, Lexeme};

/// What stands between `<` and `>`: an element with the place of its first byte and its value, a reference, or a
/// label, which is dropped.
#[derive(Clone, Copy)]
pub enum Cell {
    Element {
        place: u32,
        value: Result<u64, Fault>,
    },
    Reference(Lexeme),
    Label,
}
