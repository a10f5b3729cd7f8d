//! What is asked for.

/// How hex numbers are spelled.
#[derive(Clone, Copy, PartialEq, Eq, Debug)]
pub enum Hex {
    AsWritten,
    /// with the letters a to f and x
    Lower,
}

/// What is asked for beside white space.
#[derive(Clone, Copy, PartialEq, Eq, Debug)]
pub struct Style {
    pub hex: Hex,
}
