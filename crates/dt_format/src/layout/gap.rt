//! The white space between two tokens of a line.
use crate::tokens::{Kind, Token};

/// What a token does in a statement.
#[derive(Clone, Copy, PartialEq, Eq, Debug)]
pub(crate) enum Sign {
    /// `{`
    Open,
    /// `}`
    Close,
    /// `;`
    End,
    Equals,
    /// `<` or `[`
    CellsOpen,
    /// `>` or `]`
    CellsClose,
    Comma,
    Other,
}

/// White space within a line.
#[derive(Clone, Copy, PartialEq, Eq, Debug)]
pub(crate) enum Gap {
    Nothing,
    Blank,
    AsWritten,
}

fn sign_of_byte(c: u8) -> Sign {
    match c {
        b'{' => Sign::Open,
        b'}' => Sign::Close,
        b';' => Sign::End,
        b'=' => Sign::Equals,
        b'<' | b'[' => Sign::CellsOpen,
        b'>' | b']' => Sign::CellsClose,
        b',' => Sign::Comma,
        _ => Sign::Other,
    }
}

/// What a token does in a statement.
pub(crate) fn sign_of(token: &Token) -> Sign {
    match token.bytes {
        [c] if !token.is_inside || token.kind == Kind::Mark => sign_of_byte(*c),
        _ => Sign::Other,
    }
}

// Whether a word is a label's, with its colon, or ends with a comma.
fn ends_part(token: &Token) -> bool {
    token.kind == Kind::Word
        && !token.is_inside
        && matches!(token.bytes.last(), Some(b':') | Some(b','))
}

// The white space behind a token that has one of its own, whatever follows.
fn gap_behind(previous: &Token) -> Option<Gap> {
    match sign_of(previous) {
        Sign::Equals | Sign::CellsClose | Sign::Comma => Some(Gap::Blank),
        Sign::CellsOpen => Some(Gap::Nothing),
        _ if ends_part(previous) => Some(Gap::Blank),
        _ => None,
    }
}

// The white space where the tokens leave it to the author: between cells as it is, elsewhere one blank or nothing.
fn gap_as_written(token: &Token, in_cells: bool) -> Gap {
    if in_cells {
        Gap::AsWritten
    } else if token.before.is_empty() {
        Gap::Nothing
    } else {
        Gap::Blank
    }
}

/// The white space before a token that stands on the line of the one before it.
pub(crate) fn gap_between(previous: &Token, token: &Token, in_cells: bool) -> Gap {
    if token.is_inside && token.kind != Kind::Mark {
        return Gap::AsWritten;
    }
    match sign_of(token) {
        Sign::End | Sign::Comma | Sign::CellsClose => Gap::Nothing,
        Sign::Open | Sign::Equals => Gap::Blank,
        Sign::Close | Sign::CellsOpen | Sign::Other => {
            gap_behind(previous).unwrap_or(gap_as_written(token, in_cells))
        }
    }
}
