//! How a value is written on a command line: as texts, or as numbers of a width.
ghost use Rattle.dtman_blobs.specs.Width.{IsWidth};

/// How many bytes a number has.
#[derive(Clone, Copy, Debug, PartialEq, Eq)]
pub enum Width {
    Byte,
    Half,
    Cell,
}

impl Width {
    /// So many.
    pub fn bytes(self) -> usize
        ensures { IsWidth result }
    {
        match self {
            Width::Byte => 1,
            Width::Half => 2,
            Width::Cell => 4,
        }
    }
}

/// How what a value holds is written.
#[derive(Clone, Copy, Debug, PartialEq, Eq)]
pub enum Notation {
    Text,
    Signed,
    Unsigned,
    Hex,
}

/// What a word such as `s`, `bx` or `lu` says; what it leaves out is taken from the value.
#[derive(Clone, Copy, Debug, PartialEq, Eq)]
pub struct ValueType {
    pub width: Option<Width>,
    pub notation: Option<Notation>,
}

// The width that a word begins with, and what is behind it.
fn split_width(word: &[u8]) -> (Option<Width>, &[u8]) {
    match word {
        [b'h', b'h', rest @ ..] => (Some(Width::Byte), rest),
        [b'b', rest @ ..] => (Some(Width::Byte), rest),
        [b'h', rest @ ..] => (Some(Width::Half), rest),
        [b'l', rest @ ..] => (Some(Width::Cell), rest),
        _ => (None, word),
    }
}

fn notation_of(letter: u8) -> Option<Notation> {
    match letter {
        b's' => Some(Notation::Text),
        b'i' => Some(Notation::Signed),
        b'u' => Some(Notation::Unsigned),
        b'x' => Some(Notation::Hex),
        _ => None,
    }
}

impl ValueType {
    /// Nothing said.
    pub fn unsaid() -> ValueType {
        ValueType {
            width: None,
            notation: None,
        }
    }

    /// What a word says: `hh` or `b`, `h` or `l` for the width, if that is said, and then `s`, `i`, `u` or `x`.
    pub fn of(word: &str) -> Option<ValueType> {
        let (width, rest) = split_width(word.as_bytes());
        let [letter] = rest else {
            return None;
        };
        let notation = notation_of(*letter)?;
        Some(ValueType {
            width,
            notation: Some(notation),
        })
    }
}
