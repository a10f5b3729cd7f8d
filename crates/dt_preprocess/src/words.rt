//! Words: each spelling once, by its number, with its kind and the macro that it names.

use crate::lexing::bytes::{is_digit, is_letter};
use crate::lexing::lexeme::closed_len;
use crate::refusal::{Fault, Place, Reason};
use indexmap::IndexMap;
use std::alloc::{AllocError, Global};
use std::hash::RandomState;

/// The most bytes of text in all.
pub(crate) const MAX_TEXT: usize = 1 << 26;

/// Kinds of tokens (C11, 6.4), so far as the preprocessor tells them apart.
#[derive(Clone, Copy, PartialEq, Eq)]
pub(crate) enum Kind {
    /// no token: an empty argument beside `##`
    Empty,
    Name,
    /// a name that is refused
    Special,
    Number,
    /// a string or a character that is closed on its line
    Quoted,
    /// `<F>` behind `#include`
    Header,
    Hash,
    Paste,
    Open,
    Close,
    Comma,
    Dots,
    /// all else
    Mark,
}

/// A word's kind, and the number of the macro that it names.
#[derive(Clone, Copy, Drop)]
struct Word {
    kind: Kind,
    meaning: Option<usize>,
}

/// All words by their numbers, with how many bytes were made of others.
#[derive(Drop)]
pub(crate) struct Words {
    alloc: Global,
    entries: IndexMap<Vec<u8>, Word, RandomState>,
    made: usize,
}

fn is_refused(name: &[u8]) -> bool {
    matches!(
        name,
        b"__FILE__"
            | b"__LINE__"
            | b"__COUNTER__"
            | b"__INCLUDE_LEVEL__"
            | b"__BASE_FILE__"
            | b"__DATE__"
            | b"__TIME__"
            | b"__TIMESTAMP__"
            | b"_Pragma"
            | b"__VA_OPT__"
    ) || name.starts_with(b"__has_")
}

fn mark_kind(word: &[u8]) -> Kind {
    match word {
        b"#" => Kind::Hash,
        b"##" => Kind::Paste,
        b"(" => Kind::Open,
        b")" => Kind::Close,
        b"," => Kind::Comma,
        b"..." => Kind::Dots,
        _ => Kind::Mark,
    }
}

fn is_number(word: &[u8]) -> bool {
    match word {
        [b'.', c, ..] => is_digit(*c),
        [c, ..] => is_digit(*c),
        [] => false,
    }
}

/// The kind of a token by its spelling.
fn kind_of(word: &[u8]) -> Kind {
    let Some(first) = word.first() else {
        return Kind::Empty;
    };
    if is_letter(*first) {
        return if is_refused(word) {
            Kind::Special
        } else {
            Kind::Name
        };
    }
    if is_number(word) {
        return Kind::Number;
    }
    if (*first == b'"' || *first == b'\'') && closed_len(word, *first) == Some(word.len()) {
        return Kind::Quoted;
    }
    mark_kind(word)
}

impl Words {
    /// Only the empty word, which is word 0.
    pub(crate) fn new(alloc: Global, hasher: RandomState) -> Result<Self, AllocError> {
        let mut words = Words {
            alloc,
            entries: IndexMap::with_hasher(alloc, hasher),
            made: 0,
        };
        words.intern(b"")?;
        Ok(words)
    }

    pub(crate) fn alloc(&self) -> Global {
        self.alloc
    }

    /// The number of a word.
    pub(crate) fn intern(&mut self, text: &[u8]) -> Result<usize, AllocError> {
        if let Some(word) = self.entries.get_index_of(text) {
            return Ok(word);
        }
        let number = self.entries.len();
        let word = Word {
            kind: kind_of(text),
            meaning: None,
        };
        self.entries
            .insert(Vec::from_slice(self.alloc, text)?, word)?;
        Ok(number)
    }

    /// The number of a word that is made of others, which together come to 64 MiB at most.
    pub(crate) fn make(&mut self, text: &[u8], place: Place) -> Result<usize, Fault> {
        self.made = self.made.saturating_add(text.len());
        if self.made > MAX_TEXT {
            return Err(Fault::bare(Reason::TooLong, place));
        }
        Ok(self.intern(text)?)
    }

    pub(crate) fn text(&self, word: usize) -> &[u8] {
        match self.entries.get_index(word) {
            Some((text, _)) => text.as_slice(),
            None => b"",
        }
    }

    pub(crate) fn kind(&self, word: usize) -> Kind {
        match self.entries.get_index(word) {
            Some((_, entry)) => entry.kind,
            None => Kind::Empty,
        }
    }

    /// The number of the macro that a word names.
    pub(crate) fn meaning(&self, word: usize) -> Option<usize> {
        let (_, entry) = self.entries.get_index(word)?;
        entry.meaning
    }

    /// Has a word name a macro, or none.
    pub(crate) fn define(&mut self, word: usize, meaning: Option<usize>) {
        if let Some(entry) = self.entries.get_index_mut(word) {
            entry.meaning = meaning;
        }
    }
}
