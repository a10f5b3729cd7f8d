//! Which text and which name of it a request is about.

use crate::address::path_of;
use crate::library::{Library, Search, Source};
use crate::message::{place_in, text_at};
use crate::ports::Files;
use dt_outline::{Kind, Span, Token, is_name, text_of, token_at};
use serde_json::Value;
use std::alloc::{AllocError, Global};

/// The texts that are known, and where others are found.
pub(crate) struct Texts<'s, F> {
    pub alloc: Global,
    pub library: &'s mut Library,
    pub files: &'s mut F,
    pub folders: &'s [&'s str],
}

impl<F> Drop for Texts<'_, F> {
    fn drop(self) {
        let Texts {
            alloc: _,
            library: _,
            files: _,
            folders: _,
        } = self;
    }
}

/// What a request is about.
pub(crate) struct Asked<'v> {
    /// The number of its text.
    pub number: usize,
    /// The byte at its position, 0 where it has none.
    pub place: usize,
    pub params: &'v Value,
}

impl Drop for Asked<'_> {
    fn drop(self) {
        let Asked {
            number: _,
            place: _,
            params: _,
        } = self;
    }
}

/// What a name is.
#[derive(Clone, Copy, PartialEq, Eq, Debug)]
pub(crate) enum Named {
    Label,
    Macro,
    /// The file that `#include` or `/include/` names.
    File,
}

/// A name in a text.
#[derive(Clone, Copy)]
pub(crate) struct Name {
    pub kind: Named,
    pub span: Span,
}

/// What a token names.
fn name_in(text: &[u8], token: Token) -> Option<Name> {
    let Span { start, end } = token.span;
    let name = match token.kind {
        Kind::Label => Name {
            kind: Named::Label,
            span: Span {
                start,
                end: end.saturating_sub(1),
            },
        },
        Kind::Reference => Name {
            kind: Named::Label,
            span: Span {
                start: start.saturating_add(1),
                end,
            },
        },
        Kind::Word => Name {
            kind: Named::Macro,
            span: token.span,
        },
        Kind::Text | Kind::Header => Name {
            kind: Named::File,
            span: token.span,
        },
        _ => return None,
    };
    if name.kind != Named::File && !is_name(text_of(text, name.span)) {
        return None;
    }
    Some(name)
}

/// The name at a place of a text.
pub(crate) fn name_at(source: &Source, place: usize) -> Option<Name> {
    let text = source.text.as_slice();
    name_in(text, token_at(text, place)?)
}

impl<F: Files> Texts<'_, F> {
    /// What a request is about; none where it names no text that is known.
    pub(crate) fn asked<'v>(
        &mut self,
        message: &'v Value,
    ) -> Result<Option<Asked<'v>>, AllocError> {
        let (Some(params), Some(uri)) = (
            message.get("params"),
            text_at(message, "/params/textDocument/uri"),
        ) else {
            return Ok(None);
        };
        let path = path_of(self.alloc, uri)?;
        let Some(number) = self.library.load(self.files, path.as_slice())? else {
            return Ok(None);
        };
        Ok(Some(Asked {
            number,
            place: self.place_of(number, params),
            params,
        }))
    }

    fn place_of(&self, number: usize, params: &Value) -> usize {
        let (Some(source), Some(position)) = (self.library.get(number), params.get("position"))
        else {
            return 0;
        };
        match place_in(position) {
            Some(place) => source.lines.offset(source.text.as_slice(), place),
            None => 0,
        }
    }

    /// The texts among which a name of a text is looked for.
    pub(crate) fn scope(&mut self, number: usize) -> Result<Vec<usize>, AllocError> {
        let mut search = Search {
            alloc: self.alloc,
            files: &mut *self.files,
            folders: self.folders,
        };
        search.scope(&mut *self.library, number)
    }

    /// The name that a request is about, as its text has it.
    pub(crate) fn name(&self, asked: &Asked<'_>) -> Option<Name> {
        name_at(self.library.get(asked.number)?, asked.place)
    }

    /// The bytes of a name.
    pub(crate) fn word(&self, asked: &Asked<'_>, name: Name) -> Result<Vec<u8>, AllocError> {
        match self.library.get(asked.number) {
            Some(source) => Vec::from_slice(self.alloc, source.bytes(name.span)),
            None => Ok(Vec::new(self.alloc)),
        }
    }
}
