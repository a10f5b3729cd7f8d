//! Directives: macros, headers, and groups of lines.

use crate::lexing::bytes::{is_blank, text_of};
use crate::lexing::token::{Kind, Span, Token};
use crate::outlining::outline::{Fold, FoldKind, Header, Macro, Outline};
use std::alloc::{AllocError, Global};

/// What a directive does.
#[derive(Clone, Copy, PartialEq, Eq)]
pub(crate) enum Directive {
    None,
    Include,
    Define,
    Begins,
    GoesOn,
    Ends,
    Other,
}

/// Directives as they are read.
#[derive(Drop)]
pub(crate) struct Groups {
    pub directive: Directive,
    /// The first byte of the directive.
    start: usize,
    /// The name that `#define` gives.
    defined: Option<Span>,
    /// The first bytes of the groups that are open.
    opened: Vec<usize>,
}

fn directive_of(name: &[u8]) -> Directive {
    if name == b"include".as_slice() {
        Directive::Include
    } else if name == b"define".as_slice() {
        Directive::Define
    } else if name.starts_with(b"if") {
        Directive::Begins
    } else if name.starts_with(b"el") {
        Directive::GoesOn
    } else if name == b"endif".as_slice() {
        Directive::Ends
    } else {
        Directive::Other
    }
}

/// The name of a directive, without `#`.
fn name_of(token: &[u8]) -> &[u8] {
    let start = token
        .iter()
        .position(|c| *c != b'#' && !is_blank(*c))
        .unwrap_or(0);
    token.get(start..).unwrap_or(b"")
}

/// The file that a token names, without what stands around the name; `length` bytes at its end close it.
fn header_in(text: &[u8], token: Token) -> Header {
    let is_beside = token.kind == Kind::Text;
    let close = if is_beside { b'"' } else { b'>' };
    let Span { start, end } = token.span;
    let last = text_of(text, token.span).last().copied();
    let is_closed = last == Some(close) && end > start.saturating_add(1);
    let end = if is_closed {
        end.saturating_sub(1)
    } else {
        end
    };
    Header {
        name: Span {
            start: start.saturating_add(1),
            end,
        },
        is_beside,
    }
}

/// Takes the file that a token names.
pub(crate) fn add_header(
    outline: &mut Outline,
    text: &[u8],
    token: Token,
) -> Result<(), AllocError> {
    outline.headers.push(header_in(text, token))?;
    Ok(())
}

impl Groups {
    pub(crate) fn new(alloc: Global) -> Groups {
        Groups {
            directive: Directive::None,
            start: 0,
            defined: None,
            opened: Vec::new(alloc),
        }
    }

    /// A directive begins.
    pub(crate) fn begin(
        &mut self,
        outline: &mut Outline,
        text: &[u8],
        token: Token,
    ) -> Result<(), AllocError> {
        self.directive = directive_of(name_of(text_of(text, token.span)));
        self.start = token.span.start;
        self.defined = None;
        match self.directive {
            Directive::Begins => self.opened.push(self.start)?,
            Directive::GoesOn => {
                self.close(outline)?;
                self.opened.push(self.start)?;
            }
            Directive::Ends => self.close(outline)?,
            _ => {}
        }
        Ok(())
    }

    /// Ends the innermost group before the directive.
    fn close(&mut self, outline: &mut Outline) -> Result<(), AllocError> {
        if let Some(start) = self.opened.pop() {
            outline.folds.push(Fold {
                kind: FoldKind::Group,
                span: Span {
                    start,
                    end: self.start,
                },
            })?;
        }
        Ok(())
    }

    /// A token in a directive's line.
    pub(crate) fn take(
        &mut self,
        outline: &mut Outline,
        text: &[u8],
        token: Token,
    ) -> Result<(), AllocError> {
        match token.kind {
            Kind::Word if self.directive == Directive::Define && self.defined.is_none() => {
                self.defined = Some(token.span);
            }
            Kind::Text | Kind::Header if self.directive == Directive::Include => {
                add_header(outline, text, token)?;
            }
            _ => {}
        }
        Ok(())
    }

    /// A directive's line ends.
    pub(crate) fn end(&mut self, outline: &mut Outline, token: Token) -> Result<(), AllocError> {
        self.directive = Directive::None;
        if let Some(name) = self.defined.take() {
            outline.macros.push(Macro {
                name,
                whole: Span {
                    start: name.start,
                    end: token.span.start,
                },
            })?;
        }
        Ok(())
    }
}
