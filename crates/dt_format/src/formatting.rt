//! A text laid out, with its tokens.

use crate::layout::{BraceFault, LayoutError, laid_out};
use crate::refusal::{FormatError, Refusal, RefusalKind};
use crate::style::Style;
use crate::tokens::{has_same_tokens, tokens_of};
use std::alloc::Global;

// What a fault of a brace is told as.
fn kind_of(fault: BraceFault) -> RefusalKind {
    match fault {
        BraceFault::Open => RefusalKind::OpenBrace,
        BraceFault::Stray => RefusalKind::StrayBrace,
        BraceFault::TooDeep => RefusalKind::TooDeep,
    }
}

// What a fault of a layout is told as.
fn refused(error: LayoutError) -> FormatError {
    match error {
        LayoutError::Braces(fault, place) => FormatError::Refused(Refusal {
            kind: kind_of(fault),
            place,
        }),
        LayoutError::NoMemory => FormatError::NoMemory,
    }
}

// What was made, if it has the text's tokens.
fn compared(style: Style, text: &[u8], made: Vec<u8>) -> Result<Vec<u8>, FormatError> {
    if has_same_tokens(style.hex, text, made.as_slice()) {
        Ok(made)
    } else {
        Err(FormatError::Refused(Refusal {
            kind: RefusalKind::Changed,
            place: 0,
        }))
    }
}

/// A devicetree source, as its author wrote it, in the kernel's style
/// (Linux, Documentation/devicetree/bindings/dts-coding-style.rst): other white space alone, and hex numbers spelled as the style asks.
/// What is made is read again and compared with the text, token by token, and refused where it differs. A text with a comment, a
/// string, a character literal or a path that has no end is refused, and one whose braces don't pair or are deeper than 64; nothing is
/// made then.
pub fn formatted(alloc: Global, text: &[u8], style: Style) -> Result<Vec<u8>, FormatError> {
    let tokens = tokens_of(alloc, text)?;
    match laid_out(alloc, &tokens, style) {
        Ok(made) => compared(style, text, made),
        Err(error) => Err(refused(error)),
    }
}
