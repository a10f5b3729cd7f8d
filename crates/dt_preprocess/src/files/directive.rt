//! Directives (C11, 6.10): a line that begins with `#` and one of their words, or with `#` alone. Any other line is text.

use crate::token::Token;
use crate::words::{Kind, Words};

#[derive(Clone, Copy, PartialEq, Eq)]
pub(crate) enum Directive {
    /// `#` alone
    Null,
    Include,
    Define,
    Undef,
    If,
    Ifdef,
    Ifndef,
    Elif,
    Else,
    Endif,
    Error,
    Warning,
    /// one that is refused
    Unserved,
}

fn named(word: &[u8]) -> Option<Directive> {
    match word {
        b"include" => Some(Directive::Include),
        b"define" => Some(Directive::Define),
        b"undef" => Some(Directive::Undef),
        b"if" => Some(Directive::If),
        b"ifdef" => Some(Directive::Ifdef),
        b"ifndef" => Some(Directive::Ifndef),
        b"elif" => Some(Directive::Elif),
        b"else" => Some(Directive::Else),
        b"endif" => Some(Directive::Endif),
        b"error" => Some(Directive::Error),
        b"warning" => Some(Directive::Warning),
        b"line"
        | b"pragma"
        | b"include_next"
        | b"import"
        | b"ident"
        | b"sccs"
        | b"assert"
        | b"unassert"
        | b"elifdef"
        | b"elifndef" => Some(Directive::Unserved),
        _ => None,
    }
}

impl Directive {
    /// Whether it counts in a group that is skipped, too.
    pub(crate) fn is_conditional(self) -> bool {
        matches!(
            self,
            Directive::If
                | Directive::Ifdef
                | Directive::Ifndef
                | Directive::Elif
                | Directive::Else
                | Directive::Endif
        )
    }
}

/// The directive of a line, none where it is text.
pub(crate) fn directive_of(words: &Words, line: &[Token]) -> Option<Directive> {
    if line.first()?.kind != Kind::Hash {
        return None;
    }
    match line.get(1) {
        Some(name) => named(words.text(name.word)),
        None => Some(Directive::Null),
    }
}

/// Whether a line is a directive.
pub(crate) fn names_directive(words: &Words, line: &[Token]) -> bool {
    directive_of(words, line).is_some()
}
