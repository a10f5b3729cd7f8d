//! The lexemes of a text.
ghost use Rattle.std.specs.Prelude.{◌≡◌, ◌≤◌, List, ℕ, IfOk, Err};
ghost use Rattle.dt_text.specs.declared.lexeme.lexeme.Lexeme.{Lexeme};
ghost use Rattle.dt_text.specs.declared.lexeme.lexeme.RefusalKind.TheVariants.{Syntax};
ghost use Rattle.dt_text.specs.declared.lexeme.lexeme.ReadError.TheVariants.{Refused};
ghost use Rattle.dt_text.specs.Lexeme.Families.{Longest, kind_of};
ghost use Rattle.dt_text.specs.Lexeme.Lexemes.{Lexemes, HasNone, IsStop, Scanned};
ghost use Rattle.dt_text.specs.Lexeme.Limits.{text_limit};
ghost use Rattle.dt_text.specs.Lexeme.Order.{OneList, LexemesAreInOrder};
ghost use Rattle.dt_text.specs.Lexeme.Forms.{LexemesAreLawful};
ghost use Rattle.std.specs.Prelude.{length};
ghost use Rattle.dt_text.specs.declared.lexeme.lexeme.Refusal.{Refusal};

use crate::lexeme::bytes::from;
use crate::lexeme::context::Context;
use crate::lexeme::families::{family, first_at};
use crate::lexeme::gaps::skip_gap;
use crate::lexeme::language::Language;
use crate::lexeme::lexeme::{Kind, Lexeme, ReadError, Refusal, RefusalKind};
use std::alloc::{AllocError, Global};

// The longest lexeme that can stand at the front.
fn next(context: Context, s: &[u8]) -> Option<(Kind, usize)>
    ensures { Longest (kind_of context) s.now result }
{
    match s {
        [] => None,
        [c, ..] => match family(first_at(context, *c), from(s, 1)) {
            Some((kind, n)) => Some((kind, n + 1)),
            None => None,
        },
    }
}

/// The lexemes of the text in this language, or those up to the place where it breaks off, and that place.
pub fn scan_front(
    alloc: Global,
    text: &[u8],
    language: Language,
) -> Result<(Vec<Lexeme>, Option<u32>), AllocError>
    requires { length text.now ≤ text_limit }
    ensures { IfOk result (λ r. Scanned language text.now r.0.items r.1) }
{
    let mut found = Vec::new(alloc);
    let mut context = Context::start(language);
    let mut left = text;
    'lexemes: loop {
        let s = match skip_gap(context.language, left) {
            Ok(s) => s,
            Err(s) => return Ok((found, Some((text.len() - s.len()) as u32))),
        };
        if s.is_empty() {
            return Ok((found, None));
        }
        let start = text.len() - s.len();
        let Some((kind, n)) = next(context, s) else {
            return Ok((found, Some(start as u32)));
        };
        found.push(Lexeme {
            kind,
            start: start as u32,
            end: (start + n) as u32,
        })?;
        context = context.step(kind);
        left = from(s, n);
    }
}

/// The lexemes of the text in this language, or the place where it breaks off.
pub fn scan(alloc: Global, text: &[u8], language: Language) -> Result<Vec<Lexeme>, ReadError>
    requires { length text.now ≤ text_limit }
    // What is found are the text's lexemes.
    ensures found { IfOk result (λ v. Lexemes language text.now v.items) }
    // The text is refused only where it has none.
    ensures only { (r : Refusal) → result ≡ Err (Refused r) → HasNone language text.now }
    // Its place is where the text breaks off.
    ensures place { (r : Refusal) → result ≡ Err (Refused r) → IsStop language text.now r.place }
    ensures syntax { (r : Refusal) → result ≡ Err (Refused r) → r.kind ≡ Syntax }
{
    match scan_front(alloc, text, language)? {
        (lexemes, None) => Ok(lexemes),
        (_, Some(place)) => Err(ReadError::Refused(Refusal {
            kind: RefusalKind::Syntax,
            place,
        })),
    }
}

/// A text has one list of lexemes at most.
pub fn one_list()
    ensures { OneList }
{}

/// A text's lexemes stand one behind the other, each with a byte or more.
pub fn lexemes_are_in_order()
    ensures { LexemesAreInOrder }
{}

/// Names, labels, references and paths among a text's lexemes are those of the standard.
pub fn lexemes_are_lawful()
    ensures { LexemesAreLawful }
{}
