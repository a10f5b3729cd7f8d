//! What stands before a name in a body.
ghost use Rattle.std.specs.Prelude.{◌≡◌, ◌≤◌, length, map, IfOk};
ghost use Rattle.dt_source.specs.Marks.{is_mark, is_omission, labels_in, omits};
ghost use Rattle.dt_source.specs.Reading.Bodies.{marks_at};
ghost use Rattle.dt_source.specs.Tree.{labels_view};
ghost use Rattle.dt_source.specs.Words.{label_bytes};

use crate::labels::{Labels, label_text};
use crate::pieces::is_label;
use dt_text::lexeme::{Kind, Lexeme};
use std::alloc::{AllocError, Global};

fn is_mark(kind: Kind) -> bool
    ensures { result ≡ is_mark kind }
{
    match kind {
        Kind::Label | Kind::OmitIfNoRef => true,
        _ => false,
    }
}

fn is_omission(kind: Kind) -> bool
    ensures { result ≡ is_omission kind }
{
    match kind {
        Kind::OmitIfNoRef => true,
        _ => false,
    }
}

/// The labels and `/omit-if-no-ref/` at the front, and what follows them.
pub(crate) fn marks(ts: &[Lexeme]) -> (&[Lexeme], &[Lexeme])
    ensures gives { (result.0.now, result.1.now) ≡ marks_at ts.now }
    ensures shorter { length result.1.now ≤ length ts.now }
{
    for (i, t) in ts.iter().enumerate() {
        if !is_mark(t.kind) {
            return ts.split_at(i);
        }
    }
    ts.split_at(ts.len())
}

/// Whether `/omit-if-no-ref/` is among the marks.
pub(crate) fn omits(marks: &[Lexeme]) -> bool
    ensures { result ≡ omits marks.now }
{
    for mark in marks {
        if is_omission(mark.kind) {
            return true;
        }
    }
    false
}

/// The labels among the marks.
pub(crate) fn labels_among<'text>(
    alloc: Global,
    text: &'text [u8],
    marks: &[Lexeme],
) -> Result<Labels<'text>, AllocError>
    ensures { IfOk result (λ l. labels_view l ≡ map (label_bytes text.now) (labels_in marks.now)) }
{
    let mut list = Vec::new(alloc);
    for mark in marks {
        if is_label(mark.kind) {
            list.push(label_text(text, *mark))?;
        }
    }
    list.shrink_to_fit();
    Labels::new(alloc, list)
}
