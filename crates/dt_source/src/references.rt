//! References: what they name, and where they can't stand.
ghost use Rattle.std.specs.Prelude.{◌≡◌};
ghost use Rattle.dt_source.specs.Tree.{target_view};
ghost use Rattle.dt_source.specs.Pieces.{target_of, reference_fault};

use crate::string::bytes_between;
use crate::tree::Reference;
use dt_text::expression::Width;
use dt_text::lexeme::fronts::path_of;
use dt_text::lexeme::{Fault, FaultKind, Kind, Lexeme};

/// What a reference names.
pub(crate) fn target(text: &[u8], l: Lexeme) -> Reference<'_>
    ensures { target_view result ≡ target_of text.now l }
{
    match l.kind {
        Kind::PathReference => Reference::Path {
            at: l.start,
            path: path_of(bytes_between(
                text,
                l.start as usize + 2,
                (l.end as usize).saturating_sub(1),
            )),
        },
        _ => Reference::Label {
            at: l.start,
            label: bytes_between(text, l.start as usize + 1, l.end as usize),
        },
    }
}

/// A reference stands in cells of 32 bits alone.
pub(crate) fn reference_fault(width: Width, l: Lexeme) -> Option<Fault>
    ensures { result ≡ reference_fault width l }
{
    match width {
        Width::ThirtyTwo => None,
        _ => Some(Fault {
            kind: FaultKind::BadBits,
            place: l.start,
        }),
    }
}
