//! Which words of a source name what is edited.
//!
//! dtc's manual (Documentation/dts-format.txt) says what stands in a source.

use dt_text::include::Span;
use dt_text::lexeme::{Kind, Lexeme};

/// Whether these bytes of a source name the node that a body extends, or that is deleted or omitted. dtc looks for that as it reads, so
/// what isn't there is wrong in the words of the source; what a value refers to it looks for when the tree is there.
pub(crate) fn names_edited(lexemes: &[Lexeme], bytes: Span) -> bool {
    let mut before = None;
    let mut is_named = false;
    for lexeme in lexemes {
        if is_named {
            return lexeme.kind == Kind::Brace;
        }
        if lexeme.start as usize == bytes.start && is_reference(lexeme.kind) {
            if takes_away(before) {
                return true;
            }
            is_named = true;
        }
        before = Some(lexeme.kind);
    }
    false
}

fn is_reference(kind: Kind) -> bool {
    matches!(kind, Kind::Reference | Kind::PathReference)
}

fn takes_away(kind: Option<Kind>) -> bool {
    matches!(kind, Some(Kind::DeleteNode | Kind::OmitIfNoRef))
}
