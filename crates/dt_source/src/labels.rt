//! The labels of a node.
ghost use Rattle.std.specs.Prelude.{◌≡◌, map, IfOk};
ghost use Rattle.dt_source.specs.Words.{label_bytes};
ghost use Rattle.dt_source.specs.Tree.{labels_view};

use crate::string::bytes_between;
use dt_text::lexeme::Lexeme;
use std::alloc::{AllocError, Global};

/// Labels in the order of the text, without their colons. They take two words, since most nodes have none and a text
/// can have 8 million statements.
#[derive(Drop)]
pub struct Labels<'a> {
    some: Option<Box<Vec<&'a [u8]>>>,
}

impl<'a> Labels<'a> {
    /// The labels of a list.
    pub fn new(alloc: Global, labels: Vec<&'a [u8]>) -> Result<Self, AllocError>
        ensures { IfOk result (λ l. labels_view l ≡ map (λ v. v.now) labels.entry.items) }
    {
        if labels.is_empty() {
            return Ok(Self { some: None });
        }
        let some = Box::new(alloc, labels)?;
        Ok(Self { some: Some(some) })
    }

    /// The labels as a list.
    pub fn as_slice(&self) -> &[&'a [u8]]
        ensures { map (λ v. v.now) result.now ≡ labels_view self.now }
    {
        match &self.some {
            None => &[],
            Some(labels) => labels.as_slice(),
        }
    }
}

/// What a label is in the text, without its colon.
pub(crate) fn label_text(text: &[u8], l: Lexeme) -> &[u8]
    ensures { result.now ≡ label_bytes text.now l }
{
    bytes_between(text, l.start as usize, (l.end as usize).saturating_sub(1))
}

/// The labels that these lexemes are.
pub(crate) fn labels_of<'text>(
    alloc: Global,
    text: &'text [u8],
    labels: &[Lexeme],
) -> Result<Labels<'text>, AllocError>
    ensures { IfOk result (λ l. labels_view l ≡ map (label_bytes text.now) labels.now) }
{
    let mut list = Vec::with_capacity(alloc, labels.len())?;
    for label in labels {
        list.push(label_text(text, *label))?;
    }
    Labels::new(alloc, list)
}
