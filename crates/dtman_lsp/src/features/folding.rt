//! What can be folded (Language Server Protocol 3.17, "Folding Range Request").

use crate::features::asked::{Asked, Texts};
use crate::library::Source;
use crate::ports::Files;
use crate::writing::{Out, put_number, put_string};
use dt_outline::{Fold, FoldKind};
use std::alloc::AllocError;

/// Puts the folds of a text that go over several lines.
pub(crate) fn put_folds<F: Files>(
    texts: &mut Texts<'_, F>,
    asked: &Asked<'_>,
    out: &mut Out,
) -> Result<(), AllocError> {
    out.begin_array()?;
    if let Some(source) = texts.library.get(asked.number) {
        for fold in &source.outline.folds {
            put_fold(source, *fold, out)?;
        }
    }
    out.end_array()
}

fn put_fold(source: &Source, fold: Fold, out: &mut Out) -> Result<(), AllocError> {
    let text = source.text.as_slice();
    let start = source.lines.place(text, fold.span.start).line;
    let last = source.lines.place(text, fold.span.end).line;
    // a group ends before the directive that ends it
    let end = match fold.kind {
        FoldKind::Group => last.saturating_sub(1),
        _ => last,
    };
    if start >= end {
        return Ok(());
    }
    out.begin_object()?;
    put_number(out, "startLine", start)?;
    put_number(out, "endLine", end)?;
    match fold.kind {
        FoldKind::Comment => put_string(out, "kind", "comment")?,
        FoldKind::Group => put_string(out, "kind", "region")?,
        FoldKind::Node => {}
    }
    out.end_object()
}
