//! Another name for a label, everywhere (Language Server Protocol 3.17, "Rename Request").

use crate::features::asked::{Asked, Name, Named, Texts};
use crate::features::definitions::label_spans;
use crate::library::Library;
use crate::message::text_at;
use crate::ports::Files;
use crate::writing::{Out, Page, Refusal, put_range, put_string};
use dt_outline::{Span, is_name};
use std::alloc::{AllocError, Global};

/// The label at a position.
fn label_of<F: Files>(texts: &Texts<'_, F>, asked: &Asked<'_>) -> Option<Name> {
    texts.name(asked).filter(|name| name.kind == Named::Label)
}

/// Puts the range of the label at a position, or null where none is.
pub(crate) fn put_renamed<F: Files>(
    texts: &mut Texts<'_, F>,
    asked: &Asked<'_>,
    out: &mut Out,
) -> Result<(), AllocError> {
    match (label_of(texts, asked), texts.library.get(asked.number)) {
        (Some(name), Some(source)) => put_range(out, source.page(), name.span),
        _ => out.null(),
    }
}

/// Puts the edits that give the label at a position another name, in all texts that have it.
pub(crate) fn put_edits<F: Files>(
    texts: &mut Texts<'_, F>,
    asked: &Asked<'_>,
    out: &mut Out,
) -> Result<Option<Refusal>, AllocError> {
    let (Some(name), Some(new)) = (label_of(texts, asked), text_at(asked.params, "/newName")) else {
        return Ok(Some(Refusal::Params));
    };
    if !is_name(new.as_bytes()) {
        return Ok(Some(Refusal::Params));
    }
    let word = texts.word(asked, name)?;
    let scope = texts.scope(asked.number)?;
    out.begin_object()?;
    out.key("changes")?;
    out.begin_object()?;
    for number in &scope {
        put_changes(
            texts.alloc,
            &*texts.library,
            *number,
            word.as_slice(),
            new,
            out,
        )?;
    }
    out.end_object()?;
    out.end_object()?;
    Ok(None)
}

/// Puts the edits of a text, where it has the label.
fn put_changes(
    alloc: Global,
    library: &Library,
    number: usize,
    word: &[u8],
    new: &str,
    out: &mut Out,
) -> Result<(), AllocError> {
    let Some(source) = library.get(number) else {
        return Ok(());
    };
    let spans = label_spans(alloc, source, word)?;
    if spans.is_empty() {
        return Ok(());
    }
    let uri = library.uri(number)?;
    out.key(uri.as_str())?;
    out.begin_array()?;
    for span in &spans {
        put_edit(source.page(), *span, new, out)?;
    }
    out.end_array()
}

fn put_edit(page: Page<'_>, span: Span, new: &str, out: &mut Out) -> Result<(), AllocError> {
    out.begin_object()?;
    out.key("range")?;
    put_range(out, page, span)?;
    put_string(out, "newText", new)?;
    out.end_object()
}
