//! Where a name is defined, and where it is referred to (Language Server Protocol 3.17, "Goto Definition Request", "Find References
//! Request").

use crate::features::asked::{Asked, Name, Named, Texts};
use crate::library::{Library, Search, Source};
use crate::ports::Files;
use crate::writing::{Out, put_location};
use dt_outline::{Header, Kind, Lexer, Span, text_of};
use serde_json::Value;
use std::alloc::{AllocError, Global};

/// Which places of a name count.
#[derive(Clone, Copy)]
struct Places {
    definitions: bool,
    references: bool,
}

/// Puts where the name at a position is defined.
pub(crate) fn put_definitions<F: Files>(
    texts: &mut Texts<'_, F>,
    asked: &Asked<'_>,
    out: &mut Out,
) -> Result<(), AllocError> {
    let Some(name) = texts.name(asked) else {
        return out.null();
    };
    if name.kind == Named::File {
        return put_file(texts, asked, name, out);
    }
    put_all(
        texts,
        asked,
        name,
        Places {
            definitions: true,
            references: false,
        },
        out,
    )
}

/// Puts where the name at a position is referred to, with its definitions where they are asked for.
pub(crate) fn put_references<F: Files>(
    texts: &mut Texts<'_, F>,
    asked: &Asked<'_>,
    out: &mut Out,
) -> Result<(), AllocError> {
    let definitions = asked
        .params
        .pointer("/context/includeDeclaration")
        .and_then(Value::as_bool)
        .unwrap_or(false);
    match texts.name(asked) {
        Some(name) if name.kind != Named::File => put_all(
            texts,
            asked,
            name,
            Places {
                definitions,
                references: true,
            },
            out,
        ),
        _ => out.null(),
    }
}

/// The header that a token names.
pub(crate) fn header_at(source: &Source, span: Span) -> Option<Header> {
    let headers = source.outline.headers.as_slice();
    let header = headers.iter().find(|header| {
        span.start <= header.name.start && header.name.end <= span.end
    })?;
    Some(*header)
}

/// Puts the first byte of a file that is taken in.
fn put_file<F: Files>(
    texts: &mut Texts<'_, F>,
    asked: &Asked<'_>,
    name: Name,
    out: &mut Out,
) -> Result<(), AllocError> {
    let header = match texts.library.get(asked.number) {
        Some(source) => header_at(source, name.span),
        None => None,
    };
    let Some(header) = header else {
        return out.null();
    };
    let mut search = Search {
        alloc: texts.alloc,
        files: &mut *texts.files,
        folders: texts.folders,
    };
    match search.header(&mut *texts.library, asked.number, header)? {
        Some(found) => put_span(&*texts.library, found, Span { start: 0, end: 0 }, out),
        None => out.null(),
    }
}

/// Puts bytes of a text.
fn put_span(library: &Library, number: usize, span: Span, out: &mut Out) -> Result<(), AllocError> {
    let uri = library.uri(number)?;
    match library.get(number) {
        Some(source) => put_location(out, uri.as_str(), source.page(), span),
        None => out.null(),
    }
}

fn put_all<F: Files>(
    texts: &mut Texts<'_, F>,
    asked: &Asked<'_>,
    name: Name,
    places: Places,
    out: &mut Out,
) -> Result<(), AllocError> {
    let word = texts.word(asked, name)?;
    let scope = texts.scope(asked.number)?;
    out.begin_array()?;
    for number in &scope {
        put_in(
            texts.alloc,
            &*texts.library,
            *number,
            name.kind,
            word.as_slice(),
            places,
            out,
        )?;
    }
    out.end_array()
}

/// Puts the places of a name in a text.
fn put_in(
    alloc: Global,
    library: &Library,
    number: usize,
    kind: Named,
    word: &[u8],
    places: Places,
    out: &mut Out,
) -> Result<(), AllocError> {
    let Some(source) = library.get(number) else {
        return Ok(());
    };
    let spans = spans_of(alloc, source, kind, word, places)?;
    if spans.is_empty() {
        return Ok(());
    }
    let uri = library.uri(number)?;
    for span in &spans {
        put_location(out, uri.as_str(), source.page(), *span)?;
    }
    Ok(())
}

/// Where a text has a name.
fn spans_of(
    alloc: Global,
    source: &Source,
    kind: Named,
    word: &[u8],
    places: Places,
) -> Result<Vec<Span>, AllocError> {
    let mut spans = Vec::new(alloc);
    match kind {
        Named::Label => {
            if places.definitions {
                add_labels(source, word, &mut spans)?;
            }
            if places.references {
                add_references(source, word, &mut spans)?;
            }
        }
        Named::Macro if places.references => add_words(source, word, places, &mut spans)?,
        Named::Macro => add_macros(source, word, &mut spans)?,
        Named::File => {}
    }
    Ok(spans)
}

/// Every place of a label in a text: where it is defined and where it is referred to.
pub(crate) fn label_spans(
    alloc: Global,
    source: &Source,
    word: &[u8],
) -> Result<Vec<Span>, AllocError> {
    let everywhere = Places {
        definitions: true,
        references: true,
    };
    spans_of(alloc, source, Named::Label, word, everywhere)
}

fn add_labels(source: &Source, word: &[u8], spans: &mut Vec<Span>) -> Result<(), AllocError> {
    for label in &source.outline.labels {
        if source.bytes(label.name) == word {
            spans.push(label.name)?;
        }
    }
    Ok(())
}

fn add_references(source: &Source, word: &[u8], spans: &mut Vec<Span>) -> Result<(), AllocError> {
    for reference in &source.outline.references {
        if source.bytes(reference.name) == word {
            spans.push(reference.name)?;
        }
    }
    Ok(())
}

fn add_macros(source: &Source, word: &[u8], spans: &mut Vec<Span>) -> Result<(), AllocError> {
    for defined in &source.outline.macros {
        if source.bytes(defined.name) == word {
            spans.push(defined.name)?;
        }
    }
    Ok(())
}

fn is_definition(source: &Source, span: Span) -> bool {
    source
        .outline
        .macros
        .as_slice()
        .binary_search_by(|defined| defined.name.start.cmp(&span.start))
        .is_ok()
}

/// Adds the words of a text that are a macro's name.
fn add_words(
    source: &Source,
    word: &[u8],
    places: Places,
    spans: &mut Vec<Span>,
) -> Result<(), AllocError> {
    let text = source.text.as_slice();
    let mut lexer = Lexer::new(text);
    for _ in 0..=text.len().saturating_add(1) {
        let Some(token) = lexer.next_token() else {
            break;
        };
        if token.kind != Kind::Word || text_of(text, token.span) != word {
            continue;
        }
        if places.definitions || !is_definition(source, token.span) {
            spans.push(token.span)?;
        }
    }
    Ok(())
}
