//! What is told of a name (Language Server Protocol 3.17, "Hover Request"): of a label the path of its node, of a macro its definition.

use crate::features::asked::{Asked, Name, Named, Texts};
use crate::library::{Library, Source, push_path};
use crate::ports::Files;
use crate::writing::{Out, put_range, put_string};
use dt_outline::{Macro, Span};
use std::alloc::{AllocError, Global};
use std::str;

/// How much of a macro is shown, in bytes.
const SHOWN: usize = 2000;

/// Puts what is told of the name at a position.
pub(crate) fn put_hover<F: Files>(
    texts: &mut Texts<'_, F>,
    asked: &Asked<'_>,
    out: &mut Out,
) -> Result<(), AllocError> {
    let Some(name) = texts.name(asked) else {
        return out.null();
    };
    let word = texts.word(asked, name)?;
    let scope = texts.scope(asked.number)?;
    let library = &*texts.library;
    let told = told_of(
        texts.alloc,
        library,
        scope.as_slice(),
        name,
        word.as_slice(),
    )?;
    match (told, library.get(asked.number)) {
        (Some(told), Some(source)) => put_told(source, name.span, told.as_str(), out),
        _ => out.null(),
    }
}

fn put_told(source: &Source, span: Span, told: &str, out: &mut Out) -> Result<(), AllocError> {
    out.begin_object()?;
    out.key("contents")?;
    out.begin_object()?;
    put_string(out, "kind", "markdown")?;
    put_string(out, "value", told)?;
    out.end_object()?;
    out.key("range")?;
    put_range(out, source.page(), span)?;
    out.end_object()
}

fn told_of(
    alloc: Global,
    library: &Library,
    scope: &[usize],
    name: Name,
    word: &[u8],
) -> Result<Option<String>, AllocError> {
    match name.kind {
        Named::Label => label_told(alloc, library, scope, word),
        Named::Macro => macro_told(alloc, library, scope, word),
        Named::File => Ok(None),
    }
}

/// Puts bytes, where they are text.
fn push_bytes(told: &mut String, bytes: &[u8]) -> Result<(), AllocError> {
    told.push_str(str::from_utf8(bytes).unwrap_or(""))
}

/// Puts the file and the line of bytes.
fn push_site(told: &mut String, source: &Source, span: Span) -> Result<(), AllocError> {
    let line = source
        .lines
        .place(source.text.as_slice(), span.start)
        .line
        .saturating_add(1);
    told.push_str("\n\n")?;
    push_bytes(told, source.path.as_slice())?;
    write!(told, ":{line}")
}

/// The paths of the nodes that a label names, each with its place.
fn label_told(
    alloc: Global,
    library: &Library,
    scope: &[usize],
    word: &[u8],
) -> Result<Option<String>, AllocError> {
    let mut told = String::new(alloc);
    for number in scope {
        push_labels(alloc, library, scope, *number, word, &mut told)?;
    }
    Ok(if told.is_empty() { None } else { Some(told) })
}

fn push_labels(
    alloc: Global,
    library: &Library,
    scope: &[usize],
    number: usize,
    word: &[u8],
    told: &mut String,
) -> Result<(), AllocError> {
    let Some(source) = library.get(number) else {
        return Ok(());
    };
    for label in &source.outline.labels {
        let Some(node) = label.node else {
            continue;
        };
        if source.bytes(label.name) != word {
            continue;
        }
        let mut path = Vec::new(alloc);
        push_path(library, scope, &mut path, number, node)?;
        told.push_str(if told.is_empty() { "`" } else { "\n\n`" })?;
        push_bytes(told, path.as_slice())?;
        told.push_str("`")?;
        push_site(told, source, label.name)?;
    }
    Ok(())
}

/// The definitions of a macro, each with its place.
fn macro_told(
    alloc: Global,
    library: &Library,
    scope: &[usize],
    word: &[u8],
) -> Result<Option<String>, AllocError> {
    let mut told = String::new(alloc);
    for number in scope {
        if let Some(source) = library.get(*number) {
            push_macros(source, word, &mut told)?;
        }
    }
    Ok(if told.is_empty() { None } else { Some(told) })
}

fn push_macros(source: &Source, word: &[u8], told: &mut String) -> Result<(), AllocError> {
    for defined in &source.outline.macros {
        if source.bytes(defined.name) == word {
            push_macro(source, *defined, told)?;
        }
    }
    Ok(())
}

fn push_macro(source: &Source, defined: Macro, told: &mut String) -> Result<(), AllocError> {
    let whole = source.bytes(defined.whole);
    if !told.is_empty() {
        told.push_str("\n\n")?;
    }
    told.push_str("```c\n#define ")?;
    push_bytes(told, whole.get(..SHOWN).unwrap_or(whole).trim_ascii_end())?;
    told.push_str("\n```")?;
    push_site(told, source, defined.name)
}
