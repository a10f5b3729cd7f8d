//! What may be written at a place (Language Server Protocol 3.17, "Completion Request"): labels behind `&`, macros in values, and
//! elsewhere names of properties that the text or one that it takes in has.

use crate::features::asked::{Asked, Texts};
use crate::library::{Library, Source};
use crate::ports::Files;
use crate::writing::{Out, put_bytes, put_number};
use dt_outline::{Span, Wanted, text_of, writing_at};
use std::alloc::{AllocError, Global};
use std::collections::BTreeSet;

/// The most names that are offered.
const MAX_ITEMS: usize = 10_000;

/// `CompletionItemKind`: Reference, Constant and Property.
fn kind_of(wanted: Wanted) -> usize {
    match wanted {
        Wanted::Label => 18,
        Wanted::Macro => 21,
        Wanted::Name | Wanted::Nothing => 10,
    }
}

/// What is being written, and what of it stands there.
#[derive(Drop)]
struct Begun {
    wanted: Wanted,
    prefix: Vec<u8>,
}

fn begun_at(alloc: Global, source: &Source, place: usize) -> Result<Begun, AllocError> {
    let front = source.text.get(..place).unwrap_or(b"");
    let writing = writing_at(alloc, front)?;
    Ok(Begun {
        wanted: writing.wanted,
        prefix: Vec::from_slice(alloc, text_of(front, writing.before))?,
    })
}

/// Puts the names that may stand at a position.
pub(crate) fn put_completions<F: Files>(
    texts: &mut Texts<'_, F>,
    asked: &Asked<'_>,
    out: &mut Out,
) -> Result<(), AllocError> {
    let begun = match texts.library.get(asked.number) {
        Some(source) => begun_at(texts.alloc, source, asked.place)?,
        None => return out.null(),
    };
    if begun.wanted == Wanted::Nothing {
        return out.null();
    }
    let scope = texts.scope(asked.number)?;
    let names = names_of(texts.alloc, &*texts.library, scope.as_slice(), &begun)?;
    put_names(&names, begun.wanted, out)
}

fn put_names(names: &BTreeSet<&[u8]>, wanted: Wanted, out: &mut Out) -> Result<(), AllocError> {
    out.begin_array()?;
    for name in names.iter().take(MAX_ITEMS) {
        out.begin_object()?;
        put_bytes(out, "label", *name)?;
        put_number(out, "kind", kind_of(wanted))?;
        out.end_object()?;
    }
    out.end_array()
}

/// The names that begin so, in order.
fn names_of<'l>(
    alloc: Global,
    library: &'l Library,
    scope: &[usize],
    begun: &Begun,
) -> Result<BTreeSet<&'l [u8]>, AllocError> {
    let mut names = BTreeSet::new(alloc);
    for number in scope {
        add_names(library, *number, begun, &mut names)?;
    }
    Ok(names)
}

fn add_names<'l>(
    library: &'l Library,
    number: usize,
    begun: &Begun,
    names: &mut BTreeSet<&'l [u8]>,
) -> Result<(), AllocError> {
    let Some(source) = library.get(number) else {
        return Ok(());
    };
    let text = source.text.as_slice();
    let outline = &source.outline;
    let prefix = begun.prefix.as_slice();
    match begun.wanted {
        Wanted::Label => {
            for label in &outline.labels {
                add(text, label.name, prefix, names)?;
            }
        }
        Wanted::Macro => {
            for defined in &outline.macros {
                add(text, defined.name, prefix, names)?;
            }
        }
        Wanted::Name => {
            for property in &outline.properties {
                add(text, property.name, prefix, names)?;
            }
        }
        Wanted::Nothing => {}
    }
    Ok(())
}

/// Adds a name that begins so and isn't all of that.
fn add<'l>(
    text: &'l [u8],
    span: Span,
    prefix: &[u8],
    names: &mut BTreeSet<&'l [u8]>,
) -> Result<(), AllocError> {
    let name = text_of(text, span);
    if name.len() > prefix.len() && name.starts_with(prefix) {
        names.insert(name)?;
    }
    Ok(())
}
