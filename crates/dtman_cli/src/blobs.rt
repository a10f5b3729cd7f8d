//! Commands that make blobs, or read them: `compile`, `overlay`, `dump`.

use crate::labelling::labelled_bytes;
use crate::performing::Answer;
use crate::preprocessing::prepared;
use dtman_engine::{Fault, dump_bytes, overlay_bytes};
use dtman_host::{
    Failure, Given, Host, Inputs, Made, Manner, Surroundings, dependency_rule, dtc_made, file_of,
    first_read, profile_blob,
};
use dtman_words::{Language, Preprocessing};
use std::alloc::Global;

/// How a source is to be compiled, and where its blob is to stand.
#[derive(Drop)]
pub struct Compiling<'a> {
    pub out: &'a str,
    pub symbols: bool,
    pub language: Language<'a>,
    pub preprocessing: Preprocessing<'a>,
    /// Where the rule of make is to stand that names what was read.
    pub depfile: Option<&'a str>,
}

/// The blob of a source, which goes through the preprocessor first where that is wanted.
pub fn compiled<'a, S: Surroundings, E: Eprint, T>(
    host: &mut Host<'_, S, E, T>,
    source: &'a str,
    asked: &Compiling<'a>,
) -> Result<Answer<'a>, Failure<'a>> {
    let text = host.source(source)?;
    let mut found = files_of(host.alloc, source)?;
    let preprocessing = &asked.preprocessing;
    let bytes = match prepared(host, source, text.as_slice(), preprocessing, &mut found)? {
        Some(prepared) => preprocessed_blob(host, asked, file_of(source, &prepared), &mut found)?,
        None => blob_in(host, asked, file_of(source, &text), &mut found)?,
    };
    answer_with(host.alloc, asked, bytes, found.as_slice())
}

// The files that were read, of which the source is the first; standard input is none.
fn files_of(alloc: Global, source: &str) -> Result<Vec<Vec<u8>>, Failure<'static>> {
    if source == "-" {
        return Ok(Vec::new(alloc));
    }
    match first_read(alloc, source) {
        Ok(files) => Ok(files),
        Err(_) => Err(Failure::Refused(Fault::no_memory())),
    }
}

// The blob, with the rule of make where that is asked for.
fn answer_with<'a>(
    alloc: Global,
    asked: &Compiling<'a>,
    bytes: Vec<u8>,
    found: &[Vec<u8>],
) -> Result<Answer<'a>, Failure<'a>> {
    let path = asked.out;
    let Some(depfile) = asked.depfile else {
        return Ok(Answer::File { path, bytes });
    };
    match dependency_rule(alloc, path, found) {
        Ok(rule) => Ok(Answer::Ruled {
            depfile,
            rule,
            path,
            bytes,
        }),
        Err(_) => Err(Failure::Refused(Fault::no_memory())),
    }
}

// The blob of a source that was preprocessed, which is in dtc's language.
fn preprocessed_blob<'a, S: Surroundings, E: Eprint, T>(
    host: &mut Host<'_, S, E, T>,
    asked: &Compiling<'_>,
    text: Given<'_>,
    found: &mut Vec<Vec<u8>>,
) -> Result<Vec<u8>, Failure<'a>> {
    match &asked.language {
        Language::Profile => dtc_blob(host, asked.symbols, &[], text, found),
        Language::Dtc { folders } => {
            dtc_blob(host, asked.symbols, folders.as_slice(), text, found)
        }
    }
}

// The blob of a source in the language that is asked for.
fn blob_in<'a, S: Surroundings, E: Eprint, T>(
    host: &mut Host<'_, S, E, T>,
    asked: &Compiling<'_>,
    text: Given<'_>,
    found: &mut Vec<Vec<u8>>,
) -> Result<Vec<u8>, Failure<'a>> {
    match &asked.language {
        Language::Profile => {
            let hasher = host.seed()?;
            let manner = Manner {
                symbols: asked.symbols,
                detail: host.detail,
            };
            profile_blob(host.alloc, hasher, text, manner)
        }
        Language::Dtc { folders } => {
            dtc_blob(host, asked.symbols, folders.as_slice(), text, found)
        }
    }
}

// The blob of a source in dtc's language.
fn dtc_blob<'a, S: Surroundings, E: Eprint, T>(
    host: &mut Host<'_, S, E, T>,
    symbols: bool,
    folders: &[&str],
    text: Given<'_>,
    found: &mut Vec<Vec<u8>>,
) -> Result<Vec<u8>, Failure<'a>> {
    let hasher = host.seed()?;
    let manner = Manner {
        symbols,
        detail: host.detail,
    };
    let Made { compiled, .. } = dtc_made(
        host.alloc,
        hasher,
        host.surroundings,
        folders,
        found,
        text,
        manner,
    )?;
    Ok(compiled.blob)
}

/// The blob of a base with an overlay applied.
pub fn overlaid<'a, S: Surroundings, E: Eprint, T>(
    host: &mut Host<'_, S, E, T>,
    base_path: &'a str,
    overlay_path: &'a str,
    out: &'a str,
) -> Result<Answer<'a>, Failure<'a>> {
    let base = host.blob(base_path)?;
    let overlay = host.blob(overlay_path)?;
    let hasher = host.seed()?;
    let (base, overlay) = (file_of(base_path, &base), file_of(overlay_path, &overlay));
    match overlay_bytes(host.alloc, hasher, base.bytes, overlay.bytes) {
        Ok(bytes) => Ok(Answer::File { path: out, bytes }),
        Err(fault) => Err(host.refusal(fault, Inputs::Overlay { base, overlay })),
    }
}

/// The canonical source of a blob, or the one with labels.
pub fn dumped<'a, S: Surroundings, E: Eprint, T>(
    host: &mut Host<'_, S, E, T>,
    path: &'a str,
    labels: bool,
) -> Result<Answer<'a>, Failure<'a>> {
    let blob = host.blob(path)?;
    let text = if labels {
        let hasher = host.seed()?;
        labelled_bytes(host.alloc, hasher, blob.as_slice())
    } else {
        dump_bytes(host.alloc, blob.as_slice())
    };
    match text {
        Ok(text) => Ok(Answer::Text(text)),
        Err(fault) => Err(host.refusal(fault, Inputs::Blob(file_of(path, &blob)))),
    }
}
