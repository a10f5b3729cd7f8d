//! A source as its author wrote it: through the C preprocessor where it wants that.

use crate::performing::Answer;
use dt_preprocess::{Headers, Refusal, Request, has_directive, preprocess};
use dtman_diagnosis::{Diagnosis, Location, Subject, copied};
use dtman_engine::{Fault, MAX_SOURCE_LEN};
use dtman_host::{Detail, Failure, Host, Sought, Surroundings, file_at, named, refusal};
use dtman_words::{Choice, Definitions, Preprocessing};
use std::alloc::{AllocError, Global};
use std::hash::RandomState;

/// The text that the preprocessor makes of a source, or nothing where it isn't wanted: a text that was cut, as it is too long for a
/// source, isn't either. The paths of the headers that are read are added to those that were found.
pub fn prepared<'a, S: Surroundings, E: Eprint, T>(
    host: &mut Host<'_, S, E, T>,
    path: &'a str,
    text: &[u8],
    preprocessing: &Preprocessing<'_>,
    found: &mut Vec<Vec<u8>>,
) -> Result<Option<Vec<u8>>, Failure<'a>> {
    if text.len() > MAX_SOURCE_LEN || !is_wanted(preprocessing, text) {
        return Ok(None);
    }
    let definitions = &preprocessing.definitions;
    Ok(Some(preprocessed(host, path, text, definitions, found)?))
}

/// What the preprocessor makes of a source, for standard output.
pub fn printed<'a, S: Surroundings, E: Eprint, T>(
    host: &mut Host<'_, S, E, T>,
    path: &'a str,
    definitions: &Definitions<'_>,
) -> Result<Answer<'a>, Failure<'a>> {
    let text = host.whole_source(path)?;
    let mut found = Vec::new(host.alloc);
    let made = preprocessed(host, path, text.as_slice(), definitions, &mut found)?;
    Ok(Answer::Text(made))
}

fn is_wanted(preprocessing: &Preprocessing<'_>, text: &[u8]) -> bool {
    match preprocessing.choice {
        Choice::Never => false,
        Choice::Always => true,
        Choice::AsNeeded => has_any(&preprocessing.definitions) || has_directive(text),
    }
}

fn has_any(definitions: &Definitions<'_>) -> bool {
    !definitions.folders.is_empty()
        || !definitions.defines.is_empty()
        || !definitions.preincluded.is_empty()
}

fn preprocessed<'a, S: Surroundings, E: Eprint, T>(
    host: &mut Host<'_, S, E, T>,
    path: &'a str,
    text: &[u8],
    definitions: &Definitions<'_>,
    found: &mut Vec<Vec<u8>>,
) -> Result<Vec<u8>, Failure<'a>> {
    let hasher = host.seed()?;
    let request = Request {
        path: named(path).as_bytes(),
        text,
        folders: definitions.folders.as_slice(),
        defines: definitions.defines.as_slice(),
        preincluded: definitions.preincluded.as_slice(),
    };
    match text_of(host.alloc, hasher, host.surroundings, found, &request) {
        Ok(text) => Ok(text),
        Err(refused) => Err(told(host, path, text, refused)),
    }
}

fn text_of<S: Surroundings>(
    alloc: Global,
    hasher: RandomState,
    surroundings: &mut S,
    found: &mut Vec<Vec<u8>>,
    request: &Request<'_>,
) -> Result<Vec<u8>, Refusal> {
    let mut files = Opened {
        surroundings,
        found,
        is_broken: false,
    };
    match preprocess(alloc, hasher, &mut files, request) {
        Ok(preprocessed) => Ok(preprocessed.text),
        Err(refused) => Err(refused),
    }
}

/// The files of the surroundings.
struct Opened<'s, S> {
    surroundings: &'s mut S,
    /// The paths of the headers that were read.
    found: &'s mut Vec<Vec<u8>>,
    /// A header was there and couldn't be read to its end: no other is taken in its place.
    is_broken: bool,
}

impl<S: Surroundings> Headers for Opened<'_, S> {
    fn open(&mut self, alloc: Global, path: &[u8]) -> Result<Option<Vec<u8>>, AllocError> {
        if self.is_broken {
            return Ok(None);
        }
        match file_at(alloc, self.surroundings, path)? {
            Sought::Read(bytes) => {
                self.found.push(copied(alloc, path)?)?;
                Ok(Some(bytes))
            }
            Sought::Missing => Ok(None),
            Sought::Broken => {
                self.is_broken = true;
                Ok(None)
            }
        }
    }
}

impl<S> Drop for Opened<'_, S> {
    fn drop(self) {
        let Opened {
            surroundings: _,
            found: _,
            is_broken: _,
        } = self;
    }
}

// Without its place nobody could mend it, so that is told also where no detail is asked for.
fn told<'a, S: Surroundings, E: Eprint, T>(
    host: &mut Host<'_, S, E, T>,
    path: &str,
    text: &[u8],
    refused: Refusal,
) -> Failure<'a> {
    let detail = match host.detail {
        Detail::Json => Detail::Json,
        _ => Detail::Verbose,
    };
    let fault = Fault::from(refused.reason);
    let diagnosis = diagnosis_of(host, path, text, fault.number, refused);
    refusal(host.alloc, detail, fault, diagnosis)
}

fn diagnosis_of<S: Surroundings, E: Eprint, T>(
    host: &mut Host<'_, S, E, T>,
    path: &str,
    text: &[u8],
    number: u8,
    refused: Refusal,
) -> Result<Diagnosis, AllocError> {
    let alloc = host.alloc;
    let Refusal {
        path: file,
        line,
        column,
        word,
        ..
    } = refused;
    let text = if file.as_slice() == named(path).as_bytes() {
        line_in(alloc, text, line)?
    } else {
        match file_at(alloc, host.surroundings, file.as_slice())? {
            Sought::Read(bytes) => line_in(alloc, bytes.as_slice(), line)?,
            Sought::Missing | Sought::Broken => Vec::new(alloc),
        }
    };
    let marked = marked_in(text.as_slice(), column, word.as_slice());
    Ok(Diagnosis {
        number,
        location: Location::Text {
            file,
            line,
            column,
            text,
            marked,
        },
        kind: if word.is_empty() {
            Subject::Nothing
        } else {
            Subject::Word
        },
        subject: word,
        notes: Vec::new(alloc),
    })
}

// The text of a line, counted from 1.
fn line_in(alloc: Global, text: &[u8], line: usize) -> Result<Vec<u8>, AllocError> {
    let found = text
        .split(|byte| *byte == b'\n')
        .nth(line.saturating_sub(1));
    copied(alloc, found.unwrap_or(&[]))
}

// How many bytes of a line are meant: the word's where it stands there, else one.
fn marked_in(line: &[u8], column: usize, word: &[u8]) -> usize {
    let rest = line.get(column.saturating_sub(1)..).unwrap_or(&[]);
    if rest.starts_with(word) && !word.is_empty() {
        word.len()
    } else {
        1
    }
}
