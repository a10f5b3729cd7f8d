//! Commands that read and write nodes and values of blobs: `diff`, `get`, `ls`, `set`.

use crate::performing::Answer;
use crate::trees::path_in;
use dt_blob::BlobError;
use dt_blob::query::QueryError;
use dtman_blobs::{
    AskError, DiffError, Sameness, ShowError, Titles, ValueType, diff_bytes, list_text, node_text,
    set_bytes, value_line,
};
use dtman_engine::{Fault, Position};
use dtman_host::{Failure, Given, Host, Inputs, REFUSED, Surroundings, file_of};

/// A node or a property that is asked for.
#[derive(Clone, Copy)]
pub struct Asked<'a> {
    pub blob: &'a str,
    pub path: &'a str,
    pub property: &'a str,
}

/// No node has the path that the command line names, or the node hasn't the property.
pub fn unknown_path() -> Fault {
    Fault {
        number: 53,
        name: "UnknownPath",
        position: Position::Nowhere,
        culprit: None,
    }
}

fn kind_of(word: Option<&str>) -> Result<ValueType, Failure<'_>> {
    let Some(word) = word else {
        return Ok(ValueType::unsaid());
    };
    match ValueType::of(word) {
        Some(kind) => Ok(kind),
        None => Err(Failure::BadWord(word, "no type of values has this name")),
    }
}

fn unshown(error: ShowError) -> &'static str {
    match error {
        ShowError::Unterminated => "the value has no zero byte behind it",
        _ => "the value is no whole numbers of this width",
    }
}

fn fault_of(error: QueryError) -> Fault {
    match error {
        QueryError::Blob(error) => Fault::from(error),
        QueryError::NoNode => unknown_path(),
        QueryError::NoProperty => unknown_path(),
    }
}

// Why nothing is found in a blob.
fn unfound<'a, S: Surroundings, E: Eprint, T>(
    host: &Host<'_, S, E, T>,
    blob: Given<'_>,
    asked: Asked<'_>,
    error: QueryError,
) -> Failure<'a> {
    let fault = match error {
        QueryError::Blob(error) => host.blob_fault(blob.bytes, error),
        QueryError::NoNode | QueryError::NoProperty => unknown_path(),
    };
    let inputs = Inputs::Node {
        blob,
        path: asked.path.as_bytes(),
        property: asked.property.as_bytes(),
    };
    host.refusal(fault, inputs)
}

// The refusal of one that is no blob.
fn no_blob<'a, S: Surroundings, E: Eprint, T>(
    host: &Host<'_, S, E, T>,
    blob: Given<'_>,
    error: BlobError,
) -> Failure<'a> {
    host.refusal(host.blob_fault(blob.bytes, error), Inputs::Blob(blob))
}

// Why a blob has no answer.
fn unanswered<'a>(asked: Asked<'a>, error: AskError<'a>) -> Failure<'a> {
    match error {
        AskError::Query(error) => Failure::Refused(fault_of(error)),
        AskError::Show(error) => Failure::BadWord(asked.property, unshown(error)),
        AskError::NoNumber(word) => Failure::BadWord(word, "no number of this width"),
        AskError::NoName => Failure::BadWord(asked.property, "no property can have this name"),
    }
}

/// What is the same to a comparison by which order counts, or doesn't.
pub fn sameness_of(order: bool) -> Sameness {
    if order {
        Sameness::InOrder
    } else {
        Sameness::Board
    }
}

/// What differs between two blobs.
pub fn compared<'a, S: Surroundings, E: Eprint, T>(
    host: &mut Host<'_, S, E, T>,
    first_path: &'a str,
    second_path: &'a str,
    sameness: Sameness,
) -> Result<Answer<'a>, Failure<'a>> {
    let first = host.blob(first_path)?;
    let second = host.blob(second_path)?;
    let hasher = host.seed()?;
    let titles = Titles {
        first: first_path,
        second: second_path,
    };
    let text = diff_bytes(
        host.alloc,
        hasher,
        titles,
        sameness,
        first.as_slice(),
        second.as_slice(),
    );
    match text {
        Ok(text) if text.is_empty() => Ok(Answer::Text(text)),
        Ok(text) => Ok(Answer::Failing {
            text,
            status: REFUSED,
        }),
        Err(DiffError::First(error)) => Err(no_blob(host, file_of(first_path, &first), error)),
        Err(DiffError::Second(error)) => Err(no_blob(host, file_of(second_path, &second), error)),
        Err(DiffError::Text(error)) => Err(Failure::Refused(Fault::from(error))),
    }
}

/// The value of a property, or all properties of a node.
pub fn valued<'a, S: Surroundings, E: Eprint, T>(
    host: &mut Host<'_, S, E, T>,
    blob_path: &'a str,
    path: &'a str,
    property: Option<&'a str>,
    kind: Option<&'a str>,
) -> Result<Answer<'a>, Failure<'a>> {
    let kind = kind_of(kind)?;
    let blob = host.blob(blob_path)?;
    let hasher = host.seed()?;
    let place = path_in(host.alloc, blob.as_slice(), path)?;
    let answer = match property {
        Some(name) => value_line(host.alloc, blob.as_slice(), place.as_str(), name, kind),
        None => node_text(host.alloc, hasher, blob.as_slice(), place.as_str()),
    };
    let asked = Asked {
        blob: blob_path,
        path,
        property: property.unwrap_or(path),
    };
    match answer {
        Ok(text) => Ok(Answer::Text(text)),
        Err(AskError::Query(error)) => {
            let asked = Asked {
                path: place.as_str(),
                ..asked
            };
            Err(unfound(host, file_of(blob_path, &blob), asked, error))
        }
        Err(error) => Err(unanswered(asked, error)),
    }
}

/// The names of what a node has.
pub fn listed<'a, S: Surroundings, E: Eprint, T>(
    host: &mut Host<'_, S, E, T>,
    blob_path: &'a str,
    path: Option<&'a str>,
) -> Result<Answer<'a>, Failure<'a>> {
    let path = path.unwrap_or("/");
    let blob = host.blob(blob_path)?;
    let asked = Asked {
        blob: blob_path,
        path,
        property: path,
    };
    let place = path_in(host.alloc, blob.as_slice(), path)?;
    match list_text(host.alloc, blob.as_slice(), place.as_str()) {
        Ok(text) => Ok(Answer::Text(text)),
        Err(AskError::Query(error)) => {
            let asked = Asked {
                path: place.as_str(),
                ..asked
            };
            Err(unfound(host, file_of(blob_path, &blob), asked, error))
        }
        Err(error) => Err(unanswered(asked, error)),
    }
}

/// A blob with a property set.
pub fn changed<'a, S: Surroundings, E: Eprint, T>(
    host: &mut Host<'_, S, E, T>,
    asked: Asked<'a>,
    words: &[&'a str],
    kind: Option<&'a str>,
    out: Option<&'a str>,
) -> Result<Answer<'a>, Failure<'a>> {
    let kind = kind_of(kind)?;
    let blob = host.blob(asked.blob)?;
    let hasher = host.seed()?;
    let place = path_in(host.alloc, blob.as_slice(), asked.path)?;
    let made = set_bytes(
        host.alloc,
        hasher,
        blob.as_slice(),
        place.as_str(),
        asked.property,
        kind,
        words,
    );
    match made {
        Ok(bytes) => Ok(Answer::File {
            path: out.unwrap_or(asked.blob),
            bytes,
        }),
        Err(AskError::Query(error)) => {
            let blob = file_of(asked.blob, &blob);
            let asked = Asked {
                path: place.as_str(),
                ..asked
            };
            Err(unfound(host, blob, asked, error))
        }
        Err(error) => Err(unanswered(asked, error)),
    }
}
