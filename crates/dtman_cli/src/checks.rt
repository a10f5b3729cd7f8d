//! The mistakes in sources and blobs: `check`.

use crate::failing::tell_failure;
use crate::performing::Answer;
use crate::preprocessing::prepared;
use bus_plan::PlanError;
use dt_blob::BlobError;
use dtman_check::table::{BadReference, CHECK_COUNT, Kind, Reference, Selection, check_at};
use dtman_check::{Asked, Learned, Shape};
use dtman_dtc::judged;
use dtman_engine::Fault;
use dtman_host::{
    Board, DONE, Detail, Failure, Given, Host, Inputs, Made, Manner, REFUSED, Surroundings,
    dtc_made, file_of, named, no_such,
};
use dtman_words::Inspection;
use dtman_words::dtc_options::{Format, format_of};
use std::alloc::{AllocError, Global};

/// The check that goes by what is known of boards.
const UNKNOWN_PROPERTY: &str = "unknown_property";

/// The lines of the mistakes in all inputs, in their order, or what these teach. A mistake that is an error is a failure once it is
/// printed.
pub fn checked<'a, S: Surroundings, E: Eprint, T>(
    host: &mut Host<'_, S, E, T>,
    inspection: &Inspection<'a>,
) -> Result<Answer<'a>, Failure<'a>> {
    if inspection.learn {
        return learned(host, inspection);
    }
    let selection = selection_of(host.alloc, inspection)?;
    let known = match inspection.known {
        Some(path) => host.text(path)?,
        None => Vec::new(host.alloc),
    };
    let reference = match Reference::read(host.alloc, known.as_slice()) {
        Ok(reference) => reference,
        Err(bad) => return Err(no_reference(host, inspection.known, known.as_slice(), bad)),
    };
    told_of_all(host, inspection, &selection, &reference)
}

// What the lines of all inputs come to.
#[derive(Drop)]
struct Lines {
    text: Vec<u8>,
    /// The greatest exit status that was met.
    status: u8,
}

impl Lines {
    fn meet(&mut self, status: u8) {
        self.status = self.status.max(status);
    }
}

fn told_of_all<'a, S: Surroundings, E: Eprint, T>(
    host: &mut Host<'_, S, E, T>,
    inspection: &Inspection<'a>,
    selection: &Selection,
    reference: &Reference<'_>,
) -> Result<Answer<'a>, Failure<'a>> {
    let mut lines = Lines {
        text: Vec::new(host.alloc),
        status: DONE,
    };
    for path in &inspection.inputs {
        if let Err(failure) = tell(host, inspection, selection, reference, *path, &mut lines) {
            let status = gone_on(host, inspection, *path, failure)?;
            lines.meet(status);
        }
    }
    let Lines { text, status } = lines;
    Ok(match status {
        DONE => Answer::Text(text),
        status => Answer::Failing { text, status },
    })
}

// Behind an input that is refused the others are checked, where there are any and memory isn't wanted: its failure is told with its path.
fn gone_on<'a, S: Surroundings, E: Eprint, T>(
    host: &mut Host<'_, S, E, T>,
    inspection: &Inspection<'a>,
    path: &'a str,
    failure: Failure<'a>,
) -> Result<u8, Failure<'a>> {
    if inspection.inputs.len() < 2 || wants_memory(&failure) {
        return Err(failure);
    }
    let failure = with_path(host.alloc, host.detail, failure, path);
    Ok(tell_failure(host, failure))
}

fn wants_memory(failure: &Failure<'_>) -> bool {
    match failure {
        Failure::Refused(fault) => fault.number == 0,
        _ => false,
    }
}

// A refusal that has one line, with the path that it is of.
fn with_path<'a>(alloc: Global, detail: Detail, failure: Failure<'a>, path: &str) -> Failure<'a> {
    match failure {
        Failure::Refused(fault) => of_path(alloc, detail, fault, path),
        failure => failure,
    }
}

fn of_path<'a>(alloc: Global, detail: Detail, fault: Fault, path: &str) -> Failure<'a> {
    if detail != Detail::Line {
        return Failure::Refused(fault);
    }
    match format!(in alloc; "{fault} {path}\n") {
        Ok(line) => Failure::Told(line),
        Err(_) => Failure::Refused(fault),
    }
}

// Adds the lines of an input.
fn tell<'a, S: Surroundings, E: Eprint, T>(
    host: &mut Host<'_, S, E, T>,
    inspection: &Inspection<'a>,
    selection: &Selection,
    reference: &Reference<'_>,
    path: &'a str,
    lines: &mut Lines,
) -> Result<(), Failure<'a>> {
    let subject = taken(host, inspection, path)?;
    let hasher = host.seed()?;
    let asked = Asked::of(named(subject.path).as_bytes(), reference).shaped(
        shape_of(host.detail, inspection),
        inspection.quiet as usize,
    );
    match judged(host.alloc, hasher, &subject.given, selection, asked) {
        Ok(answer) => {
            if answer.failed {
                lines.meet(REFUSED);
            }
            add(&mut lines.text, answer.text.as_slice())
        }
        Err(error) => Err(no_blob(host, &subject, error)),
    }
}

fn add(text: &mut Vec<u8>, more: &[u8]) -> Result<(), Failure<'static>> {
    match text.extend_from_slice(more) {
        Ok(()) => Ok(()),
        Err(_) => Err(Failure::Refused(Fault::no_memory())),
    }
}

fn shape_of(detail: Detail, inspection: &Inspection<'_>) -> Shape {
    if inspection.json || detail == Detail::Json {
        Shape::Json
    } else {
        Shape::Plain
    }
}

// ---- what is checked

#[derive(Drop)]
struct Subject<'a> {
    path: &'a str,
    given: Board,
}

fn taken<'a, S: Surroundings, E: Eprint, T>(
    host: &mut Host<'_, S, E, T>,
    inspection: &Inspection<'a>,
    path: &'a str,
) -> Result<Subject<'a>, Failure<'a>> {
    let bytes = host.blob(path)?;
    let given = if format_of(path, bytes.as_slice()) == Format::Dtb {
        Board::Blob(bytes)
    } else {
        Board::Source(source_made(host, inspection, path, &bytes)?)
    };
    Ok(Subject { path, given })
}

// A source, which goes through the preprocessor first where that is wanted.
fn source_made<'a, S: Surroundings, E: Eprint, T>(
    host: &mut Host<'_, S, E, T>,
    inspection: &Inspection<'a>,
    path: &'a str,
    bytes: &Vec<u8>,
) -> Result<Made, Failure<'a>> {
    let mut found = Vec::new(host.alloc);
    let preprocessing = &inspection.preprocessing;
    match prepared(host, path, bytes.as_slice(), preprocessing, &mut found)? {
        Some(prepared) => compiled(host, inspection, file_of(path, &prepared)),
        None => compiled(host, inspection, file_of(path, bytes)),
    }
}

fn compiled<'a, S: Surroundings, E: Eprint, T>(
    host: &mut Host<'_, S, E, T>,
    inspection: &Inspection<'a>,
    source: Given<'_>,
) -> Result<Made, Failure<'a>> {
    let hasher = host.seed()?;
    let manner = Manner {
        symbols: false,
        detail: host.detail,
    };
    let mut found = Vec::new(host.alloc);
    dtc_made(
        host.alloc,
        hasher,
        host.surroundings,
        inspection.folders.as_slice(),
        &mut found,
        source,
        manner,
    )
}

fn no_blob<'a, S: Surroundings, E: Eprint, T>(
    host: &Host<'_, S, E, T>,
    subject: &Subject<'a>,
    error: BlobError,
) -> Failure<'a> {
    let blob = file_of(subject.path, subject.given.blob());
    host.refusal(host.blob_fault(blob.bytes, error), Inputs::Blob(blob))
}

// ---- which checks are made

fn selection_of<'a>(alloc: Global, inspection: &Inspection<'a>) -> Result<Selection, Failure<'a>> {
    let Ok(mut selection) = Selection::usual(alloc) else {
        return Err(Failure::Refused(Fault::no_memory()));
    };
    select(alloc, &mut selection, Kind::Warning, "lost_ranges")?;
    if inspection.known.is_some() {
        select(alloc, &mut selection, Kind::Warning, UNKNOWN_PROPERTY)?;
    }
    select_all(
        alloc,
        &mut selection,
        Kind::Warning,
        inspection.warnings.as_slice(),
    )?;
    select_all(
        alloc,
        &mut selection,
        Kind::Error,
        inspection.errors.as_slice(),
    )?;
    if inspection.known.is_none() && selection.asks_unknown() {
        return Err(Failure::BadWord(UNKNOWN_PROPERTY, "wants --known"));
    }
    Ok(selection)
}

fn select_all<'a>(
    alloc: Global,
    selection: &mut Selection,
    kind: Kind,
    words: &[&'a str],
) -> Result<(), Failure<'a>> {
    for word in words {
        select(alloc, selection, kind, *word)?;
    }
    Ok(())
}

fn select<'a>(
    alloc: Global,
    selection: &mut Selection,
    kind: Kind,
    word: &'a str,
) -> Result<(), Failure<'a>> {
    let applied = if word == UNKNOWN_PROPERTY {
        selection.ask_unknown(kind).map(|()| true)
    } else {
        selection.apply(kind, word)
    };
    match applied {
        Ok(true) => Ok(()),
        Ok(false) => Err(no_check(alloc, word)),
        Err(_) => Err(Failure::Refused(Fault::no_memory())),
    }
}

fn no_check<'a>(alloc: Global, word: &'a str) -> Failure<'a> {
    let name = word.strip_prefix("no-").unwrap_or(word);
    match check_names(alloc) {
        Ok(names) => no_such(alloc, "no check has the name", name, names.as_slice()),
        Err(_) => Failure::Refused(Fault::no_memory()),
    }
}

fn check_names(alloc: Global) -> Result<Vec<&'static [u8]>, AllocError> {
    let mut names = Vec::new(alloc);
    for check in 0..CHECK_COUNT {
        if let Some(row) = check_at(check) {
            names.push(row.name.as_bytes())?;
        }
    }
    Ok(names)
}

// ---- what boards teach

fn no_reference<'a, S: Surroundings, E: Eprint, T>(
    host: &Host<'_, S, E, T>,
    path: Option<&'a str>,
    bytes: &[u8],
    bad: BadReference,
) -> Failure<'a> {
    let fault = match bad {
        BadReference::NoMemory => Fault::no_memory(),
        BadReference::Line(line) => Fault::from(PlanError::BadLine(line)),
    };
    let name = path.unwrap_or("").as_bytes();
    host.refusal(fault, Inputs::Reference(Given { name, bytes }))
}

// What all inputs teach.
fn learned<'a, S: Surroundings, E: Eprint, T>(
    host: &mut Host<'_, S, E, T>,
    inspection: &Inspection<'a>,
) -> Result<Answer<'a>, Failure<'a>> {
    let mut learned = Learned::new(host.alloc);
    for path in &inspection.inputs {
        learn_of(host, inspection, *path, &mut learned)?;
    }
    match learned.text(host.alloc) {
        Ok(text) => Ok(Answer::Text(text)),
        Err(_) => Err(Failure::Refused(Fault::no_memory())),
    }
}

fn learn_of<'a, S: Surroundings, E: Eprint, T>(
    host: &mut Host<'_, S, E, T>,
    inspection: &Inspection<'a>,
    path: &'a str,
    learned: &mut Learned,
) -> Result<(), Failure<'a>> {
    let subject = taken(host, inspection, path)?;
    let hasher = host.seed()?;
    match learned.add_blob(host.alloc, hasher, subject.given.blob().as_slice()) {
        Ok(()) => Ok(()),
        Err(error) => Err(no_blob(host, &subject, error)),
    }
}
