//! What is said on standard error, in dtc's way.

use crate::edits::names_edited;
use crate::running::{FAILED, WRONG_TREE};
use crate::saying::{Refused, said_of, said_of_source};
use crate::wording::words_of_number;
use dt_text::include::{Incomplete, Place, Shortfall, Span, columns_of, user_place};
use dt_text::lexeme::{Kind, Language, Lexeme, line_of, scan_front};
use dtman_diagnosis::{Diagnosis, Found, Location, Subject, copied};
use dtman_engine::{Fault, MAX_SOURCE_LEN};
use dtman_host::{
    Again, Explained, Given, Host, Surroundings, faults_of, name_of, shortfall_fault,
    source_diagnosed,
};
use dtman_words::dtc_options::BadWord;
use std::alloc::{AllocError, AllocFailed, Global};
use std::{io, str};

/// Why a run ended without its output.
#[derive(Drop)]
pub(crate) enum Failure<'a> {
    NoMemory,
    NoInput(&'a str),
    NoOutput(&'a str),
    NoSeed,
    Word(BadWord<'a>),
    /// What a source takes in isn't there.
    Incomplete(Incomplete),
    /// It was said already what is wrong, and in what.
    Said(Wrong),
    /// An overlay that doesn't fit; why was said already.
    NotApplied(&'a str),
    /// A blob of 2^32 bytes or more.
    TooLong,
    /// What is to be given room is no blob.
    NoBlob,
}

/// In what something is wrong.
#[derive(Clone, Copy, Debug, PartialEq, Eq)]
pub(crate) enum Wrong {
    /// In the words of a source, or the bytes of a blob.
    Text,
    /// In the tree that they make.
    Tree,
}

impl From<AllocError> for Failure<'_> {
    fn from(_error: AllocError) -> Self {
        Failure::NoMemory
    }
}

impl<T: Drop> From<AllocFailed<T>> for Failure<'_> {
    fn from(_error: AllocFailed<T>) -> Self {
        Failure::NoMemory
    }
}

/// Says all that is refused of a source with all that it takes in, where it shows in the user's files, and answers with the failure that ends
/// the run.
pub(crate) fn report_source<S: Surroundings, E: Eprint, T>(
    host: &mut Host<'_, S, E, T>,
    again: Again,
    source: Given<'_>,
    fault: &Fault,
) -> Failure<'static> {
    match all_told(host, again, source, fault) {
        Ok(failure) => failure,
        Err(_) => Failure::NoMemory,
    }
}

/// The same. A fault whose bytes aren't known is told of its line, or of the file.
fn all_told<S: Surroundings, E: Eprint, T>(
    host: &mut Host<'_, S, E, T>,
    again: Again,
    source: Given<'_>,
    fault: &Fault,
) -> Result<Failure<'static>, AllocError> {
    if fault.number == 0 {
        return Ok(Failure::NoMemory);
    }
    let lexemes = lexemes_of(host.alloc, source.bytes)?;
    let faults = faults_of(host.alloc, again, source, fault)?;
    if faults.is_empty() {
        return told_alone(host, source, fault, lexemes.as_slice());
    }
    let mut ends = Wrong::Tree;
    for explained in faults {
        // one of the source's words comes before one of the tree that they make
        if report_found(host, source, lexemes.as_slice(), explained)? == Wrong::Text {
            ends = Wrong::Text;
        }
    }
    Ok(Failure::Said(ends))
}

/// The lexemes of a source as far as it has any.
fn lexemes_of(alloc: Global, text: &[u8]) -> Result<Vec<Lexeme>, AllocError> {
    if text.len() > MAX_SOURCE_LEN {
        return Ok(Vec::new(alloc));
    }
    let (lexemes, _) = scan_front(alloc, text, Language::Dtc)?;
    Ok(lexemes)
}

/// Says a refusal by its bytes, and answers in what something is wrong.
fn report_found<S: Surroundings, E: Eprint, T>(
    host: &mut Host<'_, S, E, T>,
    source: Given<'_>,
    lexemes: &[Lexeme],
    explained: Explained,
) -> Result<Wrong, AllocError> {
    let (alloc, text) = (host.alloc, source.bytes);
    let Explained { found, diagnosis } = explained;
    let Found { refused, span } = found;
    let at = located(text, place_of(source.name, text, span));
    let at = match diagnosis.kind {
        Subject::BehindChild => at.of_property(text, lexemes, span, &diagnosis.location),
        _ => at,
    };
    let bytes = Refused {
        text,
        lexemes,
        bytes: span,
    };
    let words = said_of_source(alloc, diagnosis, bytes)?;
    let told = Told {
        name: name_of(refused.number),
        words: words.as_str(),
    };
    report_at(host, at, told)?;
    match refused.number {
        // the name of a fragment is one of the tree's
        25 => Ok(Wrong::Tree),
        _ if names_edited(lexemes, span) => Ok(Wrong::Text),
        number => Ok(wrong_in(number)),
    }
}

/// Says a refusal whose bytes aren't known.
fn told_alone<S: Surroundings, E: Eprint, T>(
    host: &mut Host<'_, S, E, T>,
    source: Given<'_>,
    fault: &Fault,
    lexemes: &[Lexeme],
) -> Result<Failure<'static>, AllocError> {
    let alloc = host.alloc;
    let diagnosis = source_diagnosed(alloc, source, fault)?;
    let bytes = Refused {
        text: source.bytes,
        lexemes,
        bytes: Span { start: 0, end: 0 },
    };
    let words = said_of_source(alloc, diagnosis, bytes)?;
    let told = Told {
        name: fault.name,
        words: words.as_str(),
    };
    report_at(host, line_of_fault(source, fault), told)?;
    Ok(Failure::Said(wrong_in(fault.number)))
}

/// The user's place of bytes of a text.
fn place_of<'t>(file: &'t [u8], text: &'t [u8], bytes: Span) -> Place<'t> {
    let line = line_of(text, bytes.start.min(u32::MAX as usize) as u32);
    Place {
        span: Some(bytes),
        ..user_place(file, text, line)
    }
}

/// Says a refusal of a file by its number alone.
pub(crate) fn report_fault<S: Surroundings, E: Eprint, T>(
    host: &mut Host<'_, S, E, T>,
    file: Given<'_>,
    fault: &Fault,
) -> Failure<'static> {
    let Fault { number, name, .. } = *fault;
    if number == 0 {
        return Failure::NoMemory;
    }
    let told = Told {
        name,
        words: words_of_number(number),
    };
    said(
        wrong_in(number),
        report_at(host, line_of_fault(file, fault), told),
    )
}

/// The line of a fault, where it tells one.
fn line_of_fault<'a>(source: Given<'a>, fault: &Fault) -> Shown<'a> {
    match fault.line() {
        Some(line) => located(source.bytes, user_place(source.name, source.bytes, line)),
        None => Shown {
            file: source.name,
            line: None,
            columns: None,
        },
    }
}

/// Where dtc looks at what a source's words say, after all of them were read.
fn wrong_in(number: u8) -> Wrong {
    match number {
        20..=29 => Wrong::Tree,
        _ => Wrong::Text,
    }
}

/// What is told of a refusal beside its place.
#[derive(Clone, Copy)]
struct Told<'a> {
    name: &'a str,
    words: &'a str,
}

/// A file, its line where it is known, and columns where they are: the first, and the one behind the last.
#[derive(Clone, Copy)]
struct Shown<'a> {
    file: &'a [u8],
    line: Option<usize>,
    columns: Option<Span>,
}

impl Shown<'_> {
    // The same with the columns of a property, from its name on: these bytes are what shows it to be no child.
    fn of_property(self, text: &[u8], lexemes: &[Lexeme], bytes: Span, name: &Location) -> Self {
        let Location::Text { column, .. } = name else {
            return self;
        };
        let last = lexemes.iter().find(|lexeme| lexeme.kind == Kind::Semicolon
            && lexeme.start as usize >= bytes.start);
        let end = last.map_or(bytes.end, |lexeme| lexeme.end as usize);
        let behind = Span {
            start: bytes.start,
            end,
        };
        Shown {
            columns: Some(Span {
                start: *column,
                end: columns_of(text, behind).end,
            }),
            ..self
        }
    }
}

/// A place of a text.
fn located<'a>(text: &[u8], place: Place<'a>) -> Shown<'a> {
    Shown {
        file: place.file,
        line: Some(place.line),
        columns: match place.span {
            Some(span) => Some(columns_of(text, span)),
            None => None,
        },
    }
}

fn said(wrong: Wrong, reported: Result<(), AllocError>) -> Failure<'static> {
    match reported {
        Ok(()) => Failure::Said(wrong),
        Err(_) => Failure::NoMemory,
    }
}

/// `Error: FILE:LINE.COLUMN-COLUMN: NAME: words`, as far as it is known.
fn report_at<S: Surroundings, E: Eprint, T>(
    host: &mut Host<'_, S, E, T>,
    at: Shown<'_>,
    told: Told<'_>,
) -> Result<(), AllocError> {
    let alloc = host.alloc;
    let mut line = Vec::from_slice(alloc, b"Error: ")?;
    put_place(alloc, &mut line, at)?;
    let Told { name, words } = told;
    line.extend_from_slice(format!(in alloc; "{name}: {words}\n")?.as_bytes())?;
    host.tell(line.as_slice());
    Ok(())
}

/// `FILE:LINE.COLUMN-COLUMN: `.
fn put_place(alloc: Global, line: &mut Vec<u8>, at: Shown<'_>) -> Result<(), AllocError> {
    line.extend_from_slice(at.file)?;
    if let Some(number) = at.line {
        line.extend_from_slice(format!(in alloc; ":{number}")?.as_bytes())?;
    }
    if let Some(columns) = at.columns {
        let (first, behind) = (columns.start, columns.end);
        line.extend_from_slice(format!(in alloc; ".{first}-{behind}")?.as_bytes())?;
    }
    line.extend_from_slice(b": ")?;
    Ok(())
}

/// Says where a text stops short that takes in others.
pub(crate) fn report_shortfall<S: Surroundings, E: Eprint, T>(
    host: &mut Host<'_, S, E, T>,
    shortfall: Shortfall,
) -> Failure<'static> {
    let Fault { number, name, .. } = shortfall_fault(&shortfall);
    let Shortfall { reason, site } = shortfall;
    if number == 0 {
        return Failure::NoMemory;
    }
    let Some(site) = site else {
        return Failure::Incomplete(reason);
    };
    let at = Shown {
        file: site.file.as_slice(),
        line: Some(site.line),
        columns: Some(site.columns),
    };
    let reported = match &reason {
        Incomplete::NoFile(file) => report_lost(host, at, name, file.as_slice()),
        _ => report_at(
            host,
            at,
            Told {
                name,
                words: words_of_number(number),
            },
        ),
    };
    match reported {
        Ok(()) => Failure::Incomplete(reason),
        Err(_) => Failure::NoMemory,
    }
}

/// Says that a file that is named there can't be read.
fn report_lost<S: Surroundings, E: Eprint, T>(
    host: &mut Host<'_, S, E, T>,
    at: Shown<'_>,
    name: &str,
    file: &[u8],
) -> Result<(), AllocError> {
    let alloc = host.alloc;
    let lost = Diagnosis {
        number: 80,
        location: Location::Nowhere,
        kind: Subject::Inclusion,
        subject: copied(alloc, file)?,
        notes: Vec::new(alloc),
    };
    let words = said_of(alloc, lost)?;
    let told = Told {
        name,
        words: words.as_str(),
    };
    report_at(host, at, told)
}

/// Says why a run ended, and answers its exit status.
pub(crate) fn fail<S: Surroundings, E: Eprint, T>(
    host: &mut Host<'_, S, E, T>,
    failure: &Failure<'_>,
) -> u8 {
    // Where there is no memory for the words, the status stands alone.
    let reason = host.surroundings.reason();
    if let Ok(words) = words_of(host.alloc, failure, reason) {
        host.tell(words.as_bytes());
    }
    match failure {
        Failure::Said(Wrong::Tree) => WRONG_TREE,
        _ => FAILED,
    }
}

// The system's reason stands behind a file's name where it is known, else the number.
fn unopened(
    alloc: Global,
    what: &str,
    reason: Option<io::Error>,
    fault: &Fault,
) -> Result<String, AllocError> {
    match reason {
        Some(error) => format!(in alloc; "FATAL ERROR: Couldn't open {what}: {error}\n"),
        None => format!(in alloc; "FATAL ERROR: Couldn't open {what}: {fault}\n"),
    }
}

fn words_of(
    alloc: Global,
    failure: &Failure<'_>,
    reason: Option<io::Error>,
) -> Result<String, AllocError> {
    match failure {
        Failure::NoMemory => format!(in alloc; "FATAL ERROR: error 0 NoMemory\n"),
        Failure::NoInput(path) => {
            let what = format!(in alloc; "\"{path}\"")?;
            unopened(alloc, what.as_str(), reason, &Fault::cannot_read())
        }
        Failure::NoOutput(path) => {
            let what = format!(in alloc; "output file {path}")?;
            unopened(alloc, what.as_str(), reason, &Fault::cannot_write())
        }
        Failure::NoSeed => format!(in alloc; "FATAL ERROR: error 80 CannotRead random\n"),
        Failure::Word(word) => bad_word(alloc, word),
        Failure::Incomplete(short) => incomplete(alloc, short, reason),
        Failure::Said(Wrong::Text) => {
            format!(in alloc; "FATAL ERROR: Unable to parse input tree\n")
        }
        Failure::Said(Wrong::Tree) => format!(in alloc; "ERROR: Input tree has errors, aborting\n"),
        Failure::NotApplied(path) => format!(in alloc; "Failed to apply '{path}'\n"),
        Failure::TooLong => format!(in alloc; "FATAL ERROR: error 38 TooLarge\n"),
        Failure::NoBlob => format!(in alloc; "FATAL ERROR: error 33 BadLayout\n"),
    }
}

fn bad_word(alloc: Global, word: &BadWord<'_>) -> Result<String, AllocError> {
    match word {
        BadWord::NoMemory => format!(in alloc; "FATAL ERROR: error 0 NoMemory\n"),
        BadWord::Unknown(word) => format!(in alloc; "Error: unknown option {word}\n"),
        BadWord::Missing(word) => {
            format!(in alloc; "Error: dtc's option {word} isn't there in dtman\n")
        }
        BadWord::MissingArgument(word, argument) => {
            format!(in alloc; "Error: dtc's {word} {argument} isn't there in dtman\n")
        }
        BadWord::NoArgument(word) => format!(in alloc;
            "Error: option {word} requires an argument\n"
        ),
        BadWord::BadArgument(word, argument) => {
            format!(in alloc; "Error: option {word} doesn't take {argument}\n")
        }
        BadWord::Extra(word) => format!(in alloc; "Error: more than one input: {word}\n"),
        BadWord::NoOverlay => format!(in alloc; "Error: missing overlay file(s)\n"),
        BadWord::NoCheck(word) => format!(in alloc;
            "FATAL ERROR: Unrecognized check name \"{word}\"\n"
        ),
        BadWord::Both(one, other) => format!(in alloc;
            "FATAL ERROR: Can't set both {one} and {other}\n"
        ),
    }
}

fn incomplete(
    alloc: Global,
    short: &Incomplete,
    reason: Option<io::Error>,
) -> Result<String, AllocError> {
    match short {
        Incomplete::NoMemory => format!(in alloc; "FATAL ERROR: error 0 NoMemory\n"),
        Incomplete::NoFile(name) => match str::from_utf8(name.as_slice()) {
            Ok(name) => {
                let what = format!(in alloc; "\"{name}\"")?;
                unopened(alloc, what.as_str(), reason, &Fault::cannot_read())
            }
            Err(_) => format!(in alloc;
                "FATAL ERROR: Couldn't open \"?\": its name is no text of UTF-8\n"
            ),
        },
        Incomplete::TooDeep => format!(in alloc; "FATAL ERROR: Includes nested too deeply\n"),
        Incomplete::TooLong => format!(in alloc; "FATAL ERROR: error 17 TooLong\n"),
        Incomplete::Syntax => format!(in alloc; "FATAL ERROR: error 10 Syntax in an inclusion\n"),
    }
}
