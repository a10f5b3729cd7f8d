//! Why a source isn't whole with all that it takes in, and where.
ghost use Rattle.std.specs.Prelude.{◌≡◌};
ghost use Rattle.dtman_engine.specs.Fault.{fault_value};
ghost use Rattle.dtman_host.specs.Shortfall.{short_fault, told_at};

use crate::detail::{Detail, refusal};
use crate::failure::{Failure, lost_line};
use crate::user_places::{site_location, words_of};
use dt_source::SourceErrorKind;
use dt_text::include::{Incomplete, Shortfall, Site};
use dtman_diagnosis::{Diagnosis, Location, Note, Subject, copied, json_of, text_of};
use dtman_engine::{Fault, Position};
use std::alloc::{AllocError, Global};

/// What is told of a source that is too long.
pub(crate) const TOO_LONG: Shortfall = Shortfall {
    reason: Incomplete::TooLong,
    site: None,
};

/// What is told of a text of this file that isn't whole.
pub fn fallen_short<'a>(
    alloc: Global,
    file: &[u8],
    detail: Detail,
    shortfall: Shortfall,
) -> Failure<'a> {
    let fault = shortfall_fault(&shortfall);
    let Shortfall { reason, site } = shortfall;
    match reason {
        Incomplete::NoFile(name) => lost(alloc, detail, name, site),
        reason => refused(alloc, file, detail, fault, &reason, site),
    }
}

/// The fault of a text that isn't whole: by the number and name of a source's error, in the user's line.
pub fn shortfall_fault(shortfall: &Shortfall) -> Fault
    ensures { fault_value result ≡ short_fault shortfall.now.reason shortfall.now.site }
{
    let site = &shortfall.site;
    match &shortfall.reason {
        Incomplete::NoMemory => Fault::no_memory(),
        Incomplete::NoFile(_) => Fault::cannot_read(),
        Incomplete::TooDeep => fault_at(SourceErrorKind::TooDeep, site),
        Incomplete::TooLong => fault_at(SourceErrorKind::TooLong, &None),
        Incomplete::Syntax => fault_at(SourceErrorKind::Syntax, site),
    }
}

fn fault_at(kind: SourceErrorKind, site: &Option<Site>) -> Fault
    ensures { fault_value result ≡ told_at kind site.now }
{
    Fault {
        number: kind.number(),
        name: kind.name(),
        position: match site {
            Some(site) => Position::Line(site.line),
            None => Position::Nowhere,
        },
        culprit: None,
    }
}

fn refused<'a>(
    alloc: Global,
    file: &[u8],
    detail: Detail,
    fault: Fault,
    reason: &Incomplete,
    site: Option<Site>,
) -> Failure<'a> {
    if detail == Detail::Line {
        return Failure::Refused(fault);
    }
    refusal(
        alloc,
        detail,
        fault,
        diagnosis_of(alloc, file, fault.number, reason, site),
    )
}

/// What is told of a file that can't be read.
fn lost<'a>(alloc: Global, detail: Detail, name: Vec<u8>, site: Option<Site>) -> Failure<'a> {
    let Some(site) = site else {
        return Failure::Lost(name);
    };
    if detail == Detail::Line {
        return Failure::Lost(name);
    }
    match lost_lines(alloc, detail, name.as_slice(), site) {
        Ok(lines) => Failure::LostAt(lines),
        Err(_) => Failure::Lost(name),
    }
}

fn lost_lines(
    alloc: Global,
    detail: Detail,
    name: &[u8],
    site: Site,
) -> Result<String, AllocError> {
    let diagnosis = Diagnosis {
        number: 80,
        location: site_location(site),
        kind: Subject::Inclusion,
        subject: copied(alloc, name)?,
        notes: Vec::new(alloc),
    };
    if detail == Detail::Json {
        return json_of(alloc, Fault::cannot_read().name, None, &diagnosis);
    }
    let first = lost_line(alloc, name)?;
    text_of(alloc, first.as_str(), &diagnosis)
}

/// A refusal of words that take something in, or of the file as a whole where none are known.
fn diagnosis_of(
    alloc: Global,
    file: &[u8],
    number: u8,
    reason: &Incomplete,
    site: Option<Site>,
) -> Result<Diagnosis, AllocError> {
    let mut diagnosis = match site {
        Some(site) => of_words(alloc, number, reason, site)?,
        None => of_file(alloc, file, number)?,
    };
    let note = note_of(reason, diagnosis.kind);
    diagnosis.notes.push(Note::Words(note))?;
    Ok(diagnosis)
}

fn note_of(reason: &Incomplete, kind: Subject) -> &'static str {
    match reason {
        Incomplete::TooDeep => "a file that takes itself in never ends",
        Incomplete::TooLong => "all that it takes in counts, too",
        _ if matches!(kind, Subject::Unclosed) => {
            "strings, comments and names of files end in their own file"
        }
        _ => "a file's name between quotes must follow, and numbers behind it in pairs",
    }
}

fn of_words(
    alloc: Global,
    number: u8,
    reason: &Incomplete,
    site: Site,
) -> Result<Diagnosis, AllocError> {
    let subject = copied(alloc, words_of(&site))?;
    Ok(Diagnosis {
        number,
        kind: kind_of(reason, subject.as_slice()),
        location: site_location(site),
        subject,
        notes: Vec::new(alloc),
    })
}

fn kind_of(reason: &Incomplete, words: &[u8]) -> Subject {
    match words {
        _ if matches!(reason, Incomplete::TooDeep) => Subject::Inclusion,
        [b'/', b'*'] | [b'"'] | [b'\''] => Subject::Unclosed,
        _ => Subject::Punctuation,
    }
}

fn of_file(alloc: Global, file: &[u8], number: u8) -> Result<Diagnosis, AllocError> {
    Ok(Diagnosis {
        number,
        location: Location::File {
            file: copied(alloc, file)?,
        },
        kind: Subject::Punctuation,
        subject: copied(alloc, b"/include/")?,
        notes: Vec::new(alloc),
    })
}
