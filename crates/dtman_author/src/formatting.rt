//! A source in the kernel's style: what is printed or written of it, and why it isn't laid out.
ghost use Rattle.std.specs.Prelude.{◌≡◌, false};

use crate::spots::{Spot, line_of, spot_of};
use dt_format::{FormatError, Hex, Refusal, RefusalKind, Style, difference, formatted};
use dtman_diagnosis::{Diagnosis, Location, Note, Subject, copied};
use dtman_engine::{Channel, Fault, Position};
use dtman_host::{
    Detail, Failure, Host, REFUSED, Surroundings, name_of, named, print, refusal, write_at,
};
use dtman_words::Formatting;
use std::alloc::{AllocError, Global};

/// Standard output as the path of a command line.
const STANDARD: &str = "-";

/// The number of what makes no source.
const SYNTAX: u8 = 10;

/// Lays a source out, and prints or writes what that makes of it. Where it is asked alone whether the source is laid out so, what isn't
/// is told, and that is a failure.
pub fn lay_out<'a, S: Surroundings, O: Channel, E: Eprint, T>(
    host: &mut Host<'_, S, E, T>,
    output: &mut O,
    asked: Formatting<'a>,
) -> Result<(), Failure<'a>>
    requires { O.has_failed output.old ≡ false }
{
    let text = host.whole_source(asked.source)?;
    let made = made_of(host, asked, text.as_slice())?;
    if asked.check || asked.diff {
        return compare(host.alloc, output, asked, text.as_slice(), made.as_slice());
    }
    let path = asked.out.unwrap_or(STANDARD);
    write_at(host.alloc, host.surroundings, output, path, made.as_slice())
}

// The source laid out.
fn made_of<'a, S: Surroundings, E: Eprint, T>(
    host: &mut Host<'_, S, E, T>,
    asked: Formatting<'_>,
    text: &[u8],
) -> Result<Vec<u8>, Failure<'a>> {
    let style = Style {
        hex: hex_of(asked.hex),
    };
    match formatted(host.alloc, text, style) {
        Ok(made) => Ok(made),
        Err(FormatError::Refused(found)) => {
            Err(refused(host.alloc, host.detail, asked.source, text, found))
        }
        Err(FormatError::NoMemory) => Err(no_memory()),
    }
}

fn hex_of(is_lower: bool) -> Hex {
    if is_lower { Hex::Lower } else { Hex::AsWritten }
}

fn no_memory<'a>() -> Failure<'a> {
    Failure::Refused(Fault::no_memory())
}

// Tells of a source that is laid out otherwise.
fn compare<'a, O: Channel>(
    alloc: Global,
    output: &mut O,
    asked: Formatting<'_>,
    text: &[u8],
    made: &[u8],
) -> Result<(), Failure<'a>>
    requires { O.has_failed output.old ≡ false }
{
    if text == made {
        return Ok(());
    }
    let told = match told_of(alloc, asked, text, made) {
        Ok(told) => told,
        Err(_) => return Err(no_memory()),
    };
    print(output, told.as_slice())?;
    Err(Failure::Ended(REFUSED))
}

// The lines that differ, or the path alone.
fn told_of(
    alloc: Global,
    asked: Formatting<'_>,
    text: &[u8],
    made: &[u8],
) -> Result<Vec<u8>, AllocError> {
    let name = named(asked.source).as_bytes();
    if asked.diff {
        return difference(alloc, name, text, made);
    }
    let mut line = copied(alloc, name)?;
    line.extend_from_slice(b"\n")?;
    Ok(line)
}

// ---- what can't be laid out

// Without its place nobody could mend it, so that is told also where no detail is asked for.
fn refused<'a>(
    alloc: Global,
    detail: Detail,
    source: &str,
    text: &[u8],
    found: Refusal,
) -> Failure<'a> {
    let spot = spot_of(text, found.place);
    let fault = Fault {
        number: SYNTAX,
        name: name_of(SYNTAX),
        position: Position::Line(spot.line),
        culprit: None,
    };
    match detail {
        Detail::Line => told_in_lines(alloc, fault, named(source), spot, found.kind),
        detail => {
            let diagnosis = diagnosis_of(alloc, named(source), text, spot, found);
            refusal(alloc, detail, fault, diagnosis)
        }
    }
}

fn told_in_lines<'a>(
    alloc: Global,
    fault: Fault,
    source: &str,
    spot: Spot,
    kind: RefusalKind,
) -> Failure<'a> {
    let wanting = Fault::no_memory();
    match lines_of(alloc, fault, source, spot, kind) {
        Ok(lines) => Failure::Told(lines),
        Err(_) => Failure::Refused(wanting),
    }
}

fn lines_of(
    alloc: Global,
    fault: Fault,
    source: &str,
    spot: Spot,
    kind: RefusalKind,
) -> Result<String, AllocError> {
    let Spot { line, column } = spot;
    let mut lines = format!(in alloc; "{fault}\n")?;
    write!(lines, "{source}:{line}:{column}: {kind}\n")?;
    Ok(lines)
}

fn diagnosis_of(
    alloc: Global,
    source: &str,
    text: &[u8],
    spot: Spot,
    found: Refusal,
) -> Result<Diagnosis, AllocError> {
    let kind = found.kind;
    let mut notes = Vec::new(alloc);
    let words = format!(in alloc; "{kind}")?;
    notes.push(Note::Said(words.into_bytes()))?;
    let location = Location::Text {
        file: copied(alloc, source.as_bytes())?,
        line: spot.line,
        column: spot.column,
        text: copied(alloc, line_of(text, spot))?,
        marked: 1,
    };
    Ok(Diagnosis {
        number: SYNTAX,
        location,
        kind: subject_of(kind),
        subject: copied(alloc, byte_at(text, found.place))?,
        notes,
    })
}

fn subject_of(kind: RefusalKind) -> Subject {
    match kind {
        RefusalKind::OpenComment
        | RefusalKind::OpenString
        | RefusalKind::OpenCharacter
        | RefusalKind::OpenPath
        | RefusalKind::OpenBrace => Subject::Unclosed,
        RefusalKind::StrayBrace | RefusalKind::TooDeep | RefusalKind::Changed => {
            Subject::Punctuation
        }
    }
}

// The byte at an offset, if there is one.
fn byte_at(text: &[u8], offset: usize) -> &[u8] {
    let rest = text.get(offset..).unwrap_or(b"");
    rest.get(..1).unwrap_or(rest)
}
