//! What was found, as it is published (Language Server Protocol 3.17, "PublishDiagnostics Notification").

use crate::library::{Library, Source};
use crate::ports::Finding;
use crate::server::state::Judged;
use crate::writing::{Out, begin_notification, end, put_number, put_places, put_range, put_string};
use dt_outline::{Place, Span};
use std::alloc::{AllocError, Global};

/// `DiagnosticSeverity`: Error.
const ERROR: usize = 1;

/// Where a word stands in a line: at the place that is told, or first of all, or else all of the line but the blanks around it.
fn word_in(line: &[u8], finding: &Finding) -> Span {
    let word = finding.word.as_slice();
    let told = finding.column.saturating_sub(1);
    if !word.is_empty() {
        if line.get(told..).unwrap_or(b"").starts_with(word) {
            return span_from(told, word.len());
        }
        if let Some(at) = line
            .windows(word.len().max(1))
            .position(|part| part == word)
        {
            return span_from(at, word.len());
        }
    }
    let end = line.trim_ascii_end().len();
    let blanks = line.len().saturating_sub(line.trim_ascii_start().len());
    Span {
        start: blanks.min(end),
        end,
    }
}

fn span_from(start: usize, length: usize) -> Span {
    Span {
        start,
        end: start.saturating_add(length),
    }
}

/// The bytes of a text that a finding is of.
fn span_of(source: &Source, finding: &Finding) -> Span {
    let text = source.text.as_slice();
    let number = finding.line.saturating_sub(1);
    let begin = source.lines.begin(text, number);
    let found = word_in(source.lines.line(text, number), finding);
    Span {
        start: begin.saturating_add(found.start),
        end: begin.saturating_add(found.end),
    }
}

fn put_finding(
    library: &Library,
    number: Option<usize>,
    finding: &Finding,
    out: &mut Out,
) -> Result<(), AllocError> {
    out.begin_object()?;
    out.key("range")?;
    match number.and_then(|number| library.get(number)) {
        Some(source) => put_range(out, source.page(), span_of(source, finding))?,
        None => put_line(finding.line, out)?,
    }
    put_number(out, "severity", ERROR)?;
    put_number(out, "code", finding.number as usize)?;
    put_string(out, "source", "dtman")?;
    put_string(out, "message", finding.message.as_str())?;
    out.end_object()
}

/// The begin of a line of a text that isn't known.
fn put_line(line: usize, out: &mut Out) -> Result<(), AllocError> {
    let place = Place {
        line: line.saturating_sub(1),
        column: 0,
    };
    put_places(out, place, place)
}

/// Whether two findings tell the same.
fn tell_alike(one: &Finding, other: &Finding) -> bool {
    one.number == other.number
        && one.line == other.line
        && one.column == other.column
        && one.path.as_slice() == other.path.as_slice()
}

/// Whether a finding was told of one of these boards.
fn was_told(before: &[Judged], finding: &Finding) -> bool {
    before.iter().any(|judged| judged
        .findings
        .iter()
        .any(|other| tell_alike(other, finding)))
}

/// Puts what was found in a file, each once: of the board of this number what those before it don't have.
fn put_board(
    library: &Library,
    judged: &[Judged],
    board: usize,
    path: &[u8],
    out: &mut Out,
) -> Result<(), AllocError> {
    let Some(own) = judged.get(board) else {
        return Ok(());
    };
    let before = judged.get(..board).unwrap_or(&[]);
    let number = library.number_of(path);
    for finding in &own.findings {
        if finding.path.as_slice() == path && !was_told(before, finding) {
            put_finding(library, number, finding, out)?;
        }
    }
    Ok(())
}

/// The notification of all that was found in a file.
pub(crate) fn published(
    alloc: Global,
    library: &Library,
    judged: &[Judged],
    uri: &str,
    path: &[u8],
) -> Result<Vec<u8>, AllocError> {
    let mut out = begin_notification(alloc, "textDocument/publishDiagnostics")?;
    put_published(library, judged, uri, path, &mut out)?;
    end(out)
}

fn put_published(
    library: &Library,
    judged: &[Judged],
    uri: &str,
    path: &[u8],
    out: &mut Out,
) -> Result<(), AllocError> {
    out.begin_object()?;
    put_string(out, "uri", uri)?;
    if let Some(version) = version_of(library, path) {
        out.key("version")?;
        out.i64(version)?;
    }
    out.key("diagnostics")?;
    out.begin_array()?;
    for board in 0..judged.len() {
        put_board(library, judged, board, path, out)?;
    }
    out.end_array()?;
    out.end_object()
}

/// The version of a text that is open.
fn version_of(library: &Library, path: &[u8]) -> Option<i64> {
    let source = library.open_at(path)?;
    match &source.opened {
        Some(opened) => opened.version,
        None => None,
    }
}
