//! A finding as one line.
use crate::answer::Asked;
use crate::escaping::quoted;
use crate::paths::path_at;
use crate::places::{Located, Site, path_above};
use crate::table::{Finding, Selection, check_at};
use crate::words::{Above, say};
use crate::writer::Writer;
use dt_check::Survey;
use std::alloc::{AllocError, Global};

/// What a line looks like.
#[derive(Clone, Copy, Debug, PartialEq, Eq)]
pub enum Shape {
    /// As dtc writes it: `FILE:LINE.COLUMN-COLUMN: Warning (CHECK): PATH:PROPERTY: WORDS`.
    Plain,
    /// An object of JSON.
    Json,
}

fn name_of(check: usize) -> &'static str {
    match check_at(check) {
        Some(row) => row.name,
        None => "",
    }
}

/// Puts the line of a finding last, with its place.
pub fn put_line(
    alloc: Global,
    writer: &mut Writer,
    survey: &Survey<'_>,
    selection: &Selection,
    asked: Asked<'_>,
    finding: &Finding<'_>,
    located: Located<'_>,
) -> Result<(), AllocError> {
    let path = match finding.node {
        None => Vec::new(alloc),
        Some(node) => path_at(alloc, survey, node)?,
    };
    let above = Above::of(path_above(path.as_slice()), located.above, asked.reference);
    let mut words = Writer::new(alloc);
    say(alloc, &mut words, survey, finding, above)?;
    let check = Judged {
        name: name_of(finding.check),
        fails: selection.level(finding.check).fails,
    };
    let told = tell_of(
        check,
        path.as_slice(),
        finding.property,
        words.text.as_slice(),
    );
    match asked.shape {
        Shape::Plain => put_plain(writer, asked.file, located.own, told),
        Shape::Json => put_json(writer, asked.file, located.own, told),
    }
}

// A check, and whether its mistakes are errors.
#[derive(Clone, Copy)]
struct Judged {
    name: &'static str,
    fails: bool,
}

// What a line tells beside its place.
#[derive(Clone, Copy)]
struct Telling<'a> {
    check: Judged,
    // none where the finding is of no node
    path: &'a [u8],
    property: Option<&'a [u8]>,
    words: &'a [u8],
}

fn tell_of<'a>(
    check: Judged,
    path: &'a [u8],
    property: Option<&'a [u8]>,
    words: &'a [u8],
) -> Telling<'a> {
    Telling {
        check,
        path,
        property,
        words,
    }
}

// `FILE:LINE.COLUMN-COLUMN`, or the file alone.
fn put_place(writer: &mut Writer, file: &[u8], site: Option<Site<'_>>) -> Result<(), AllocError> {
    let Some(site) = site else {
        return writer.put(file);
    };
    writer.put(site.file)?;
    writer.count(":", site.line)?;
    writer.count(".", site.column)?;
    writer.count("-", site.end)
}

fn put_plain(
    writer: &mut Writer,
    file: &[u8],
    site: Option<Site<'_>>,
    told: Telling<'_>,
) -> Result<(), AllocError> {
    put_place(writer, file, site)?;
    writer.put(if told.check.fails {
        ": ERROR ("
    } else {
        ": Warning ("
    }
    .as_bytes())?;
    writer.put(told.check.name.as_bytes())?;
    writer.put(b"): ")?;
    if !told.path.is_empty() {
        writer.put(told.path)?;
        if let Some(property) = told.property {
            writer.put(b":")?;
            writer.put(property)?;
        }
        writer.put(b": ")?;
    }
    writer.put(told.words)?;
    writer.put(b"\n")
}

// The file, and the line and columns where they are known.
fn put_json_place(
    writer: &mut Writer,
    file: &[u8],
    site: Option<Site<'_>>,
) -> Result<(), AllocError> {
    writer.put(b"{\"file\":")?;
    let Some(site) = site else {
        return quoted(writer, file);
    };
    quoted(writer, site.file)?;
    writer.count(",\"line\":", site.line)?;
    writer.count(",\"column\":", site.column)?;
    writer.count(",\"end\":", site.end)
}

fn put_json(
    writer: &mut Writer,
    file: &[u8],
    site: Option<Site<'_>>,
    told: Telling<'_>,
) -> Result<(), AllocError> {
    put_json_place(writer, file, site)?;
    writer.put(b",\"severity\":")?;
    writer.put(if told.check.fails {
        "\"error\""
    } else {
        "\"warning\""
    }
    .as_bytes())?;
    writer.put(b",\"check\":")?;
    quoted(writer, told.check.name.as_bytes())?;
    if !told.path.is_empty() {
        writer.put(b",\"path\":")?;
        quoted(writer, told.path)?;
    }
    if let Some(property) = told.property {
        writer.put(b",\"property\":")?;
        quoted(writer, property)?;
    }
    writer.put(b",\"message\":")?;
    quoted(writer, told.words)?;
    writer.put(b"}\n")
}
