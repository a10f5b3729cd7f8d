//! Lines of the user's files, by the line markers of a text.
ghost use Rattle.std.specs.Prelude.{◌≡◌, ◌++◌, IfOk, None, OnOk, option_map};
ghost use Rattle.dt_text.specs.Include.UserLines.{marker_line};
ghost use Rattle.dt_text.specs.Include.UserLines.{has_sign, plain_of};
ghost use Rattle.dt_text.specs.Include.Private.Places.{place_of, told_of};
ghost use Rattle.dt_text.specs.Include.UserLines.{column_in, given_place, line_begin, line_with, next_place};
ghost use Rattle.dt_text.specs.Include.UserLines.{place_behind, place_of_line, place_told, told_by};

use crate::include::bytes::{Class, behind, front, line_ends, run_len};
use crate::include::marker::{Marker, read_marker};
use crate::include::place::{Place, Span};
use crate::lexeme::gaps::begins_dtc_marker;
use std::alloc::{AllocError, Global};

/// The line of the user's file at a place of a text.
#[derive(Drop)]
pub(crate) struct Line {
    pub file: Vec<u8>,
    pub line: usize,
}

impl Line {
    /// The first line of a file. A name that no line marker can hold is left out.
    pub fn first(alloc: Global, path: &[u8]) -> Result<Line, AllocError>
        ensures file { IfOk result (λ line. line.file.items ≡ plain_of path.now) }
        ensures line { IfOk result (λ line. line.line ≡ 1) }
    {
        Ok(Line {
            file: Vec::from_slice(alloc, plain(path))?,
            line: 1,
        })
    }

    /// Behind more text.
    pub fn advance(&mut self, text: &[u8]) -> Result<(), AllocError>
        ensures { OnOk result (place_of self.new ≡ place_behind (place_of self.old) text.now) }
    {
        let mut left = text;
        for _ in 0..line_ends(text) {
            let len = run_len(Class::Line, left);
            self.end_line(line_marker(front(left, len)))?;
            left = behind(behind(left, len), 1);
        }
        Ok(())
    }

    /// Behind a line.
    fn end_line(&mut self, marker: Option<Marker<'_>>) -> Result<(), AllocError>
        ensures { OnOk result (place_of self.new ≡ place_told (place_of self.old) (option_map told_of marker.entry)) }
    {
        match marker {
            None => self.line = self.line.saturating_add(1),
            Some(marker) => {
                self.line = marker.line;
                if let Some(file) = marker.file {
                    self.file.clear();
                    self.file.extend_from_slice(file)?;
                }
            }
        }
        Ok(())
    }

    /// Puts a line marker.
    pub fn mark(&self, alloc: Global, text: &mut Vec<u8>) -> Result<(), AllocError>
        ensures { OnOk result (text.new.items ≡ text.old.items ++ marker_line self.now.line self.now.file.items) }
    {
        let line = self.line;
        let digits = format!(in alloc; "{line}")?;
        text.extend_from_slice(b"\n# ")?;
        text.extend_from_slice(digits.as_bytes())?;
        text.extend_from_slice(b" \"")?;
        text.extend_from_slice(self.file.as_slice())?;
        text.extend_from_slice(b"\"\n")
    }
}

/// The marker that a line is.
fn line_marker<'t>(line: &'t [u8]) -> Option<Marker<'t>>
    ensures { option_map told_of result ≡ told_by line.now }
{
    if !begins_dtc_marker(line) {
        return None;
    }
    Some(read_marker(behind(line, 1)))
}

/// A file's name as a line marker holds it, or nothing.
pub fn plain(path: &[u8]) -> &[u8]
    ensures { result.now ≡ plain_of path.now }
{
    if has_sign(path) { b"" } else { path }
}

/// Whether a byte of a file's name is one that no line marker holds.
fn has_sign(path: &[u8]) -> bool
    ensures { result ≡ has_sign path.now }
{
    path.iter()
        .any(|c| *c == b'"' || *c == b'\\' || *c == b'\n')
}

/// The line of a text in which bytes begin.
pub fn line_of(text: &[u8], span: Span) -> &[u8]
    ensures { result.now ≡ line_with text.now span.start }
{
    let rest = behind(text, line_start(text, span.start));
    front(rest, run_len(Class::Line, rest))
}

/// The columns of bytes in the line in which they begin, from 1: the first, and the one behind the last.
pub fn columns_of(text: &[u8], span: Span) -> Span
    ensures first { result.start ≡ column_in text.now span.start span.start }
    ensures last { result.end ≡ column_in text.now span.start span.end }
{
    let start = line_start(text, span.start);
    let len = line_of(text, span).len();
    let first = span.start.saturating_sub(start).min(len);
    let last = span.end.saturating_sub(start).min(len);
    Span {
        start: first.saturating_add(1),
        end: last.saturating_add(1),
    }
}

/// Where the line begins that has a byte.
fn line_start(text: &[u8], at: usize) -> usize
    ensures { result ≡ line_begin text.now at }
{
    let mut start = 0;
    for (i, c) in front(text, at).iter().enumerate() {
        if *c == b'\n' {
            start = i + 1;
        }
    }
    start
}

/// The line of the user's file that a line of a text stands for.
pub fn user_place<'t>(file: &'t [u8], text: &'t [u8], line: usize) -> Place<'t>
    ensures place { given_place result ≡ place_of_line file.now text.now line }
    ensures span { result.span ≡ None }
{
    let mut place = Place::first(file);
    let mut left = text;
    for _ in 1..line {
        let len = run_len(Class::Line, left);
        place = next_place(place, front(left, len));
        left = behind(behind(left, len), 1);
    }
    place
}

/// The place behind a line.
fn next_place<'t>(place: Place<'t>, line: &'t [u8]) -> Place<'t>
    ensures place { given_place result ≡ next_place (given_place place.entry) line.now }
    ensures span { result.span ≡ None }
{
    match line_marker(line) {
        None => Place {
            file: place.file,
            line: place.line.saturating_add(1),
            span: None,
        },
        Some(marker) => Place {
            file: marker.file.unwrap_or(place.file),
            line: marker.line,
            span: None,
        },
    }
}
