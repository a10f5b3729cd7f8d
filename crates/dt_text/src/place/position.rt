//! The file, line and column that a byte came from.
ghost use Rattle.std.specs.Prelude.{◌≡◌, ◌≤◌, length, map, IfOk};
ghost use Rattle.dt_text.specs.Place.Positions.{IsCursor, IsFirstFeed, site_at, site_of};

use crate::place::marker::{Origin, front};
use memchr::memchr;
use std::alloc::{AllocError, Global};

/// A file, none where no marker named one, its line from 1, and a byte of that from 1.
#[derive(Clone, Copy, Debug, PartialEq, Eq)]
pub struct Position<'a> {
    pub file: Option<&'a [u8]>,
    pub line: usize,
    pub column: usize,
}

/// How far a text is read: the line, the place where it begins, and the place behind what is read.
#[derive(Clone, Copy)]
struct Cursor<'a> {
    origin: Origin<'a>,
    start: usize,
    end: usize,
}

// Before the first byte.
fn beginning<'a>(text: &'a [u8]) -> Cursor<'a>
    ensures read { IsCursor text.now result.origin result.start result.end }
    ensures end { result.end ≡ 0 }
{
    let _ = text;
    Cursor {
        origin: Origin {
            file: None,
            line: 1,
        },
        start: 0,
        end: 0,
    }
}

// Where the first line feed between two places stands.
fn feed_between(text: &[u8], from: usize, end: usize) -> Option<usize>
    requires within { (from ≤ end) × (end ≤ length text.now) }
    ensures { IsFirstFeed text.now from end result }
{
    match memchr(b'\n', &text[from..end]) {
        Some(feed) => Some(from + feed),
        None => None,
    }
}

// Reads on up to a place, line by line.
fn read_to<'a>(text: &'a [u8], cursor: Cursor<'a>, end: usize) -> Cursor<'a>
    requires read { IsCursor text.now cursor.origin cursor.start cursor.end }
    requires ahead { cursor.end ≤ end }
    requires within { end ≤ length text.now }
    ensures read { IsCursor text.now result.origin result.start result.end }
    ensures end { result.end ≡ end }
{
    let Cursor {
        mut origin,
        mut start,
        end: mut read,
    } = cursor;
    while let Some(feed) = feed_between(text, read, end) {
        origin = origin.after(&text[start..feed]);
        read = feed + 1;
        start = read;
    }
    Cursor { origin, start, end }
}

// What is read, or nothing where that goes beyond a place.
fn read_before<'a>(text: &'a [u8], cursor: Cursor<'a>, end: usize) -> Cursor<'a>
    requires { IsCursor text.now cursor.origin cursor.start cursor.end }
    ensures read { IsCursor text.now result.origin result.start result.end }
    ensures before { result.end ≤ end }
{
    if end < cursor.end {
        return beginning(text);
    }
    cursor
}

// Where what is read ends.
fn position_at<'a>(text: &'a [u8], cursor: Cursor<'a>) -> Position<'a>
    requires { IsCursor text.now cursor.origin cursor.start cursor.end }
    ensures { site_of result ≡ site_at text.now cursor.entry.end }
{
    let _ = text;
    Position {
        file: cursor.origin.file,
        line: cursor.origin.line,
        column: cursor.end - cursor.start + 1,
    }
}

/// Where the byte at a place of a text came from, by the line markers before it.
pub fn position_of<'a>(text: &'a [u8], place: usize) -> Position<'a>
    ensures { site_of result ≡ site_at text.now place }
{
    let end = front(text, place).len();
    position_at(text, read_to(text, beginning(text), end))
}

/// The same of many places: in one pass where they stand in order.
pub fn positions_of<'a>(
    alloc: Global,
    text: &'a [u8],
    places: &[usize],
) -> Result<Vec<Position<'a>>, AllocError>
    ensures { IfOk result (λ found. map site_of found.items ≡ map (site_at text.now) places.now) }
{
    let mut found = Vec::with_capacity(alloc, places.len())?;
    let mut cursor = beginning(text);
    for place in places {
        let end = front(text, *place).len();
        cursor = read_to(text, read_before(text, cursor, end), end);
        found.push(position_at(text, cursor))?;
    }
    Ok(found)
}
