//! JSON, as it is sent (JSON-RPC 2.0; Language Server Protocol 3.17, "Basic JSON Structures").

use crate::message::Id;
use dt_outline::{Lines, Place, Span};
use json::Writer;
use std::alloc::{AllocError, Global};
use std::str;

/// A message that is being written.
pub(crate) type Out = Writer<Global>;

/// What refuses a request (Language Server Protocol 3.17, `ErrorCodes`).
#[derive(Clone, Copy, PartialEq, Eq, Debug)]
pub(crate) enum Refusal {
    Parse,
    Request,
    Method,
    Params,
    NotInitialized,
}

impl Refusal {
    fn code(self) -> i64 {
        match self {
            Refusal::Parse => -32700,
            Refusal::Request => -32600,
            Refusal::Method => -32601,
            Refusal::Params => -32602,
            Refusal::NotInitialized => -32002,
        }
    }

    fn words(self) -> &'static str {
        match self {
            Refusal::Parse => "this is no JSON",
            Refusal::Request => "this can't be asked for here",
            Refusal::Method => "there is no such method",
            Refusal::Params => "the parameters don't fit the method",
            Refusal::NotInitialized => "`initialize` comes first",
        }
    }
}

fn begin(alloc: Global) -> Result<Out, AllocError> {
    let mut out = Writer::new(Vec::new(alloc));
    out.begin_object()?;
    out.key("jsonrpc")?;
    out.string("2.0")?;
    Ok(out)
}

fn put_id(out: &mut Out, id: Id<'_>) -> Result<(), AllocError> {
    out.key("id")?;
    match id {
        Id::Number(number) => out.i64(number),
        Id::Text(text) => out.string(text),
        Id::None => out.null(),
    }
}

/// An answer, up to its result.
pub(crate) fn begin_answer(alloc: Global, id: Id<'_>) -> Result<Out, AllocError> {
    let mut out = begin(alloc)?;
    put_id(&mut out, id)?;
    out.key("result")?;
    Ok(out)
}

/// A notification, up to its parameters.
pub(crate) fn begin_notification(alloc: Global, method: &str) -> Result<Out, AllocError> {
    let mut out = begin(alloc)?;
    out.key("method")?;
    out.string(method)?;
    out.key("params")?;
    Ok(out)
}

/// Ends a message behind its result or its parameters.
pub(crate) fn end(out: Out) -> Result<Vec<u8>, AllocError> {
    let mut out = out;
    out.end_object()?;
    Ok(out.into_inner())
}

/// The answer that refuses a request.
pub(crate) fn refused(alloc: Global, id: Id<'_>, refusal: Refusal) -> Result<Vec<u8>, AllocError> {
    let mut out = begin(alloc)?;
    put_id(&mut out, id)?;
    out.key("error")?;
    out.begin_object()?;
    out.key("code")?;
    out.i64(refusal.code())?;
    out.key("message")?;
    out.string(refusal.words())?;
    out.end_object()?;
    end(out)
}

pub(crate) fn put_number(out: &mut Out, name: &str, number: usize) -> Result<(), AllocError> {
    out.key(name)?;
    out.u64(number as u64)
}

pub(crate) fn put_string(out: &mut Out, name: &str, text: &str) -> Result<(), AllocError> {
    out.key(name)?;
    out.string(text)
}

/// Bytes that may be no text: then they are left out.
pub(crate) fn put_bytes(out: &mut Out, name: &str, bytes: &[u8]) -> Result<(), AllocError> {
    put_string(out, name, str::from_utf8(bytes).unwrap_or(""))
}

pub(crate) fn put_true(out: &mut Out, name: &str) -> Result<(), AllocError> {
    out.key(name)?;
    out.boolean(true)
}

fn put_place(out: &mut Out, name: &str, place: Place) -> Result<(), AllocError> {
    out.key(name)?;
    out.begin_object()?;
    put_number(out, "line", place.line)?;
    put_number(out, "character", place.column)?;
    out.end_object()
}

/// A text and its lines.
#[derive(Clone, Copy)]
pub(crate) struct Page<'t> {
    pub text: &'t [u8],
    pub lines: &'t Lines,
}

/// A range, by two places.
pub(crate) fn put_places(out: &mut Out, start: Place, end: Place) -> Result<(), AllocError> {
    out.begin_object()?;
    put_place(out, "start", start)?;
    put_place(out, "end", end)?;
    out.end_object()
}

/// The range of bytes.
pub(crate) fn put_range(out: &mut Out, page: Page<'_>, span: Span) -> Result<(), AllocError> {
    let start = page.lines.place(page.text, span.start);
    let end = page.lines.place(page.text, span.end);
    put_places(out, start, end)
}

/// A location: a file's URI and a range of it.
pub(crate) fn put_location(
    out: &mut Out,
    uri: &str,
    page: Page<'_>,
    span: Span,
) -> Result<(), AllocError> {
    out.begin_object()?;
    put_string(out, "uri", uri)?;
    out.key("range")?;
    put_range(out, page, span)?;
    out.end_object()
}
