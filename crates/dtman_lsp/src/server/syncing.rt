//! Texts that are opened, changed and closed (Language Server Protocol 3.17, "Text Document Synchronization").

use crate::address::path_of;
use crate::library::Opened;
use crate::message::{place_in, text_at};
use crate::ports::{Examiner, Files};
use crate::server::state::Server;
use dt_outline::{Lines, Span};
use serde_json::Value;
use std::alloc::{AllocError, Global};

/// The bytes of a text that a range names, the start first.
fn span_in(alloc: Global, text: &[u8], range: &Value) -> Result<Option<Span>, AllocError> {
    let (Some(start), Some(end)) = (range.get("start"), range.get("end")) else {
        return Ok(None);
    };
    let (Some(start), Some(end)) = (place_in(start), place_in(end)) else {
        return Ok(None);
    };
    let lines = Lines::new(alloc, text)?;
    let start = lines.offset(text, start);
    let end = lines.offset(text, end);
    Ok(Some(Span {
        start: start.min(end),
        end: start.max(end),
    }))
}

/// A text with bytes of it replaced.
fn spliced(alloc: Global, text: &[u8], span: Span, new: &[u8]) -> Result<Vec<u8>, AllocError> {
    let before = text.get(..span.start).unwrap_or(text);
    let behind = text.get(span.end..).unwrap_or(b"");
    let mut out = Vec::from_slice(alloc, before)?;
    out.extend_from_slice(new)?;
    out.extend_from_slice(behind)?;
    Ok(out)
}

/// The text behind a change: all of it anew, or with a range replaced. A change that isn't understood changes nothing.
fn with_change(alloc: Global, text: Vec<u8>, change: &Value) -> Result<Vec<u8>, AllocError> {
    let Some(new) = text_at(change, "/text") else {
        return Ok(text);
    };
    let new = new.as_bytes();
    let Some(range) = change.get("range") else {
        return Vec::from_slice(alloc, new);
    };
    match span_in(alloc, text.as_slice(), range)? {
        Some(span) => spliced(alloc, text.as_slice(), span, new),
        None => Ok(text),
    }
}

fn with_changes(alloc: Global, text: &[u8], changes: &[Value]) -> Result<Vec<u8>, AllocError> {
    let mut text = Vec::from_slice(alloc, text)?;
    for change in changes {
        text = with_change(alloc, text, change)?;
    }
    Ok(text)
}

fn opened_as(alloc: Global, message: &Value, uri: &str) -> Result<Opened, AllocError> {
    Ok(Opened {
        uri: String::from_str(alloc, uri)?,
        version: message
            .pointer("/params/textDocument/version")
            .and_then(Value::as_i64),
    })
}

impl<X: Examiner> Server<'_, X> {
    /// A text is opened.
    pub(crate) fn opened<F: Files>(
        &mut self,
        message: &Value,
        files: &mut F,
    ) -> Result<Vec<Vec<u8>>, AllocError> {
        let (Some(uri), Some(text)) = (
            text_at(message, "/params/textDocument/uri"),
            text_at(message, "/params/textDocument/text"),
        ) else {
            return Ok(Vec::new(self.alloc));
        };
        let path = path_of(self.alloc, uri)?;
        let text = Vec::from_slice(self.alloc, text.as_bytes())?;
        let opened = opened_as(self.alloc, message, uri)?;
        self.library.forget();
        self.library.open(path.as_slice(), text, opened)?;
        self.judge(path.as_slice(), files)
    }

    /// A text that is open changes.
    pub(crate) fn changed<F: Files>(
        &mut self,
        message: &Value,
        files: &mut F,
    ) -> Result<Vec<Vec<u8>>, AllocError> {
        let changes = message
            .pointer("/params/contentChanges")
            .and_then(Value::as_array);
        let (Some(uri), Some(changes)) = (text_at(message, "/params/textDocument/uri"), changes)
        else {
            return Ok(Vec::new(self.alloc));
        };
        let path = path_of(self.alloc, uri)?;
        let text = match self.library.open_at(path.as_slice()) {
            Some(source) => with_changes(self.alloc, source.text.as_slice(), changes.as_slice())?,
            None => return Ok(Vec::new(self.alloc)),
        };
        let opened = opened_as(self.alloc, message, uri)?;
        self.library.open(path.as_slice(), text, opened)?;
        self.judge(path.as_slice(), files)
    }

    /// A text is closed: the file on disk counts again.
    pub(crate) fn closed(&mut self, message: &Value) -> Result<Vec<Vec<u8>>, AllocError> {
        let Some(uri) = text_at(message, "/params/textDocument/uri") else {
            return Ok(Vec::new(self.alloc));
        };
        let path = path_of(self.alloc, uri)?;
        // told by the editor's own URI, which goes with the text
        let bodies = self.forget_board(path.as_slice())?;
        self.library.close(path.as_slice());
        Ok(bodies)
    }
}
