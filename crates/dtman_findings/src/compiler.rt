//! The passes over a source, up to the first that refuses it.

use crate::sentences::{Incompletion, preprocess_sentence, short_sentence, source_sentence};
use crate::shelves::{Shelf, VERSION};
use crate::sites::{Site, site_of};
use dt_preprocess::{Reason, Refusal, Request, preprocess};
use dt_source::{SourceError, SourceErrorKind, parse};
use dt_text::include::{Incomplete, Shortfall, included};
use dt_text::lexeme::Language;
use dtman_lsp::{Board, Examiner, Files, Finding};
use std::alloc::{AllocError, Global};
use std::hash::RandomState;

/// What the builds of Linux and U-Boot define.
const DEFINES: [&str; 1] = ["__DTS__"];

/// What is read before a part of a board, so that it is read as a board.
const FRONT: [&str; 1] = [VERSION];

/// Reads boards by the repository's own passes: the preprocessor, what is taken in by dtc's words, and the grammar of dtc's language.
#[derive(Clone, Copy)]
pub struct Compiler {
    /// The seed of what hashes names.
    pub hasher: RandomState,
}

/// A finding in one list, and none where it lies in no file.
fn listed(alloc: Global, finding: Option<Finding>) -> Result<Vec<Finding>, AllocError> {
    let mut findings = Vec::new(alloc);
    if let Some(finding) = finding {
        findings.push(finding)?;
    }
    Ok(findings)
}

/// What the preprocessor refuses.
fn unprepared(alloc: Global, refusal: Refusal) -> Result<Option<Finding>, AllocError> {
    let Refusal {
        reason,
        path,
        line,
        column,
        word,
    } = refusal;
    if reason == Reason::NoMemory {
        return Err(AllocError);
    }
    let message = preprocess_sentence(alloc, reason, word.as_slice())?;
    Ok(Some(Finding {
        path,
        line,
        column,
        word,
        number: reason.number(),
        message,
    }))
}

/// Why a text isn't whole.
fn short(alloc: Global, path: &[u8], shortfall: Shortfall) -> Result<Option<Finding>, AllocError> {
    let Shortfall { reason, site } = shortfall;
    let told = match reason {
        Incomplete::NoMemory => return Err(AllocError),
        Incomplete::NoFile(_) => Incompletion::NoFile,
        Incomplete::TooDeep => Incompletion::TooDeep,
        Incomplete::TooLong => Incompletion::TooLong,
        Incomplete::Syntax => Incompletion::Syntax,
    };
    let message = short_sentence(alloc, told)?;
    let found = match site {
        Some(site) => Site::of_words(alloc, site)?,
        None => Site::whole(alloc, path)?,
    };
    Ok(Some(found.finding(told.number(), message)))
}

/// Whether a refusal is of what a part of a board lacks: of the rest of the text behind its end, or of a word that may be a macro.
fn is_lacking(text: &[u8], at: usize, word: &[u8]) -> bool {
    at >= text.len()
        || word
            .first()
            .is_some_and(|c| c.is_ascii_alphabetic() || *c == b'_')
}

/// What the grammar refuses: of a part of a board only what no other part can mend.
fn unread(
    alloc: Global,
    board: Board<'_>,
    text: &[u8],
    error: SourceError,
) -> Result<Option<Finding>, AllocError> {
    if error.kind == SourceErrorKind::NoMemory {
        return Err(AllocError);
    }
    let at = error.place.offset as usize;
    let site = site_of(alloc, board.path, text, at)?;
    if site.file.as_slice() == VERSION.as_bytes() {
        return Ok(None);
    }
    if !board.is_whole && is_lacking(text, at, site.word.as_slice()) {
        return Ok(None);
    }
    let message = source_sentence(alloc, error.kind, site.word.as_slice())?;
    Ok(Some(site.finding(error.number(), message)))
}

/// What is read before a text: nothing before a board that is whole.
fn front_of(is_whole: bool) -> &'static [&'static str] {
    if is_whole { &[] } else { &FRONT }
}

impl Compiler {
    /// The text that the preprocessor makes of a board.
    fn prepare<F: Files>(
        &self,
        alloc: Global,
        shelf: &mut Shelf<'_, F>,
        board: Board<'_>,
    ) -> Result<Vec<u8>, Refusal> {
        let request = Request {
            path: board.path,
            text: board.text,
            folders: board.folders,
            defines: &DEFINES,
            preincluded: front_of(board.is_whole),
        };
        match preprocess(alloc, self.hasher, shelf, &request) {
            Ok(made) => Ok(made.text),
            Err(refusal) => Err(refusal),
        }
    }

    /// What the passes behind the preprocessor refuse of its text.
    fn read<F: Files>(
        &self,
        alloc: Global,
        shelf: &mut Shelf<'_, F>,
        board: Board<'_>,
        text: &[u8],
    ) -> Result<Option<Finding>, AllocError> {
        let whole = match included(alloc, shelf, board.path, text) {
            Ok(whole) => whole.text,
            Err(shortfall) => return short(alloc, board.path, shortfall),
        };
        let refused = match parse(alloc, whole.as_slice(), Language::Dtc) {
            Ok(_) => None,
            Err(error) => Some(error),
        };
        match refused {
            Some(error) => unread(alloc, board, whole.as_slice(), error),
            None => Ok(None),
        }
    }
}

impl Examiner for Compiler {
    fn examine<F: Files>(
        &mut self,
        alloc: Global,
        files: &mut F,
        board: Board<'_>,
    ) -> Result<Vec<Finding>, AllocError> {
        let mut shelf = Shelf {
            files,
            folders: board.folders,
        };
        let finding = match self.prepare(alloc, &mut shelf, board) {
            Ok(text) => self.read(alloc, &mut shelf, board, text.as_slice())?,
            Err(refusal) => unprepared(alloc, refusal)?,
        };
        listed(alloc, finding)
    }
}
