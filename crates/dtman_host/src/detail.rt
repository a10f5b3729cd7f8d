//! How much is told of a refusal, and the lines of one.

use crate::diagnosing::{Inputs, diagnosed};
use crate::failure::Failure;
use dtman_diagnosis::{Diagnosis, json_of, text_of};
use dtman_engine::Fault;
use std::alloc::{AllocError, Global};

/// How much is told of a refusal.
#[derive(Clone, Copy, Debug, PartialEq, Eq)]
pub enum Detail {
    /// its one line
    Line,
    /// where and what, too
    Verbose,
    /// the same as an object of JSON
    Json,
}

/// The words of a command line without those that ask for detail, which stand before or behind any others up to `--`.
#[derive(Drop)]
pub struct Asked<'a> {
    pub words: Vec<&'a str>,
    pub detail: Detail,
}

/// Takes the words that ask for detail out, but for `--json` behind `check`, which has that option itself.
pub fn asked_for<'a>(alloc: Global, words: &[&'a str]) -> Result<Asked<'a>, AllocError> {
    let mut asked = Asked {
        words: Vec::with_capacity(alloc, words.len())?,
        detail: Detail::Line,
    };
    let mut options = true;
    for word in words {
        if *word == "--" {
            options = false;
        }
        match detail_in(*word) {
            Some(detail) if options => {
                asked.detail = asked.detail.with(detail);
                if detail == Detail::Json && is_check(asked.words.as_slice()) {
                    asked.words.push(*word)?;
                }
            }
            _ => asked.words.push(*word)?,
        }
    }
    Ok(asked)
}

// What a word asks for.
fn detail_in(word: &str) -> Option<Detail> {
    match word {
        "-v" | "--verbose" => Some(Detail::Verbose),
        "--json" => Some(Detail::Json),
        _ => None,
    }
}

fn is_check(words: &[&str]) -> bool {
    words.get(1).copied() == Some("check")
}

impl Detail {
    // With what a further word asks for: an object tells all.
    fn with(self, other: Detail) -> Detail {
        match self {
            Detail::Json => Detail::Json,
            _ => other,
        }
    }
}

/// A refusal of what a command read, as it is told: by its line, or in detail.
pub fn told<'a>(alloc: Global, detail: Detail, fault: Fault, inputs: Inputs<'_>) -> Failure<'a> {
    if detail == Detail::Line {
        return Failure::Refused(fault);
    }
    refusal(alloc, detail, fault, diagnosed(alloc, inputs, fault))
}

/// A refusal with its lines. Where there is no memory for them, it has its one line.
pub fn refusal<'a>(
    alloc: Global,
    detail: Detail,
    fault: Fault,
    diagnosis: Result<Diagnosis, AllocError>,
) -> Failure<'a> {
    if fault.number == 0 {
        return Failure::Refused(fault);
    }
    match diagnosis {
        Ok(diagnosis) => match lines_of(alloc, detail, fault, &diagnosis) {
            Ok(lines) => Failure::Told(lines),
            Err(_) => Failure::Refused(fault),
        },
        Err(_) => Failure::Refused(fault),
    }
}

fn lines_of(
    alloc: Global,
    detail: Detail,
    fault: Fault,
    diagnosis: &Diagnosis,
) -> Result<String, AllocError> {
    if detail == Detail::Json {
        return json_of(alloc, fault.name, fault.line(), diagnosis);
    }
    let first = format!(in alloc; "{fault}")?;
    text_of(alloc, first.as_str(), diagnosis)
}
