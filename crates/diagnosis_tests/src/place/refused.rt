//! What a compile refuses of a text, for the rows of its diagnosis.

use dt_build::{BuildError, build_dtc_within, build_within};
use dt_source::{Source, parse};
use dt_text::lexeme::Language;
use dtman_diagnosis::Refused;
use std::hash::RandomState;
use std::process::Abort;
use std::random::RandomSource;

/// A text in a language, and whether it gets symbols.
#[derive(Clone, Copy)]
pub(crate) struct Compiled<'a> {
    pub language: Language,
    pub text: &'a [u8],
    pub symbols: bool,
}

/// The refusal of a text by this number, with its byte where the compile, without any file, refuses it so.
pub(crate) fn refused_by<R: Abort + AllocGlobal + RandomSource>(
    rt: &R,
    compiled: Compiled<'_>,
    number: u8,
) -> Refused {
    let offset = match parse(rt.alloc(), compiled.text, compiled.language) {
        Err(error) if error.number() == number => Some(error.place.offset),
        Err(_) => None,
        Ok(source) => match build_error(rt, compiled, source) {
            Some(error) if error.number() == number => Some(error.at),
            _ => None,
        },
    };
    Refused { number, offset }
}

fn build_error<R: Abort + AllocGlobal + RandomSource>(
    rt: &R,
    compiled: Compiled<'_>,
    source: Source<'_>,
) -> Option<BuildError> {
    let alloc = rt.alloc();
    let hasher = RandomState::new(rt).expect(rt, "a seed");
    let Ok(source) = source.fill(alloc, Vec::new(alloc)) else {
        return None;
    };
    let error = match compiled.language {
        Language::Profile => {
            match build_within(alloc, hasher, &source, compiled.symbols, usize::MAX) {
                Ok(_) => return None,
                Err(error) => error,
            }
        }
        Language::Dtc => {
            match build_dtc_within(alloc, hasher, &source, compiled.symbols, usize::MAX) {
                Ok(_) => return None,
                Err(error) => error,
            }
        }
    };
    Some(error)
}
