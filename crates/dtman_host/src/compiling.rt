//! The blob of a source, or what is told of its refusal.

use crate::detail::Detail;
use crate::diagnosing::Given;
use crate::failure::Failure;
use crate::folders::compile_in;
use crate::further::{Again, source_told};
use crate::outcome::Outcome;
use crate::shortfalls::fallen_short;
use crate::surroundings::Surroundings;
use crate::user_places::in_user_file;
use dt_text::include::plain;
use dt_text::lexeme::Language;
use dtman_engine::{Compiled, DtcOptions, compile_bytes};
use std::alloc::Global;
use std::hash::RandomState;

/// How a source is compiled.
#[derive(Clone, Copy)]
pub struct Manner {
    /// Add the node of symbols.
    pub symbols: bool,
    /// How much is told of a refusal.
    pub detail: Detail,
}

/// The blob of a source of the profile.
pub fn profile_blob<'a>(
    alloc: Global,
    hasher: RandomState,
    source: Given<'_>,
    manner: Manner,
) -> Result<Vec<u8>, Failure<'a>> {
    match compile_bytes(alloc, hasher, source.bytes, manner.symbols) {
        Ok(blob) => Ok(blob),
        Err(fault) => {
            let again = Again {
                hasher,
                language: Language::Profile,
                symbols: manner.symbols,
            };
            Err(source_told(alloc, manner.detail, again, fault, source))
        }
    }
}

/// What was compiled, and the source with all that it takes in.
#[derive(Drop)]
pub struct Made {
    pub compiled: Compiled,
    pub text: Vec<u8>,
}

/// A board: a blob as a file has it, or a source that was compiled.
#[derive(Drop)]
pub enum Board {
    Blob(Vec<u8>),
    Source(Made),
}

impl Board {
    ghost use Rattle.std.specs.Prelude.{◌≡◌};
    ghost use Rattle.dtman_host.specs.BoardBlob.{board_blob};

    pub fn blob(&self) -> &Vec<u8>
        ensures { result.now.items ≡ board_blob self.now }
    {
        match self {
            Board::Blob(blob) => blob,
            Board::Source(made) => &made.compiled.blob,
        }
    }
}

/// The blob of a source in dtc's language, which takes in files beside it and in folders. The paths of those that are read are added.
pub fn dtc_made<'a, S: Surroundings>(
    alloc: Global,
    hasher: RandomState,
    surroundings: &mut S,
    folders: &[&str],
    found: &mut Vec<Vec<u8>>,
    source: Given<'_>,
    manner: Manner,
) -> Result<Made, Failure<'a>> {
    let options = DtcOptions {
        symbols: manner.symbols,
        boot_processor: None,
    };
    let outcome = compile_in(alloc, hasher, surroundings, folders, found, source, options);
    made_of(alloc, hasher, plain(source.name), manner, outcome)
}

fn made_of<'a>(
    alloc: Global,
    hasher: RandomState,
    name: &[u8],
    manner: Manner,
    outcome: Outcome,
) -> Result<Made, Failure<'a>> {
    match outcome {
        Outcome::Answered { text, answer } => match answer {
            Ok(compiled) => Ok(Made { compiled, text }),
            Err(fault) => {
                let bytes = text.as_slice();
                let text = Given { name, bytes };
                let fault = in_user_file(name, bytes, fault);
                let again = Again {
                    hasher,
                    language: Language::Dtc,
                    symbols: manner.symbols,
                };
                Err(source_told(alloc, manner.detail, again, fault, text))
            }
        },
        Outcome::Short(shortfall) => Err(fallen_short(alloc, name, manner.detail, shortfall)),
    }
}
