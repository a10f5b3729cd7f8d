//! A source in dtc's language: what it comes to with all that it takes in.
ghost use Rattle.dtman_host.specs.Outcome.{IsOutcome};

use dt_text::include::{Files, Shortfall, Whole, included};
use dtman_engine::{Compiled, DtcOptions, Fault};
use std::alloc::Global;
use std::hash::RandomState;

/// What a source comes to.
#[derive(Drop)]
pub enum Outcome {
    /// The text with all that it takes in, and the compiler's answer of it, whose lines are those of that text.
    Answered {
        text: Vec<u8>,
        answer: Result<Compiled, Fault>,
    },
    /// The text isn't whole.
    Short(Shortfall),
}

/// Compiles the source in a file of this name, which takes in files that are found by their names (dtc's manual, section 4.1).
pub fn compile_dtc<F: Files>(
    alloc: Global,
    hasher: RandomState,
    files: &mut F,
    name: &[u8],
    source: &[u8],
    options: DtcOptions,
) -> Outcome
    ensures { IsOutcome F.finds F.lacks name.now source.now options result }
{
    match included(alloc, files, name, source) {
        Ok(Whole { text, binaries }) => {
            let answer = dtman_engine::compile_dtc(
                alloc,
                hasher,
                text.as_slice(),
                binaries,
                options,
            );
            Outcome::Answered { text, answer }
        }
        Err(shortfall) => Outcome::Short(shortfall),
    }
}
