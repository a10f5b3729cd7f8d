//! A text, parsed.
ghost use Rattle.std.specs.Prelude.{◌≡◌, ℕ, List, IfOk, IfErr};
ghost use Rattle.dt_source.specs.declared.error.SourceErrorKind.TheVariants.{TooLong};
ghost use Rattle.dt_text.specs.declared.lexeme.language.Language.{Language};
ghost use Rattle.dt_text.specs.declared.lexeme.lexeme.Fault.{Fault};
ghost use Rattle.dt_source.specs.Answers.{AtMostOne, NeverBoth};
ghost use Rattle.dt_source.specs.Laws.{OnlyMemoryRefusesWhatIsSaid, OnlyMemoryAndTheFaultRefuse};
ghost use Rattle.dt_source.specs.Meaning.{meaning_of, outlined};
ghost use Rattle.dt_source.specs.Places.{beginning};
ghost use Rattle.dt_source.specs.Parse.{IsShort, IsSource, Says, HasFirstFault, Refuses, IsRead, IfRefused};

use crate::error::{SourceError, SourceErrorKind};
use crate::place::Place;
use crate::refusals::{error_of, fault_error, refused_at};
use crate::source::source;
use crate::tree::{Outline, Source};
use dt_text::lexeme::{Fault, Language, ReadError, scan_front};
use std::alloc::Global;

/// The longest text of a source, in bytes: 16 MiB.
pub const MAX_TEXT_LEN: usize = 16_777_216;

// What the text's source says, and the first of its faults.
fn read<'a>(
    alloc: Global,
    text: &'a [u8],
    language: Language,
) -> Result<(Outline<'a>, Option<Fault>), ReadError>
    requires { IsShort text.now }
    ensures found { IfOk result (λ x. IsRead language text.now (outlined x.0) x.1) }
    ensures refused { IfErr result (λ e. IfRefused language text.now e) }
{
    let (lexemes, stop) = scan_front(alloc, text, language)?;
    match stop {
        None => source(alloc, language, text, lexemes.as_slice()),
        Some(place) => Err(refused_at(place, source(alloc, language, text, lexemes.as_slice()))),
    }
}

// The refusal of a text over 16 MiB.
fn too_long() -> SourceError
    ensures { result ≡ record { kind = TooLong; place = beginning } }
{
    SourceError {
        kind: SourceErrorKind::TooLong,
        place: Place { offset: 0, line: 1 },
    }
}

/// The source that the text spells in this language, or why there is none: a text over 16 MiB, then what isn't in the grammar or
/// nests too deep, then the first fault of a value in the order of the text.
pub fn parse<'a>(
    alloc: Global,
    text: &'a [u8],
    language: Language,
) -> Result<Source<'a>, SourceError>
    // What is answered is what the text says.
    ensures found { IfOk result (λ s. IsShort text.now × Says language text.now (meaning_of s)) }
    // Each refusal comes only where it should, and tells its place, by offset and line. So a text is too long where that is
    // told.
    ensures refused { IfErr result (λ e. Refuses language text.now e.kind e.place) }
{
    if text.len() > MAX_TEXT_LEN {
        return Err(too_long());
    }
    match read(alloc, text, language) {
        Err(refusal) => Err(error_of(text, refusal)),
        Ok((_, Some(fault))) => Err(fault_error(text, fault)),
        Ok(
            (
                Outline {
                    plugin,
                    reserves,
                    items,
                },
                None,
            ),
        ) => Ok(Source {
            plugin,
            reserves,
            items,
        }),
    }
}

/// A text spells one source at most, and one answer fits it: where it says something nothing but want of memory
/// refuses it, and where it has a fault nothing but that and want of memory.
pub fn one_source()
    ensures one { (language : Language) (text : List ℕ) → AtMostOne (IsSource language text) }
    ensures meaning { (language : Language) (text : List ℕ) → AtMostOne (Says language text) }
    ensures accepted { OnlyMemoryRefusesWhatIsSaid }
    ensures fault { (language : Language) (text : List ℕ) → NeverBoth (Says language text) (HasFirstFault language text) }
    ensures faulty { OnlyMemoryAndTheFaultRefuse }
{}
