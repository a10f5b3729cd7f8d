//! How a text is refused: by what can't be read, or by the first fault of a value.
ghost use Rattle.std.specs.Prelude.{◌≡◌};
ghost use Rattle.dt_source.specs.Answers.{IsRefusedIn};
ghost use Rattle.dt_source.specs.Parse.{IsShort, HasFirstFault, IfRefused, refused_at};

use crate::error::{SourceError, SourceErrorKind, kind_of_fault, kind_of_refusal};
use crate::place::{Place, place_at};
use crate::tree::Outline;
use dt_text::lexeme::{Fault, ReadError, Refusal, RefusalKind};

/// The refusal of a text that has no lexeme at this place: what is refused before it, or else that place.
pub(crate) fn refused_at(
    place: u32,
    read: Result<(Outline<'_>, Option<Fault>), ReadError>,
) -> ReadError
    ensures { result ≡ refused_at place read.entry }
{
    let none = Refusal {
        kind: RefusalKind::Syntax,
        place,
    };
    match read {
        Ok(_) => ReadError::Refused(none),
        Err(ReadError::NoMemory) => ReadError::NoMemory,
        Err(ReadError::Refused(refusal)) => ReadError::Refused(if refusal.place < place {
            refusal
        } else {
            none
        }),
    }
}

/// Why a text is refused that isn't in the grammar or nests too deep, and where.
pub(crate) fn error_of(text: &[u8], refusal: ReadError) -> SourceError
    requires { IsShort text.now }
    ensures { IsRefusedIn (λ language. IfRefused language text.now refusal) text.now result }
{
    match refusal {
        ReadError::NoMemory => SourceError {
            kind: SourceErrorKind::NoMemory,
            place: Place { offset: 0, line: 0 },
        },
        ReadError::Refused(refusal) => SourceError {
            kind: kind_of_refusal(refusal.kind),
            place: place_at(text, refusal.place),
        },
    }
}

/// Why a text is refused whose first fault this is, and where.
pub(crate) fn fault_error(text: &[u8], fault: Fault) -> SourceError
    requires { IsShort text.now }
    ensures { IsRefusedIn (λ language. HasFirstFault language text.now fault) text.now result }
{
    SourceError {
        kind: kind_of_fault(fault.kind),
        place: place_at(text, fault.place),
    }
}
