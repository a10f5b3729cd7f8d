//! What a call tells its caller.
ghost use Rattle.std.specs.Prelude.{◌≡◌, Ok, Err, MatchResult};
ghost use Rattle.dtman_engine.specs.Fault.{fault_value};
ghost use Rattle.dtman_c.specs.Boards.{occupied};
ghost use Rattle.dtman_c.specs.Crossing.{Crosses, IsPut, IsRefused, is_said, refused, unnamed};

use dtman_engine::{Fault, Position};

/// The bytes are in the buffer.
pub(crate) const WRITTEN: u32 = 0;

/// The buffer has too little room, and is as it was.
const SHORT: u32 = 1;

/// There are no bytes, for the fault that is told. The buffer is as it was.
const REFUSED: u32 = 2;

/// No fault has the number whose name is asked for. The buffer is as it was.
const UNNAMED: u32 = 3;

/// The handle to be filled isn't empty.
const OCCUPIED: u32 = 6;

/// How a call ended.
#[repr(C)]
#[derive(Clone, Copy)]
pub struct Answer {
    pub status: u32,
    /// The fault's number.
    pub number: u32,
    /// How many bytes the answer has, whether or not the buffer holds them.
    pub length: usize,
    /// The fault's line of a text, from 1; 0 where it has none.
    pub line: usize,
    /// The byte of a source that is refused, from 1; 0 where the fault tells none.
    pub byte: usize,
    /// The fault's event of a schedule, from 1; 0 where it has none.
    pub event: usize,
}

/// Puts what an engine answered into the caller's buffer, where it fits.
pub(crate) fn give(answer: Result<Vec<u8>, Fault>, out: &mut [u8]) -> Answer
    ensures { MatchResult answer
        (λ bytes. Crosses (Ok bytes.items) out.old out.new result)
        (λ fault. Crosses (Err (fault_value fault)) out.old out.new result) }
{
    match answer {
        Ok(bytes) => put(bytes.as_slice(), out),
        Err(fault) => placed_refusal(&fault),
    }
}

/// Puts bytes into the caller's buffer, where they fit.
pub(crate) fn put(bytes: &[u8], out: &mut [u8]) -> Answer
    ensures { IsPut bytes.now out.old out.new result }
{
    let length = bytes.len();
    if length > out.len() {
        return told(SHORT, length);
    }
    out[..length].copy_from_slice(bytes);
    told(WRITTEN, length)
}

/// No fault has the number.
pub(crate) fn unnamed() -> Answer
    ensures { result ≡ unnamed }
{
    told(UNNAMED, 0)
}

/// The handle to be filled isn't empty.
pub(crate) fn occupied() -> Answer
    ensures { result ≡ occupied }
{
    told(OCCUPIED, 0)
}

pub(crate) fn told(status: u32, length: usize) -> Answer
    ensures { result ≡ record { status = status; number = 0; length = length; line = 0; byte = 0; event = 0 } }
{
    Answer {
        status,
        number: 0,
        length,
        line: 0,
        byte: 0,
        event: 0,
    }
}

// Whether a fault of this number is of what a source says.
fn is_said(number: u8) -> bool
    ensures { result ≡ is_said number }
{
    20 <= number && number <= 28
}

// A fault, with its place in what a source says.
fn placed_refusal(fault: &Fault) -> Answer
    ensures { IsRefused (fault_value fault.now) result }
{
    match fault.position {
        Position::Within(place) if is_said(fault.number) => Answer {
            line: place.line,
            byte: place.offset as usize + 1,
            ..refusal(fault)
        },
        _ => refusal(fault),
    }
}

pub(crate) fn refusal(fault: &Fault) -> Answer
    ensures { result ≡ refused (fault_value fault.now) }
{
    let answer = Answer {
        number: u32::from(fault.number),
        ..told(REFUSED, 0)
    };
    match fault.position {
        Position::Nowhere | Position::Within(_) => answer,
        Position::Line(line) => Answer { line, ..answer },
        Position::At(place) => Answer {
            line: place.line,
            byte: place.offset as usize + 1,
            ..answer
        },
        Position::Event(event) => Answer { event, ..answer },
    }
}
