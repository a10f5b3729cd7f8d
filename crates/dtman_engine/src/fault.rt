//! A refusal as the program prints it.
ghost use Rattle.std.specs.Prelude.{◌≡◌, None, Some};
ghost use Rattle.dtman_engine.specs.Culprit.{IsOfNoBlob, word_of};
ghost use Rattle.dtman_engine.specs.declared.culprit.BlobRole.TheVariants.{Sole};
ghost use Rattle.dtman_engine.specs.declared.culprit.Culprit.TheVariants.{Overlay};
ghost use Rattle.dtman_engine.specs.Fault.{fault_value, no_memory, cannot_read, cannot_write, file_too_long};
ghost use Rattle.dtman_engine.specs.SourceFaults.{build_fault, build_position, source_fault};
ghost use Rattle.dtman_engine.specs.BlobFaults.{blob_fault};
ghost use Rattle.dtman_engine.specs.OverlayFaults.{overlay_fault};
ghost use Rattle.dtman_engine.specs.TextFaults.{text_fault};
ghost use Rattle.dtman_engine.specs.EventFaults.{event_fault};
ghost use Rattle.dtman_engine.specs.RunFaults.{run_fault};
ghost use Rattle.dtman_engine.specs.PreprocessFaults.{preprocess_fault};

use crate::culprit::{BlobRole, Culprit};
use bus_core::Refusal;
use bus_drivers::PlanFault;
use bus_manager::RunError;
use bus_plan::PlanError;
use dt_blob::{BlobError, ReadError};
use dt_build::BuildError;
use dt_overlay::OverlayError;
use dt_preprocess::Reason;
use dt_source::{Place, SourceError, SourceErrorKind, place_at};
use std::alloc::AllocError;
use std::fmt;

/// Where a fault was found.
#[derive(Clone, Copy, Debug, PartialEq, Eq)]
pub enum Position {
    Nowhere,
    /// A line of a text file, from 1.
    Line(usize),
    /// A place in a source, whose line is told beside the name.
    At(Place),
    /// A place in what a source says, whose line isn't.
    Within(Place),
    /// An event of a schedule, from 1.
    Event(usize),
}

/// The number, name and position of a refusal. Numbers and names are those of the crate that refused.
#[derive(Clone, Copy, Debug)]
pub struct Fault {
    pub number: u8,
    pub name: &'static str,
    pub position: Position,
    pub culprit: Option<Culprit>,
}

impl Fault {
    ghost use Rattle.dtman_engine.specs.Fault.{line_in, offset_in};

    /// The line that it tells, from 1, where it tells one.
    pub fn line(&self) -> Option<usize>
        ensures { result ≡ line_in self.now.position }
    {
        match self.position {
            Position::Line(line) => Some(line),
            Position::At(place) | Position::Within(place) => Some(place.line),
            _ => None,
        }
    }

    /// The byte of the source that is refused, where it tells one.
    pub fn offset(&self) -> Option<u32>
        ensures { result ≡ offset_in self.now.position }
    {
        match self.position {
            Position::At(place) | Position::Within(place) => Some(place.offset),
            _ => None,
        }
    }

    /// A growth was refused.
    pub fn no_memory() -> Fault
        ensures told { fault_value result ≡ no_memory }
        ensures nothing { result.culprit ≡ None }
    {
        Fault {
            number: 0,
            name: "NoMemory",
            position: Position::Nowhere,
            culprit: None,
        }
    }

    /// What this text says makes no tree.
    pub fn of_build(text: &[u8], error: BuildError) -> Fault
        ensures told { fault_value result ≡ build_fault error.kind }
        ensures placed { result.position ≡ build_position text.now error }
    {
        Fault {
            number: error.number(),
            name: error.name(),
            position: match error.at {
                0 => Position::Nowhere,
                at => Position::Within(place_at(text, at)),
            },
            culprit: None,
        }
    }

    /// The bytes of the blob in this role are refused.
    pub fn of_blob(role: BlobRole, refused: ReadError) -> Fault
        ensures told { fault_value result ≡ blob_fault refused.kind }
        ensures word { result.culprit ≡ word_of refused.kind (record { role = role; refused = refused }) }
    {
        Fault {
            culprit: Culprit::of_blob(role, refused),
            ..Fault::from(refused.kind)
        }
    }

    /// A file can't be read.
    pub fn cannot_read() -> Fault
        ensures { fault_value result ≡ cannot_read }
    {
        Fault {
            number: 80,
            name: "CannotRead",
            position: Position::Nowhere,
            culprit: None,
        }
    }

    /// A file can't be written.
    pub fn cannot_write() -> Fault
        ensures { fault_value result ≡ cannot_write }
    {
        Fault {
            number: 81,
            name: "CannotWrite",
            position: Position::Nowhere,
            culprit: None,
        }
    }

    /// A text file of the bus has more bytes than are read.
    pub fn file_too_long() -> Fault
        ensures { fault_value result ≡ file_too_long }
    {
        Fault {
            number: 82,
            name: "FileTooLong",
            position: Position::Nowhere,
            culprit: None,
        }
    }
}

impl From<AllocError> for Fault {
    ghost from_gives = { λ _ fault. (fault_value fault ≡ no_memory) × (fault.culprit ≡ None) };

    fn from(_error: AllocError) -> Fault {
        Fault::no_memory()
    }
}

impl From<PlanError> for Fault {
    ghost from_gives = { λ error fault. fault_value fault ≡ text_fault error };

    fn from(error: PlanError) -> Fault {
        Fault {
            number: error.number(),
            name: error.name(),
            position: match error.line() {
                Some(line) => Position::Line(line),
                None => Position::Nowhere,
            },
            culprit: None,
        }
    }
}

impl From<PlanFault> for Fault {
    ghost from_gives = { λ refused fault. (fault_value fault ≡ text_fault refused) × IsOfNoBlob fault.culprit };

    fn from(refused: PlanFault) -> Fault {
        Fault {
            culprit: Culprit::of_property(refused.culprit()),
            ..Fault::from(refused.error())
        }
    }
}

/// The place is that of the text. Want of memory is no line's.
impl From<SourceError> for Fault {
    ghost from_gives = { λ error fault. fault_value fault ≡ source_fault error.kind error.place };

    fn from(error: SourceError) -> Fault {
        Fault {
            number: error.number(),
            name: error.name(),
            position: match error.kind {
                SourceErrorKind::NoMemory => Position::Nowhere,
                _ => Position::At(error.place),
            },
            culprit: None,
        }
    }
}

impl From<OverlayError> for Fault {
    ghost from_gives = { λ error fault. (fault_value fault ≡ overlay_fault error) × (fault.culprit ≡ Some (Overlay error)) };

    fn from(error: OverlayError) -> Fault {
        Fault {
            number: error.number(),
            name: error.name(),
            position: Position::Nowhere,
            culprit: Some(Culprit::Overlay(error)),
        }
    }
}

impl From<BlobError> for Fault {
    ghost from_gives = { λ error fault. (fault_value fault ≡ blob_fault error) × (fault.culprit ≡ None) };

    fn from(error: BlobError) -> Fault {
        Fault {
            number: error.number(),
            name: error.name(),
            position: Position::Nowhere,
            culprit: None,
        }
    }
}

/// What the bytes refuse of the only blob.
impl From<ReadError> for Fault {
    ghost from_gives = { λ refused fault. (fault_value fault ≡ blob_fault refused.kind)
        × (fault.culprit ≡ word_of refused.kind (record { role = Sole; refused = refused })) };

    fn from(refused: ReadError) -> Fault {
        Fault::of_blob(BlobRole::Sole, refused)
    }
}

impl From<RunError> for Fault {
    ghost from_gives = { λ error fault. (fault_value fault ≡ run_fault error) × (fault.culprit ≡ None) };

    fn from(error: RunError) -> Fault {
        Fault {
            number: error.number(),
            name: error.name(),
            position: Position::Nowhere,
            culprit: None,
        }
    }
}

/// The place stands in a file of its own, whose name no fault has.
impl From<Reason> for Fault {
    ghost from_gives = { λ reason fault. (fault_value fault ≡ preprocess_fault reason) × (fault.culprit ≡ None) };

    fn from(reason: Reason) -> Fault {
        Fault {
            number: reason.number(),
            name: reason.name(),
            position: Position::Nowhere,
            culprit: None,
        }
    }
}

/// The refusal of the event with this number. Want of memory is no event's.
impl From<(usize, Refusal)> for Fault {
    ghost from_gives = { λ refused fault. fault_value fault ≡ event_fault refused.0 refused.1 };

    fn from((number, refusal): (usize, Refusal)) -> Fault {
        Fault {
            number: refusal.number(),
            name: refusal.name(),
            position: match refusal {
                Refusal::NoMemory => Position::Nowhere,
                _ => Position::Event(number),
            },
            culprit: None,
        }
    }
}

impl fmt::Display for Fault {
    ghost use Rattle.std.specs.Prelude.{Some};
    ghost use Rattle.dtman_engine.specs.Fault.{fault_line};

    ghost output = { λ fault. Some (fault_line fault) };

    fn fmt<W: fmt::Write>(&self, f: &mut fmt::Formatter<W>) -> fmt::Result {
        let Fault {
            number,
            name,
            position,
            ..
        } = *self;
        match position {
            Position::Nowhere | Position::Within(_) => write!(f, "error {number} {name}"),
            Position::Line(line) => write!(f, "error {number} {name} line {line}"),
            Position::At(place) => write!(f, "error {number} {name} line {}", place.line),
            Position::Event(event) => write!(f, "error {number} {name} event {event}"),
        }
    }
}
