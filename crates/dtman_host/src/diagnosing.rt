//! What each command's refusal is of, by the files that it was given.
ghost use Rattle.std.specs.Prelude.{◌≡◌};
ghost use Rattle.dtman_engine.specs.BlobFaults.{blob_fault};
ghost use Rattle.dtman_engine.specs.Fault.{fault_value};

use dt_blob::{BlobError, ReadError, read};
use dtman_diagnosis::{
    BusText, Devices, Diagnosis, OverlayCulprit, Refused, TextKind, before_event, diagnose_blob,
    diagnose_device, diagnose_dtc, diagnose_event, diagnose_node, diagnose_overlay, diagnose_plan,
    diagnose_source, diagnose_text,
};
use dtman_engine::{BlobRole, Culprit, Fault, Position, Unread, replay_bytes};
use std::alloc::{AllocError, Global};
use std::hash::RandomState;

/// A file's name and its bytes.
#[derive(Clone, Copy)]
pub struct Given<'a> {
    pub name: &'a [u8],
    pub bytes: &'a [u8],
}

/// A file that was read, by its path.
pub fn file_of<'a>(path: &'a str, bytes: &'a Vec<u8>) -> Given<'a> {
    Given {
        name: path.as_bytes(),
        bytes: bytes.as_slice(),
    }
}

/// A board of which a plan is made.
#[derive(Clone, Copy)]
pub struct Planned<'a> {
    pub blob: Given<'a>,
    pub drivers: Given<'a>,
    pub kind: TextKind,
    /// The device that is asked for.
    pub path: Option<&'a [u8]>,
}

/// What a command read, of which its refusal is.
#[derive(Clone, Copy)]
pub enum Inputs<'a> {
    Source(Given<'a>),
    /// A source in dtc's language with all that it takes in, by the name of the file that is the user's.
    Whole(Given<'a>),
    Overlay {
        base: Given<'a>,
        overlay: Given<'a>,
    },
    Blob(Given<'a>),
    /// A blob of which a node is asked for, or a property of that.
    Node {
        blob: Given<'a>,
        path: &'a [u8],
        property: &'a [u8],
    },
    Plan(Planned<'a>),
    /// What nodes have, for `check`.
    Reference(Given<'a>),
    Replay {
        plan: Given<'a>,
        schedule: Given<'a>,
        hasher: RandomState,
    },
}

/// What a refusal is of.
pub fn diagnosed(alloc: Global, inputs: Inputs<'_>, fault: Fault) -> Result<Diagnosis, AllocError> {
    let number = fault.number;
    let refused = Refused {
        number,
        offset: fault.offset(),
    };
    match inputs {
        Inputs::Source(text) => diagnose_source(alloc, text.name, text.bytes, refused),
        Inputs::Whole(text) => diagnose_dtc(alloc, text.name, text.bytes, refused),
        Inputs::Overlay { base, overlay } => unapplied(alloc, base, overlay, fault),
        Inputs::Blob(blob) => {
            diagnose_blob(alloc, blob.name, blob.bytes, number, word_refused(fault))
        }
        Inputs::Node {
            blob,
            path,
            property,
        } => match number {
            53 => diagnose_node(alloc, blob.name, blob.bytes, path, Some(property)),
            _ => diagnose_blob(alloc, blob.name, blob.bytes, number, word_refused(fault)),
        },
        Inputs::Plan(planned) => unplanned(alloc, planned, fault),
        Inputs::Reference(text) => diagnose_text(
            alloc,
            text_of(text, TextKind::Reference, Devices::None),
            number,
            fault.line(),
        ),
        Inputs::Replay {
            plan,
            schedule,
            hasher,
        } => unreplayed(alloc, hasher, plan, schedule, fault),
    }
}

/// The fault of a blob that is refused without its word, which the reader tells.
pub fn blob_fault(alloc: Global, blob: &[u8], error: BlobError) -> Fault
    ensures { fault_value result ≡ blob_fault error }
{
    match read(alloc, blob) {
        Err(refused) if refused.kind == error => Fault::of_blob(BlobRole::Sole, refused),
        _ => Fault::from(error),
    }
}

// The word of a blob that is refused, where the fault tells one.
fn word_refused(fault: Fault) -> Option<ReadError> {
    match fault.culprit {
        Some(Culprit::Blob(Unread { refused, .. })) => Some(refused),
        _ => None,
    }
}

// What an overlay on a base refuses.
fn unapplied(
    alloc: Global,
    base: Given<'_>,
    overlay: Given<'_>,
    fault: Fault,
) -> Result<Diagnosis, AllocError> {
    diagnose_overlay(
        alloc,
        base.name,
        base.bytes,
        overlay.name,
        overlay.bytes,
        fault.number,
        overlay_culprit(fault),
    )
}

// What an overlay's refusal is of.
fn overlay_culprit(fault: Fault) -> Option<OverlayCulprit> {
    match fault.culprit {
        Some(Culprit::Overlay(error)) => Some(OverlayCulprit::Place(error)),
        Some(Culprit::Blob(Unread { role, refused })) => Some(match role {
            BlobRole::Applied => OverlayCulprit::Applied(refused),
            BlobRole::Sole | BlobRole::Base => OverlayCulprit::Base(refused),
        }),
        Some(Culprit::Property(_)) | None => None,
    }
}

fn text_of<'a>(text: Given<'a>, kind: TextKind, devices: Devices<'a>) -> BusText<'a> {
    BusText {
        kind,
        file: text.name,
        bytes: text.bytes,
        devices,
    }
}

/// What a plan refuses: of the blob, of the driver file, or of the path that is asked for, whose refusal tells no line.
fn unplanned(alloc: Global, planned: Planned<'_>, fault: Fault) -> Result<Diagnosis, AllocError> {
    let Planned {
        blob,
        drivers,
        kind,
        path,
    } = planned;
    let line = fault.line();
    match fault.number {
        53 if line.is_none() => diagnose_device(alloc, path.unwrap_or(&[]), blob.bytes),
        50..=53 => {
            let drivers = text_of(drivers, kind, Devices::Blob(blob.bytes));
            diagnose_text(alloc, drivers, fault.number, line)
        }
        54..=56 => {
            let property = match fault.culprit {
                Some(Culprit::Property(property)) => Some(property),
                _ => None,
            };
            diagnose_plan(alloc, blob.name, blob.bytes, fault.number, property)
        }
        number => diagnose_blob(alloc, blob.name, blob.bytes, number, word_refused(fault)),
    }
}

/// What a replay refuses: of the plan's file, of the schedule's, or of an event.
fn unreplayed(
    alloc: Global,
    hasher: RandomState,
    plan: Given<'_>,
    schedule: Given<'_>,
    fault: Fault,
) -> Result<Diagnosis, AllocError> {
    let (number, line) = (fault.number, fault.line());
    let devices = Devices::Plan {
        file: plan.name,
        bytes: plan.bytes,
    };
    let plan_text = text_of(plan, TextKind::Plan, devices);
    let events = text_of(schedule, TextKind::Schedule, devices);
    let Position::Event(event) = fault.position else {
        return match replay_bytes(alloc, hasher, plan.bytes, b"".as_slice()) {
            Err(_) => diagnose_text(alloc, plan_text, number, line),
            Ok(_) => diagnose_text(alloc, events, number, line),
        };
    };
    let before = before_event(schedule.bytes, event);
    match replay_bytes(alloc, hasher, plan.bytes, before) {
        Ok(report) => diagnose_event(alloc, events, event, report.as_slice(), number),
        Err(_) => diagnose_text(alloc, events, number, line),
    }
}
