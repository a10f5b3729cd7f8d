//! Why the bytes of a blob are no tree: the word, its node, and the name that no tree has.

use crate::reports::{Failure, Wrong, report_fault};
use crate::saying::said_of;
use dt_blob::{ReadError, Wanted, read};
use dtman_diagnosis::{Diagnosis, Location, Note, copied, diagnose_blob};
use dtman_engine::Fault;
use dtman_host::{Given, Host, Surroundings};
use dtman_layout::name_around;
use std::alloc::{AllocError, Global};
use std::str;

/// Says a refusal of a blob, with the place of its word where the blob is what is refused.
pub(crate) fn report_blob<S: Surroundings, E: Eprint, T>(
    host: &mut Host<'_, S, E, T>,
    blob: Given<'_>,
    fault: &Fault,
) -> Failure<'static> {
    let refused = match read(host.alloc, blob.bytes) {
        Err(refused) if refused.kind.number() == fault.number && fault.number != 0 => refused,
        _ => return report_fault(host, blob, fault),
    };
    match line_of(host.alloc, blob, fault, refused) {
        Ok(line) => {
            host.tell(line.as_bytes());
            Failure::Said(Wrong::Text)
        }
        Err(_) => Failure::NoMemory,
    }
}

// `Error: FILE:0xOFFSET: NAME: words`.
fn line_of(
    alloc: Global,
    blob: Given<'_>,
    fault: &Fault,
    refused: ReadError,
) -> Result<String, AllocError> {
    let Given { name, bytes } = blob;
    let mut diagnosis = diagnose_blob(alloc, name, bytes, fault.number, Some(refused))?;
    add_name(alloc, &mut diagnosis, bytes, refused)?;
    let file = str::from_utf8(name).unwrap_or("?");
    let place = match &diagnosis.location {
        Location::Offset { offset, .. } => format!(in alloc; ":0x{offset:x}")?,
        _ => String::new(alloc),
    };
    let words = said_of(alloc, diagnosis)?;
    let name = fault.name;
    format!(in alloc; "Error: {file}{place}: {name}: {words}\n")
}

// The name that is refused, or of the node or property that is.
fn add_name(
    alloc: Global,
    diagnosis: &mut Diagnosis,
    blob: &[u8],
    refused: ReadError,
) -> Result<(), AllocError> {
    if !is_of_name(refused.wanted) {
        return Ok(());
    }
    let name = name_around(blob, refused.at).unwrap_or(b"");
    if !name.is_empty() {
        let path = copied(alloc, name.get(..MAX_SHOWN).unwrap_or(name))?;
        let words = "its name is ";
        diagnosis.notes.push(Note::Node { words, path })?;
    }
    Ok(())
}

/// How much of a name is shown, in bytes.
const MAX_SHOWN: usize = 80;

fn is_of_name(wanted: Wanted) -> bool {
    matches!(
        wanted,
        Wanted::UnnamedRoot
            | Wanted::Depth
            | Wanted::NodeName
            | Wanted::PropertyName
            | Wanted::NodeBehindChild
            | Wanted::OtherName
    )
}
