//! That a diagnosis has a text.

use dtman_diagnosis::{Diagnosis, diagnose_blob, text_of};
use dtman_engine::{Culprit, Unread, dump_bytes};
use std::alloc::{AllocError, Global};
use std::process::Abort;

/// That the lines of a refusal are these.
pub fn shows(
    rt: &impl Abort,
    alloc: Global,
    diagnosis: Result<Diagnosis, AllocError>,
    lines: &str,
) {
    let diagnosis = diagnosis.expect(rt, "a diagnosis");
    let Some((first, _)) = lines.split_once('\n') else {
        panic!(rt; "lines");
    };
    let text = text_of(alloc, first, &diagnosis).expect(rt, "a text");
    assert_eq!(rt; text.as_str(), lines);
}

/// What is told of a blob in a file of this name by this number, at the word that `dump` refuses.
pub fn diagnosed_blob(
    alloc: Global,
    file: &[u8],
    blob: &[u8],
    number: u8,
) -> Result<Diagnosis, AllocError> {
    let refused = match dump_bytes(alloc, blob) {
        Err(fault) => match fault.culprit {
            Some(Culprit::Blob(Unread { refused, .. })) => Some(refused),
            _ => None,
        },
        Ok(_) => None,
    };
    diagnose_blob(alloc, file, blob, number, refused)
}
