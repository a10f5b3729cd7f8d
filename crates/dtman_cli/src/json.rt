//! Failures as objects of JSON.

use dtman_diagnosis::{Diagnosis, Location, Note, Subject, copied, json_of};
use dtman_engine::{Fault, MAX_TEXT_LEN};
use dtman_host::{FILE, Failure, INPUT, REFUSED, Surroundings, fail};
use std::alloc::{AllocError, Global};

/// Prints the object of a refusal, and answers its exit status. What is no refusal is told in words.
pub fn fail_json<S: Surroundings, E: Eprint>(
    alloc: Global,
    surroundings: &mut S,
    errors: &E,
    failure: Failure<'_>,
) -> u8 {
    match failure {
        Failure::Refused(fault) => {
            print_object(errors, fault, of_fault(alloc, fault));
            REFUSED
        }
        Failure::File(fault, path) => {
            print_object(errors, fault, of_file(alloc, surroundings, fault, path));
            FILE
        }
        Failure::Lost(name) => {
            let fault = Fault::cannot_read();
            print_object(errors, fault, of_lost(alloc, fault, name.as_slice()));
            FILE
        }
        failure => fail(errors, failure),
    }
}

// The object, or as much as takes no memory.
fn print_object<E: Eprint>(errors: &E, fault: Fault, object: Result<String, AllocError>) {
    let Fault { number, name, .. } = fault;
    // Standard error is the last place to say anything: the status stands alone where it is closed.
    let _ = match object {
        Ok(object) => eprint!(errors; "{object}"),
        Err(_) => eprintln!(errors;
            "{{\"severity\":\"error\",\"number\":{number},\"name\":\"{name}\",\"message\":\"\"}}"
        ),
    };
}

fn at(alloc: Global, fault: Fault, location: Location) -> Diagnosis {
    Diagnosis {
        number: fault.number,
        location,
        kind: Subject::Nothing,
        subject: Vec::new(alloc),
        notes: Vec::new(alloc),
    }
}

fn of_fault(alloc: Global, fault: Fault) -> Result<String, AllocError> {
    let diagnosis = at(alloc, fault, Location::Nowhere);
    json_of(alloc, fault.name, fault.line(), &diagnosis)
}

fn of_lost(alloc: Global, fault: Fault, name: &[u8]) -> Result<String, AllocError> {
    let file = copied(alloc, name)?;
    let diagnosis = at(alloc, fault, Location::File { file });
    json_of(alloc, fault.name, None, &diagnosis)
}

// A fault of a file, with what the system says of it.
fn of_file<S: Surroundings>(
    alloc: Global,
    surroundings: &mut S,
    fault: Fault,
    path: &str,
) -> Result<String, AllocError> {
    let file = copied(alloc, path.as_bytes())?;
    let mut diagnosis = at(alloc, fault, Location::File { file });
    if let Some(words) = words_of(alloc, surroundings, fault, path)? {
        diagnosis.notes.push(Note::Said(words.into_bytes()))?;
    }
    json_of(alloc, fault.name, None, &diagnosis)
}

fn words_of<S: Surroundings>(
    alloc: Global,
    surroundings: &mut S,
    fault: Fault,
    path: &str,
) -> Result<Option<String>, AllocError> {
    if fault.number != 82 {
        return match surroundings.reason() {
            Some(error) => Ok(Some(format!(in alloc; "{error}")?)),
            None => Ok(None),
        };
    }
    let len = if path == INPUT {
        None
    } else {
        surroundings.len(path)
    };
    match len {
        Some(len) if len > MAX_TEXT_LEN as u64 => {
            Ok(Some(format!(in alloc; "the file has {len} bytes")?))
        }
        _ => Ok(None),
    }
}
