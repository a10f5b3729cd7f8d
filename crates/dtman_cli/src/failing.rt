//! A failure as it is told, by how much is asked for.

use crate::json::fail_json;
use dtman_engine::{Fault, MAX_TEXT_LEN};
use dtman_host::{Detail, Failure, Host, INPUT, Surroundings, fail};

/// Tells a failure, and answers its exit status.
pub fn tell_failure<S: Surroundings, E: Eprint, T>(
    host: &mut Host<'_, S, E, T>,
    failure: Failure<'_>,
) -> u8 {
    let errors = host.errors;
    match host.detail {
        Detail::Json => fail_json(host.alloc, host.surroundings, errors, failure),
        Detail::Verbose => match failure {
            Failure::File(fault, path) => fail_file(host.surroundings, errors, fault, path),
            failure => fail(errors, failure),
        },
        Detail::Line => fail(errors, failure),
    }
}

// A fault of a file, with what the system says of it.
fn fail_file<S: Surroundings, E: Eprint>(
    surroundings: &mut S,
    errors: &E,
    fault: Fault,
    path: &str,
) -> u8 {
    let status = fail(errors, Failure::File(fault, path));
    if fault.number == 82 {
        tell_length(surroundings, errors, path);
    } else if let Some(error) = surroundings.reason() {
        let _ = eprintln!(errors; "{path}: {error}");
    }
    status
}

// How long a file is that is too long, where that is known.
fn tell_length<S: Surroundings, E: Eprint>(surroundings: &mut S, errors: &E, path: &str) {
    let len = if path == INPUT {
        None
    } else {
        surroundings.len(path)
    };
    let limit = MAX_TEXT_LEN as u64;
    let _ = match len {
        Some(len) if len > limit => {
            eprintln!(errors; "{path}: the file has {len} bytes; at most {limit} are read")
        }
        _ => eprintln!(errors; "{path}: at most {limit} bytes are read"),
    };
}
