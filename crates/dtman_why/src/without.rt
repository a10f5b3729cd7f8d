//! A driver file without a driver.

use bus_plan::{Fields, lines_of};
use std::alloc::{AllocError, Global};

// Whether a line is that of this driver.
fn is_of(line: &[u8], name: &[u8]) -> bool {
    let mut fields = Fields::of(line);
    match (fields.next(), fields.next()) {
        (Some(word), Some(driver)) => word == b"driver".as_slice() && driver == name,
        _ => false,
    }
}

// Copies the lines, and has that of this driver skipped in its place. Says whether it was there.
fn skip(text: &mut Vec<u8>, drivers: &[u8], name: &[u8]) -> Result<bool, AllocError> {
    let mut any = false;
    for line in lines_of(drivers) {
        if is_of(line, name) {
            text.push(b'#')?;
            any = true;
        }
        text.extend_from_slice(line)?;
        text.push(b'\n')?;
    }
    Ok(any)
}

/// The driver file without the line of this driver, each other line under its number; nothing where it has no such line.
pub fn without_driver(
    alloc: Global,
    drivers: &[u8],
    name: &[u8],
) -> Result<Option<Vec<u8>>, AllocError> {
    let mut text = Vec::new(alloc);
    if skip(&mut text, drivers, name)? {
        return Ok(Some(text));
    }
    Ok(None)
}
