//! Values as dtc prints those of a source (`-O dts`): each part as it was written, with its labels.
//!
//! The Devicetree Specification v0.4, chapter 6, says what each form means; where dtc puts spaces and commas was tried by hand.

use crate::layout::Layout;
use crate::markers::{Mark, Marker, Written};
use std::alloc::{AllocError, Global};

fn opening(written: Written) -> &'static [u8] {
    match written {
        Written::Text => b"",
        Written::Bytes => b"[",
        Written::Halves => b"/bits/ 16 <",
        Written::Cells => b"<",
        Written::Doubles => b"/bits/ 64 <",
    }
}

fn closing(written: Written) -> &'static [u8] {
    match written {
        Written::Text => b"",
        Written::Bytes => b"]",
        _ => b">",
    }
}

fn put_mark(layout: &mut Layout, marker: Marker<'_>) -> Result<(), AllocError> {
    match marker.mark {
        Mark::Part(written) => {
            layout.put(b" ")?;
            layout.put(opening(written))
        }
        Mark::Label(label) => {
            layout.put(b" ")?;
            layout.put(label)?;
            layout.put(b":")
        }
        Mark::Given if marker.at > 0 => layout.put(b" "),
        Mark::Given => Ok(()),
    }
}

fn put_number(
    alloc: Global,
    layout: &mut Layout,
    written: Written,
    element: &[u8],
) -> Result<(), AllocError> {
    let mut number: u64 = 0;
    for byte in element {
        number = number.wrapping_shl(8) | u64::from(*byte);
    }
    let digits = match written {
        Written::Bytes => format!(in alloc; "{number:02x}")?,
        _ => format!(in alloc; "0x{number:02x}")?,
    };
    layout.put(digits.as_bytes())
}

fn put_numbers(
    alloc: Global,
    layout: &mut Layout,
    written: Written,
    bytes: &[u8],
) -> Result<(), AllocError> {
    let mut between = b"".as_slice();
    for element in bytes.chunks(written.width()) {
        layout.put(between)?;
        put_number(alloc, layout, written, element)?;
        between = b" ";
    }
    Ok(())
}

fn put_elements(
    alloc: Global,
    layout: &mut Layout,
    written: Written,
    bytes: &[u8],
) -> Result<(), AllocError> {
    match written {
        Written::Text if bytes.is_empty() => Ok(()),
        Written::Text => layout.put_text(bytes),
        _ => put_numbers(alloc, layout, written, bytes),
    }
}

// Where what a marker belongs to ends, from the last marker to the first: before the next part, or with the value.
fn ends_of(alloc: Global, value: &[u8], markers: &[Marker<'_>]) -> Result<Vec<usize>, AllocError> {
    let mut ends = Vec::with_capacity(alloc, markers.len())?;
    let mut part = value.len();
    for marker in markers.iter().rev() {
        let end = if part > marker.at { part } else { value.len() };
        ends.push(end)?;
        if marker.mark.is_part() {
            part = marker.at;
        }
    }
    Ok(ends)
}

/// Puts a value by its marks, the first of which is a part's or stands before one.
pub(crate) fn put_marked(
    alloc: Global,
    layout: &mut Layout,
    value: &[u8],
    markers: &[Marker<'_>],
) -> Result<(), AllocError> {
    let mut ends = ends_of(alloc, value, markers)?;
    let mut open = None;
    for (i, marker) in markers.iter().enumerate() {
        let end = ends.pop().unwrap_or(value.len());
        let next = match markers.get(i + 1) {
            Some(next) => next.at,
            None => value.len(),
        };
        put_mark(layout, *marker)?;
        if let Mark::Part(written) = marker.mark {
            open = Some(written);
        }
        let Some(written) = open else {
            continue;
        };
        let bytes = value.get(marker.at..next).unwrap_or(b"");
        put_elements(alloc, layout, written, bytes)?;
        if next == end {
            layout.put(closing(written))?;
            layout.put(if next == value.len() { b"" } else { b"," })?;
            open = None;
        }
    }
    Ok(())
}
