//! Splices: a backslash, blanks and a line's end are taken out, and CR LF is LF (C11, 5.1.1.2, phase 2).

use crate::lexing::bytes::{behind, blanks, front};
use memchr::memchr2;
use std::alloc::{AllocError, Global};

/// A text without its splices, and where in it they were.
#[derive(Drop)]
pub(crate) struct Spliced {
    pub text: Vec<u8>,
    pub cuts: Vec<usize>,
}

/// What stands at a backslash or a carriage return.
#[derive(Drop)]
enum Seam {
    /// A splice of so many bytes.
    Splice(usize),
    /// A carriage return before a line's end.
    Return,
    Plain,
}

fn seam_at(s: &[u8]) -> Seam {
    match s {
        [b'\r', b'\n', ..] => Seam::Return,
        [b'\\', ..] => {
            let gap = blanks(behind(s, 1)).saturating_add(1);
            if behind(s, gap).first() == Some(&b'\n') {
                Seam::Splice(gap.saturating_add(1))
            } else {
                Seam::Plain
            }
        }
        _ => Seam::Plain,
    }
}

/// Puts the text up to the next backslash or carriage return, and passes it: gives how many bytes were read.
fn put_piece(spliced: &mut Spliced, s: &[u8]) -> Result<usize, AllocError> {
    let Some(at) = memchr2(b'\\', b'\r', s) else {
        spliced.text.extend_from_slice(s)?;
        return Ok(s.len());
    };
    spliced.text.extend_from_slice(front(s, at))?;
    let left = behind(s, at);
    let passed = match seam_at(left) {
        Seam::Splice(length) => {
            spliced.cuts.push(spliced.text.len())?;
            length
        }
        Seam::Return => 1,
        Seam::Plain => {
            spliced.text.extend_from_slice(front(left, 1))?;
            1
        }
    };
    Ok(at.saturating_add(passed))
}

/// A text without its splices.
pub(crate) fn splice(alloc: Global, bytes: &[u8]) -> Result<Spliced, AllocError> {
    let mut spliced = Spliced {
        text: Vec::with_capacity(alloc, bytes.len())?,
        cuts: Vec::new(alloc),
    };
    let mut left = bytes;
    for _ in 0..=bytes.len() {
        if left.is_empty() {
            break;
        }
        let passed = put_piece(&mut spliced, left)?;
        left = behind(left, passed);
    }
    Ok(spliced)
}
