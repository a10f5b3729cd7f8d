//! What stands before the blocks (RFC 1952, section 2.3).

use crate::gzip::unpacking::Unpacking;

/// A member's fixed fields.
const FIXED: usize = 10;

// Which further fields a member has.
#[derive(Clone, Copy)]
struct Flags(u8);

impl Flags {
    fn has(self, flag: u8) -> bool {
        self.0 & flag != 0
    }
}

// What stands behind so many bytes.
fn behind<'a>(bytes: &'a [u8], count: usize) -> Result<&'a [u8], Unpacking> {
    bytes.get(count..).ok_or(Unpacking::Cut)
}

// What stands behind a field that tells its length.
fn behind_extra<'a>(bytes: &'a [u8]) -> Result<&'a [u8], Unpacking> {
    match bytes {
        [low, high, rest @ ..] => behind(rest, usize::from(u16::from_le_bytes([*low, *high]))),
        _ => Err(Unpacking::Cut),
    }
}

// What stands behind a field that ends with a zero byte.
fn behind_text<'a>(bytes: &'a [u8]) -> Result<&'a [u8], Unpacking> {
    match bytes.iter().position(|byte| *byte == 0) {
        Some(end) => behind(bytes, end.saturating_add(1)),
        None => Err(Unpacking::Cut),
    }
}

// What stands behind the fields that the flags tell.
fn behind_fields<'a>(bytes: &'a [u8], flags: Flags) -> Result<&'a [u8], Unpacking> {
    let mut rest = bytes;
    if flags.has(4) {
        rest = behind_extra(rest)?;
    }
    if flags.has(8) {
        rest = behind_text(rest)?;
    }
    if flags.has(16) {
        rest = behind_text(rest)?;
    }
    if flags.has(2) {
        rest = behind(rest, 2)?;
    }
    Ok(rest)
}

/// What stands behind the header of a gzip file's first member.
pub(crate) fn behind_header<'a>(packed: &'a [u8]) -> Result<&'a [u8], Unpacking> {
    match packed {
        [0x1f, 0x8b, 8, flags, ..] => {
            let flags = Flags(*flags);
            if flags.has(0xe0) {
                return Err(Unpacking::Malformed);
            }
            behind_fields(behind(packed, FIXED)?, flags)
        }
        _ => Err(Unpacking::Malformed),
    }
}
