//! Texts in JSON (RFC 8259, section 7).
use crate::writer::Writer;
use std::alloc::AllocError;

/// Puts a text in quotes.
pub fn quoted(writer: &mut Writer, text: &[u8]) -> Result<(), AllocError> {
    writer.put(b"\"")?;
    for byte in text {
        match *byte {
            b'"' => writer.put(b"\\\"")?,
            b'\\' => writer.put(b"\\\\")?,
            0..=31 => escaped(writer, *byte)?,
            _ => writer.text.push(*byte)?,
        }
    }
    writer.put(b"\"")
}

fn escaped(writer: &mut Writer, byte: u8) -> Result<(), AllocError> {
    if byte < 16 {
        return writer.hex("\\u000", u64::from(byte));
    }
    writer.hex("\\u00", u64::from(byte))
}
