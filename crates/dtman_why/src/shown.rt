//! Bytes of others, as a terminal may have them.

use bus_plan::is_line_byte;
use std::alloc::AllocError;

/// Puts bytes behind a text, a question mark for each that is no printing character of ASCII.
pub fn add_shown(text: &mut Vec<u8>, bytes: &[u8]) -> Result<(), AllocError> {
    for byte in bytes {
        text.push(if is_line_byte(*byte) { *byte } else { b'?' })?;
    }
    Ok(())
}
