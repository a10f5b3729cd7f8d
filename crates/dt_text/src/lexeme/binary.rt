//! Files that a source takes in as they are.

/// The file that an `/incbin/` of a text names (dtc 1.6, Documentation/dts-format.txt).
#[derive(Drop)]
pub struct Binary {
    /// Where the word `/incbin/` begins in the text, in bytes.
    pub at: u32,
    /// All of the file.
    pub bytes: Vec<u8>,
}
