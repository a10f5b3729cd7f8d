//! Messages in a stream of bytes (Language Server Protocol 3.17, "Base Protocol"): a header with their length, then their bytes.
ghost use Rattle.std.specs.Prelude.{◌≡◌, IfOk};
ghost use Rattle.dtman_lsp.specs.Frame.{frame_of};

use std::alloc::{AllocError, Global};

/// The longest message that is read, in bytes; a longer one is passed over.
pub const MAX_MESSAGE: usize = 1 << 28;

/// The longest header that is read, in bytes.
const MAX_HEADER: usize = 4096;

/// The bytes of a message with its header.
pub fn framed(alloc: Global, body: &[u8]) -> Result<Vec<u8>, AllocError>
    ensures { IfOk result (λ frame. frame.items ≡ frame_of body.now) }
{
    let length = body.len();
    let header = format!(in alloc; "Content-Length: {length}\r\n\r\n")?;
    let mut frame = Vec::from_slice(alloc, header.as_bytes())?;
    frame.extend_from_slice(body)?;
    Ok(frame)
}

/// Bytes that came, of which messages are taken.
#[derive(Drop)]
pub struct Inbox {
    bytes: Vec<u8>,
    /// How many of them were taken.
    taken: usize,
    /// How many bytes that have yet to come are passed over.
    skipped: usize,
}

/// What the header at the front of bytes says.
#[derive(Clone, Copy)]
enum Header {
    /// It isn't whole.
    Part,
    /// It has so many bytes, and the message behind it so many.
    Message { header: usize, length: usize },
    /// So many bytes are no header.
    Wrong(usize),
}

/// The number that digits are, where they are one of nine digits at most.
fn number_in(digits: &[u8]) -> Option<usize> {
    if digits.is_empty() || digits.len() > 9 {
        return None;
    }
    let mut number: usize = 0;
    for c in digits {
        if !c.is_ascii_digit() {
            return None;
        }
        number = number
            .saturating_mul(10)
            .saturating_add(c.saturating_sub(b'0') as usize);
    }
    Some(number)
}

/// What stands behind the name and the colon of a header field, where it is of that name.
fn field<'h>(line: &'h [u8], name: &[u8]) -> Option<&'h [u8]> {
    let (front, rest) = line.split_at_checked(name.len())?;
    if !front.eq_ignore_ascii_case(name) {
        return None;
    }
    Some(rest.trim_ascii())
}

/// The length that the fields of a header give.
fn length_in(header: &[u8]) -> Option<usize> {
    for line in header.split(|c| *c == b'\n') {
        if let Some(value) = field(line, b"Content-Length:") {
            return number_in(value);
        }
    }
    None
}

/// Where the empty line ends that ends a header.
fn header_len(bytes: &[u8]) -> Option<usize> {
    for (i, four) in bytes.windows(4).enumerate() {
        if four == b"\r\n\r\n".as_slice() {
            return Some(i.saturating_add(4));
        }
    }
    None
}

fn header_of(bytes: &[u8]) -> Header {
    let front = bytes.get(..MAX_HEADER).unwrap_or(bytes);
    let Some(header) = header_len(front) else {
        return if bytes.len() < MAX_HEADER {
            Header::Part
        } else {
            Header::Wrong(MAX_HEADER)
        };
    };
    match length_in(front.get(..header).unwrap_or(front)) {
        Some(length) => Header::Message { header, length },
        None => Header::Wrong(header),
    }
}

impl Inbox {
    pub fn new(alloc: Global) -> Inbox {
        Inbox {
            bytes: Vec::new(alloc),
            taken: 0,
            skipped: 0,
        }
    }

    fn left(&self) -> &[u8] {
        self.bytes.get(self.taken..).unwrap_or(b"")
    }

    /// Takes what came.
    pub fn put(&mut self, alloc: Global, bytes: &[u8]) -> Result<(), AllocError> {
        if self.taken > 0 {
            let left = Vec::from_slice(alloc, self.left())?;
            self.bytes = left;
            self.taken = 0;
        }
        let skipped = self.skipped.min(bytes.len());
        let rest = bytes.get(skipped..).unwrap_or(b"");
        self.bytes.extend_from_slice(rest)?;
        self.skipped = self.skipped.saturating_sub(skipped);
        Ok(())
    }

    fn pass(&mut self, count: usize) {
        self.taken = self.taken.saturating_add(count);
    }

    /// Passes a message that is too long, also what has yet to come of it.
    fn skip(&mut self, count: usize) {
        let there = self.left().len();
        self.skipped = count.saturating_sub(there);
        self.pass(count.min(there));
    }

    /// The next message that is whole, without its header. What is no header is passed over.
    pub fn take(&mut self, alloc: Global) -> Result<Option<Vec<u8>>, AllocError> {
        for _ in 0..=self.bytes.len() {
            match header_of(self.left()) {
                Header::Part => return Ok(None),
                Header::Wrong(count) => self.pass(count),
                Header::Message { header, length } => {
                    let end = header.saturating_add(length);
                    if length > MAX_MESSAGE {
                        self.skip(end);
                    } else {
                        return self.taken_between(alloc, header, end);
                    }
                }
            }
        }
        Ok(None)
    }

    /// The bytes between two places, once they are there.
    fn taken_between(
        &mut self,
        alloc: Global,
        start: usize,
        end: usize,
    ) -> Result<Option<Vec<u8>>, AllocError> {
        let Some(body) = self.left().get(start..end) else {
            return Ok(None);
        };
        let body = Vec::from_slice(alloc, body)?;
        self.pass(end);
        Ok(Some(body))
    }
}
