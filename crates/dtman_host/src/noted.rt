//! Why a call on the system failed: the system's word is noted where the call is made.
ghost use Rattle.std.specs.Prelude.{◌≡◌};

use std::cell::Cell;
use std::io;
use std::io::{Read, Write};

/// The error of the last call that failed, among those that are noted.
pub type Reason = Cell<Option<io::Error>>;

/// A call's answer, its error noted.
pub fn noting<T>(reason: &Reason, answer: io::Result<T>) -> io::Result<T>
    ensures { result ≡ answer }
{
    if let Err(error) = &answer {
        reason.set(Some(*error));
    }
    answer
}

/// A file or a stream whose errors are noted.
#[derive(Drop)]
pub struct Noted<'a, F: Drop> {
    inner: F,
    reason: &'a Reason,
}

impl<'a, F: Drop> Noted<'a, F> {
    pub fn new(inner: F, reason: &'a Reason) -> Noted<'a, F> {
        Noted { inner, reason }
    }
}

impl<'a, F: Read + Drop> Read for Noted<'a, F> {
    ghost remaining = { λ noted. F.remaining noted.inner };

    fn read(&mut self, buffer: &mut [u8]) -> io::Result<usize> {
        noting(self.reason, self.inner.read(buffer))
    }
}

impl<'a, F: Write + Drop> Write for Noted<'a, F> {
    ghost contents = { λ noted. F.contents noted.inner };

    fn write(&mut self, piece: &[u8]) -> io::Result<usize> {
        noting(self.reason, self.inner.write(piece))
    }

    fn flush(&mut self) -> io::Result<()> {
        noting(self.reason, self.inner.flush())
    }
}
