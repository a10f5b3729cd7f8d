//! Files, standard input and standard output as channels. They tell no bytes: no clause says what a file holds.

ghost use Rattle.std.specs.Prelude.{◌≡◌, ◌<◌, ◌≤◌, true, false, length, Some, is_some, IfOk, IfErr, OnOk, OnErr};

use crate::channel::{Channel, Failed};
use std::io::{ErrorKind, Read, Write};

/// A file.
#[derive(Drop)]
pub struct FileChannel<F: Drop> {
    file: F,
    failure: Option<Failed>,
}

impl<F: Read + Write + Drop> FileChannel<F> {
    pub fn new(file: F) -> FileChannel<F>
        ensures { ⟦<FileChannel<F> as Channel>⟧.has_failed result ≡ false }
    {
        FileChannel {
            file,
            failure: None,
        }
    }
}

impl<F: Read + Write + Drop> Channel for FileChannel<F> {
    ghost use Rattle.std.specs.Prelude.{None, is_some};

    ghost left = { λ _. None };

    ghost written = { λ _. None };

    ghost has_failed = { λ channel. is_some channel.failure };

    ghost failure = { λ channel. channel.failure };

    fn read(&mut self, buffer: &mut [u8]) -> Result<usize, Failed> {
        match self.file.read(buffer) {
            Ok(count) => Ok(count),
            Err(_) => {
                self.failure = Some(Failed::Fault);
                Err(Failed::Fault)
            }
        }
    }

    fn write(&mut self, piece: &[u8]) -> Result<usize, Failed> {
        write_some(&mut self.file, &mut self.failure, piece)
    }
}

/// Standard output, which can't be read.
#[derive(Drop)]
pub struct OutputChannel<W: Drop> {
    writer: W,
    failure: Option<Failed>,
}

impl<W: Write + Drop> OutputChannel<W> {
    pub fn new(writer: W) -> OutputChannel<W>
        ensures { ⟦<OutputChannel<W> as Channel>⟧.has_failed result ≡ false }
    {
        OutputChannel {
            writer,
            failure: None,
        }
    }
}

impl<W: Write + Drop> Channel for OutputChannel<W> {
    ghost use Rattle.std.specs.Prelude.{None, is_some};

    ghost left = { λ _. None };

    ghost written = { λ _. None };

    ghost has_failed = { λ channel. is_some channel.failure };

    ghost failure = { λ channel. channel.failure };

    fn read(&mut self, _buffer: &mut [u8]) -> Result<usize, Failed> {
        self.failure = Some(Failed::Fault);
        Err(Failed::Fault)
    }

    fn write(&mut self, piece: &[u8]) -> Result<usize, Failed> {
        write_some(&mut self.writer, &mut self.failure, piece)
    }
}

/// Standard input, which can't be written.
#[derive(Drop)]
pub struct InputChannel<R: Drop> {
    reader: R,
    failure: Option<Failed>,
}

impl<R: Read + Drop> InputChannel<R> {
    pub fn new(reader: R) -> InputChannel<R>
        ensures { ⟦<InputChannel<R> as Channel>⟧.has_failed result ≡ false }
    {
        InputChannel {
            reader,
            failure: None,
        }
    }
}

impl<R: Read + Drop> Channel for InputChannel<R> {
    ghost use Rattle.std.specs.Prelude.{None, is_some};

    ghost left = { λ _. None };

    ghost written = { λ _. None };

    ghost has_failed = { λ channel. is_some channel.failure };

    ghost failure = { λ channel. channel.failure };

    fn read(&mut self, buffer: &mut [u8]) -> Result<usize, Failed> {
        match self.reader.read(buffer) {
            Ok(count) => Ok(count),
            Err(_) => {
                self.failure = Some(Failed::Fault);
                Err(Failed::Fault)
            }
        }
    }

    fn write(&mut self, _piece: &[u8]) -> Result<usize, Failed> {
        self.failure = Some(Failed::Fault);
        Err(Failed::Fault)
    }
}

/// One write. That it took nothing of a piece with bytes is a fault too.
fn write_some<W: Write>(
    to: &mut W,
    failure: &mut Option<Failed>,
    piece: &[u8],
) -> Result<usize, Failed>
    ensures count { IfOk result (λ n. n ≤ length piece.now) }
    ensures some { IfOk result (λ n. 0 < length piece.now → 0 < n) }
    ensures ok { OnOk result (failure.new ≡ failure.old) }
    ensures failed { OnErr result (is_some failure.new ≡ true) }
    ensures why { IfErr result (λ why. failure.new ≡ Some why) }
{
    match to.write(piece) {
        Ok(count) if count > 0 || piece.is_empty() => Ok(count),
        Err(error) if error.kind() == ErrorKind::BrokenPipe => {
            *failure = Some(Failed::Unread);
            Err(Failed::Unread)
        }
        _ => {
            *failure = Some(Failed::Fault);
            Err(Failed::Fault)
        }
    }
}
