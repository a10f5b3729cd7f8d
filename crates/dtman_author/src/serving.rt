//! An editor's session over standard input and standard output.

use dtman_engine::Channel;
use dtman_findings::Compiler;
use dtman_host::{Failure, Host, Sought, Surroundings, file_at};
use dtman_lsp::{Broken, Files, Server, Wire, serve};
use std::alloc::{AllocError, Global};

/// Standard input and standard output.
struct Streams<'o, I, O> {
    input: I,
    output: &'o mut O,
}

impl<I: Drop, O> Drop for Streams<'_, I, O> {
    fn drop(self) {
        let Streams {
            input: _,
            output: _,
        } = self;
    }
}

impl<I: Channel, O: Channel> Wire for Streams<'_, I, O> {
    fn receive(&mut self, buffer: &mut [u8]) -> Result<usize, Broken> {
        match self.input.read(buffer) {
            Ok(count) => Ok(count),
            Err(_) => Err(Broken),
        }
    }

    fn send(&mut self, bytes: &[u8]) -> Result<(), Broken> {
        send_all(self.output, bytes)
    }
}

// Each write takes one byte at least.
fn send_all<O: Channel>(output: &mut O, bytes: &[u8]) -> Result<(), Broken> {
    let mut left = bytes;
    for _ in 0..bytes.len() {
        if left.is_empty() {
            return Ok(());
        }
        match output.write(left) {
            Ok(count) => left = left.get(count..).unwrap_or(b""),
            Err(_) => return Err(Broken),
        }
    }
    Ok(())
}

/// The files of the surroundings.
struct Disk<'s, S> {
    surroundings: &'s mut S,
}

impl<S> Drop for Disk<'_, S> {
    fn drop(self) {
        let Disk { surroundings: _ } = self;
    }
}

impl<S: Surroundings> Files for Disk<'_, S> {
    fn read(&mut self, alloc: Global, path: &[u8]) -> Result<Option<Vec<u8>>, AllocError> {
        match file_at(alloc, self.surroundings, path)? {
            Sought::Read(bytes) => Ok(Some(bytes)),
            Sought::Missing | Sought::Broken => Ok(None),
        }
    }
}

/// Serves an editor until it ends the session, or what it sends ends. Headers are looked for in these folders, too.
pub fn serve_editor<'a, S: Surroundings, O: Channel, E: Eprint, T>(
    host: &mut Host<'_, S, E, T>,
    output: &mut O,
    folders: &[&str],
) -> Result<(), Failure<'a>> {
    let hasher = host.seed()?;
    let mut streams = Streams {
        input: host.surroundings.input(),
        output,
    };
    let mut disk = Disk {
        surroundings: host.surroundings,
    };
    let mut server = Server::new(host.alloc, Compiler { hasher }, folders);
    match serve(host.alloc, &mut server, &mut streams, &mut disk) {
        0 => Ok(()),
        status => Err(Failure::Ended(status)),
    }
}
