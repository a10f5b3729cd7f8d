//! The loop: messages from a stream, answers to another.
ghost use Rattle.std.specs.Prelude.{◌≤◌, length, IfOk};

use crate::framing::{Inbox, framed};
use crate::ports::{Examiner, Files};
use crate::server::state::Server;
use std::alloc::{AllocError, Global};

/// How many bytes are read at once.
const CHUNK: usize = 1 << 16;

/// The exit status where the client left without `shutdown` and `exit`.
const LEFT: u8 = 1;

/// A stream that can't be read or written.
#[derive(Clone, Copy, Debug, PartialEq, Eq)]
pub struct Broken;

/// Where messages come from and go to: standard input and output, or memory.
pub trait Wire {
    /// Reads bytes to the front of a buffer, and answers how many: none at the end.
    fn receive(&mut self, buffer: &mut [u8]) -> Result<usize, Broken>
        ensures { IfOk result (λ n. n ≤ length buffer.old) };

    /// Writes all of the bytes.
    fn send(&mut self, bytes: &[u8]) -> Result<(), Broken>;
}

/// Whether the loop goes on.
#[derive(Clone, Copy)]
enum Turn {
    GoOn,
    End(u8),
}

fn send_all<W: Wire>(alloc: Global, wire: &mut W, bodies: &[Vec<u8>]) -> Result<(), Broken> {
    for body in bodies {
        // what there is no memory for is left out
        if let Ok(frame) = framed(alloc, body.as_slice()) {
            wire.send(frame.as_slice())?;
        }
    }
    Ok(())
}

/// Answers one message.
fn answer_one<W: Wire, F: Files, X: Examiner>(
    alloc: Global,
    server: &mut Server<'_, X>,
    wire: &mut W,
    files: &mut F,
    message: &[u8],
) -> Turn {
    if let Ok(bodies) = server.answer(message, files) {
        if send_all(alloc, wire, bodies.as_slice()).is_err() {
            return Turn::End(LEFT);
        }
    }
    match server.status() {
        Some(status) => Turn::End(status),
        None => Turn::GoOn,
    }
}

/// Answers all messages that have come.
fn answer_those<W: Wire, F: Files, X: Examiner>(
    alloc: Global,
    server: &mut Server<'_, X>,
    wire: &mut W,
    files: &mut F,
    inbox: &mut Inbox,
) -> Turn {
    for _ in 0..u64::MAX {
        let Ok(Some(message)) = inbox.take(alloc) else {
            return Turn::GoOn;
        };
        if let Turn::End(status) = answer_one(alloc, server, wire, files, message.as_slice()) {
            return Turn::End(status);
        }
    }
    Turn::GoOn
}

/// Reads some bytes into the inbox, and answers whether any came.
fn receive<W: Wire>(alloc: Global, wire: &mut W, buffer: &mut Vec<u8>, inbox: &mut Inbox) -> bool {
    let Ok(count) = wire.receive(buffer.as_mut_slice()) else {
        return false;
    };
    if count == 0 {
        return false;
    }
    // bytes for which there is no memory are lost, and the next header is looked for behind them
    let _ = inbox.put(alloc, buffer.as_slice().get(..count).unwrap_or(b""));
    true
}

fn run<W: Wire, F: Files, X: Examiner>(
    alloc: Global,
    server: &mut Server<'_, X>,
    wire: &mut W,
    files: &mut F,
) -> Result<u8, AllocError> {
    let mut inbox = Inbox::new(alloc);
    let mut buffer = vec![in alloc; 0; CHUNK]?;
    for _ in 0..u64::MAX {
        if let Turn::End(status) = answer_those(alloc, server, wire, files, &mut inbox) {
            return Ok(status);
        }
        if !receive(alloc, wire, &mut buffer, &mut inbox) {
            return Ok(LEFT);
        }
    }
    Ok(LEFT)
}

/// Reads messages and answers them until `exit`, the end of what comes, or a broken stream: gives the exit status, 0 where `shutdown`
/// was asked for before `exit` (Language Server Protocol 3.17, "Exit Notification"), else 1.
pub fn serve<W: Wire, F: Files, X: Examiner>(
    alloc: Global,
    server: &mut Server<'_, X>,
    wire: &mut W,
    files: &mut F,
) -> u8 {
    match run(alloc, server, wire, files) {
        Ok(status) => status,
        Err(_) => LEFT,
    }
}
