//! Whole inputs and whole outputs, over memory that fails at each call in turn.
ghost use Rattle.std.specs.Prelude.{◌<◌};

use dtman_engine::{Failed, Fault, Memory, WriteFault, read_all, read_within, write_out};
use std::alloc::Global;
use std::process::Abort;

const TEXT: &[u8] = b"a line of text, and one more";

/// The number of a fault, and 0 bytes for none.
fn number(answer: Result<Vec<u8>, Fault>) -> (usize, u8) {
    match answer {
        Ok(bytes) => (bytes.len(), 0),
        Err(fault) => (0, fault.number),
    }
}

fn reads_all(rt: &impl Abort, alloc: Global, limit: usize, read: usize, left: usize) {
    assert!(rt; limit <= 1000);
    let mut channel = Memory::new(alloc, TEXT);
    channel.pace = 5;
    let answer = number(read_all(alloc, &mut channel, limit));
    assert_eq!(rt; answer, (read, 0), "{limit}");
    assert_eq!(rt; channel.left.len(), left, "{limit}");
}

fn reads_within(rt: &impl Abort, alloc: Global, limit: usize) {
    assert!(rt; limit <= 1000);
    let mut channel = Memory::new(alloc, TEXT);
    let answer = number(read_within(alloc, &mut channel, limit));
    let wanted = if limit < 28 { (0, 82) } else { (28, 0) };
    assert_eq!(rt; answer, wanted, "{limit}");
}

#[test]
fn reads_to_the_end_or_a_byte_past_the_limit(rt: HostRuntime) {
    // The limit, the bytes that are read, those that are left.
    const ROWS: &[(usize, usize, usize)] = &[
        (0, 1, 27),
        (10, 11, 17),
        (27, 28, 0),
        (28, 28, 0),
        (1000, 28, 0),
    ];
    for (limit, read, left) in ROWS {
        reads_all(&rt, rt.alloc(), *limit, *read, *left);
        reads_within(&rt, rt.alloc(), *limit);
    }
}

fn read_fails(rt: &impl Abort, alloc: Global, call: usize) {
    let mut channel = Memory::new(alloc, TEXT);
    channel.pace = 5;
    channel.calls_left = Some(call);
    let answer = number(read_all(alloc, &mut channel, 1000));
    let wanted = if call < 7 { (0, 80) } else { (28, 0) };
    assert_eq!(rt; answer, wanted, "{call}");
    assert_eq!(rt; channel.failure.is_some(), call < 7, "{call}");
}

#[test]
fn tells_the_read_that_fails(rt: HostRuntime) {
    // 28 bytes by 5 are 6 calls, and the end is one more.
    for call in 0..8usize {
        read_fails(&rt, rt.alloc(), call);
    }
}

fn write_fails(rt: &impl Abort, alloc: Global, call: usize, wanted: Result<(), WriteFault>)
    requires { call < 7 }
{
    let mut channel = Memory::new(alloc, b"");
    channel.pace = 5;
    channel.calls_left = Some(call);
    let answer = write_out(&mut channel, TEXT);
    assert_eq!(rt; answer, wanted, "{call}");
    let written = TEXT.get(..5 * call).unwrap_or(TEXT);
    assert_eq!(rt; channel.written.as_slice(), written, "{call}");
    assert_eq!(rt; channel.failure.is_some(), wanted.is_err(), "{call}");
}

#[test]
fn tells_how_much_was_written_before_a_write_failed(rt: HostRuntime) {
    // 28 bytes by 5 are 6 calls.
    for call in 0..6usize {
        let why = Failed::Fault;
        let fault = WriteFault {
            written: 5 * call,
            why,
        };
        write_fails(&rt, rt.alloc(), call, Err(fault));
    }
    write_fails(&rt, rt.alloc(), 6, Ok(()));
}

#[test]
fn a_read_that_moves_nothing_fails(rt: HostRuntime) {
    let mut channel = Memory::new(rt.alloc(), TEXT);
    channel.pace = 0;
    let answer = number(read_all(rt.alloc(), &mut channel, 1000));
    assert_eq!(rt; answer, (0, 80));
}

#[test]
fn a_write_that_moves_nothing_fails(rt: HostRuntime) {
    let mut channel = Memory::new(rt.alloc(), b"");
    channel.pace = 0;
    assert_eq!(rt; write_out(&mut channel, b""), Ok(()));
    let answer = write_out(&mut channel, TEXT);
    assert_eq!(rt;
        answer,
        Err(WriteFault {
            written: 0,
            why: Failed::Fault
        })
    );
}

#[test]
fn tells_that_nobody_reads(rt: HostRuntime) {
    let mut channel = Memory::new(rt.alloc(), b"");
    channel.pace = 5;
    channel.calls_left = Some(1);
    channel.failing = Failed::Unread;
    let fault = WriteFault {
        written: 5,
        why: Failed::Unread,
    };
    assert_eq!(rt; write_out(&mut channel, TEXT), Err(fault));
}
