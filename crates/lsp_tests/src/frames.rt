//! Messages in streams.

use dtman_lsp::{Inbox, framed};
use std::alloc::Global;
use std::process::Abort;
use std::test::Fail;

/// Bytes that come, and the messages that are whole behind them.
struct Row {
    bytes: &'static str,
    messages: &'static [&'static str],
}

const ROWS: &[Row] = &[
    Row {
        bytes: "Content-Length: 2\r\n\r\n{}Content-Length: 3\r\n\r\n[1]",
        messages: &["{}", "[1]"],
    },
    Row {
        bytes: "Content-Le",
        messages: &[],
    },
    Row {
        bytes: "ngth: 4\r\nContent-Type: application/vscode-jsonrpc; charset=utf-8\r\n\r\nnu",
        messages: &[],
    },
    Row {
        bytes: "ll",
        messages: &["null"],
    },
    // no length, and one that is too long: what is no header is passed over
    Row {
        bytes: "Content-Length: x\r\n\r\ncontent-length:1\r\n\r\n0",
        messages: &["0"],
    },
    Row {
        bytes: "Content-Length: 999999999\r\n\r\nabc",
        messages: &[],
    },
];

fn arrive(rt: &impl Abort, alloc: Global, inbox: &mut Inbox, row: &Row) {
    inbox.put(alloc, row.bytes.as_bytes()).expect(rt, "memory");
    for wanted in row.messages {
        let message = inbox
            .take(alloc)
            .expect(rt, "memory")
            .expect(rt, "a message");
        assert_eq!(rt; message.as_slice(), wanted.as_bytes());
    }
    assert!(rt; inbox.take(alloc).expect(rt, "memory").is_none());
}

#[test]
fn arrivals(rt: HostRuntime) {
    let mut inbox = Inbox::new(rt.alloc());
    for row in ROWS {
        arrive(&rt, rt.alloc(), &mut inbox, row);
    }
}

#[test]
fn departures(rt: HostRuntime) -> Result<(), Fail> {
    let frame = framed(rt.alloc(), b"{\"a\":1}")?;
    assert_eq!(rt;
        frame.as_slice(),
        b"Content-Length: 7\r\n\r\n{\"a\":1}".as_slice()
    );
    Ok(())
}
