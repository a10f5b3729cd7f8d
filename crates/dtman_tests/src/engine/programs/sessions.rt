//! `lsp`: sessions of an editor over standard input and standard output (Language Server Protocol 3.17).

use crate::runs::{Files, Traces, run_over};
use crate::shelf::Shelf;
use std::hash::RandomState;
use std::process::Abort;
use std::thread::Threads;

const FILES: Files = &[("/in/far.h", b"#define FAR / { };\n")];

/// The messages of an editor one behind the other, and what is answered.
struct Session {
    words: &'static [&'static str],
    sent: &'static [&'static str],
    status: u8,
    answered: &'static [&'static str],
}

const INITIALIZE: &str =
    "Content-Length: 75\r\n\r\n{\"jsonrpc\":\"2.0\",\"id\":1,\"method\":\"initialize\",\"params\":{\"capabilities\":{}}}";

const CAPABILITIES: &str =
    "Content-Length: 369\r\n\r\n{\"jsonrpc\":\"2.0\",\"id\":1,\"result\":{\"capabilities\":{\"textDocumentSync\":{\"openClose\":true,\"change\":2,\"save\":true},\"documentSymbolProvider\":true,\"definitionProvider\":true,\"referencesProvider\":true,\"hoverProvider\":true,\"foldingRangeProvider\":true,\"renameProvider\":{\"prepareProvider\":true},\"completionProvider\":{\"triggerCharacters\":[\"&\",\"<\"]}},\"serverInfo\":{\"name\":\"dtman\"}}}";

/// A board with a header that isn't beside it.
const OPEN: &str =
    "Content-Length: 176\r\n\r\n{\"jsonrpc\":\"2.0\",\"method\":\"textDocument/didOpen\",\"params\":{\"textDocument\":{\"uri\":\"file:///w/b.dts\",\"languageId\":\"dts\",\"version\":1,\"text\":\"/dts-v1/;\\n#include <far.h>\\nFAR\\n\"}}}";

const SHUTDOWN: &str =
    "Content-Length: 44\r\n\r\n{\"jsonrpc\":\"2.0\",\"id\":2,\"method\":\"shutdown\"}";

const DONE: &str = "Content-Length: 38\r\n\r\n{\"jsonrpc\":\"2.0\",\"id\":2,\"result\":null}";

const EXIT: &str = "Content-Length: 33\r\n\r\n{\"jsonrpc\":\"2.0\",\"method\":\"exit\"}";

const SESSIONS: &[Session] = &[
    Session {
        words: &["dtman", "lsp", "-I", "/in"],
        sent: &[INITIALIZE, OPEN, SHUTDOWN, EXIT],
        status: 0,
        answered: &[
            CAPABILITIES,
            "Content-Length: 124\r\n\r\n{\"jsonrpc\":\"2.0\",\"method\":\"textDocument/publishDiagnostics\",\"params\":{\"uri\":\"file:///w/b.dts\",\"version\":1,\"diagnostics\":[]}}",
            DONE,
        ],
    },
    Session {
        words: &["dtman", "lsp"],
        sent: &[INITIALIZE, OPEN, SHUTDOWN, EXIT],
        status: 0,
        answered: &[
            CAPABILITIES,
            "Content-Length: 319\r\n\r\n{\"jsonrpc\":\"2.0\",\"method\":\"textDocument/publishDiagnostics\",\"params\":{\"uri\":\"file:///w/b.dts\",\"version\":1,\"diagnostics\":[{\"range\":{\"start\":{\"line\":1,\"character\":10},\"end\":{\"line\":1,\"character\":15}},\"severity\":1,\"code\":83,\"source\":\"dtman\",\"message\":\"`far.h`: there is no such header in the folders that are searched\"}]}}",
            DONE,
        ],
    },
    // the editor leaves in the middle of a message
    Session {
        words: &["dtman", "lsp"],
        sent: &[INITIALIZE, "Content-Length: 9\r\n\r\n{"],
        status: 1,
        answered: &[CAPABILITIES],
    },
    Session {
        words: &["dtman", "lsp"],
        sent: &[EXIT, INITIALIZE],
        status: 1,
        answered: &[],
    },
];

/// Texts one behind the other.
fn joined<R: AllocGlobal + Abort>(rt: &R, texts: &[&str]) -> Vec<u8> {
    let mut whole = Vec::new(rt.alloc());
    for text in texts {
        whole
            .extend_from_slice(text.as_bytes())
            .expect(rt, "memory");
    }
    whole
}

fn are_answered(rt: &impl Abort, traces: &Traces, status: u8, answered: &[u8]) {
    assert_eq!(rt; traces.output.as_slice(), answered);
    assert_eq!(rt; traces.errors.len(), 0);
    assert_eq!(rt; traces.status, status);
}

fn is_served<R: AllocGlobal + Threads + Sync + Abort>(
    rt: &R,
    hasher: RandomState,
    session: &Session,
) {
    let sent = joined(rt, session.sent);
    let answered = joined(rt, session.answered);
    let mut shelf = Shelf::new(rt.alloc(), FILES, hasher);
    shelf.input = sent.as_slice();
    let traces = run_over(rt, session.words, &mut shelf, None);
    are_answered(rt, &traces, session.status, answered.as_slice());
}

#[test]
fn serves_an_editor(rt: HostRuntime) {
    let hasher = RandomState::new(&rt).expect(&rt, "a seed");
    for session in SESSIONS {
        is_served(&rt, hasher, session);
    }
}

/// Where an answer can't be written, the session ends.
#[test]
fn ends_with_its_output(rt: HostRuntime) {
    let hasher = RandomState::new(&rt).expect(&rt, "a seed");
    let mut shelf = Shelf::new(rt.alloc(), FILES, hasher);
    shelf.input = INITIALIZE.as_bytes();
    let words = ["dtman", "lsp"];
    let traces = run_over(&rt, words.as_slice(), &mut shelf, Some(1));
    assert_eq!(rt; traces.status, 1);
    assert_eq!(rt; traces.output.len(), 5);
}
