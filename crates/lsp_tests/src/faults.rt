//! What is published of texts that are changed.

use crate::desk::{Step, steps};
use dtman_findings::Compiler;
use dtman_lsp::Server;
use std::hash::RandomState;
use std::test::Fail;

const START: Step = Step {
    message: "{\"jsonrpc\":\"2.0\",\"method\":\"initialized\",\"params\":{}}",
    answers: &[],
};

const EDITS: &[Step] = &[
    Step {
        message: "{\"jsonrpc\":\"2.0\",\"id\":1,\"method\":\"initialize\",\"params\":{\"capabilities\":{}}}",
        answers: &[
            "{\"jsonrpc\":\"2.0\",\"id\":1,\"result\":{\"capabilities\":{\"textDocumentSync\":{\"openClose\":true,\"change\":2,\"save\":true},\"documentSymbolProvider\":true,\"definitionProvider\":true,\"referencesProvider\":true,\"hoverProvider\":true,\"foldingRangeProvider\":true,\"renameProvider\":{\"prepareProvider\":true},\"completionProvider\":{\"triggerCharacters\":[\"&\",\"<\"]}},\"serverInfo\":{\"name\":\"dtman\"}}}",
        ],
    },
    START,
    Step {
        message: "{\"jsonrpc\":\"2.0\",\"method\":\"textDocument/didOpen\",\"params\":{\"textDocument\":{\"uri\":\"file:///w/b.dts\",\"languageId\":\"dts\",\"version\":1,\"text\":\"/dts-v1/;\\n/ {\\n\\tp = <1>;\\n};\\n\"}}}",
        answers: &[
            "{\"jsonrpc\":\"2.0\",\"method\":\"textDocument/publishDiagnostics\",\"params\":{\"uri\":\"file:///w/b.dts\",\"version\":1,\"diagnostics\":[]}}",
        ],
    },
    // `1` becomes `x` by a change of a range
    Step {
        message: "{\"jsonrpc\":\"2.0\",\"method\":\"textDocument/didChange\",\"params\":{\"textDocument\":{\"uri\":\"file:///w/b.dts\",\"version\":2},\"contentChanges\":[{\"range\":{\"start\":{\"line\":2,\"character\":6},\"end\":{\"line\":2,\"character\":7}},\"text\":\"x\"}]}}",
        answers: &[
            "{\"jsonrpc\":\"2.0\",\"method\":\"textDocument/publishDiagnostics\",\"params\":{\"uri\":\"file:///w/b.dts\",\"version\":2,\"diagnostics\":[{\"range\":{\"start\":{\"line\":2,\"character\":6},\"end\":{\"line\":2,\"character\":7}},\"severity\":1,\"code\":10,\"source\":\"dtman\",\"message\":\"`x`: this can't stand here\"}]}}",
        ],
    },
    // all of the text anew, with a header that isn't there
    Step {
        message: "{\"jsonrpc\":\"2.0\",\"method\":\"textDocument/didChange\",\"params\":{\"textDocument\":{\"uri\":\"file:///w/b.dts\",\"version\":3},\"contentChanges\":[{\"text\":\"/dts-v1/;\\n#include \\\"gone.h\\\"\\n\"}]}}",
        answers: &[
            "{\"jsonrpc\":\"2.0\",\"method\":\"textDocument/publishDiagnostics\",\"params\":{\"uri\":\"file:///w/b.dts\",\"version\":3,\"diagnostics\":[{\"range\":{\"start\":{\"line\":1,\"character\":10},\"end\":{\"line\":1,\"character\":16}},\"severity\":1,\"code\":83,\"source\":\"dtman\",\"message\":\"`gone.h`: there is no such header in the folders that are searched\"}]}}",
        ],
    },
    // the header is opened, with a fault of its own: it is told there, and no more in the board
    Step {
        message: "{\"jsonrpc\":\"2.0\",\"method\":\"textDocument/didOpen\",\"params\":{\"textDocument\":{\"uri\":\"file:///w/gone.h\",\"languageId\":\"dts\",\"version\":7,\"text\":\"/ {\\n\\tq = 5;\\n};\\n\"}}}",
        answers: &[
            "{\"jsonrpc\":\"2.0\",\"method\":\"textDocument/publishDiagnostics\",\"params\":{\"uri\":\"file:///w/gone.h\",\"version\":7,\"diagnostics\":[{\"range\":{\"start\":{\"line\":1,\"character\":5},\"end\":{\"line\":1,\"character\":6}},\"severity\":1,\"code\":10,\"source\":\"dtman\",\"message\":\"`5`: this can't stand here\"}]}}",
            "{\"jsonrpc\":\"2.0\",\"method\":\"textDocument/publishDiagnostics\",\"params\":{\"uri\":\"file:///w/b.dts\",\"version\":3,\"diagnostics\":[]}}",
        ],
    },
    Step {
        message: "{\"jsonrpc\":\"2.0\",\"method\":\"textDocument/didClose\",\"params\":{\"textDocument\":{\"uri\":\"file:///w/b.dts\"}}}",
        answers: &[
            "{\"jsonrpc\":\"2.0\",\"method\":\"textDocument/publishDiagnostics\",\"params\":{\"uri\":\"file:///w/b.dts\",\"version\":3,\"diagnostics\":[]}}",
            "{\"jsonrpc\":\"2.0\",\"method\":\"textDocument/publishDiagnostics\",\"params\":{\"uri\":\"file:///w/gone.h\",\"version\":7,\"diagnostics\":[]}}",
        ],
    },
];

#[test]
fn edits(rt: HostRuntime) -> Result<(), Fail> {
    let hasher = RandomState::new(&rt)?;
    let mut server = Server::new(rt.alloc(), Compiler { hasher }, &[]);
    steps(&rt, &mut server, EDITS);
    Ok(())
}
