//! Sessions with the server.

use crate::desk::{Step, steps};
use dtman_findings::Compiler;
use dtman_lsp::Server;
use std::hash::RandomState;
use std::test::Fail;

const START: Step = Step {
    message: "{\"jsonrpc\":\"2.0\",\"id\":1,\"method\":\"initialize\",\"params\":{\"rootUri\":\"file:///w\"}}",
    answers: &[
        "{\"jsonrpc\":\"2.0\",\"id\":1,\"result\":{\"capabilities\":{\"textDocumentSync\":{\"openClose\":true,\"change\":2,\"save\":true},\"documentSymbolProvider\":true,\"definitionProvider\":true,\"referencesProvider\":true,\"hoverProvider\":true,\"foldingRangeProvider\":true,\"renameProvider\":{\"prepareProvider\":true},\"completionProvider\":{\"triggerCharacters\":[\"&\",\"<\"]}},\"serverInfo\":{\"name\":\"dtman\"}}}",
    ],
};

const LIFE: &[Step] = &[
    Step {
        message: "{\"jsonrpc\":\"2.0\",\"id\":\"a\",\"method\":\"textDocument/hover\"}",
        answers: &[
            "{\"jsonrpc\":\"2.0\",\"id\":\"a\",\"error\":{\"code\":-32002,\"message\":\"`initialize` comes first\"}}",
        ],
    },
    START,
    Step {
        message: "{\"jsonrpc\":\"2.0\",\"method\":\"initialized\",\"params\":{}}",
        answers: &[],
    },
    Step {
        message: "{\"jsonrpc\":\"2.0\",",
        answers: &[
            "{\"jsonrpc\":\"2.0\",\"id\":null,\"error\":{\"code\":-32700,\"message\":\"this is no JSON\"}}",
        ],
    },
    Step {
        message: "{\"jsonrpc\":\"2.0\",\"id\":2,\"method\":\"workspace/symbol\"}",
        answers: &[
            "{\"jsonrpc\":\"2.0\",\"id\":2,\"error\":{\"code\":-32601,\"message\":\"there is no such method\"}}",
        ],
    },
    Step {
        message: "{\"jsonrpc\":\"2.0\",\"method\":\"$/setTrace\",\"params\":{\"value\":\"off\"}}",
        answers: &[],
    },
    Step {
        message: "{\"jsonrpc\":\"2.0\",\"id\":3,\"method\":\"textDocument/hover\",\"params\":{}}",
        answers: &[
            "{\"jsonrpc\":\"2.0\",\"id\":3,\"error\":{\"code\":-32602,\"message\":\"the parameters don't fit the method\"}}",
        ],
    },
    Step {
        message: "[1]",
        answers: &[
            "{\"jsonrpc\":\"2.0\",\"id\":null,\"error\":{\"code\":-32600,\"message\":\"this can't be asked for here\"}}",
        ],
    },
    Step {
        message: "{\"jsonrpc\":\"2.0\",\"id\":4,\"method\":\"shutdown\"}",
        answers: &["{\"jsonrpc\":\"2.0\",\"id\":4,\"result\":null}"],
    },
    Step {
        message: "{\"jsonrpc\":\"2.0\",\"id\":5,\"method\":\"shutdown\"}",
        answers: &[
            "{\"jsonrpc\":\"2.0\",\"id\":5,\"error\":{\"code\":-32600,\"message\":\"this can't be asked for here\"}}",
        ],
    },
    Step {
        message: "{\"jsonrpc\":\"2.0\",\"method\":\"exit\"}",
        answers: &[],
    },
];

#[test]
fn life(rt: HostRuntime) -> Result<(), Fail> {
    let hasher = RandomState::new(&rt)?;
    let mut server = Server::new(rt.alloc(), Compiler { hasher }, &[]);
    steps(&rt, &mut server, LIFE);
    assert_eq!(rt; server.status(), Some(0));
    Ok(())
}

/// `/w/b.dts`: a board, its header beside it and one in `/w/include`.
const OPEN: Step = Step {
    message: "{\"jsonrpc\":\"2.0\",\"method\":\"textDocument/didOpen\",\"params\":{\"textDocument\":{\"uri\":\"file:///w/b.dts\",\"languageId\":\"dts\",\"version\":1,\"text\":\"/dts-v1/;\\n#include \\\"soc.dtsi\\\"\\n#include <irq.h>\\n&uart1 {\\n\\tirq = <LEVEL>;\\n};\\n\"}}}",
    answers: &[
        "{\"jsonrpc\":\"2.0\",\"method\":\"textDocument/publishDiagnostics\",\"params\":{\"uri\":\"file:///w/b.dts\",\"version\":1,\"diagnostics\":[]}}",
    ],
};

const LOOKS: &[Step] = &[
    START,
    OPEN,
    // the label of `&uart1`
    Step {
        message: "{\"jsonrpc\":\"2.0\",\"id\":2,\"method\":\"textDocument/definition\",\"params\":{\"textDocument\":{\"uri\":\"file:///w/b.dts\"},\"position\":{\"line\":3,\"character\":2}}}",
        answers: &[
            "{\"jsonrpc\":\"2.0\",\"id\":2,\"result\":[{\"uri\":\"file:///w/soc.dtsi\",\"range\":{\"start\":{\"line\":3,\"character\":2},\"end\":{\"line\":3,\"character\":7}}}]}",
        ],
    },
    Step {
        message: "{\"jsonrpc\":\"2.0\",\"id\":3,\"method\":\"textDocument/hover\",\"params\":{\"textDocument\":{\"uri\":\"file:///w/b.dts\"},\"position\":{\"line\":3,\"character\":2}}}",
        answers: &[
            "{\"jsonrpc\":\"2.0\",\"id\":3,\"result\":{\"contents\":{\"kind\":\"markdown\",\"value\":\"`/soc/serial@10`\\n\\n/w/soc.dtsi:4\"},\"range\":{\"start\":{\"line\":3,\"character\":1},\"end\":{\"line\":3,\"character\":6}}}}",
        ],
    },
    // the macro `LEVEL`, and the header `<irq.h>`
    Step {
        message: "{\"jsonrpc\":\"2.0\",\"id\":4,\"method\":\"textDocument/hover\",\"params\":{\"textDocument\":{\"uri\":\"file:///w/b.dts\"},\"position\":{\"line\":4,\"character\":10}}}",
        answers: &[
            "{\"jsonrpc\":\"2.0\",\"id\":4,\"result\":{\"contents\":{\"kind\":\"markdown\",\"value\":\"```c\\n#define LEVEL 4\\n```\\n\\n/w/include/irq.h:1\"},\"range\":{\"start\":{\"line\":4,\"character\":8},\"end\":{\"line\":4,\"character\":13}}}}",
        ],
    },
    Step {
        message: "{\"jsonrpc\":\"2.0\",\"id\":5,\"method\":\"textDocument/definition\",\"params\":{\"textDocument\":{\"uri\":\"file:///w/b.dts\"},\"position\":{\"line\":2,\"character\":12}}}",
        answers: &[
            "{\"jsonrpc\":\"2.0\",\"id\":5,\"result\":{\"uri\":\"file:///w/include/irq.h\",\"range\":{\"start\":{\"line\":0,\"character\":0},\"end\":{\"line\":0,\"character\":0}}}}",
        ],
    },
    // from the header, which isn't open, to the board that takes it in
    Step {
        message: "{\"jsonrpc\":\"2.0\",\"id\":6,\"method\":\"textDocument/references\",\"params\":{\"textDocument\":{\"uri\":\"file:///w/soc.dtsi\"},\"position\":{\"line\":3,\"character\":4},\"context\":{\"includeDeclaration\":false}}}",
        answers: &[
            "{\"jsonrpc\":\"2.0\",\"id\":6,\"result\":[{\"uri\":\"file:///w/b.dts\",\"range\":{\"start\":{\"line\":3,\"character\":1},\"end\":{\"line\":3,\"character\":6}}}]}",
        ],
    },
    Step {
        message: "{\"jsonrpc\":\"2.0\",\"id\":7,\"method\":\"textDocument/rename\",\"params\":{\"textDocument\":{\"uri\":\"file:///w/b.dts\"},\"position\":{\"line\":3,\"character\":2},\"newName\":\"con\"}}",
        answers: &[
            "{\"jsonrpc\":\"2.0\",\"id\":7,\"result\":{\"changes\":{\"file:///w/b.dts\":[{\"range\":{\"start\":{\"line\":3,\"character\":1},\"end\":{\"line\":3,\"character\":6}},\"newText\":\"con\"}],\"file:///w/soc.dtsi\":[{\"range\":{\"start\":{\"line\":3,\"character\":2},\"end\":{\"line\":3,\"character\":7}},\"newText\":\"con\"}]}}}",
        ],
    },
    Step {
        message: "{\"jsonrpc\":\"2.0\",\"id\":8,\"method\":\"textDocument/rename\",\"params\":{\"textDocument\":{\"uri\":\"file:///w/b.dts\"},\"position\":{\"line\":3,\"character\":2},\"newName\":\"2x\"}}",
        answers: &[
            "{\"jsonrpc\":\"2.0\",\"id\":8,\"error\":{\"code\":-32602,\"message\":\"the parameters don't fit the method\"}}",
        ],
    },
    Step {
        message: "{\"jsonrpc\":\"2.0\",\"id\":9,\"method\":\"textDocument/prepareRename\",\"params\":{\"textDocument\":{\"uri\":\"file:///w/b.dts\"},\"position\":{\"line\":0,\"character\":0}}}",
        answers: &["{\"jsonrpc\":\"2.0\",\"id\":9,\"result\":null}"],
    },
    Step {
        message: "{\"jsonrpc\":\"2.0\",\"id\":10,\"method\":\"textDocument/completion\",\"params\":{\"textDocument\":{\"uri\":\"file:///w/b.dts\"},\"position\":{\"line\":3,\"character\":2}}}",
        answers: &[
            "{\"jsonrpc\":\"2.0\",\"id\":10,\"result\":[{\"label\":\"uart1\",\"kind\":18}]}",
        ],
    },
    Step {
        message: "{\"jsonrpc\":\"2.0\",\"id\":11,\"method\":\"textDocument/completion\",\"params\":{\"textDocument\":{\"uri\":\"file:///w/b.dts\"},\"position\":{\"line\":4,\"character\":8}}}",
        answers: &[
            "{\"jsonrpc\":\"2.0\",\"id\":11,\"result\":[{\"label\":\"CLK\",\"kind\":21},{\"label\":\"LEVEL\",\"kind\":21}]}",
        ],
    },
    Step {
        message: "{\"jsonrpc\":\"2.0\",\"id\":12,\"method\":\"textDocument/foldingRange\",\"params\":{\"textDocument\":{\"uri\":\"file:///w/b.dts\"}}}",
        answers: &["{\"jsonrpc\":\"2.0\",\"id\":12,\"result\":[{\"startLine\":3,\"endLine\":5}]}"],
    },
    Step {
        message: "{\"jsonrpc\":\"2.0\",\"id\":13,\"method\":\"textDocument/documentSymbol\",\"params\":{\"textDocument\":{\"uri\":\"file:///w/b.dts\"}}}",
        answers: &[
            "{\"jsonrpc\":\"2.0\",\"id\":13,\"result\":[{\"name\":\"&uart1\",\"kind\":19,\"range\":{\"start\":{\"line\":3,\"character\":0},\"end\":{\"line\":5,\"character\":2}},\"selectionRange\":{\"start\":{\"line\":3,\"character\":0},\"end\":{\"line\":3,\"character\":6}},\"children\":[]}]}",
        ],
    },
];

#[test]
fn looks(rt: HostRuntime) -> Result<(), Fail> {
    let hasher = RandomState::new(&rt)?;
    let mut server = Server::new(rt.alloc(), Compiler { hasher }, &[]);
    steps(&rt, &mut server, LOOKS);
    Ok(())
}
