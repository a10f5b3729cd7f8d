//! What a message asks.

use dt_outline::Place;
use serde_json::Value;

/// The id of a request.
#[derive(Clone, Copy)]
pub(crate) enum Id<'v> {
    None,
    Number(i64),
    Text(&'v str),
}

/// What is asked for.
#[derive(Clone, Copy, PartialEq, Eq, Debug)]
pub(crate) enum Method {
    Initialize,
    Initialized,
    Shutdown,
    Exit,
    Opened,
    Changed,
    Closed,
    Saved,
    Watched,
    Symbols,
    Definition,
    References,
    Hover,
    Completion,
    Folding,
    PrepareRename,
    Rename,
}

/// A method's name.
struct Row {
    name: &'static str,
    method: Method,
}

/// The methods that are served. Another one, as `textDocument/formatting`, is a row here, a field of the capabilities
/// (`features::capabilities`) and an arm of `Server::result`.
static METHODS: [Row; 17] = [
    Row {
        name: "initialize",
        method: Method::Initialize,
    },
    Row {
        name: "initialized",
        method: Method::Initialized,
    },
    Row {
        name: "shutdown",
        method: Method::Shutdown,
    },
    Row {
        name: "exit",
        method: Method::Exit,
    },
    Row {
        name: "textDocument/didOpen",
        method: Method::Opened,
    },
    Row {
        name: "textDocument/didChange",
        method: Method::Changed,
    },
    Row {
        name: "textDocument/didClose",
        method: Method::Closed,
    },
    Row {
        name: "textDocument/didSave",
        method: Method::Saved,
    },
    Row {
        name: "workspace/didChangeWatchedFiles",
        method: Method::Watched,
    },
    Row {
        name: "textDocument/documentSymbol",
        method: Method::Symbols,
    },
    Row {
        name: "textDocument/definition",
        method: Method::Definition,
    },
    Row {
        name: "textDocument/references",
        method: Method::References,
    },
    Row {
        name: "textDocument/hover",
        method: Method::Hover,
    },
    Row {
        name: "textDocument/completion",
        method: Method::Completion,
    },
    Row {
        name: "textDocument/foldingRange",
        method: Method::Folding,
    },
    Row {
        name: "textDocument/prepareRename",
        method: Method::PrepareRename,
    },
    Row {
        name: "textDocument/rename",
        method: Method::Rename,
    },
];

/// The method of a name, where it is served.
pub(crate) fn method_of(name: &str) -> Option<Method> {
    let row = METHODS.iter().find(|row| row.name == name)?;
    Some(row.method)
}

/// The id of a message; none where it has none, or one that no request can have.
pub(crate) fn id_of(message: &Value) -> Id<'_> {
    let Some(id) = message.get("id") else {
        return Id::None;
    };
    if let Some(number) = id.as_i64() {
        return Id::Number(number);
    }
    match id.as_str() {
        Some(text) => Id::Text(text),
        None => Id::None,
    }
}

/// The text at a JSON pointer (RFC 6901).
pub(crate) fn text_at<'v>(value: &'v Value, pointer: &str) -> Option<&'v str> {
    value.pointer(pointer).and_then(Value::as_str)
}

fn number_at(value: &Value, pointer: &str) -> Option<usize> {
    let number = value.pointer(pointer).and_then(Value::as_u64)?;
    Some(number as usize)
}

/// The place that a position is.
pub(crate) fn place_in(position: &Value) -> Option<Place> {
    Some(Place {
        line: number_at(position, "/line")?,
        column: number_at(position, "/character")?,
    })
}
