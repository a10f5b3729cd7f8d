//! What the server can, and what the client says of itself (Language Server Protocol 3.17, "Initialize Request").

use crate::address::path_of;
use crate::message::text_at;
use crate::writing::{Out, put_number, put_string, put_true};
use serde_json::Value;
use std::alloc::{AllocError, Global};
use std::str;

/// Folders of a workspace in which headers are sought, where it is one of Linux or U-Boot.
const USUAL: [&str; 3] = [
    "include",
    "scripts/dtc/include-prefixes",
    "dts/upstream/include",
];

/// Puts the result of `initialize`.
pub(crate) fn put_capabilities(out: &mut Out) -> Result<(), AllocError> {
    out.begin_object()?;
    out.key("capabilities")?;
    out.begin_object()?;
    put_sync(out)?;
    put_true(out, "documentSymbolProvider")?;
    put_true(out, "definitionProvider")?;
    put_true(out, "referencesProvider")?;
    put_true(out, "hoverProvider")?;
    put_true(out, "foldingRangeProvider")?;
    put_renames(out)?;
    put_completion(out)?;
    out.end_object()?;
    put_server(out)?;
    out.end_object()
}

/// Documents are opened, closed, saved, and changed by parts.
fn put_sync(out: &mut Out) -> Result<(), AllocError> {
    out.key("textDocumentSync")?;
    out.begin_object()?;
    put_true(out, "openClose")?;
    put_number(out, "change", 2)?;
    put_true(out, "save")?;
    out.end_object()
}

fn put_renames(out: &mut Out) -> Result<(), AllocError> {
    out.key("renameProvider")?;
    out.begin_object()?;
    put_true(out, "prepareProvider")?;
    out.end_object()
}

fn put_completion(out: &mut Out) -> Result<(), AllocError> {
    out.key("completionProvider")?;
    out.begin_object()?;
    out.key("triggerCharacters")?;
    out.begin_array()?;
    out.string("&")?;
    out.string("<")?;
    out.end_array()?;
    out.end_object()
}

fn put_server(out: &mut Out) -> Result<(), AllocError> {
    out.key("serverInfo")?;
    out.begin_object()?;
    put_string(out, "name", "dtman")?;
    out.end_object()
}

/// The path of the workspace's root; empty where it has none.
fn root_of(alloc: Global, message: &Value) -> Result<Vec<u8>, AllocError> {
    let named = text_at(message, "/params/rootUri");
    match named.or(text_at(message, "/params/workspaceFolders/0/uri")) {
        Some(uri) => path_of(alloc, uri),
        None => Ok(Vec::new(alloc)),
    }
}

/// Adds a folder, below the root where its name begins with no slash.
fn add_folder(
    alloc: Global,
    folders: &mut Vec<String>,
    root: &str,
    folder: &str,
) -> Result<(), AllocError> {
    let mut path = String::new(alloc);
    if !root.is_empty() && !folder.starts_with('/') {
        path.push_str(root)?;
        path.push('/')?;
    }
    path.push_str(folder)?;
    folders.push(path)?;
    Ok(())
}

/// The folders in which headers are sought: those of the command line, those that `initializationOptions` names as `include`, a list
/// of paths, and the usual ones of the workspace.
pub(crate) fn all_folders(
    alloc: Global,
    message: &Value,
    given: &[&str],
) -> Result<Vec<String>, AllocError> {
    let mut folders = Vec::new(alloc);
    let root = root_of(alloc, message)?;
    let root = str::from_utf8(root.as_slice()).unwrap_or("");
    for folder in given {
        add_folder(alloc, &mut folders, root, *folder)?;
    }
    add_named(alloc, &mut folders, root, message)?;
    if !root.is_empty() {
        add_usual(alloc, &mut folders, root)?;
    }
    Ok(folders)
}

fn add_usual(alloc: Global, folders: &mut Vec<String>, root: &str) -> Result<(), AllocError> {
    for usual in &USUAL {
        add_folder(alloc, folders, root, *usual)?;
    }
    Ok(())
}

fn add_named(
    alloc: Global,
    folders: &mut Vec<String>,
    root: &str,
    message: &Value,
) -> Result<(), AllocError> {
    let named = message
        .pointer("/params/initializationOptions/include")
        .and_then(Value::as_array);
    let Some(named) = named else {
        return Ok(());
    };
    for folder in named {
        if let Some(folder) = folder.as_str() {
            add_folder(alloc, folders, root, folder)?;
        }
    }
    Ok(())
}
