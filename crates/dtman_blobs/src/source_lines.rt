//! Properties and nodes as lines of a source, each behind a mark.

use crate::difference::{Form, Naming, Part, Seen, is_own_phandle};
use dt_blob::{BlobError, source_text};
use dt_tree::{Node, Property, Tree};
use std::alloc::{AllocError, Global};

/// What stands before the property in the source of a tree that has it alone.
const HEAD: &[u8] = b"/dts-v1/;\n\n/ {\n\t";

/// And what stands behind its line.
const TAIL: &[u8] = b"};\n";

/// A root without properties and children.
const EMPTY_ROOT: &[u8] = b"/ {\n};\n";

/// Adds the tabs before what is so deep.
pub(crate) fn add_tabs(text: &mut Vec<u8>, depth: usize) -> Result<(), AllocError> {
    for _level in 0..depth {
        text.push(b'\t')?;
    }
    Ok(())
}

fn add_front(text: &mut Vec<u8>, mark: u8, depth: usize) -> Result<(), AllocError> {
    text.push(mark)?;
    add_tabs(text, depth)
}

// The property in the source of a tree that has it alone.
fn source_alone(alloc: Global, property: &Property) -> Result<Vec<u8>, BlobError> {
    let mut properties = Vec::new(alloc);
    properties.push(property.copy(alloc)?)?;
    let root = Node::new(alloc, None, properties, Vec::new(alloc))?;
    let tree = Tree::new(Vec::new(alloc), 0, root)?;
    source_text(alloc, &tree)
}

/// What stands before the root in the source of a tree with these reservations.
pub(crate) fn head_of(alloc: Global, reserves: &[(u64, u64)]) -> Result<Vec<u8>, BlobError> {
    let root = Node::new(alloc, None, Vec::new(alloc), Vec::new(alloc))?;
    let tree = Tree::new(Vec::from_slice(alloc, reserves)?, 0, root)?;
    let mut source = source_text(alloc, &tree)?;
    let head = source.len().saturating_sub(EMPTY_ROOT.len());
    source.truncate(head);
    Ok(source)
}

/// The canonical line of a property, without tabs.
pub(crate) fn add_canonical(
    alloc: Global,
    text: &mut Vec<u8>,
    property: &Property,
) -> Result<(), BlobError> {
    let source = source_alone(alloc, property)?;
    let source = source.as_slice();
    let line = source.strip_prefix(HEAD).unwrap_or(source);
    let line = line.strip_suffix(TAIL).unwrap_or(line);
    text.extend_from_slice(line)?;
    Ok(())
}

/// Adds bytes as one number.
pub(crate) fn add_hex(alloc: Global, text: &mut Vec<u8>, bytes: &[u8]) -> Result<(), AllocError> {
    text.extend_from_slice(b"0x")?;
    for byte in bytes {
        let digits = format!(in alloc; "{byte:02x}")?;
        text.extend_from_slice(digits.as_bytes())?;
    }
    Ok(())
}

fn add_part(alloc: Global, text: &mut Vec<u8>, part: Part<'_>) -> Result<(), AllocError> {
    match part {
        Part::Number(bytes) => add_hex(alloc, text, bytes),
        Part::Node(path) => add_path(text, path),
    }
}

/// Adds a reference to the node at a path.
pub(crate) fn add_path(text: &mut Vec<u8>, path: &[u8]) -> Result<(), AllocError> {
    text.extend_from_slice(b"&{")?;
    text.extend_from_slice(shown_path(path))?;
    text.push(b'}')?;
    Ok(())
}

/// The path of a node as sources have it.
pub fn shown_path(path: &[u8]) -> &[u8] {
    if path.is_empty() { b"/" } else { path }
}

// Cells with the paths of the nodes that their phandles name.
fn add_cells(
    alloc: Global,
    text: &mut Vec<u8>,
    naming: &Naming<'_>,
    property: &Property,
) -> Result<(), AllocError> {
    let name = property.name.as_bytes();
    let mut seen = Seen::of(naming, name, property.value.as_slice());
    text.extend_from_slice(name)?;
    let mut between = b" = <".as_slice();
    while let Some(part) = seen.next_part() {
        text.extend_from_slice(between)?;
        add_part(alloc, text, part)?;
        between = b" ";
    }
    text.extend_from_slice(b">;\n")
}

/// Whether a value is shown with the paths of nodes.
pub(crate) fn has_cells(property: &Property) -> bool {
    let value = property.value.as_slice();
    Form::of(property.name.as_bytes()).is_some() && !value.is_empty() && value.len() % 4 == 0
}

/// The line of a property: a phandle is shown as the path of the node that it names, all else as in a canonical source.
pub fn add_property(
    alloc: Global,
    text: &mut Vec<u8>,
    mark: u8,
    depth: usize,
    naming: &Naming<'_>,
    property: &Property,
) -> Result<(), BlobError> {
    add_front(text, mark, depth)?;
    add_plain_property(alloc, text, naming, property)
}

/// The same, without a mark.
pub fn add_plain_property(
    alloc: Global,
    text: &mut Vec<u8>,
    naming: &Naming<'_>,
    property: &Property,
) -> Result<(), BlobError> {
    if has_cells(property) {
        add_cells(alloc, text, naming, property)?;
        return Ok(());
    }
    add_canonical(alloc, text, property)
}

fn add_properties(
    alloc: Global,
    text: &mut Vec<u8>,
    mark: u8,
    depth: usize,
    naming: &Naming<'_>,
    node: &Node,
) -> Result<(), BlobError> {
    for property in node.properties() {
        if !is_own_phandle(property.name.as_bytes()) {
            add_property(alloc, text, mark, depth, naming, property)?;
        }
    }
    Ok(())
}

/// The lines of a node, with all below it, but for its phandle.
pub fn add_node(
    alloc: Global,
    text: &mut Vec<u8>,
    mark: u8,
    depth: usize,
    naming: &Naming<'_>,
    node: &Node,
) -> Result<(), BlobError> {
    add_front(text, mark, depth)?;
    text.extend_from_slice(node.name_bytes())?;
    text.extend_from_slice(b" {\n")?;
    add_properties(alloc, text, mark, depth.saturating_add(1), naming, node)?;
    for child in node.children() {
        add_node(alloc, text, mark, depth.saturating_add(1), naming, child)?;
    }
    add_front(text, mark, depth)?;
    text.extend_from_slice(b"};\n")?;
    Ok(())
}
