//! The nodes of a text, within one another (Language Server Protocol 3.17, "Document Symbols Request").

use crate::features::asked::{Asked, Texts};
use crate::library::Source;
use crate::ports::Files;
use crate::writing::{Out, put_bytes, put_number, put_range};
use dt_outline::{Label, Macro, Node, Span};
use std::alloc::{AllocError, Global};

/// `SymbolKind`: Object and Constant.
const OBJECT: usize = 19;

const CONSTANT: usize = 14;

/// Puts the symbols of a text.
pub(crate) fn put_symbols<F: Files>(
    texts: &mut Texts<'_, F>,
    asked: &Asked<'_>,
    out: &mut Out,
) -> Result<(), AllocError> {
    out.begin_array()?;
    if let Some(source) = texts.library.get(asked.number) {
        put_macros(source, out)?;
        put_nodes(texts.alloc, source, out)?;
    }
    out.end_array()
}

fn put_macros(source: &Source, out: &mut Out) -> Result<(), AllocError> {
    for defined in &source.outline.macros {
        put_macro(source, *defined, out)?;
    }
    Ok(())
}

fn put_macro(source: &Source, defined: Macro, out: &mut Out) -> Result<(), AllocError> {
    out.begin_object()?;
    put_bytes(out, "name", source.bytes(defined.name))?;
    put_number(out, "kind", CONSTANT)?;
    put_ranges(source, defined.whole, defined.name, out)?;
    out.end_object()
}

fn put_ranges(source: &Source, whole: Span, name: Span, out: &mut Out) -> Result<(), AllocError> {
    out.key("range")?;
    put_range(out, source.page(), whole)?;
    out.key("selectionRange")?;
    put_range(out, source.page(), name)
}

/// Ends the nodes that are open, up to the one around the next.
fn close_to(open: &mut Vec<usize>, parent: Option<usize>, out: &mut Out) -> Result<(), AllocError> {
    for _ in 0..=open.len() {
        if open.last().copied() == parent || open.pop().is_none() {
            break;
        }
        out.end_array()?;
        out.end_object()?;
    }
    Ok(())
}

fn put_nodes(alloc: Global, source: &Source, out: &mut Out) -> Result<(), AllocError> {
    let mut open = Vec::new(alloc);
    let mut labels = source.outline.labels.as_slice();
    for (number, node) in source.outline.nodes.iter().enumerate() {
        close_to(&mut open, node.parent, out)?;
        labels = put_node(source, *node, number, labels, out)?;
        open.push(number)?;
    }
    close_to(&mut open, None, out)
}

/// Begins a node up to those within it, and gives the labels that stand behind its own.
fn put_node<'l>(
    source: &Source,
    node: Node,
    number: usize,
    labels: &'l [Label],
    out: &mut Out,
) -> Result<&'l [Label], AllocError> {
    out.begin_object()?;
    let name = source.bytes(node.name);
    put_bytes(out, "name", if name.is_empty() { b"{" } else { name })?;
    put_number(out, "kind", OBJECT)?;
    put_ranges(source, node.whole, node.name, out)?;
    let rest = behind_others(labels, number);
    let label = match rest.first() {
        Some(label) if label.node == Some(number) => source.bytes(label.name),
        _ => b"",
    };
    if !label.is_empty() {
        put_bytes(out, "detail", label)?;
    }
    out.key("children")?;
    out.begin_array()?;
    Ok(rest)
}

/// The labels from the first on that names this node or a later one.
fn behind_others(labels: &[Label], number: usize) -> &[Label] {
    let passed = labels
        .iter()
        .position(|label| label.node.is_some_and(|node| node >= number))
        .unwrap_or(labels.len());
    labels.get(passed..).unwrap_or(&[])
}
