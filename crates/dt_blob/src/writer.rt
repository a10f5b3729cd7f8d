//! The structure block of a tree, whose names have their offsets.
ghost use Rattle.std.specs.Prelude.{◌≡◌, ◌+◌, ◌≤◌, ◌++◌, [], length, OnOk};
ghost use Rattle.dt_blob.specs.Blob.{limit, token_bytes};
ghost use Rattle.dt_blob.specs.Steps.Table.{placed};
ghost use Rattle.dt_blob.specs.Token.{begin_node, property, property_tokens, tokens_of, tree_tokens};
ghost use Rattle.dt_blob.specs.Steps.Written.{all_bytes, bytes_by, tokens_size};

use crate::bytes::{put_ended, put_padding, put_word};
use crate::strings::Strings;
use crate::token_words::{BEGIN_NODE_WORD, END_NODE_WORD, END_WORD, PROPERTY_WORD};
use dt_tree::{Node, Property};
use std::alloc::AllocError;

fn put_begin(out: &mut Vec<u8>, name: &[u8]) -> Result<(), AllocError>
    requires { length name.now ≤ limit }
    ensures { OnOk result (out.new.items ≡ out.old.items ++ token_bytes [] (begin_node name.now)) }
{
    put_word(out, BEGIN_NODE_WORD)?;
    put_ended(out, name)?;
    put_padding(out, name.len() + 1)
}

fn put_value(out: &mut Vec<u8>, value: &[u8], offset: usize) -> Result<(), AllocError>
    requires value { length value.now ≤ limit }
    requires offset { offset ≤ limit }
    ensures { OnOk result (out.new.items ≡ out.old.items ++ bytes_by (λ _. offset) (property [] value.now)) }
{
    put_word(out, PROPERTY_WORD)?;
    put_word(out, value.len() as u32)?;
    put_word(out, offset as u32)?;
    out.extend_from_slice(value)?;
    put_padding(out, value.len())
}

fn put_properties(
    out: &mut Vec<u8>,
    strings: &Strings,
    properties: &[Property],
) -> Result<(), AllocError>
    requires { tokens_size (property_tokens properties.now) ≤ limit }
    ensures { OnOk result (out.new.items
        ≡ out.old.items ++ all_bytes (placed strings.now) (property_tokens properties.now)) }
{
    for property in properties {
        let offset = strings.offset(property.name.as_bytes());
        put_value(out, property.value.as_slice(), offset)?;
    }
    Ok(())
}

fn put_node(out: &mut Vec<u8>, strings: &Strings, node: &Node) -> Result<(), AllocError>
    requires { tokens_size (tokens_of node.now) ≤ limit }
    ensures { OnOk result (out.new.items ≡ out.old.items ++ all_bytes (placed strings.now) (tokens_of node.now)) }
{
    put_begin(out, node.name_bytes())?;
    put_properties(out, strings, node.properties())?;
    for child in node.children() {
        put_node(out, strings, child)?;
    }
    put_word(out, END_NODE_WORD)
}

/// The structure block of a root, with its end.
pub(crate) fn put_structure(
    out: &mut Vec<u8>,
    strings: &Strings,
    root: &Node,
) -> Result<(), AllocError>
    requires { tokens_size (tree_tokens root.now) ≤ limit }
    ensures { OnOk result (out.new.items ≡ out.old.items ++ all_bytes (placed strings.now) (tree_tokens root.now)) }
{
    put_node(out, strings, root)?;
    put_word(out, END_WORD)
}
