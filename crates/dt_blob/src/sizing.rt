//! How many bytes the blocks of a blob have, before one is made.
ghost use Rattle.std.specs.Prelude.{◌+◌, ◌*◌, ◌<◌, ◌≤◌};
ghost use Rattle.dt_blob.specs.Steps.Answered.{IsSize, reserves_size};
ghost use Rattle.dt_blob.specs.Blob.{limit};
ghost use Rattle.dt_blob.specs.Token.{property_tokens, tokens_of, tree_tokens};
ghost use Rattle.dt_blob.specs.Steps.Written.{tokens_size};

use crate::bytes::padding_len;
use crate::error::BlobError;
use crate::room::{MAX_SIZE, add_size};
use dt_tree::{Node, Property};

/// A pair of an address and a size, in bytes.
pub(crate) const RESERVATION_SIZE: usize = 16;

/// The reserved memory with its end, behind `used` bytes.
pub(crate) fn add_reservations(used: usize, reserves: &[(u64, u64)]) -> Result<usize, BlobError>
    requires { used ≤ limit }
    ensures { IsSize (used + reserves_size reserves.now) result }
{
    if reserves.len() > MAX_SIZE / RESERVATION_SIZE {
        return Err(BlobError::TooLarge);
    }
    add_size(used, RESERVATION_SIZE, RESERVATION_SIZE * reserves.len())
}

/// The properties behind `used` bytes.
fn add_properties(used: usize, properties: &[Property]) -> Result<usize, BlobError>
    requires { used ≤ limit }
    ensures { IsSize (used + tokens_size (property_tokens properties.now)) result }
{
    let mut size = used;
    for property in properties {
        let len = property.value.as_slice().len();
        size = add_size(size, 12 + padding_len(len), len)?;
    }
    Ok(size)
}

/// The node and all below it, behind `used` bytes.
fn add_node(used: usize, node: &Node) -> Result<usize, BlobError>
    requires { used ≤ limit }
    ensures { IsSize (used + tokens_size (tokens_of node.now)) result }
{
    let len = node.name_bytes().len();
    let begun = add_size(used, 5 + padding_len(len + 1), len)?;
    let mut size = add_properties(begun, node.properties())?;
    for child in node.children() {
        size = add_node(size, child)?;
    }
    add_size(size, 4, 0)
}

/// The structure block of a root with its end, behind `used` bytes.
pub(crate) fn add_structure(used: usize, root: &Node) -> Result<usize, BlobError>
    requires { used ≤ limit }
    ensures { IsSize (used + tokens_size (tree_tokens root.now)) result }
{
    let size = add_node(used, root)?;
    add_size(size, 4, 0)
}
