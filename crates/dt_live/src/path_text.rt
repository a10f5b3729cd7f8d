//! The text of a node's path, name by name.
ghost use Rattle.std.specs.Prelude.{◌≡◌, ◌≤◌, ◌-◌, ◌^◌, ◌∷◌, ◌++◌, [], OnOk, length, min};
ghost use Rattle.dt_tree.specs.Path.{behind_slashes, path_text};
ghost use Rattle.dt_source.specs.TreeMeaning.Paths.{same_path};
ghost use Rattle.dt_live.specs.Rows.{IsGrown, path_of};

use crate::live_tree::NodeRow;
use std::alloc::AllocError;

/// How many bytes the names of a node's path have behind slashes, or the greatest number where there are more.
pub fn names_size(nodes: &[NodeRow<'_>], node: usize) -> usize
    requires grown { IsGrown nodes.now }
    requires known { node ≤ length nodes.now }
    ensures { result ≡ min (length (behind_slashes (path_of nodes.now node))) (2 ^ 64 - 1) }
{
    let mut size: usize = 0;
    let mut at = node;
    'up: while at != 0 {
        let row = nodes[at - 1];
        size = size.saturating_add(row.name.len()).saturating_add(1);
        at = row.parent;
    }
    size
}

/// Puts the names of a node's path behind a value, each behind a slash. As deep as the node.
pub fn append_names(
    value: &mut Vec<u8>,
    nodes: &[NodeRow<'_>],
    node: usize,
) -> Result<(), AllocError>
    requires grown { IsGrown nodes.now }
    requires known { node ≤ length nodes.now }
    ensures { OnOk result (value.new.items ≡ value.old.items ++ behind_slashes (path_of nodes.now node)) }
{
    if node == 0 {
        return Ok(());
    }
    let row = nodes[node - 1];
    append_names(value, nodes, row.parent)?;
    value.push(b'/')?;
    value.extend_from_slice(row.name)?;
    Ok(())
}

/// How many bytes the text of a node's path has with its zero byte, or the greatest number where there are more.
pub fn path_size(nodes: &[NodeRow<'_>], node: usize) -> usize
    requires grown { IsGrown nodes.now }
    requires known { node ≤ length nodes.now }
    ensures { result ≡ min (length (path_text (path_of nodes.now node) ++ 0 ∷ [])) (2 ^ 64 - 1) }
{
    if node == 0 {
        return 2;
    }
    names_size(nodes, node).saturating_add(1)
}

/// Puts the text of a node's path and its zero byte behind a value.
pub fn append_path(
    value: &mut Vec<u8>,
    nodes: &[NodeRow<'_>],
    node: usize,
) -> Result<(), AllocError>
    requires grown { IsGrown nodes.now }
    requires known { node ≤ length nodes.now }
    ensures { OnOk result (value.new.items ≡ value.old.items ++ (path_text (path_of nodes.now node) ++ 0 ∷ [])) }
{
    if node == 0 {
        value.push(b'/')?;
    } else {
        append_names(value, nodes, node)?;
    }
    value.push(0)?;
    Ok(())
}

/// Whether a node is the root's child of a name.
pub fn is_root_child(nodes: &[NodeRow<'_>], node: usize, name: &[u8]) -> bool
    requires grown { IsGrown nodes.now }
    requires known { node ≤ length nodes.now }
    ensures { result ≡ same_path (name.now ∷ []) (path_of nodes.now node) }
{
    if node == 0 {
        return false;
    }
    let row = nodes[node - 1];
    row.parent == 0 && row.name == name
}
