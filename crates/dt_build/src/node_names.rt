//! Properties that repeat the names of their nodes.
ghost use Rattle.std.specs.Prelude.{◌≡◌, ◌==◌, ◌≤◌, ◌∷◌, ◌++◌, [], ℕ, length};
ghost use Rattle.std.specs.List.{before_first};
ghost use Rattle.std.specs.Str.{bytes_eq};
ghost use Rattle.dt_source.specs.TreeMeaning.Paths.{Path};
ghost use Rattle.dt_source.specs.TreeMeaning.DtcResolved.{is_string_of, last_name};
ghost use Rattle.dt_live.specs.Rows.{IsGrown, IsLiveTree, IsNode, path_of};
ghost use Rattle.dt_build.specs.Resolve.Founds.{founds_of};
ghost use Rattle.dt_build.specs.Private.DtcDrafts.{repeats};

use dt_live::{LiveTree, NodeProperty, NodeRow};
use dt_source::{Part, Value};

// The name of a node, none for the root.
fn node_name<'t>(nodes: &[NodeRow<'t>], node: usize) -> &'t [u8]
    requires grown { IsGrown nodes.now }
    requires known { node ≤ length nodes.now }
    ensures { result.now ≡ last_name (path_of nodes.now node) }
{
    if node == 0 {
        return &[];
    }
    nodes[node - 1].name
}

// A node's name up to its address.
fn base_name(name: &[u8]) -> &[u8]
    ensures { result.now ≡ before_first (λ c. c == 64) name.now }
{
    for (i, c) in name.iter().enumerate() {
        if *c == b'@' {
            return &name[..i];
        }
    }
    name
}

// Whether a value is this text as a string.
fn is_string(value: &[u8], text: &[u8]) -> bool
    ensures { result ≡ bytes_eq value.now (text.now ++ 0 ∷ []) }
{
    let count = text.len();
    if value.len() != count + 1 {
        return false;
    }
    if value[count] != 0 {
        return false;
    }
    &value[..count] == text
}

// Whether a value is this text as a string.
fn is_text(value: &[Part<'_>], text: &[u8]) -> bool
    ensures { (path : ℕ → Path) → result ≡ is_string_of text.now (founds_of path value.now []) }
{
    if value.len() != 1 {
        return false;
    }
    match &value[0] {
        Part::Bytes(bytes) => is_string(bytes.as_slice(), text),
        Part::Phandle(_) => false,
        Part::Path(_) => false,
        Part::File(_) => false,
    }
}

/// Whether a property is a node's `name` and says the node's name up to its address: dtc leaves it out.
pub(crate) fn repeats_name<'d, 't>(
    live: &LiveTree<'d, &'d Value<'t>>,
    property: &NodeProperty<'d, &'d Value<'t>>,
) -> bool
    requires sound { IsLiveTree live.now }
    requires known { IsNode live.now property.now.node }
    ensures { result ≡ repeats live.now property.now }
{
    if property.name != b"name".as_slice() {
        return false;
    }
    let name = node_name(live.nodes(), property.node);
    is_text(property.value.parts.as_slice(), base_name(name))
}
