//! The phandles that a source gives.
ghost use Rattle.std.specs.Prelude.{true, ◌≡◌, ◌≤◌, ◌∷◌, ◌==◌, [], ℕ, not, All, length, IfOk, OnOk, ◌||◌};
ghost use Rattle.dt_live.specs.Rows.{IsGrown, stands};
ghost use Rattle.dt_build.specs.Resolve.NodePhandles.{AreStanding};
ghost use Rattle.dt_build.specs.Resolve.Private.Wanted.{HasTaken, Notes, is_taken, phandles_of};

use crate::resolve::error::{BuildError, BuildErrorKind};
use crate::resolve::phandle::phandle_value;
use dt_live::{NodeProperty, NodeRow, is_reserved};
use dt_source::Value;
use std::alloc::{AllocError, Global};
use std::collections::BTreeSet;

/// A node and its phandle.
#[derive(Clone, Copy)]
pub struct NodePhandle {
    pub node: usize,
    pub phandle: u32,
}

/// The phandles that properties give, in the order of the walk, and as a set.
#[derive(Drop)]
pub struct Given {
    pub phandles: Vec<NodePhandle>,
    pub taken: BTreeSet<u32>,
}

/// Adds a phandle, and answers whether it is new.
pub(crate) fn take(taken: &mut BTreeSet<u32>, phandle: u32) -> Result<bool, AllocError>
    ensures new { IfOk result (λ new. new ≡ not (is_taken taken.old phandle)) }
    ensures taken { OnOk result ((n : ℕ) → is_taken taken.new n ≡ ((phandle == n) || is_taken taken.old n)) }
{
    Ok(taken.insert(phandle)?)
}

fn note<'d, 't>(
    given: &mut Given,
    nodes: &[NodeRow<'t>],
    property: &NodeProperty<'d, &'d Value<'t>>,
) -> Result<(), BuildError>
    requires grown { IsGrown nodes.now }
    requires known { property.now.node ≤ length nodes.now }
    requires stands { stands nodes.now property.now.node ≡ true }
    requires owners { AreStanding nodes.now given.old.phandles.items }
    requires taken { HasTaken nodes.now given.old }
    ensures owners { OnOk result (AreStanding nodes.now given.new.phandles.items) }
    ensures taken { OnOk result (HasTaken nodes.now given.new) }
    ensures step { Notes nodes.now (property.now ∷ []) (phandles_of nodes.now given.old) (λ _. given.new) result }
{
    if property.name != b"phandle".as_slice() {
        return Ok(());
    }
    if is_reserved(nodes, property.node) {
        return Ok(());
    }
    let at = property.value.at;
    let phandle = match phandle_value(property.value.parts.as_slice()) {
        Some(phandle) => phandle,
        None => {
            let kind = BuildErrorKind::BadPhandle;
            return Err(BuildError { kind, at });
        }
    };
    given.phandles.reserve(1)?;
    if !take(&mut given.taken, phandle)? {
        let kind = BuildErrorKind::DuplicatePhandle;
        return Err(BuildError { kind, at });
    }
    given.phandles.push(NodePhandle {
        node: property.node,
        phandle,
    })?;
    Ok(())
}

/// The phandles that the properties `phandle` give outside the reserved nodes.
pub(crate) fn given_phandles<'d, 't>(
    alloc: Global,
    nodes: &[NodeRow<'t>],
    properties: &[NodeProperty<'d, &'d Value<'t>>],
) -> Result<Given, BuildError>
    requires grown { IsGrown nodes.now }
    requires known { All (λ x. x.node ≤ length nodes.now) properties.now }
    requires stand { All (λ x. stands nodes.now x.node ≡ true) properties.now }
    ensures owners { IfOk result (λ given. AreStanding nodes.now given.phandles.items) }
    ensures taken { IfOk result (λ given. HasTaken nodes.now given) }
    ensures phandles { Notes nodes.now properties.now [] (λ given. given) result }
{
    let mut given = Given {
        phandles: Vec::new(alloc),
        taken: BTreeSet::new(alloc),
    };
    for property in properties {
        if let Err(error) = note(&mut given, nodes, property) {
            return Err(error);
        }
    }
    Ok(given)
}
