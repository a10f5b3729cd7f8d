//! The phandles that a source in dtc's language gives, by either name.
ghost use Rattle.std.specs.Prelude.{true, ◌≡◌, All, IfOk, None, OnOk, slice_index_or};
ghost use Rattle.dt_source.specs.TreeMeaning.DtcPhandles as meaning;
ghost use Rattle.dt_live.specs.Rows.{IsLiveTree, IsNode, is_standing};
ghost use Rattle.dt_build.specs.Resolve.NodePhandles.{AreStanding};
ghost use Rattle.dt_build.specs.Resolve.Targets.{IsThere};
ghost use Rattle.dt_build.specs.Resolve.Private.GivenByBoth.{AreNumbers, GivesAll, GivesMore, GivesOne, IsNumber};
ghost use Rattle.dt_build.specs.Resolve.Private.Wanted.{HasTaken};

use crate::resolve::error::{BuildError, BuildErrorKind};
use crate::resolve::node_phandles::{Given, NodePhandle, take};
use crate::resolve::parts::{target_at, targets_behind};
use dt_live::{LiveTree, NodeProperty, is_reserved};
use dt_source::{Part, Value};
use dt_tree::phandle_in;
use std::alloc::Global;
use std::collections::BTreeSet;

/// The phandles given so far, and that of each node.
#[derive(Drop)]
pub(crate) struct Numbers {
    pub(crate) given: Given,
    pub(crate) of_nodes: Vec<Option<u32>>,
}

pub(crate) fn is_phandle_name(name: &[u8]) -> bool
    ensures { result ≡ meaning.is_phandle_name name.now }
{
    name == b"phandle".as_slice() || name == b"linux,phandle".as_slice()
}

// The number that a value gives to its node, none where it asks for one by a reference to the node itself.
fn number_in<'d, 't>(
    live: &LiveTree<'d, &'d Value<'t>>,
    node: usize,
    value: &[Part<'t>],
    targets: &[Option<usize>],
) -> Result<Option<u32>, BuildErrorKind>
    requires sound { IsLiveTree live.now }
    requires there { is_standing live.now node ≡ true }
    requires targets { All (IsThere live.now) targets.now }
    ensures { IsNumber live.now node value.now targets.now result }
{
    if value.len() != 1 {
        return Err(BuildErrorKind::BadPhandle);
    }
    match (&value[0], target_at(targets, 0)) {
        (Part::Bytes(bytes), _) => match phandle_in(bytes.as_slice()) {
            Some(phandle) => Ok(Some(phandle)),
            None => Err(BuildErrorKind::BadPhandle),
        },
        (Part::Phandle(_), Some(target)) => {
            if target == node {
                Ok(None)
            } else {
                Err(BuildErrorKind::BadPhandle)
            }
        }
        (Part::Phandle(_), None) => Err(BuildErrorKind::BadPhandle),
        (Part::Path(_), _) => Err(BuildErrorKind::BadPhandle),
        (Part::File(_), _) => Err(BuildErrorKind::BadPhandle),
    }
}

// Gives a number to a node that has none.
fn give_first<'d, 't>(
    numbers: &mut Numbers,
    live: &LiveTree<'d, &'d Value<'t>>,
    node: usize,
    phandle: u32,
    at: u32,
) -> Result<(), BuildError>
    requires sound { IsLiveTree live.now }
    requires known { IsNode live.now node }
    requires there { is_standing live.now node ≡ true }
    requires numbers { AreNumbers live.now.nodes.items numbers.old }
    requires first { slice_index_or numbers.old.of_nodes.items node None ≡ None }
    ensures numbers { OnOk result (AreNumbers live.now.nodes.items numbers.new) }
    ensures step { GivesOne live.now node phandle numbers.old.given numbers.new.given result }
{
    numbers.given.phandles.reserve(1)?;
    if !take(&mut numbers.given.taken, phandle)? {
        let kind = BuildErrorKind::DuplicatePhandle;
        return Err(BuildError { kind, at });
    }
    numbers.given.phandles.push(NodePhandle { node, phandle })?;
    numbers.of_nodes[node] = Some(phandle);
    Ok(())
}

// Gives a number to a node: no other node has it, and the node has no other.
fn give<'d, 't>(
    numbers: &mut Numbers,
    live: &LiveTree<'d, &'d Value<'t>>,
    node: usize,
    phandle: u32,
    at: u32,
) -> Result<(), BuildError>
    requires sound { IsLiveTree live.now }
    requires known { IsNode live.now node }
    requires there { is_standing live.now node ≡ true }
    requires numbers { AreNumbers live.now.nodes.items numbers.old }
    ensures numbers { OnOk result (AreNumbers live.now.nodes.items numbers.new) }
    ensures step { GivesOne live.now node phandle numbers.old.given numbers.new.given result }
{
    match numbers.of_nodes[node] {
        None => give_first(numbers, live, node, phandle, at),
        Some(own) => {
            if own == phandle {
                return Ok(());
            }
            if numbers.given.taken.contains(&phandle) {
                let kind = BuildErrorKind::DuplicatePhandle;
                return Err(BuildError { kind, at });
            }
            let kind = BuildErrorKind::BadPhandle;
            Err(BuildError { kind, at })
        }
    }
}

// Notes what a property gives.
fn note<'d, 't>(
    numbers: &mut Numbers,
    live: &LiveTree<'d, &'d Value<'t>>,
    property: &NodeProperty<'d, &'d Value<'t>>,
    targets: &[Option<usize>],
) -> Result<(), BuildError>
    requires sound { IsLiveTree live.now }
    requires known { IsNode live.now property.now.node }
    requires there { is_standing live.now property.now.node ≡ true }
    requires targets { All (IsThere live.now) targets.now }
    requires numbers { AreNumbers live.now.nodes.items numbers.old }
    ensures numbers { OnOk result (AreNumbers live.now.nodes.items numbers.new) }
    ensures step { GivesMore live.now property.now targets.now numbers.old.given numbers.new.given result }
{
    if !is_phandle_name(property.name) {
        return Ok(());
    }
    if is_reserved(live.nodes(), property.node) {
        return Ok(());
    }
    let at = property.value.at;
    match number_in(
        live,
        property.node,
        property.value.parts.as_slice(),
        targets,
    ) {
        Ok(Some(phandle)) => give(numbers, live, property.node, phandle, at),
        Ok(None) => Ok(()),
        Err(kind) => Err(BuildError { kind, at }),
    }
}

/// The phandles that the properties `phandle` and `linux,phandle` give outside the reserved nodes, in the order of the walk.
pub(crate) fn given_by_both<'d, 't>(
    alloc: Global,
    live: &LiveTree<'d, &'d Value<'t>>,
    properties: &[NodeProperty<'d, &'d Value<'t>>],
    targets: &[Option<usize>],
) -> Result<Given, BuildError>
    requires sound { IsLiveTree live.now }
    requires known { All (λ x. IsNode live.now x.node) properties.now }
    requires there { All (λ x. is_standing live.now x.node ≡ true) properties.now }
    requires targets { All (IsThere live.now) targets.now }
    ensures owners { IfOk result (λ given. AreStanding live.now.nodes.items given.phandles.items) }
    ensures taken { IfOk result (λ given. HasTaken live.now.nodes.items given) }
    ensures phandles { GivesAll live.now properties.now targets.now result }
{
    let mut numbers = Numbers {
        given: Given {
            phandles: Vec::new(alloc),
            taken: BTreeSet::new(alloc),
        },
        of_nodes: vec![in alloc; None; live.nodes().len() + 1]?,
    };
    let mut left = targets;
    for property in properties {
        if let Err(error) = note(&mut numbers, live, property, left) {
            return Err(error);
        }
        left = targets_behind(property.value.parts.as_slice(), left);
    }
    Ok(numbers.given)
}
