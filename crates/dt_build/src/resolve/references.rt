//! The targets of references.
ghost use Rattle.std.specs.Prelude.{◌≡◌, true, IfOk, OnOk};
ghost use Rattle.dt_source.specs.TreeMeaning.References as meaning;
ghost use Rattle.dt_live.specs.Rows.{IsLiveTree, IsNode, is_standing, node_path};
ghost use Rattle.dt_build.specs.Edit.Said.{tree_of};
ghost use Rattle.dt_source.specs.Tree.{target_view};
ghost use Rattle.dt_build.specs.Resolve.Targets.{IsKnown, IsThere};
ghost use Rattle.dt_build.specs.Resolve.Private.Targets.{AreTargets, FindsPart, FindsTargets, FindsValue, GivesCell};

use crate::edit::target_of;
use crate::resolve::error::{BuildError, BuildErrorKind};
use dt_live::{LiveTree, NodeProperty, is_reserved};
use dt_source::{Part, Reference, Value};
use std::alloc::Global;

/// The nodes that references name, in the order of the walk, none where a plugin leaves a label to its base; and those among them
/// that are named in cells.
#[derive(Drop)]
pub struct Targets {
    pub all: Vec<Option<usize>>,
    pub cells: Vec<usize>,
}

// A node in cells, unless it is reserved.
fn cell_at<'d, 't>(
    live: &LiveTree<'d, &'d Value<'t>>,
    node: usize,
    at: u32,
) -> Result<Option<usize>, BuildError>
    requires sound { IsLiveTree live.now }
    requires known { IsNode live.now node }
    requires there { is_standing live.now node ≡ true }
    ensures cell { GivesCell live.now (meaning.cell_at (node_path live.now node)) result }
    ensures known { IfOk result (λ cell. IsKnown live.now cell) }
    ensures there { IfOk result (λ cell. IsThere live.now cell) }
{
    if is_reserved(live.nodes(), node) {
        let kind = BuildErrorKind::ReservedName;
        return Err(BuildError { kind, at });
    }
    Ok(Some(node))
}

// The node that a reference in cells names; none where a plugin leaves a label to its base.
fn cell_of<'d, 't>(
    live: &LiveTree<'d, &'d Value<'t>>,
    target: &'d Reference<'t>,
    plugin: bool,
) -> Result<Option<usize>, BuildError>
    requires sound { IsLiveTree live.now }
    ensures cell { GivesCell live.now (meaning.cell_of plugin (tree_of live.now) (target_view target.now)) result }
    ensures known { IfOk result (λ cell. IsKnown live.now cell) }
    ensures there { IfOk result (λ cell. IsThere live.now cell) }
{
    match target {
        Reference::Label { at, label } => {
            match live.labelled(*label) {
                Some(node) => cell_at(live, node, *at),
                None => {
                    if plugin {
                        return Ok(None);
                    }
                    Err(BuildError {
                        kind: BuildErrorKind::UnknownLabel,
                        at: *at,
                    })
                }
            }
        }
        Reference::Path { at, path } => {
            if plugin {
                return Err(BuildError {
                    kind: BuildErrorKind::PathInPlugin,
                    at: *at,
                });
            }
            match live.at_path(*path) {
                Some(node) => cell_at(live, node, *at),
                None => Err(BuildError {
                    kind: BuildErrorKind::UnknownPath,
                    at: *at,
                }),
            }
        }
    }
}

fn find_part<'d, 't>(
    targets: &mut Targets,
    live: &LiveTree<'d, &'d Value<'t>>,
    part: &'d Part<'t>,
    plugin: bool,
) -> Result<(), BuildError>
    requires sound { IsLiveTree live.now }
    requires known { AreTargets live.now targets.old }
    ensures known { OnOk result (AreTargets live.now targets.new) }
    ensures step { FindsPart plugin live.now part.now targets.old targets.new result }
{
    match part {
        Part::Bytes(_) => Ok(()),
        Part::File(_) => Ok(()),
        Part::Path(target) => {
            let node = match target_of(live, target) {
                Ok(node) => node,
                Err(error) => return Err(BuildError::from(error)),
            };
            targets.all.push(Some(node))?;
            Ok(())
        }
        Part::Phandle(target) => {
            let node = match cell_of(live, target, plugin) {
                Ok(Some(node)) => node,
                Ok(None) => {
                    targets.all.push(None)?;
                    return Ok(());
                }
                Err(error) => return Err(error),
            };
            targets.all.push(Some(node))?;
            targets.cells.push(node)?;
            Ok(())
        }
    }
}

fn find_value<'d, 't>(
    targets: &mut Targets,
    live: &LiveTree<'d, &'d Value<'t>>,
    value: &'d [Part<'t>],
    plugin: bool,
) -> Result<(), BuildError>
    requires sound { IsLiveTree live.now }
    requires known { AreTargets live.now targets.old }
    ensures known { OnOk result (AreTargets live.now targets.new) }
    ensures step { FindsValue plugin live.now value.now targets.old targets.new result }
{
    for part in value {
        if let Err(error) = find_part(targets, live, part, plugin) {
            return Err(error);
        }
    }
    Ok(())
}

/// The targets of all references of a source.
pub(crate) fn find_targets<'d, 't>(
    alloc: Global,
    live: &LiveTree<'d, &'d Value<'t>>,
    properties: &[NodeProperty<'d, &'d Value<'t>>],
    plugin: bool,
) -> Result<Targets, BuildError>
    requires { IsLiveTree live.now }
    ensures known { IfOk result (λ targets. AreTargets live.now targets) }
    ensures targets { FindsTargets plugin live.now properties.now result }
{
    let mut targets = Targets {
        all: Vec::new(alloc),
        cells: Vec::new(alloc),
    };
    for property in properties {
        if let Err(error) = find_value(
            &mut targets,
            live,
            property.value.parts.as_slice(),
            plugin,
        ) {
            return Err(error);
        }
    }
    Ok(targets)
}
