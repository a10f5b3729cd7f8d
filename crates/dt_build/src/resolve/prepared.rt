//! A source whose edits are done and whose references are found: all that making its tree needs.
ghost use Rattle.std.specs.Prelude.{◌≡◌};
ghost use Rattle.dt_source.specs.TreeMeaning.Edits.{empty};
ghost use Rattle.dt_live.specs.Rows.{IsLiveTree, IsStamped, state_of};
ghost use Rattle.dt_build.specs.Edit.Fragments.{AreFragments};
ghost use Rattle.dt_build.specs.Resolve.BuildPlaces.{IsEditPlaced};
ghost use Rattle.dt_build.specs.Resolve.Prepared.{Prepares};
ghost use Rattle.dt_build.specs.Resolve.Private.Filled.{Completes, whole};
ghost use Rattle.dt_source.specs.Meaning.{meaning_of};

use crate::edit::{Fragments, edit_items};
use crate::resolve::error::BuildError;
use crate::resolve::resolving::{Resolution, resolve};
use dt_live::{LiveTree, Preorder, preorder_of};
use dt_source::{Source, Value};
use std::alloc::Global;
use std::hash::RandomState;

/// The tree that the edits made, its order, and its phandles and targets.
#[derive(Drop)]
pub struct Prepared<'d, 't> {
    pub plugin: bool,
    pub live: LiveTree<'d, &'d Value<'t>>,
    pub in_preorder: Preorder<'d, &'d Value<'t>>,
    pub resolution: Resolution,
}

// The order of the tree that edits made, and its phandles and targets.
fn order_and_resolution<'d, 't>(
    alloc: Global,
    live: &LiveTree<'d, &'d Value<'t>>,
    symbols: bool,
    plugin: bool,
) -> Result<(Preorder<'d, &'d Value<'t>>, Resolution), BuildError>
    requires sound { IsLiveTree live.now }
    ensures { Completes symbols plugin live.now result }
{
    let in_preorder = preorder_of(alloc, live)?;
    let nodes = in_preorder.nodes.as_slice();
    let properties = in_preorder.properties.as_slice();
    let resolution = match resolve(alloc, live, nodes, properties, symbols, plugin) {
        Ok(resolution) => resolution,
        Err(error) => return Err(error),
    };
    Ok((in_preorder, resolution))
}

// Does the edits of a source in an empty live tree, puts it into preorder, finds what is referenced and gives it phandles.
fn fill<'d, 't>(
    alloc: Global,
    live: &mut LiveTree<'d, &'d Value<'t>>,
    source: &'d Source<'t>,
    fragments: &'d Fragments<'t>,
    symbols: bool,
) -> Result<(Preorder<'d, &'d Value<'t>>, Resolution), BuildError>
    requires sound { IsLiveTree live.old }
    requires assigned { IsStamped live.old }
    requires empty { state_of live.old ≡ empty }
    requires fragments { AreFragments (meaning_of source.now).items fragments.now }
    ensures all { Prepares symbols (meaning_of source.now) (whole source.now.plugin live.new) result }
    ensures at { IsEditPlaced source.now result }
{
    match edit_items(
        alloc,
        live,
        source.plugin,
        fragments,
        source.items.as_slice(),
    ) {
        Ok(()) => order_and_resolution(alloc, live, symbols, source.plugin),
        Err(error) => Err(BuildError::from(error)),
    }
}

/// Does the edits of a source, puts its tree into preorder, finds what is referenced and gives it phandles. The fragments are those of the
/// source's items.
pub fn prepare<'d, 't>(
    alloc: Global,
    hasher: RandomState,
    source: &'d Source<'t>,
    fragments: &'d Fragments<'t>,
    symbols: bool,
) -> Result<Prepared<'d, 't>, BuildError>
    requires { AreFragments (meaning_of source.now).items fragments.now }
    ensures all { Prepares symbols (meaning_of source.now) (λ prepared. prepared) result }
    ensures at { IsEditPlaced source.now result }
{
    let mut live = LiveTree::new(alloc, hasher);
    match fill(alloc, &mut live, source, fragments, symbols) {
        Ok((in_preorder, resolution)) => Ok(Prepared {
            plugin: source.plugin,
            live,
            in_preorder,
            resolution,
        }),
        Err(error) => Err(error),
    }
}
