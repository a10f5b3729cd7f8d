//! The tree of a source.
ghost use Rattle.std.specs.Prelude.{◌≡◌, false, IfOk};
ghost use Rattle.std.specs.List.{list_any};
ghost use Rattle.dt_source.specs.TreeMeaning.Resolved.{is_too_deep, names_taken};
ghost use Rattle.dt_source.specs.Lawful.{IsLawful};
ghost use Rattle.dt_build.specs.Edit.Fragments.{AreFragments};
ghost use Rattle.dt_build.specs.Edit.Said.{tree_of};
ghost use Rattle.dt_source.specs.Meaning.{meaning_of};
ghost use Rattle.dt_build.specs.Built.{Builds, BuildsTree};
ghost use Rattle.dt_build.specs.Private.FixupSites.{AreSites};
ghost use Rattle.dt_build.specs.Private.Fitting.{IsFitting, MakesTree};
ghost use Rattle.dt_build.specs.Private.Made.{lists};
ghost use Rattle.dt_build.specs.Private.Ready.{IsReady};
ghost use Rattle.dt_build.specs.Resolve.BuildPlaces.{IsEditPlaced};

use crate::draft::{Draft, draft_of};
use crate::edit::{Fragments, fragments_of};
use crate::fixup_sites::{FixupSite, find_sites};
use crate::local_depth::local_too_deep;
use crate::making::make;
use crate::node_phandles::number;
use crate::resolve::{BuildError, BuildErrorKind, prepare};
use crate::sizes::total_size;
use dt_source::Source;
use dt_tree::Tree;
use std::alloc::{AllocError, Global};
use std::hash::RandomState;

// The tree of a draft, or None where its values are too long.
fn fitting_tree(
    alloc: Global,
    source: &Source<'_>,
    draft: &Draft<'_, '_>,
    sites: &[FixupSite<'_>],
    symbols: bool,
    limit: usize,
) -> Result<Option<Tree>, AllocError>
    requires ready { IsReady draft.now }
    requires sites { AreSites draft.now sites.now }
    requires free { names_taken symbols draft.now.plugin (tree_of draft.now.live) ≡ false }
    requires shallow { list_any is_too_deep (lists symbols draft.now).nodes ≡ false }
    ensures { IfOk result (λ tree. IsFitting symbols (meaning_of source.now) draft.now limit tree) }
{
    if total_size(draft, sites, symbols) > limit {
        return Ok(None);
    }
    let node_phandles = number(alloc, draft)?;
    let root = make(alloc, draft, &node_phandles, sites, symbols)?;
    let reserves = Vec::from_slice(alloc, source.reserves.as_slice())?;
    match Tree::new(reserves, draft.processor, root) {
        Ok(tree) => Ok(Some(tree)),
        // the root has no name
        Err(_) => unreachable!(),
    }
}

/// The tree of a draft, unless it is too deep.
pub(crate) fn draft_tree(
    alloc: Global,
    source: &Source<'_>,
    draft: &Draft<'_, '_>,
    symbols: bool,
    limit: usize,
) -> Result<Option<Tree>, BuildError>
    requires ready { IsReady draft.now }
    requires free { names_taken symbols draft.now.plugin (tree_of draft.now.live) ≡ false }
    ensures { MakesTree symbols (meaning_of source.now) draft.now limit result }
{
    let sites = find_sites(alloc, draft)?;
    // behind the edits only the local fixups of a node is deeper than the node
    if let Some(at) = local_too_deep(draft, sites.as_slice()) {
        let kind = BuildErrorKind::TooDeep;
        return Err(BuildError { kind, at });
    }
    let tree = fitting_tree(alloc, source, draft, sites.as_slice(), symbols, limit)?;
    Ok(tree)
}

// The tree of a source with these fragments, or why it has none.
fn source_tree<'d, 't>(
    alloc: Global,
    hasher: RandomState,
    source: &'d Source<'t>,
    fragments: &'d Fragments<'t>,
    symbols: bool,
    limit: usize,
) -> Result<Option<Tree>, BuildError>
    requires lawful { IsLawful (meaning_of source.now) }
    requires fragments { AreFragments (meaning_of source.now).items fragments.now }
    ensures tree { Builds symbols (meaning_of source.now) limit result }
    ensures at { IsEditPlaced source.now result }
{
    match prepare(alloc, hasher, source, fragments, symbols) {
        Ok(prepared) => {
            let draft = draft_of(alloc, prepared)?;
            draft_tree(alloc, source, &draft, symbols, limit)
        }
        Err(error) => Err(error),
    }
}

/// The tree of a source, or None where its values are longer together than the limit, in bytes: sizes are counted before any
/// value is made. With symbols the root gets `__symbols__`, with the path of each labelled node; a plugin's root gets `__fixups__` and
/// `__local_fixups__`, with the sites of its phandles.
pub fn build_within(
    alloc: Global,
    hasher: RandomState,
    source: &Source<'_>,
    symbols: bool,
    limit: usize,
) -> Result<Option<Tree>, BuildError>
    ensures tree { Builds symbols (meaning_of source.now) limit result }
    ensures at { IsEditPlaced source.now result }
{
    source.check();
    let fragments = fragments_of(alloc, source.items.as_slice())?;
    source_tree(alloc, hasher, source, &fragments, symbols, limit)
}

/// The tree of a source, however long its values are.
pub fn build(
    alloc: Global,
    hasher: RandomState,
    source: &Source<'_>,
    symbols: bool,
) -> Result<Tree, BuildError>
    ensures tree { BuildsTree symbols (meaning_of source.now) result }
    ensures at { IsEditPlaced source.now result }
{
    match build_within(alloc, hasher, source, symbols, usize::MAX) {
        Ok(Some(tree)) => Ok(tree),
        // no size is counted beyond this limit
        Ok(None) => unreachable!(),
        Err(error) => Err(error),
    }
}
