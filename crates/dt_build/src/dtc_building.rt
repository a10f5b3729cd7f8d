//! The tree of a source in dtc's language.
ghost use Rattle.std.specs.Prelude.{IfOk, IfSome};
ghost use Rattle.dt_source.specs.Lawful.{IsLawful};
ghost use Rattle.dt_source.specs.Meaning.{meaning_of};
ghost use Rattle.dt_build.specs.Edit.Fragments.{AreFragments};
ghost use Rattle.dt_build.specs.BuiltByDtc.{BuildsDtc, HasPlaces, trees_of};
ghost use Rattle.dt_build.specs.Private.DtcTrees.{IsGatheredOf, IsReadAs};
ghost use Rattle.dt_build.specs.Resolve.BuildPlaces.{IsDtcEditPlaced};

use crate::building::draft_tree;
use crate::dtc_draft::dtc_draft_of;
use crate::edit::{Fragments, Standing, edit_dtc, fragments_of};
use crate::places::{first_root, places_of};
use crate::resolve::{BuildError, Gathered, gather};
use dt_live::making::Places;
use dt_source::Source;
use dt_tree::Tree;
use std::alloc::Global;
use std::hash::RandomState;

/// A tree, and where the text of its source has its nodes and properties.
#[derive(Drop)]
pub struct Built {
    pub tree: Tree,
    pub places: Places,
}

// The tree of what is gathered of a source, or why it has none.
fn gathered_tree<'d, 't>(
    alloc: Global,
    source: &Source<'_>,
    gathered: Gathered<'d, 't>,
    processor: u32,
    symbols: bool,
    limit: usize,
) -> Result<Option<Built>, BuildError>
    requires { IsGatheredOf symbols (meaning_of source.now) processor gathered }
    ensures tree { BuildsDtc symbols (meaning_of source.now) limit (trees_of result) }
    ensures places { IfOk result (λ built. IfSome built (HasPlaces symbols source.now)) }
{
    let draft = dtc_draft_of(alloc, gathered, source.plugin, processor)?;
    match draft_tree(alloc, source, &draft, symbols, limit) {
        Ok(Some(tree)) => {
            let places = places_of(alloc, &draft, first_root(source.items.as_slice()))?;
            Ok(Some(Built { tree, places }))
        }
        Ok(None) => Ok(None),
        Err(error) => Err(error),
    }
}

// The tree of what stands when a source is read, or why it has none.
fn standing_tree<'d, 't>(
    alloc: Global,
    source: &Source<'_>,
    standing: Standing<'d, 't>,
    symbols: bool,
    limit: usize,
) -> Result<Option<Built>, BuildError>
    requires lawful { IsLawful (meaning_of source.now) }
    requires stands { IsReadAs (meaning_of source.now) standing }
    ensures tree { BuildsDtc symbols (meaning_of source.now) limit (trees_of result) }
    ensures places { IfOk result (λ built. IfSome built (HasPlaces symbols source.now)) }
{
    let processor = standing.boot_processor;
    match gather(alloc, standing, symbols, source.plugin) {
        Ok(gathered) => gathered_tree(alloc, source, gathered, processor, symbols, limit),
        Err(error) => Err(error),
    }
}

// The tree of a source with these fragments, or why it has none.
fn dtc_source_tree<'d, 't>(
    alloc: Global,
    hasher: RandomState,
    source: &'d Source<'t>,
    fragments: &'d Fragments<'t>,
    symbols: bool,
    limit: usize,
) -> Result<Option<Built>, BuildError>
    requires lawful { IsLawful (meaning_of source.now) }
    requires fragments { AreFragments (meaning_of source.now).items fragments.now }
    ensures tree { BuildsDtc symbols (meaning_of source.now) limit (trees_of result) }
    ensures at { IsDtcEditPlaced source.now result }
    ensures places { IfOk result (λ built. IfSome built (HasPlaces symbols source.now)) }
{
    match edit_dtc(alloc, hasher, fragments, source) {
        Ok(standing) => standing_tree(alloc, source, standing, symbols, limit),
        Err(error) => Err(BuildError::from(error)),
    }
}

/// The tree of a source in dtc's language, with its boot processor and its places in the text, or None where its values are longer together than the limit, in
/// bytes: sizes are counted before any value is made. With symbols the root gets `__symbols__`, with the path of each labelled node; a
/// plugin's root gets `__fixups__` and `__local_fixups__`, with the sites of its phandles. Errors: 20 to 28 (Devicetree Specification
/// v0.4, chapter 6; where it is silent, dtc 1.6.1).
pub fn build_dtc_within(
    alloc: Global,
    hasher: RandomState,
    source: &Source<'_>,
    symbols: bool,
    limit: usize,
) -> Result<Option<Built>, BuildError>
    ensures tree { BuildsDtc symbols (meaning_of source.now) limit (trees_of result) }
    ensures at { IsDtcEditPlaced source.now result }
    ensures places { IfOk result (λ built. IfSome built (HasPlaces symbols source.now)) }
{
    source.check();
    let fragments = fragments_of(alloc, source.items.as_slice())?;
    dtc_source_tree(alloc, hasher, source, &fragments, symbols, limit)
}
