//! An overlay, applied to a base.
ghost use Rattle.std.specs.Prelude.{◌≡◌, ◌<◌, ◌-◌, ◌^◌, [], IfOk, MatchOption};
ghost use Rattle.dt_source.specs.OverlayMeaning.Shifted.{shifted_overlay};
ghost use Rattle.dt_live.specs.Builder.Lists.{lists_of};
ghost use Rattle.dt_live.specs.Builder.Standing.{AreNodes};
ghost use Rattle.dt_live.specs.Flattened.{IsWhole, lists};
ghost use Rattle.dt_overlay.specs.Fixup.OverlayFault.{Gives};
ghost use Rattle.dt_overlay.specs.Fixup.PatchedOverlay.{patched_lists};
ghost use Rattle.dt_overlay.specs.Applied.{Applies, AppliesWithin, applied_lists};
ghost use Rattle.dt_overlay.specs.Private.Additions.{AreItsSymbols};
ghost use Rattle.dt_overlay.specs.Private.Applying.{AnswersRoot, Exceeds, Fits, HasMap};
ghost use Rattle.dt_overlay.specs.Private.Fragments.{AreItsFragments};
ghost use Rattle.dt_overlay.specs.Private.Symbols.{applied_rows};

use crate::fixup::{OverlayError, PatchedOverlay, shift};
use crate::fragments::{Fragment, find_fragments};
use crate::making::{make, total_size};
use crate::merging::merge_fragments;
use crate::symbol_sizes::symbols_size;
use crate::symbol_target::row_targets;
use crate::symbols::{Symbol, find_symbols, put_symbols};
use dt_live::{LiveTree, flatten};
use dt_tree::{Node, Tree};
use std::alloc::{AllocError, Global};
use std::hash::RandomState;

/// What an overlay puts into a base: its fragments, and its symbols where their values are no longer than a limit.
#[derive(Drop)]
struct Additions<'t> {
    list: Vec<Fragment>,
    symbols: Option<Vec<Symbol<'t>>>,
}

// What a patched overlay puts into the base's rows. Symbols that are too long aren't made.
fn find_additions<'t>(
    alloc: Global,
    rows: &LiveTree<'t, &'t [u8]>,
    patched: &PatchedOverlay<'t>,
    limit: usize,
) -> Result<Additions<'t>, AllocError>
    requires base { IsWhole rows.now }
    ensures fragments { IfOk result (λ additions. AreItsFragments rows.now patched.now additions.list.items) }
    ensures symbols { IfOk result (λ additions. AreItsSymbols rows.now patched.now limit additions.symbols) }
{
    let list = find_fragments(alloc, rows, patched)?;
    let targets = row_targets(alloc, patched, list.as_slice())?;
    if symbols_size(rows, patched, targets.as_slice()) > limit {
        return Ok(Additions {
            list,
            symbols: None,
        });
    }
    let symbols = find_symbols(alloc, rows, patched, targets.as_slice())?;
    Ok(Additions {
        list,
        symbols: Some(symbols),
    })
}

// The root of a live tree's tree, or None where its values are longer together than the limit.
fn root_within<'d>(
    alloc: Global,
    live: &LiveTree<'d, &'d [u8]>,
    limit: usize,
) -> Result<Option<Node>, AllocError>
    requires whole { IsWhole live.now }
    requires nodes { AreNodes (lists live.now).nodes }
    ensures name { IfOk result (λ found. MatchOption found (Exceeds live.now limit) (λ root. root.name ≡ [])) }
    ensures map { IfOk result (λ found. MatchOption found (Exceeds live.now limit) (HasMap live.now)) }
    ensures fits { IfOk result (λ found. MatchOption found (limit < 2 ^ 64 - 1) (λ _. Fits live.now limit)) }
{
    if total_size(live) > limit {
        return Ok(None);
    }
    let root = make(alloc, live)?;
    Ok(Some(root))
}

// Puts what was found over the base's rows, and makes the root, or none where its values are too long. All that refuses the
// fragments comes first.
fn merged_root<'s, 't>(
    alloc: Global,
    rows: LiveTree<'s, &'s [u8]>,
    patched: &'s PatchedOverlay<'t>,
    additions: &'s Additions<'t>,
    limit: usize,
) -> Result<Option<Node>, OverlayError>
    requires base { IsWhole rows }
    requires nodes { AreNodes (lists rows).nodes }
    requires fragments { AreItsFragments rows patched.now additions.now.list.items }
    requires symbols { AreItsSymbols rows patched.now limit additions.now.symbols }
    ensures { AnswersRoot (applied_rows rows.entry patched.now) limit result }
{
    patched.check();
    let mut live = rows;
    merge_fragments(alloc, &mut live, patched, additions.list.as_slice())?;
    let symbols = match &additions.symbols {
        Some(symbols) => symbols.as_slice(),
        None => return Ok(None),
    };
    put_symbols(&mut live, symbols)?;
    let root = root_within(alloc, &live, limit)?;
    Ok(root)
}

// The root of the base with what a patched overlay puts there, or None where its values are too long.
fn patched_root<'t>(
    alloc: Global,
    rows: LiveTree<'t, &'t [u8]>,
    patched: &PatchedOverlay<'t>,
    limit: usize,
) -> Result<Option<Node>, OverlayError>
    requires base { IsWhole rows }
    requires nodes { AreNodes (lists rows).nodes }
    ensures { AnswersRoot (applied_rows rows.entry patched.now) limit result }
{
    match find_additions(alloc, &rows, patched, limit) {
        Ok(additions) => merged_root(alloc, rows, patched, &additions, limit),
        Err(refused) => {
            drop(rows);
            Err(OverlayError::from(refused))
        }
    }
}

// The rows of an overlay above those of its base.
fn patched_overlay<'t>(
    alloc: Global,
    hasher: RandomState,
    rows: &LiveTree<'t, &'t [u8]>,
    overlay: &'t Tree,
) -> Result<PatchedOverlay<'t>, OverlayError>
    requires { IsWhole rows.now }
    ensures patched { Gives (shifted_overlay (lists rows.now) (lists_of overlay.now.root)) patched_lists result }
{
    let over = flatten(alloc, hasher, overlay)?;
    shift(alloc, rows, over)
}

// The root of the base with the overlay applied, or None where its values are too long.
fn applied_root<'t>(
    alloc: Global,
    hasher: RandomState,
    base: &'t Tree,
    overlay: &'t Tree,
    limit: usize,
) -> Result<Option<Node>, OverlayError>
    ensures { AnswersRoot (applied_lists base.now overlay.now) limit result }
{
    let rows = flatten(alloc, hasher, base)?;
    match patched_overlay(alloc, hasher, &rows, overlay) {
        Ok(patched) => {
            let root = patched_root(alloc, rows, &patched, limit);
            drop(patched);
            root
        }
        Err(error) => {
            drop(rows);
            Err(error)
        }
    }
}

/// The base with the overlay applied, or None where the values of this tree are longer together than the limit, in bytes: sizes are
/// counted before any value is made.
pub fn apply_within(
    alloc: Global,
    hasher: RandomState,
    base: &Tree,
    overlay: &Tree,
    limit: usize,
) -> Result<Option<Tree>, OverlayError>
    ensures { AppliesWithin base.now overlay.now limit result }
{
    base.check();
    match applied_root(alloc, hasher, base, overlay, limit) {
        Ok(Some(root)) => {
            let reserves = Vec::from_slice(alloc, base.reserves())?;
            match Tree::new(reserves, base.boot_cpu(), root) {
                Ok(tree) => Ok(Some(tree)),
                // the root has no name
                Err(_) => unreachable!(),
            }
        }
        Ok(None) => Ok(None),
        Err(error) => Err(error),
    }
}

/// The base with the overlay applied, however long its values are.
pub fn apply(
    alloc: Global,
    hasher: RandomState,
    base: &Tree,
    overlay: &Tree,
) -> Result<Tree, OverlayError>
    ensures { Applies base.now overlay.now result }
{
    match apply_within(alloc, hasher, base, overlay, usize::MAX) {
        Ok(Some(tree)) => Ok(tree),
        // no size is counted beyond this limit
        Ok(None) => unreachable!(),
        Err(error) => Err(error),
    }
}
