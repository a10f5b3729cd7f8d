//! Where the paths of an overlay's symbols lead in the base.
ghost use Rattle.std.specs.Prelude.{◌≡◌, ◌∷◌, length, slice_index_or, IfOk};
ghost use Rattle.std.specs.List.{slice_split};
ghost use Rattle.dt_tree.specs.Path.{behind_slashes, is_slash, path_names};
ghost use Rattle.dt_overlay.specs.Private.SymbolTargets.{AreTargetsOf, IsSplit, LeadsTo, names_after, no_fragment};

use crate::fixup::{PatchedOverlay, ended_path};
use crate::fragments::{Fragment, fragment_body};
use std::alloc::{AllocError, Global};

/// The base's nodes that fragments target, by the fragments' rows in the overlay.
pub(crate) fn row_targets<'t>(
    alloc: Global,
    patched: &PatchedOverlay<'t>,
    list: &[Fragment],
) -> Result<Vec<Option<usize>>, AllocError>
    ensures { IfOk result (λ targets. AreTargetsOf patched.now list.now targets.items) }
{
    patched.check();
    let count = patched.nodes().len();
    let mut targets = Vec::with_capacity(alloc, count)?;
    let mut used = 0;
    for row in 0..count {
        if fragment_body(patched.live(), row).is_some() {
            targets.push(target_of(list, used))?;
            used += 1;
        } else {
            targets.push(None)?;
        }
    }
    Ok(targets)
}

// The target of a fragment, none behind the last.
fn target_of(list: &[Fragment], at: usize) -> Option<usize>
    ensures { result ≡ (slice_index_or list.now at no_fragment).target }
{
    if at < list.len() {
        list[at].target
    } else {
        None
    }
}

// The first of the names between slashes, and what stands behind it: nothing, or a slash and the other names.
fn split_name(names: &[u8]) -> (&[u8], &[u8])
    ensures names { slice_split is_slash names.now ≡ result.0.now ∷ names_after result.1.now }
    ensures text { result.1.now ≡ behind_slashes (names_after result.1.now) }
{
    for (at, byte) in names.iter().enumerate() {
        if *byte == b'/' {
            return (&names[..at], &names[at..]);
        }
    }
    (names, &[])
}

// The name of the fragment whose body a path's text begins with, and what stands behind the body's name.
fn split_body(path: &[u8]) -> Option<(&[u8], &[u8])>
    ensures { IsSplit (path_names path.now) result }
{
    let (_, names) = path.split_first()?;
    let (fragment, behind) = split_name(names);
    let (_, below) = behind.split_first()?;
    let (overlay, rest) = split_name(below);
    if overlay == b"__overlay__".as_slice() {
        Some((fragment, rest))
    } else {
        None
    }
}

/// The base's node that the fragment at the head of a symbol's path targets, and what stands in the path behind the body's name.
pub(crate) fn symbol_target<'v>(
    patched: &PatchedOverlay<'v>,
    targets: &[Option<usize>],
    value: &'v [u8],
) -> Option<(usize, &'v [u8])>
    requires count { length targets.now ≡ length patched.now.live.nodes.items }
    ensures { LeadsTo patched.now targets.now value.now result }
{
    patched.check();
    let (fragment, rest) = split_body(ended_path(value)?)?;
    let node = patched.child(0, fragment)?;
    let target = targets[node - 1]?;
    Some((target, rest))
}
