//! Fragments of an overlay by the texts of paths: what one targets, and where what is in it lies in the base.

use dt_overlay::fixup::ended_path;
use dt_tree::Tree;
use std::alloc::{AllocError, Global};

/// The label or the path of a fragment's target, as its text says it.
#[derive(Clone, Copy, Debug)]
pub(crate) enum Target<'t> {
    Label(&'t [u8]),
    Path(&'t [u8]),
}

/// What the fragment targets that a node lies in.
pub(crate) fn target_round<'t>(overlay: &'t Tree, path: &[u8]) -> Option<Target<'t>> {
    let name = first_name(path)?;
    let fragment = overlay.root().child(name)?;
    if fragment.value(b"target".as_slice()).is_some() {
        return Some(Target::Label(label_of(overlay, name)?));
    }
    let value = fragment.value(b"target-path".as_slice())?;
    Some(Target::Path(ended_path(value.as_slice())?))
}

fn first_name(path: &[u8]) -> Option<&[u8]> {
    let names = path.get(1..)?;
    match names.iter().position(|byte| *byte == b'/') {
        Some(end) => names.get(..end),
        None => Some(names),
    }
}

// The label whose fixups have the `target` of a fragment.
fn label_of<'t>(overlay: &'t Tree, fragment: &[u8]) -> Option<&'t [u8]> {
    let fixups = overlay.root().child(b"__fixups__".as_slice())?;
    for property in fixups.properties() {
        if has_target(property.value.as_slice(), fragment) {
            return Some(property.name.as_bytes());
        }
    }
    None
}

fn has_target(texts: &[u8], fragment: &[u8]) -> bool {
    for text in texts.split(|byte| *byte == 0) {
        if is_target(text, fragment) {
            return true;
        }
    }
    false
}

// Whether a text of `__fixups__` names the `target` of a fragment.
fn is_target(text: &[u8], fragment: &[u8]) -> bool {
    let end = fragment.len().saturating_add(1);
    match (text.get(1..end), text.get(end..)) {
        (Some(name), Some(behind)) => {
            name == fragment && behind.starts_with(b":target:".as_slice())
        }
        _ => false,
    }
}

/// The path in the base of what lies at a path in a fragment, which has the path of its target in place of the fragment's name and
/// `__overlay__`.
pub(crate) fn below_target(
    alloc: Global,
    target: &[u8],
    path: &[u8],
) -> Result<Vec<u8>, AllocError> {
    let mut there = Vec::new(alloc);
    if target.len() > 1 {
        there.extend_from_slice(target)?;
    }
    there.extend_from_slice(behind_body(path))?;
    if there.is_empty() {
        there.push(b'/')?;
    }
    Ok(there)
}

// The names behind `__overlay__`, each with its slash.
fn behind_body(path: &[u8]) -> &[u8] {
    let mut slashes: usize = 0;
    for (at, byte) in path.iter().enumerate() {
        if *byte == b'/' {
            slashes = slashes.saturating_add(1);
            if slashes == 3 {
                return path.get(at..).unwrap_or(&[]);
            }
        }
    }
    &[]
}
