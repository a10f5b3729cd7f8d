//! The node in which a word of a structure block stands.

use dt_blob::{BlobBlocks, BlobToken, blocks_in, token};
use std::alloc::{AllocError, Global};

/// The path of the innermost node that is open where the word behind so many bytes of a blob stands.
pub(crate) fn path_around(
    alloc: Global,
    blob: &[u8],
    before: usize,
) -> Result<Vec<u8>, AllocError> {
    let mut names = Vec::new(alloc);
    if let Ok(blocks) = blocks_in(blob) {
        open_names(&mut names, blocks, before)?;
    }
    path_of(alloc, names.as_slice())
}

// The names of the nodes that the tokens before the word leave open, from the root's on.
fn open_names<'t>(
    names: &mut Vec<&'t [u8]>,
    blocks: BlobBlocks<'t>,
    before: usize,
) -> Result<(), AllocError> {
    let end = blocks.structure_at.saturating_add(blocks.structure.len());
    let mut rest = blocks.structure;
    for _ in 0..blocks.structure.len() {
        let Ok((next, behind)) = token(blocks.strings, rest) else {
            return Ok(());
        };
        if end.saturating_sub(behind.len()) > before {
            return Ok(());
        }
        note(names, next)?;
        rest = behind;
    }
    Ok(())
}

fn note<'t>(names: &mut Vec<&'t [u8]>, token: BlobToken<'t>) -> Result<(), AllocError> {
    match token {
        BlobToken::BeginNode(name) => names.push(name)?,
        BlobToken::EndNode => {
            names.pop();
        }
        _ => (),
    }
    Ok(())
}

fn path_of(alloc: Global, names: &[&[u8]]) -> Result<Vec<u8>, AllocError> {
    let mut path = Vec::new(alloc);
    for name in names.get(1..).unwrap_or(&[]) {
        path.push(b'/')?;
        path.extend_from_slice(*name)?;
    }
    if path.is_empty() {
        path.push(b'/')?;
    }
    Ok(path)
}
