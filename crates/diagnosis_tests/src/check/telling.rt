//! The lines of what the checks find in a tree.

use dt_tree::Tree;
use dtman_check::table::{Reference, Selection};
use dtman_check::{Answer, Asked, Shape, Source, check_tree};
use std::alloc::Global;
use std::hash::RandomState;
use std::process::Abort;

/// The file that lines name, the source that their places are in, and their shape.
#[derive(Clone, Copy)]
pub struct Lines<'a> {
    pub file: &'a [u8],
    pub source: Option<Source<'a>>,
    pub shape: Shape,
    pub quiet: usize,
}

/// What the selected checks tell of a tree.
pub fn told(
    rt: &impl Abort,
    alloc: Global,
    hasher: RandomState,
    tree: &Tree,
    selection: &Selection,
    reference: &Reference<'_>,
    lines: Lines<'_>,
) -> Answer {
    let asked = Asked {
        file: lines.file,
        source: lines.source,
        reference,
        shape: lines.shape,
        quiet: lines.quiet,
    };
    check_tree(alloc, hasher, tree, selection, asked).expect(rt, "memory")
}
