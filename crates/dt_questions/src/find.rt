//! The nodes that have what is asked for.
ghost use Rattle.std.specs.Prelude.{◌≡◌, ◌++◌, IfOk, OnOk};
ghost use Rattle.dt_check.specs.Nodes.{tree_nodes};
ghost use Rattle.dt_questions.specs.Find.{found, found_at, found_from};

use crate::paths::add_path;
use crate::question::Question;
use dt_check::{Placed, Survey};
use dt_tree::Tree;
use std::alloc::{AllocError, Global};
use std::hash::RandomState;

// Adds the line of a node, if it has what is asked for.
fn add_found(
    text: &mut Vec<u8>,
    survey: &Survey<'_>,
    question: &Question<'_>,
    place: usize,
    node: &Placed<'_>,
) -> Result<(), AllocError>
    ensures { OnOk result (text.new.items ≡ text.old.items ++ found_at survey.now question.now place node.now) }
{
    if !question.fits(node.node()) {
        return Ok(());
    }
    add_path(text, survey, place)?;
    text.push(b'\n')?;
    Ok(())
}

// Adds the lines of nodes.
fn add_all(
    text: &mut Vec<u8>,
    survey: &Survey<'_>,
    question: &Question<'_>,
    nodes: &[Placed<'_>],
) -> Result<(), AllocError>
    ensures { OnOk result (text.new.items ≡ text.old.items ++ found_from survey.now question.now 0 nodes.now) }
{
    for (place, node) in nodes.iter().enumerate() {
        add_found(text, survey, question, place, node)?;
    }
    Ok(())
}

/// The paths of the nodes that have what is asked for, in preorder, a line each: none where no node has it.
pub fn find_lines(
    alloc: Global,
    hasher: RandomState,
    tree: &Tree,
    question: &Question<'_>,
) -> Result<Vec<u8>, AllocError>
    ensures { IfOk result (λ text. text.items ≡ found (tree_nodes tree.now.root) question.now) }
{
    let survey = Survey::of(alloc, hasher, tree)?;
    let mut text = Vec::new(alloc);
    add_all(&mut text, &survey, question, survey.as_slice())?;
    Ok(text)
}
