//! What the properties of all nodes name.
ghost use Rattle.std.specs.Prelude.{◌≡◌, ◌++◌, IfOk, OnOk};
ghost use Rattle.dt_questions.specs.Mentions.{mentions, mentions_among, mentions_by, mentions_from, mentions_of};

use crate::entries::add_entries;
use crate::mention::Mention;
use crate::nodes::is_hidden;
use crate::shape::shape_of;
use dt_check::{Placed, Survey};
use dt_tree::{Node, Property};
use std::alloc::{AllocError, Global};

// Adds what a node's property names.
fn add_by<'t>(
    mentions: &mut Vec<Mention<'t>>,
    survey: &Survey<'t>,
    user: usize,
    property: &'t Property,
) -> Result<(), AllocError>
    ensures { OnOk result (mentions.new.items ≡ mentions.old.items ++ mentions_by survey.now user property.now) }
{
    match shape_of(survey, user, property.name.as_bytes()) {
        None => Ok(()),
        Some(shape) => add_entries(mentions, survey, shape, user, property),
    }
}

fn add_among<'t>(
    mentions: &mut Vec<Mention<'t>>,
    survey: &Survey<'t>,
    user: usize,
    properties: &'t [Property],
) -> Result<(), AllocError>
    ensures { OnOk result (mentions.new.items ≡ mentions.old.items ++ mentions_among survey.now user properties.now) }
{
    for property in properties {
        add_by(mentions, survey, user, property)?;
    }
    Ok(())
}

// Adds what a node's properties name.
fn add_of<'t>(
    mentions: &mut Vec<Mention<'t>>,
    survey: &Survey<'t>,
    user: usize,
    node: &'t Node,
) -> Result<(), AllocError>
    ensures { OnOk result (mentions.new.items ≡ mentions.old.items ++ mentions_of survey.now user node.now) }
{
    if is_hidden(survey, user) {
        return Ok(());
    }
    add_among(mentions, survey, user, node.properties())
}

fn add_from<'t>(
    mentions: &mut Vec<Mention<'t>>,
    survey: &Survey<'t>,
    nodes: &[Placed<'t>],
) -> Result<(), AllocError>
    ensures { OnOk result (mentions.new.items ≡ mentions.old.items ++ mentions_from survey.now 0 nodes.now) }
{
    for (user, placed) in nodes.iter().enumerate() {
        add_of(mentions, survey, user, placed.node())?;
    }
    Ok(())
}

/// What the properties of the nodes name, in the order of the nodes, their properties and their entries.
pub fn mentions<'t>(alloc: Global, survey: &Survey<'t>) -> Result<Vec<Mention<'t>>, AllocError>
    ensures { IfOk result (λ found. found.items ≡ mentions survey.now) }
{
    let mut found = Vec::new(alloc);
    add_from(&mut found, survey, survey.as_slice())?;
    Ok(found)
}
