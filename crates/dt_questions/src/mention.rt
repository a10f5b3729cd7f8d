//! An entry of a property that names a node.
use std::marker::Model;

/// Entry `entry` of a property of the node at place `user` names the node at place `node`, with the cells of a specifier.
#[derive(Drop)]
pub struct Mention<'t> {
    pub user: usize,
    pub property: &'t [u8],
    pub entry: usize,
    pub node: usize,
    /// Four bytes each.
    pub cells: &'t [u8],
}

impl<'t> Model for Mention<'t> {
    ghost use Rattle.dt_questions.specs.Mention.{MentionData};

    ghost Value = { MentionData };

    ghost view = { λ m. record {
      user = m.user;
      property = m.property.now;
      entry = m.entry;
      node = m.node;
      cells = m.cells.now;
    } };
}
