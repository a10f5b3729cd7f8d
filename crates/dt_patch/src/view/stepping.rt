//! Nodes in the order of the blob, with how deep they stand.
ghost use Rattle.std.specs.Prelude.{◌≡◌, ◌<◌, ◌^◌, ◌∷◌, ◌++◌, List};
ghost use Rattle.dt_tree.specs.NodeData.{NodeData, Siblings};
ghost use Rattle.dt_tree.specs.declared.property.Property.{Property};
ghost use Rattle.dt_blob.specs.Token.{begin_node, property_tokens};
ghost use Rattle.dt_patch.specs.View.Order.{upward};
ghost use Rattle.dt_patch.specs.View.Stepping.{TellsStep};
ghost use Rattle.dt_patch.specs.View.Standing.{Ahead, HasNoNode};

use crate::view::error::ViewError;
use crate::view::nodes::NodeOffset;
use crate::view::view::View;
use dt_blob::BlobToken;

/// Where a step from a node to the next one leads.
#[derive(Clone, Copy, Debug, Drop, PartialEq, Eq)]
pub enum Step {
    /// To a node, so deep.
    Node(NodeOffset, usize),
    /// Out of the node that is round all that is walked: up to the offset behind its end.
    Out(usize),
    /// To the end of the blob, with so many left of the nodes that may end.
    Over(usize),
}

impl<'a> View<'a> {
    // The first node from behind a node's beginning on, where so many nodes may end before it.
    fn step_from(&self, from: usize, depth: usize) -> Result<Step, ViewError>
        requires { depth < 2 ^ 63 }
        ensures { (ps : List Property) (fs : List Siblings) → Ahead self.now from (property_tokens ps ++ upward fs)
            → TellsStep self.now result depth fs }
    {
        let mut at = from;
        let mut left = depth;
        'tokens: loop {
            let found = self.token_from(at)?;
            match found.token {
                BlobToken::BeginNode(_) => {
                    return Ok(Step::Node(NodeOffset { at: found.at }, left + 1));
                }
                BlobToken::Property(_, _) => at = found.next,
                BlobToken::EndNode => {
                    if left == 0 {
                        return Ok(Step::Out(found.next));
                    }
                    left -= 1;
                    at = found.next;
                }
                BlobToken::End => return Ok(Step::Over(left)),
                BlobToken::Nop => return Err(ViewError::BadOffset),
            }
        }
    }

    /// The next node in the order of the blob and how deep it stands, where this one stands so deep: a child is one deeper. A node that
    /// ends where none is round it leads out.
    pub fn step(&self, node: NodeOffset, depth: u32) -> Result<Step, ViewError>
        ensures stands { (d : NodeData) (fs : List Siblings)
            → Ahead self.now node.at (begin_node d.name ∷ (property_tokens d.properties ++ upward (d.children ∷ fs)))
            → TellsStep self.now result depth (d.children ∷ fs) }
        ensures refused { HasNoNode self.now node.at → result ≡ Err ViewError.BadOffset }
    {
        let begun = self.begin(node.at)?;
        self.step_from(begun.next, depth as usize)
    }
}
