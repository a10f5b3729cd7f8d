//! Steps over a view with how deep they lead.
ghost use Rattle.std.specs.Prelude.{◌≡◌, ◌∷◌, ◌++◌, List};
ghost use Rattle.dt_tree.specs.NodeData.{NodeData, Siblings};
ghost use Rattle.dt_blob.specs.Token.{begin_node, property_tokens};
ghost use Rattle.dt_patch.specs.View.Order.{upward};
ghost use Rattle.dt_patch.specs.View.Standing.{Ahead, HasNoNode};
ghost use Rattle.dtman_view_c.specs.Steps.{TellsSteps};
ghost use Rattle.dtman_view_c.specs.Told.{bad_offset};

use crate::told::{ViewTold, done, failed, nothing, out};
use dt_patch::view::{NodeOffset, Step, View};

/// The next node in the order of the blob, and how deep it stands.
#[unsafe(no_mangle)]
pub extern "C" fn dtman_view_step(
    view: &View<'_>,
    node: usize,
    depth: u32,
    deep: &mut usize,
) -> ViewTold
    ensures stands { (d : NodeData) (fs : List Siblings)
        → Ahead view.now node (begin_node d.name ∷ (property_tokens d.properties ++ upward (d.children ∷ fs)))
        → TellsSteps view.now (d.children ∷ fs) depth deep.new result }
    ensures refused { HasNoNode view.now node → result ≡ bad_offset }
{
    match view.step(NodeOffset { at: node }, depth) {
        Ok(Step::Node(next, levels)) => {
            *deep = levels;
            done(next.at)
        }
        Ok(Step::Out(at)) => out(at),
        Ok(Step::Over(left)) => {
            *deep = left;
            nothing()
        }
        Err(error) => failed(error),
    }
}
