//! What references name in the tree so far.
ghost use Rattle.std.specs.Prelude.{◌≡◌, ◌≢◌, true, IfErr, IfOk};
ghost use Rattle.dt_source.specs.TreeMeaning.Statements.{found};
ghost use Rattle.dt_source.specs.Tree.{reference_at, target_view};
ghost use Rattle.dt_live.specs.Rows.{IsLiveTree, IsNode, is_standing, node_path};
ghost use Rattle.dt_build.specs.Edit.EditFault.{Gives};
ghost use Rattle.dt_build.specs.Edit.Said.{tree_of};

use crate::edit::error::{EditError, EditErrorKind};
use dt_live::LiveTree;
use dt_source::{Reference, Value};

/// The node that a reference names.
pub fn target_of<'d, 't>(
    live: &LiveTree<'d, &'d Value<'t>>,
    target: &'d Reference<'t>,
) -> Result<usize, EditError>
    requires sound { IsLiveTree live.now }
    ensures node { Gives (found (target_view target.now) (tree_of live.now)) (node_path live.now) result }
    ensures known { IfOk result (λ node. IsNode live.now node) }
    ensures there { IfOk result (λ node. is_standing live.now node ≡ true) }
    ensures memory { IfErr result (λ e. e.kind ≢ EditErrorKind.NoMemory) }
    ensures at { IfErr result (λ e. e.at ≡ reference_at target.now) }
{
    match target {
        Reference::Label { at, label } => {
            match live.labelled(*label) {
                Some(node) => Ok(node),
                None => Err(EditError {
                    kind: EditErrorKind::UnknownLabel,
                    at: *at,
                }),
            }
        }
        Reference::Path { at, path } => {
            match live.at_path(*path) {
                Some(node) => Ok(node),
                None => Err(EditError {
                    kind: EditErrorKind::UnknownPath,
                    at: *at,
                }),
            }
        }
    }
}
