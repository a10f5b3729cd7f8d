//! Where a property is set: in the place of the old one, or behind the last of its node.
ghost use Rattle.std.specs.Prelude.{◌≡◌, IfOk, IsOkAnd, MatchResult, List, None, Some, false, true};
ghost use Rattle.dt_tree.specs.Name.{is_name};
ghost use Rattle.dt_tree.specs.NodeData.{NodeData};
ghost use Rattle.dt_tree.specs.TreeData.{TreeData};
ghost use Rattle.dt_blob.specs.HeaderWords.{header_fault};
ghost use Rattle.dt_blob.specs.Holds.{Holds};
ghost use Rattle.dt_blob.specs.Token.{Token};
ghost use Rattle.dt_patch.specs.View.Reaching.{Reached};
ghost use Rattle.dt_patch.specs.View.Reserved.{reserved_size};
ghost use Rattle.dt_patch.specs.View.Shows.{IsOver, Views};
ghost use Rattle.dt_patch.specs.View.Standing.{StandsAt};
ghost use Rattle.dt_patch.specs.Order.{is_ordered};
ghost use Rattle.dt_patch.specs.Private.Planning.{IsEnd, IsPlanFor, IsSetPlan, IsSetSpan, Lies, set_plan_fault};
ghost use Rattle.dt_patch.specs.Setting.{place_fault};

use crate::error::PatchError;
use crate::layout::{layout_of, ordered_structure};
use crate::naming::string_place;
use crate::placing::node_place;
use crate::splicing::{Plan, Span};
use crate::view::{NodeOffset, View, held_is_shown};
use dt_blob::BlobError;
use dt_tree::is_name;

/// Where a property is set, and where its name stands in the strings.
#[derive(Clone, Copy)]
pub(crate) struct SetPlan {
    pub(crate) plan: Plan,
    pub(crate) name: Option<usize>,
}

/// The end of a node's properties, where one can be added.
pub(crate) fn end_span(view: &View<'_>, node: NodeOffset) -> Result<Span, PatchError>
    ensures stands { (d : NodeData) (before : List Token) → StandsAt view.now node.at d → Reached view.now node.at before
        → IsOkAnd result (λ s. IsEnd view.now before d s) }
    ensures inside { IfOk result (λ s. Lies view.now s) }
    ensures empty { IfOk result (λ s. s.next ≡ s.at) }
{
    match view.properties_end(node) {
        Ok(at) => Ok(Span { at, next: at }),
        Err(_) => Err(PatchError::Blob(BlobError::BadToken)),
    }
}

/// The property of this name of the node at a path, or the end of its properties.
fn set_span(view: &View<'_>, path: &[u8], name: &[u8]) -> Result<Span, PatchError>
    ensures stands { (tree : TreeData) → Views view.now tree
        → MatchResult result (λ s. IsSetSpan view.now tree path.now name.now s)
        (λ e. place_fault tree.root path.now name.now ≡ Some e) }
    ensures inside { IfOk result (λ s. Lies view.now s) }
    ensures named { IfOk result (λ _. is_name name.now ≡ true) }
{
    let node = node_place(view, path)?;
    if !is_name(name) {
        return Err(PatchError::BadName);
    }
    match view.placed(node, name) {
        Ok(Some(place)) => Ok(Span {
            at: place.at,
            next: place.next,
        }),
        Ok(None) => end_span(view, node),
        Err(_) => Err(PatchError::Blob(BlobError::BadToken)),
    }
}

/// A change of a span, once the blocks are seen to stand in order.
pub(crate) fn plan_of(blob: &[u8], view: &View<'_>, span: Span) -> Result<Plan, PatchError>
    requires fault { header_fault blob.now ≡ None }
    requires over { IsOver blob.now view.now }
    requires seen { (tree : TreeData) → Holds blob.now tree → Views view.now tree }
    requires inside { Lies view.now span }
    ensures plan { IfOk result (λ p. IsPlanFor blob.now view.now span p) }
    ensures fault { (tree : TreeData) → Holds blob.now tree
        → MatchResult result (λ _. is_ordered blob.now (reserved_size tree.reserves) ≡ true)
        (λ e. (e ≡ PatchError.Unordered) × (is_ordered blob.now (reserved_size tree.reserves) ≡ false)) }
{
    let Some(reserved) = view.reserved_size() else {
        return Err(PatchError::Blob(BlobError::BadLayout));
    };
    ordered_structure(blob, reserved)?;
    Ok(Plan {
        layout: layout_of(blob),
        span,
    })
}

/// Where the property of a name of the node at a path is set.
pub(crate) fn set_plan(blob: &[u8], path: &[u8], name: &[u8]) -> Result<SetPlan, PatchError>
    ensures plan { IfOk result (λ p. IsSetPlan blob.now path.now name.now p) }
    ensures fault { (tree : TreeData) → Holds blob.now tree
        → MatchResult result (λ _. set_plan_fault blob.now tree path.now name.now ≡ None)
        (λ e. set_plan_fault blob.now tree path.now name.now ≡ Some e) }
{
    held_is_shown();
    let view = match View::over(blob) {
        Ok(view) => view,
        Err(error) => return Err(PatchError::Blob(error)),
    };
    let span = set_span(&view, path, name)?;
    let plan = plan_of(blob, &view, span)?;
    Ok(SetPlan {
        plan,
        name: string_place(view.strings, name),
    })
}
