//! The fragments that extensions of a plugin make.
ghost use Rattle.std.specs.Prelude.{◌≡◌, ◌+◌, ◌-◌, ◌^◌, ◌<◌, ◌∷◌, [], IfOk, OnOk};
ghost use Rattle.dt_source.specs.TreeMeaning.Names.{fragment_name, overlay_name};
ghost use Rattle.dt_source.specs.TreeMeaning.Statements.{makes_fragment, target_name, target_value};
ghost use Rattle.dt_source.specs.Tree.{labels_view, target_view};
ghost use Rattle.dt_live.specs.Rows.{IsLiveTree, IsStamped, node_path};
ghost use Rattle.dt_build.specs.Edit.FaultPlaces.{fragment_place};
ghost use Rattle.dt_build.specs.Edit.Private.Edited.{Does, HasFragment, IsPlace, IsPlacedIn, fragment_step};
ghost use Rattle.dt_build.specs.Edit.Private.Made.{IsExact};
ghost use Rattle.dt_build.specs.Edit.Said.{pieces, tree_of};

use crate::edit::body::edit_body;
use crate::edit::error::{EditError, EditErrorKind};
use crate::edit::made::Made;
use dt_live::LiveTree;
use dt_source::{Labels, Reference, Statement, Value};
use std::alloc::AllocError;

// no body of the text has this stamp
const NO_BODY: usize = 0;

/// Whether an extension makes a fragment: in a plugin that of a path, or of a label that no node has, where it has no labels itself.
pub(crate) fn makes_fragment<'d, 't>(
    plugin: bool,
    live: &LiveTree<'d, &'d Value<'t>>,
    labels: &'d Labels<'t>,
    target: &'d Reference<'t>,
) -> bool
    requires sound { IsLiveTree live.now }
    ensures { result ≡ makes_fragment plugin (labels_view labels.now) (target_view target.now) (tree_of live.now) }
{
    if !plugin {
        return false;
    }
    if !labels.as_slice().is_empty() {
        return false;
    }
    match target {
        Reference::Path { .. } => true,
        Reference::Label { at: _, label } => live.labelled(*label).is_none(),
    }
}

pub(crate) fn target_name<'t>(target: &Reference<'t>) -> &'static [u8]
    ensures { result.now ≡ target_name (target_view target.now) }
{
    match target {
        Reference::Label { .. } => b"target".as_slice(),
        Reference::Path { .. } => b"target-path".as_slice(),
    }
}

/// Puts a fragment with what it extends into the tree, and answers the node of its overlay.
fn define_fragment<'d, 't>(
    live: &mut LiveTree<'d, &'d Value<'t>>,
    name: &'d [u8],
    target: &'d Reference<'t>,
    value: &'d Value<'t>,
) -> Result<usize, AllocError>
    requires sound { IsLiveTree live.old }
    requires stamped { IsStamped live.old }
    requires value { pieces value ≡ target_value (target_view target.now) }
    ensures place { IfOk result (λ overlay. IsPlace live.new overlay 2) }
    ensures path { IfOk result (λ overlay. node_path live.new overlay ≡ name.now ∷ overlay_name ∷ []) }
    ensures tree { OnOk result (HasFragment name.now (target_view target.now) live.old live.new) }
{
    let at = target.at();
    let (fragment, _) = live.define_child(0, name, NO_BODY, at)?;
    live.set_property(fragment, target_name(target), value, NO_BODY)?;
    let (overlay, _) = live.define_child(fragment, b"__overlay__".as_slice(), NO_BODY, at)?;
    Ok(overlay)
}

/// Makes the fragment of this name with what the body of its extension says.
pub(crate) fn add_fragment<'d, 't>(
    live: &mut LiveTree<'d, &'d Value<'t>>,
    made: &mut Made<'d>,
    name: &'d [u8],
    target: &'d Reference<'t>,
    value: &'d Value<'t>,
    body: &'d [Statement<'t>],
) -> Result<(), EditError>
    requires sound { IsLiveTree live.old }
    requires stamped { IsStamped live.old }
    requires exact { IsExact made.old }
    requires few { made.old.count < 2 ^ 64 - 1 }
    requires name { name.now ≡ fragment_name made.old.count }
    requires value { pieces value ≡ target_value (target_view target.now) }
    ensures sound { OnOk result (IsLiveTree live.new) }
    ensures stamped { OnOk result (IsStamped live.new) }
    ensures exact { OnOk result (IsExact made.new) }
    ensures count { OnOk result (made.new.count ≡ made.old.count + 1) }
    ensures item { Does (fragment_step target.now body.now name.now) live.old made.old live.new made.new result }
    ensures at { IsPlacedIn (fragment_place target.now body.now name.now) live.old made.old result }
{
    if live.child(0, name).is_some() {
        return Err(EditError {
            kind: EditErrorKind::ReservedName,
            at: target.at(),
        });
    }
    // its own name is taken while its body runs
    made.add(name)?;
    let overlay = define_fragment(live, name, target, value)?;
    edit_body(live, made, overlay, 2, body)
}
