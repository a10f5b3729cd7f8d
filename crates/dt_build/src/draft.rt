//! What a tree is made of, whichever language its source is in.
ghost use Rattle.std.specs.Prelude.{◌≡◌, IfOk};
ghost use Rattle.dt_build.specs.Resolve.Gathered.{targets_anew};
ghost use Rattle.dt_build.specs.Private.Drafts.{IsDraftOf};

use crate::resolve::{NodePhandle, Prepared, Resolution};
use dt_live::{LiveTree, Preorder};
use dt_source::Value;
use std::alloc::{AllocError, Global};

/// A tree in preorder, the targets of its references, and the phandles of its nodes.
#[derive(Drop)]
pub(crate) struct Draft<'d, 't> {
    /// whether a node asks for a number by a reference to itself in its own `phandle`
    pub(crate) asks: bool,
    pub(crate) plugin: bool,
    pub(crate) live: LiveTree<'d, &'d Value<'t>>,
    pub(crate) in_preorder: Preorder<'d, &'d Value<'t>>,
    pub(crate) targets: Vec<Option<usize>>,
    /// the targets that fixups are made of, where these are others
    pub(crate) anew: Option<Vec<Option<usize>>>,
    /// the phandles that properties give
    pub(crate) given: Vec<NodePhandle>,
    /// those that nodes get
    pub(crate) new: Vec<NodePhandle>,
    /// of these, those that get a property
    pub(crate) added: Vec<NodePhandle>,
    /// whether the node of symbols is there also without a symbol
    pub(crate) labelled: bool,
    /// the processor on which the system boots
    pub(crate) processor: u32,
}

/// The draft of a source in the profile.
pub(crate) fn draft_of<'d, 't>(
    alloc: Global,
    prepared: Prepared<'d, 't>,
) -> Result<Draft<'d, 't>, AllocError>
    ensures { IfOk result (λ draft. IsDraftOf prepared.entry draft) }
{
    let Prepared {
        plugin,
        live,
        in_preorder,
        resolution,
    } = prepared;
    let Resolution {
        given,
        targets,
        new,
    } = resolution;
    let added = Vec::from_slice(alloc, new.as_slice())?;
    Ok(Draft {
        asks: false,
        plugin,
        live,
        in_preorder,
        targets: targets.all,
        anew: None,
        given: given.phandles,
        new,
        added,
        labelled: false,
        processor: 0,
    })
}

/// The targets that fixups are made of.
pub(crate) fn fixed_targets<'p>(draft: &'p Draft<'_, '_>) -> &'p [Option<usize>]
    ensures { result.now ≡ targets_anew draft.now.targets.items draft.now.anew }
{
    match &draft.anew {
        Some(targets) => targets.as_slice(),
        None => draft.targets.as_slice(),
    }
}
