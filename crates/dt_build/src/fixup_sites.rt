//! The fixup sites of a plugin, found once: one for each phandle in its values, in the order of the walk.
ghost use Rattle.std.specs.Prelude.{◌≡◌, ◌<◌, ◌+◌, true, All, IfOk, OnOk, length};
ghost use Rattle.dt_build.specs.Resolve.Targets.{IsKnown, IsToldApart};
ghost use Rattle.dt_build.specs.Private.Ready.{IsReady};
ghost use Rattle.dt_live.specs.Rows.{IsNode, node_path};
ghost use Rattle.dt_build.specs.Resolve.Founds.{found_property};
ghost use Rattle.dt_build.specs.Private.FixupSites.{AreBetween, AreSites, PutsFixed, PutsPart, PutsAll, key_at, key_of};
ghost use Rattle.dt_build.specs.Private.Made.{is_fixed};
ghost use Rattle.dt_build.specs.Private.Values.{label_in, part_bytes};

use crate::draft::{Draft, fixed_targets};
use crate::resolve::{asks_for_own, target_at, target_count, targets_behind};
use crate::value::part_size;
use dt_live::NodeProperty;
use dt_source::{Part, Reference, Value};
use std::alloc::{AllocError, Global};

/// A phandle in a value: the place of its property in preorder, the reference where no node of the source has its label, and how
/// many bytes of the value stand before it. There may be millions: a reference is half as long as its label would be.
#[derive(Clone, Copy)]
pub(crate) struct FixupSite<'d> {
    pub(crate) property: usize,
    pub(crate) reference: Option<&'d Reference<'d>>,
    pub(crate) offset: usize,
}

/// The label of a reference.
pub(crate) fn label_of<'t>(reference: &Reference<'t>) -> &'t [u8]
    ensures { result.now ≡ label_in reference.now }
{
    match reference {
        Reference::Label { at: _, label } => label,
        Reference::Path { .. } => &[],
    }
}

// Puts the site of a part behind the others, where it is a phandle.
fn put_site<'d>(
    sites: &mut Vec<FixupSite<'d>>,
    property: usize,
    part: &'d Part<'d>,
    target: Option<usize>,
    offset: usize,
) -> Result<(), AllocError>
    requires places { AreBetween 0 (property + 1) sites.old.items }
    ensures places { OnOk result (AreBetween 0 (property + 1) sites.new.items) }
    ensures sites { OnOk result (PutsPart property part.now target offset sites.old.items sites.new.items) }
{
    let reference = match (part, target) {
        (Part::Phandle(_), Some(_)) => None,
        (Part::Phandle(reference), None) => Some(reference),
        (Part::Bytes(_), _) => return Ok(()),
        (Part::Path(_), _) => return Ok(()),
        (Part::File(_), _) => return Ok(()),
    };
    sites.push(FixupSite {
        property,
        reference,
        offset,
    })?;
    Ok(())
}

/// Where the next part of a value begins.
pub(crate) fn offset_behind(
    draft: &Draft<'_, '_>,
    part: &Part<'_>,
    target: Option<usize>,
    offset: usize,
) -> Result<usize, AllocError>
    requires ready { IsReady draft.now }
    requires known { IsKnown draft.now.live target }
    ensures { IfOk result (λ next. next ≡ offset + length (part_bytes draft.now part.now target)) }
{
    let next = offset.saturating_add(part_size(draft, part, target));
    // a value of so many bytes doesn't fit into memory
    if next == usize::MAX {
        return Err(AllocError);
    }
    Ok(next)
}

// Puts the sites of a property's value behind the others.
fn put_sites<'d>(
    sites: &mut Vec<FixupSite<'d>>,
    draft: &Draft<'_, '_>,
    property: usize,
    value: &'d [Part<'d>],
    targets: &[Option<usize>],
) -> Result<(), AllocError>
    requires ready { IsReady draft.now }
    requires known { All (IsKnown draft.now.live) targets.now }
    requires places { AreBetween 0 (property + 1) sites.old.items }
    ensures places { OnOk result (AreBetween 0 (property + 1) sites.new.items) }
    ensures sites { OnOk result (PutsAll draft.now property value.now targets.now sites.old.items sites.new.items) }
{
    let mut used = 0;
    let mut offset = 0;
    for part in value {
        let target = target_at(targets, used);
        put_site(sites, property, part, target, offset)?;
        offset = offset_behind(draft, part, target, offset)?;
        used += target_count(part);
    }
    Ok(())
}

// Whether the phandles of a property are fixups: a number that its own node asks for is none.
fn gives_sites<'d>(
    draft: &Draft<'d, 'd>,
    property: &NodeProperty<'d, &'d Value<'d>>,
    targets: &[Option<usize>],
) -> bool
    requires ready { IsReady draft.now }
    requires node { IsNode draft.now.live property.now.node }
    requires apart { draft.now.asks ≡ true → All (IsToldApart draft.now.live property.now.node) targets.now }
    ensures { result ≡ is_fixed draft.now.asks (found_property (node_path draft.now.live) property.now targets.now) }
{
    if !draft.asks {
        return true;
    }
    !asks_for_own(&draft.live, property, targets)
}

// Puts the sites of a property behind the others, unless it asks for the number of its own node.
fn put_fixed<'d>(
    sites: &mut Vec<FixupSite<'d>>,
    draft: &Draft<'d, 'd>,
    place: usize,
    property: &NodeProperty<'d, &'d Value<'d>>,
    targets: &[Option<usize>],
) -> Result<(), AllocError>
    requires ready { IsReady draft.now }
    requires known { All (IsKnown draft.now.live) targets.now }
    requires node { IsNode draft.now.live property.now.node }
    requires key { key_at draft.now place ≡ key_of draft.now property.now }
    requires apart { draft.now.asks ≡ true → All (IsToldApart draft.now.live property.now.node) targets.now }
    requires places { AreBetween 0 (place + 1) sites.old.items }
    ensures places { OnOk result (AreBetween 0 (place + 1) sites.new.items) }
    ensures sites { OnOk result (PutsFixed draft.now property.now targets.now sites.old.items sites.new.items) }
{
    if !gives_sites(draft, property, targets) {
        return Ok(());
    }
    put_sites(
        sites,
        draft,
        place,
        property.value.parts.as_slice(),
        targets,
    )?;
    Ok(())
}

/// All sites of a plugin. Another source has none.
pub(crate) fn find_sites<'d>(
    alloc: Global,
    draft: &Draft<'d, 'd>,
) -> Result<Vec<FixupSite<'d>>, AllocError>
    requires { IsReady draft.now }
    ensures { IfOk result (λ sites. AreSites draft.now sites.items) }
{
    if !draft.plugin {
        return Ok(Vec::new(alloc));
    }
    let mut targets = fixed_targets(draft);
    // each site has a target
    let mut sites = Vec::with_capacity(alloc, targets.len())?;
    let properties = draft.in_preorder.properties.as_slice();
    for (property, node_property) in properties.iter().enumerate() {
        put_fixed(&mut sites, draft, property, node_property, targets)?;
        targets = targets_behind(node_property.value.parts.as_slice(), targets);
    }
    Ok(sites)
}
