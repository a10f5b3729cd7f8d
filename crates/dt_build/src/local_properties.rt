//! A plugin's local fixups: for each property with phandles of the source's own, their offsets.
ghost use Rattle.std.specs.Prelude.{◌≡◌, ◌+◌, IfOk, OnOk};
ghost use Rattle.dt_build.specs.Private.FixupSites.{AreSites};
ghost use Rattle.dt_build.specs.Private.LocalFixups.{AreBelow, ArePlaced, PutsLocal, all_local, ends_with, local_definitions, places};
ghost use Rattle.dt_build.specs.Private.Ready.{IsReady};

use crate::draft::Draft;
use crate::fixup_sites::FixupSite;
use std::alloc::{AllocError, Global};

/// The local fixups of the property at a place in preorder: the offsets of its sites.
#[derive(Drop)]
pub(crate) struct LocalFixup {
    pub(crate) property: usize,
    pub(crate) cells: Vec<u8>,
}

// Whether the last local fixups are those of a property.
fn is_last(locals: &[LocalFixup], property: usize) -> bool
    ensures { result ≡ ends_with property (places locals.now) }
{
    match locals.last() {
        Some(last) => last.property == property,
        None => false,
    }
}

// Puts the offset of a site behind those of its property, where its phandle is of the source's own.
fn put_local(
    locals: &mut Vec<LocalFixup>,
    alloc: Global,
    site: FixupSite<'_>,
) -> Result<(), AllocError>
    requires places { AreBelow (site.property + 1) (places locals.old.items) }
    ensures places { OnOk result (AreBelow (site.entry.property + 1) (places locals.new.items)) }
    ensures all { OnOk result (PutsLocal site.entry locals.old.items locals.new.items) }
{
    if site.reference.is_some() {
        return Ok(());
    }
    let cell = ((site.offset % 4294967296) as u32).to_be_bytes();
    if is_last(locals.as_slice(), site.property) {
        let last = locals.len() - 1;
        locals[last].cells.extend_from_slice(&cell)?;
        return Ok(());
    }
    locals.push(LocalFixup {
        property: site.property,
        cells: Vec::from_slice(alloc, &cell)?,
    })?;
    Ok(())
}

/// The local fixups of all properties that have a phandle of the source's own, in the order of the walk.
pub(crate) fn local_properties(
    alloc: Global,
    draft: &Draft<'_, '_>,
    sites: &[FixupSite<'_>],
) -> Result<Vec<LocalFixup>, AllocError>
    requires ready { IsReady draft.now }
    requires sites { AreSites draft.now sites.now }
    ensures all { IfOk result (λ xs. local_definitions draft.now xs.items ≡ all_local draft.now) }
    ensures places { IfOk result (λ xs. ArePlaced draft.now xs.items) }
{
    let _prepared = draft;
    let mut locals = Vec::new(alloc);
    for site in sites {
        put_local(&mut locals, alloc, *site)?;
    }
    Ok(locals)
}
