//! How deep a plugin's local fixups are.
ghost use Rattle.std.specs.Prelude.{◌≡◌, ◌<◌, Bool, is_some, length};
ghost use Rattle.std.specs.List.{list_any};
ghost use Rattle.dt_source.specs.TreeMeaning.Resolved.{is_too_deep};
ghost use Rattle.dt_build.specs.Private.Made.{lists};
ghost use Rattle.dt_build.specs.Private.Ready.{IsReady};
ghost use Rattle.dt_build.specs.Private.FixupSites.{AreSites, is_deep, site_of};

use crate::draft::Draft;
use crate::fixup_sites::FixupSite;
use dt_tree::MAX_DEPTH;

// Whether the copy of a site's node would be too deep, where the site is that of a phandle of the source's own.
fn is_site_too_deep(draft: &Draft<'_, '_>, site: FixupSite<'_>) -> bool
    requires ready { IsReady draft.now }
    requires place { site.property < length draft.now.in_preorder.properties.items }
    ensures { result ≡ is_deep (site_of draft.now site.entry) }
{
    let property = draft.in_preorder.properties[site.property];
    match site.reference {
        Some(_) => false,
        None => draft.live.depth(property.node) >= MAX_DEPTH,
    }
}

/// Where the first property is defined whose node's local fixups would be deeper than a node may be, in bytes; none where all fit.
pub(crate) fn local_too_deep(draft: &Draft<'_, '_>, sites: &[FixupSite<'_>]) -> Option<u32>
    requires ready { IsReady draft.now }
    requires sites { AreSites draft.now sites.now }
    // symbols are properties of a child of the root, so no node is deeper with them
    ensures { (symbols : Bool) → is_some result ≡ list_any is_too_deep (lists symbols draft.now).nodes }
{
    for site in sites {
        if is_site_too_deep(draft, *site) {
            return Some(draft.in_preorder.properties[site.property].value.at);
        }
    }
    None
}
