//! How long the values of a tree are together.
ghost use Rattle.std.specs.Prelude.{◌≡◌, ◌<◌, ◌-◌, ◌^◌, length, min};
ghost use Rattle.dt_live.specs.Builder.Sizes.{size_in};
ghost use Rattle.dt_build.specs.Private.FixupSites.{AreSites, site_of, site_size, sites_size as all_size};
ghost use Rattle.dt_build.specs.Private.Made.{lists, made_properties, made_sites, symbol_lists};
ghost use Rattle.dt_build.specs.Private.Ready.{IsReady};

use crate::draft::Draft;
use crate::fixup_sites::FixupSite;
use crate::fixups_by_label::text_size;
use crate::source_values::values_size;
use crate::symbols::symbols_size;

// Without what is added behind the source's own nodes.
fn nodes_size(draft: &Draft<'_, '_>) -> usize
    requires { IsReady draft.now }
    ensures { result ≡ min (size_in (made_properties draft.now)) (2 ^ 64 - 1) }
{
    let phandles = draft.added.len().saturating_mul(4);
    values_size(draft).saturating_add(phandles)
}

// With symbols also the labels' node.
fn labels_size(draft: &Draft<'_, '_>, symbols: bool) -> usize
    requires { IsReady draft.now }
    ensures { result ≡ min (size_in (symbol_lists symbols draft.now).properties) (2 ^ 64 - 1) }
{
    let size = nodes_size(draft);
    if !symbols {
        return size;
    }
    size.saturating_add(symbols_size(draft))
}

// How many bytes a site has: its text among the fixups of its label, or its offset among the local fixups.
fn size_of_site(draft: &Draft<'_, '_>, site: FixupSite<'_>) -> usize
    requires ready { IsReady draft.now }
    requires place { site.property < length draft.now.in_preorder.properties.items }
    ensures { result ≡ min (site_size (site_of draft.now site.entry)) (2 ^ 64 - 1) }
{
    match site.reference {
        Some(_) => text_size(draft, site),
        None => 4,
    }
}

// How many bytes the fixups and the local fixups have together.
fn sites_size(draft: &Draft<'_, '_>, sites: &[FixupSite<'_>]) -> usize
    requires ready { IsReady draft.now }
    requires sites { AreSites draft.now sites.now }
    ensures { result ≡ min (all_size (made_sites draft.now)) (2 ^ 64 - 1) }
{
    let mut size: usize = 0;
    for site in sites {
        size = size.saturating_add(size_of_site(draft, *site));
    }
    size
}

/// How many bytes the values of a tree have together, or the greatest number where there are more. Takes no memory.
pub(crate) fn total_size(draft: &Draft<'_, '_>, sites: &[FixupSite<'_>], symbols: bool) -> usize
    requires ready { IsReady draft.now }
    requires sites { AreSites draft.now sites.now }
    ensures { result ≡ min (size_in (lists symbols draft.now).properties) (2 ^ 64 - 1) }
{
    labels_size(draft, symbols).saturating_add(sites_size(draft, sites))
}
