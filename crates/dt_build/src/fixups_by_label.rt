//! A plugin's fixups by label.
ghost use Rattle.std.specs.Prelude.{◌≡◌, ◌<◌, ◌-◌, ◌^◌, ◌++◌, [], IfOk, OnOk, Some, length, min};
ghost use Rattle.dt_source.specs.TreeMeaning.Fixups.{appended, fixups, site_text};
ghost use Rattle.dt_build.specs.Private.ByLabel.{AreIndexed, PutsSite, all_given, fixups_path, index_of};
ghost use Rattle.dt_build.specs.Private.Made.{made_sites};
ghost use Rattle.dt_build.specs.Private.Ready.{IsReady};
ghost use Rattle.dt_build.specs.Private.FixupSites.{AreSites, site_of};

use crate::digits::{append_digits, digits_size};
use crate::draft::Draft;
use crate::fixup_sites::{FixupSite, label_of};
use dt_live::{append_path, path_size};
use std::alloc::{AllocError, Global};
use std::collections::BTreeMap;

/// A label that no node of the source has, and the texts of its sites.
#[derive(Drop)]
pub(crate) struct LabelFixups<'d> {
    pub(crate) label: &'d [u8],
    pub(crate) text: Vec<u8>,
}

/// The labels in order of first reference, and the index of each among them.
#[derive(Drop)]
pub(crate) struct FixupsByLabel<'d> {
    pub(crate) labels: Vec<LabelFixups<'d>>,
    pub(crate) slots: BTreeMap<&'d [u8], usize>,
}

/// How many bytes the text of a site has, or the greatest number where there are more.
pub(crate) fn text_size(draft: &Draft<'_, '_>, site: FixupSite<'_>) -> usize
    requires ready { IsReady draft.now }
    requires place { site.property < length draft.now.in_preorder.properties.items }
    ensures { result ≡ min (length (site_text (site_of draft.now site.entry))) (2 ^ 64 - 1) }
{
    let property = draft.in_preorder.properties[site.property];
    // with its zero byte
    let path_bytes = path_size(draft.live.nodes(), property.node);
    let name = property
        .name
        .len()
        .saturating_add(2 + digits_size(site.offset));
    path_bytes.saturating_add(name)
}

// Counts the text of a site among those of its label, where it has one.
fn count_site<'d>(
    sizes: &mut BTreeMap<&'d [u8], usize>,
    draft: &Draft<'_, '_>,
    site: FixupSite<'d>,
) -> Result<(), AllocError>
    requires ready { IsReady draft.now }
    requires place { site.property < length draft.now.in_preorder.properties.items }
{
    let label = match site.reference {
        Some(reference) => label_of(reference),
        None => return Ok(()),
    };
    let sum = room_of(sizes, label).saturating_add(text_size(draft, site));
    sizes.insert(label, sum)?;
    Ok(())
}

// How long the texts of each label are together: room is taken once for them.
fn label_sizes<'d>(
    alloc: Global,
    draft: &Draft<'_, '_>,
    sites: &[FixupSite<'d>],
) -> Result<BTreeMap<&'d [u8], usize>, AllocError>
    requires ready { IsReady draft.now }
    requires sites { AreSites draft.now sites.now }
{
    let mut sizes = BTreeMap::new(alloc);
    for site in sites {
        count_site(&mut sizes, draft, *site)?;
    }
    Ok(sizes)
}

fn room_of<'d>(sizes: &BTreeMap<&'d [u8], usize>, label: &'d [u8]) -> usize {
    match sizes.get(&label) {
        Some(size) => *size,
        None => 0,
    }
}

// The index of a label's fixups, which are begun where there are none.
fn index_of_label<'d>(
    alloc: Global,
    by_label: &mut FixupsByLabel<'d>,
    label: &'d [u8],
    room: usize,
) -> Result<usize, AllocError>
    requires { AreIndexed by_label.old }
    ensures indexed { OnOk result (AreIndexed by_label.new) }
    ensures given { OnOk result (all_given by_label.new ≡ appended fixups_path label.now [] (all_given by_label.old)) }
    ensures slot { IfOk result (λ slot. index_of label.now by_label.new.labels.items ≡ Some slot) }
    ensures within { IfOk result (λ slot. slot < length by_label.new.labels.items) }
{
    if let Some(slot) = by_label.slots.get(&label) {
        return Ok(*slot);
    }
    let slot = by_label.labels.len();
    by_label.slots.insert(label, slot)?;
    let text = Vec::with_capacity(alloc, room)?;
    by_label.labels.push(LabelFixups { label, text })?;
    Ok(slot)
}

// Puts the text of a site behind others.
fn append_text(
    text: &mut Vec<u8>,
    draft: &Draft<'_, '_>,
    site: FixupSite<'_>,
) -> Result<(), AllocError>
    requires ready { IsReady draft.now }
    requires place { site.property < length draft.now.in_preorder.properties.items }
    ensures { OnOk result (text.new.items ≡ text.old.items ++ site_text (site_of draft.now site.entry)) }
{
    let property = draft.in_preorder.properties[site.property];
    append_path(text, draft.live.nodes(), property.node)?;
    // its zero byte
    text.pop();
    text.push(b':')?;
    text.extend_from_slice(property.name)?;
    text.push(b':')?;
    append_digits(text, site.offset)?;
    text.push(0)?;
    Ok(())
}

// Puts a site among the fixups of its label, where it has one.
fn put_text<'d>(
    alloc: Global,
    draft: &Draft<'_, '_>,
    sizes: &BTreeMap<&'d [u8], usize>,
    by_label: &mut FixupsByLabel<'d>,
    site: FixupSite<'d>,
) -> Result<(), AllocError>
    requires ready { IsReady draft.now }
    requires place { site.property < length draft.now.in_preorder.properties.items }
    requires indexed { AreIndexed by_label.old }
    ensures indexed { OnOk result (AreIndexed by_label.new) }
    ensures given { OnOk result (PutsSite draft.now site.entry by_label.old by_label.new) }
{
    let label = match site.reference {
        Some(reference) => label_of(reference),
        None => return Ok(()),
    };
    let slot = index_of_label(alloc, by_label, label, room_of(sizes, label))?;
    append_text(&mut by_label.labels[slot].text, draft, site)?;
    Ok(())
}

/// All fixups by label, in order of first reference.
pub(crate) fn collect_by_label<'d>(
    alloc: Global,
    draft: &Draft<'_, '_>,
    sites: &[FixupSite<'d>],
) -> Result<FixupsByLabel<'d>, AllocError>
    requires ready { IsReady draft.now }
    requires sites { AreSites draft.now sites.now }
    ensures { IfOk result (λ by_label. all_given by_label ≡ fixups (made_sites draft.now) []) }
{
    let sizes = label_sizes(alloc, draft, sites)?;
    let mut by_label = FixupsByLabel {
        labels: Vec::new(alloc),
        slots: BTreeMap::new(alloc),
    };
    for site in sites {
        put_text(alloc, draft, &sizes, &mut by_label, *site)?;
    }
    Ok(by_label)
}
