//! What bound devices name that is disabled, as text: nothing waits for it, but their drivers won't find it.

use crate::answers::Asked;
use crate::chain_text::add_path;
use crate::late::Boot;
use crate::link_reasons::add_reason;
use bus_links::{Link, Strictness, lost_links};
use bus_plan::Device;
use dt_tree::Tree;
use std::alloc::{AllocError, Global};
use std::hash::RandomState;

// Whether an answer tells of what is disabled: all of `why`, and a report where links are strict.
fn is_told(strictness: Strictness, asked: Asked<'_>) -> bool {
    match asked {
        Asked::Why(_) => true,
        Asked::Report(_) => matches!(strictness, Strictness::Strict),
        Asked::Plan | Asked::LatePlan | Asked::Picture(_) | Asked::Needs(_) => false,
    }
}

/// The entries by which devices of a tree name a disabled device, where the answer tells of them: else nothing is looked for.
pub(crate) fn told_lost<'t>(
    alloc: Global,
    hasher: RandomState,
    tree: &'t Tree,
    strictness: Strictness,
    asked: Asked<'_>,
) -> Result<Vec<Link<'t>>, AllocError> {
    if is_told(strictness, asked) {
        return lost_links(alloc, hasher, tree, strictness);
    }
    Ok(Vec::new(alloc))
}

// Whether a device names this one for the first time: of each one that is named, `told` has the device by which it was named last.
fn is_first(told: &mut [Option<usize>], link: &Link<'_>) -> bool {
    let (consumer, supplier) = (link.consumer().index(), link.supplier().index());
    if supplier >= told.len() || told[supplier] == Some(consumer) {
        return false;
    }
    told[supplier] = Some(consumer);
    true
}

// A disabled IOMMU is none, so nobody waits for it (drivers/iommu/of_iommu.c: `of_iommu_xlate`).
fn is_iommu(link: &Link<'_>) -> bool {
    link.property() == b"iommus".as_slice() || link.property() == b"iommu-map".as_slice()
}

impl Boot<'_, '_> {
    // Whether an entry is that of a bound device, and of this one, where one is asked for.
    fn is_asked(&self, of: &Option<Device>, link: &Link<'_>) -> bool {
        let is_of = match of {
            Some(device) => device.index() == link.consumer().index(),
            None => true,
        };
        is_of && self.is_bound(link.consumer()) && !is_iommu(link)
    }

    // A line for an entry of a bound device, with these bytes behind the device's path.
    fn add_lost_line(
        &self,
        alloc: Global,
        text: &mut Vec<u8>,
        between: &[u8],
        link: &Link<'_>,
    ) -> Result<(), AllocError> {
        add_path(text, self.board.linked.plan(), link.consumer())?;
        text.extend_from_slice(between)?;
        text.extend_from_slice(b"bound by the links; its driver will not find ")?;
        add_path(text, self.board.linked.plan(), link.supplier())?;
        text.extend_from_slice(b", which is disabled")?;
        add_reason(alloc, text, link)?;
        text.push(b'\n')?;
        Ok(())
    }

    /// A line for each entry by which a bound device, or this one alone, names a disabled device: of several that name the same one for the
    /// first.
    pub fn add_lost(
        &self,
        alloc: Global,
        text: &mut Vec<u8>,
        between: &[u8],
        of: Option<Device>,
    ) -> Result<(), AllocError> {
        let mut told = vec![in alloc; None; self.board.linked.plan().len()]?;
        for link in self.board.lost {
            if self.is_asked(&of, link) && is_first(&mut told, link) {
                self.add_lost_line(alloc, text, between, link)?;
            }
        }
        Ok(())
    }
}
