//! What made the links of Linux, until its timeout ends and behind it.

use crate::chain_text::add_path;
use crate::reasons::Reasons;
use bus_links::{Link, Linked};
use bus_plan::Device;
use std::alloc::{AllocError, Global};

/// Puts ` (PROPERTY)` or ` (PROPERTY, entry N)` for what made a link behind a text, ` (its bus)` for the bus above.
pub(crate) fn add_reason(
    alloc: Global,
    text: &mut Vec<u8>,
    link: &Link<'_>,
) -> Result<(), AllocError> {
    if link.is_bus() {
        return text.extend_from_slice(b" (its bus)");
    }
    text.extend_from_slice(b" (")?;
    text.extend_from_slice(link.property())?;
    if link.entry() > 0 {
        let entry = format!(in alloc; ", entry {}", link.entry())?;
        text.extend_from_slice(entry.as_bytes())?;
    }
    text.extend_from_slice(b")")
}

// The first link of a device to this supplier.
fn link_to<'l, 't>(
    linked: &'l Linked<'t>,
    consumer: Device,
    supplier: Device,
) -> Option<&'l Link<'t>> {
    for link in linked.links_of(consumer) {
        if link.supplier().index() == supplier.index() {
            return Some(link);
        }
    }
    None
}

impl Reasons for Linked<'_> {
    fn add(
        &self,
        alloc: Global,
        text: &mut Vec<u8>,
        consumer: Device,
        supplier: Device,
    ) -> Result<(), AllocError> {
        match link_to(self, consumer, supplier) {
            Some(link) => add_reason(alloc, text, link),
            None => Ok(()),
        }
    }
}

// Whether a device is on this bus: its last link is that to the bus.
fn is_on(linked: &Linked<'_>, device: Device, bus: Device) -> bool {
    match linked.links_of(device).last() {
        Some(link) => link.is_bus() && link.supplier().index() == bus.index(),
        None => false,
    }
}

/// The links that are left behind the timeout: in place of a supplier without a driver there is its bus.
#[derive(Clone, Copy)]
pub(crate) struct LateLinks<'l, 't> {
    pub linked: &'l Linked<'t>,
}

impl LateLinks<'_, '_> {
    // ` (PROPERTY: the bus of PATH)` for the first link to a device on this bus.
    fn add_by_bus(
        &self,
        text: &mut Vec<u8>,
        consumer: Device,
        bus: Device,
    ) -> Result<(), AllocError> {
        for link in self.linked.links_of(consumer) {
            if is_on(self.linked, link.supplier(), bus) {
                text.extend_from_slice(b" (")?;
                text.extend_from_slice(link.property())?;
                text.extend_from_slice(b": the bus of ")?;
                add_path(text, self.linked.plan(), link.supplier())?;
                return text.extend_from_slice(b")");
            }
        }
        Ok(())
    }
}

impl Reasons for LateLinks<'_, '_> {
    fn add(
        &self,
        alloc: Global,
        text: &mut Vec<u8>,
        consumer: Device,
        supplier: Device,
    ) -> Result<(), AllocError> {
        match link_to(self.linked, consumer, supplier) {
            Some(link) => add_reason(alloc, text, link),
            None => self.add_by_bus(text, consumer, supplier),
        }
    }
}
