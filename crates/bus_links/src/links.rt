ghost use Rattle.std.specs.Prelude.{◌≡◌, false};
ghost use Rattle.bus_links.specs.Links.{bus_link};
ghost use Rattle.bus_links.specs.LinkPlan.{with_supplier};

use bus_plan::Device;
use std::marker::Model;

/// A device link: the consumer, its supplier, and the consumer's property and entry that made it (Linux driver-api, "Device
/// links"). That to the bus above has no property.
#[derive(Debug, Drop)]
pub struct Link<'t> {
    consumer: Device,
    supplier: Device,
    property: &'t [u8],
    entry: usize,
    is_bus: bool,
    is_part: bool,
}

impl<'t> Model for Link<'t> {
    ghost use Rattle.bus_links.specs.Links.{LinkData};

    ghost Value = { LinkData };

    ghost view = { λ l. record { consumer = l.consumer; supplier = l.supplier; property = l.property.now; entry = l.entry; is_bus = l.is_bus; is_part = l.is_part } };
}

impl<'t> Link<'t> {
    /// That which an entry of a property makes, of the supplier or of a part of it.
    pub fn new(
        consumer: Device,
        supplier: Device,
        property: &'t [u8],
        entry: usize,
        is_part: bool,
    ) -> Self
        ensures { result ≡ record {
          consumer = consumer;
          supplier = supplier;
          property = property.now;
          entry = entry;
          is_bus = false;
          is_part = is_part;
        } }
    {
        Self {
            consumer,
            supplier,
            property,
            entry,
            is_bus: false,
            is_part,
        }
    }

    /// That to the bus above.
    pub fn to_bus(consumer: Device, bus: Device) -> Self
        ensures { result ≡ bus_link consumer bus }
    {
        Self {
            consumer,
            supplier: bus,
            property: &[],
            entry: 0,
            is_bus: true,
            is_part: false,
        }
    }

    /// The device that waits.
    pub fn consumer(&self) -> Device
        ensures { result ≡ self.now.consumer }
    {
        self.consumer
    }

    /// The device that is waited for.
    pub fn supplier(&self) -> Device
        ensures { result ≡ self.now.supplier }
    {
        self.supplier
    }

    /// The name of the consumer's property that made the link: empty for the bus above.
    pub fn property(&self) -> &'t [u8]
        ensures { result.now ≡ self.now.property }
    {
        self.property
    }

    /// Which entry of the property's list made the link, from 0.
    pub fn entry(&self) -> usize
        ensures { result ≡ self.now.entry }
    {
        self.entry
    }

    /// Whether the entry names a part of the supplier: a node below it that is no device.
    pub fn is_part(&self) -> bool
        ensures { result ≡ self.now.is_part }
    {
        self.is_part
    }

    /// The same link to another supplier.
    pub fn with_supplier(&self, supplier: Device) -> Self
        ensures { result ≡ with_supplier self.now supplier }
    {
        Self {
            consumer: self.consumer,
            supplier,
            property: self.property,
            entry: self.entry,
            is_bus: self.is_bus,
            is_part: self.is_part,
        }
    }

    /// Whether it is the link to the bus above, which no property makes.
    pub fn is_bus(&self) -> bool
        ensures { result ≡ self.now.is_bus }
    {
        self.is_bus
    }
}

/// An entry that is malformed or leads nowhere: the rest of its property's list says nothing.
#[derive(Debug, Drop)]
pub struct Warning<'t> {
    device: Device,
    property: &'t [u8],
    entry: usize,
}

impl<'t> Model for Warning<'t> {
    ghost use Rattle.bus_links.specs.Links.{WarningData};

    ghost Value = { WarningData };

    ghost view = { λ w. record { device = w.device; property = w.property.now; entry = w.entry } };
}

impl<'t> Warning<'t> {
    /// The warning of these parts.
    pub fn new(device: Device, property: &'t [u8], entry: usize) -> Self
        ensures { result ≡ record { device = device; property = property.now; entry = entry } }
    {
        Self {
            device,
            property,
            entry,
        }
    }

    /// The device whose property it is.
    pub fn device(&self) -> Device
        ensures { result ≡ self.now.device }
    {
        self.device
    }

    /// The property's name.
    pub fn property(&self) -> &'t [u8]
        ensures { result.now ≡ self.now.property }
    {
        self.property
    }

    /// Which entry of its list, from 0.
    pub fn entry(&self) -> usize
        ensures { result ≡ self.now.entry }
    {
        self.entry
    }
}
