ghost use Rattle.std.specs.Prelude.{◌≡◌};

use crate::links::Link;
use std::marker::Model;

/// The links of one consumer: those of its properties in order, entry by entry, and last that to the bus above.
#[derive(Drop)]
pub struct DeviceLinks<'t> {
    links: Vec<Link<'t>>,
}

impl<'t> Model for DeviceLinks<'t> {
    ghost use Rattle.std.specs.Prelude.{List};
    ghost use Rattle.bus_links.specs.Links.{LinkData};

    ghost Value = { List LinkData };

    ghost view = { λ d. d.links.items };
}

impl<'t> DeviceLinks<'t> {
    /// These links.
    pub fn new(links: Vec<Link<'t>>) -> Self
        ensures { result ≡ links.entry.items }
    {
        Self { links }
    }

    /// The links, in order.
    pub fn as_slice(&self) -> &[Link<'t>]
        ensures { result.now ≡ self.now }
    {
        self.links.as_slice()
    }
}
