ghost use Rattle.std.specs.Prelude.{◌≡◌};

use crate::device_links::DeviceLinks;
use crate::flags::flag_at;
use crate::links::{Link, Warning};
use crate::relaxing::is_relaxed;
use bus_plan::reach::{Cycle, cycles_of};
use bus_plan::{Device, Plan};
use std::alloc::{AllocError, Global};
use std::marker::Model;

/// Whether a link is waited for.
#[derive(Clone, Copy, Debug, PartialEq, Eq)]
pub enum Standing {
    /// It is: its supplier is one of the plan's.
    Needed,
    /// Its supplier is set up before the bus begins.
    Early,
    /// It lies in a cycle, and is relaxed.
    Relaxed,
}

/// The plan of a tree, the one that is left behind the timeout, and the components that both go by.
#[derive(Drop)]
pub(crate) struct Plans {
    pub plan: Plan,
    pub late: Plan,
    pub components: Vec<usize>,
}

/// The plan of a tree by the links of Linux, and what it was made of.
#[derive(Drop)]
pub struct Linked<'t> {
    plan: Plan,
    late: Plan,
    links: Vec<DeviceLinks<'t>>,
    warnings: Vec<Warning<'t>>,
    early: Vec<bool>,
    components: Vec<usize>,
    absent: Vec<bool>,
}

impl<'t> Model for Linked<'t> {
    ghost use Rattle.bus_links.specs.Linked.{LinkedData};

    ghost Value = { LinkedData };

    ghost view = { λ l. record {
      plan = l.plan;
      late = l.late;
      links = l.links.items;
      warnings = l.warnings.items;
      early = l.early.items;
      components = l.components.items;
    } };
}

impl<'t> Linked<'t> {
    ghost use Rattle.bus_links.specs.LinkPlan.{links_at};
    ghost use Rattle.bus_links.specs.Links.{flag_at};
    ghost use Rattle.bus_links.specs.Linked.{standing_of};

    /// The result of these parts.
    pub(crate) fn new(
        plans: Plans,
        links: Vec<DeviceLinks<'t>>,
        warnings: Vec<Warning<'t>>,
        early: Vec<bool>,
        absent: Vec<bool>,
    ) -> Self
        ensures { result ≡ record {
          plan = plans.plan;
          late = plans.late;
          links = links.entry.items;
          warnings = warnings.entry.items;
          early = early.items;
          components = plans.components.items;
        } }
    {
        Self {
            plan: plans.plan,
            late: plans.late,
            links,
            warnings,
            early,
            components: plans.components,
            absent,
        }
    }

    /// The plan: each device with its driver, its suppliers those links that are needed.
    pub fn plan(&self) -> &Plan
        ensures { result.now ≡ self.now.plan }
    {
        &self.plan
    }

    /// The plan that is left when `deferred_probe_timeout` ends.
    pub fn late(&self) -> &Plan
        ensures { result.now ≡ self.now.late }
    {
        &self.late
    }

    /// Whether Linux makes no device of a node that is okay. (Nothing is claimed of the answer.)
    pub fn is_absent(&self, device: Device) -> bool {
        flag_at(self.absent.as_slice(), device.index())
    }

    /// The plan alone.
    pub fn into_plan(self) -> Plan
        ensures { result ≡ self.entry.plan }
    {
        self.plan
    }

    /// The links of a device, those that aren't waited for too.
    pub fn links_of(&self, device: Device) -> &[Link<'t>]
        ensures { result.now ≡ links_at self.now.links device }
    {
        if device.index() >= self.links.len() {
            return &[];
        }
        self.links[device.index()].as_slice()
    }

    /// Whether a link is waited for.
    pub fn standing(&self, link: &Link<'_>) -> Standing
        ensures { result ≡ standing_of self.now.early self.now.components link.now }
    {
        if flag_at(self.early.as_slice(), link.supplier().index()) {
            return Standing::Early;
        }
        if is_relaxed(self.components.as_slice(), link) {
            return Standing::Relaxed;
        }
        Standing::Needed
    }

    /// The entries that end their lists, in the order of devices, properties and entries.
    pub fn warnings(&self) -> &[Warning<'t>]
        ensures { result.now ≡ self.now.warnings }
    {
        self.warnings.as_slice()
    }

    /// Whether a device is set up before the bus begins.
    pub fn is_early(&self, device: Device) -> bool
        ensures { result ≡ flag_at self.now.early device }
    {
        flag_at(self.early.as_slice(), device.index())
    }

    /// The cycles, each by its devices in the plan's order; the cycles by their first devices.
    pub fn cycles(&self, alloc: Global) -> Result<Vec<Cycle>, AllocError> {
        cycles_of(alloc, self.components.as_slice())
    }

    /// The number of each device's component: devices are in one where each takes the other.
    pub fn components(&self) -> &[usize]
        ensures { result.now ≡ self.now.components }
    {
        self.components.as_slice()
    }
}
