ghost use Rattle.std.specs.Prelude.{◌≡◌, ◌<◌, ◌↔◌, [], true, IsTrue, IfOk, OnOk, OnErr, length, Some};
ghost use Rattle.std.specs.Option.{option_copied};

use crate::consumers::consumer_lists;
use crate::device::Device;
use crate::device_lists::DeviceLists;
use crate::driver_names::{add_name, driver_names};
use crate::hints::PathHints;
use crate::late_driver::{gains, give, unmatched_by};
use crate::paths::PathIndex;
use crate::planned::Planned;
use crate::verdict::Verdict;
use crate::waiting::Waiting;
use dt_tree::{Bytes, Name, Path};
use std::alloc::{AllocError, Global};
use std::hash::RandomState;
use std::marker::Model;

/// Devices with their drivers and suppliers, at most `MAX_DEVICES`. A `Device` is a place in its order.
#[derive(Drop)]
pub struct Plan {
    devices: Vec<Planned>,
    index: PathIndex,
    consumers: DeviceLists,
    /// The names of the drivers that devices have.
    drivers: PathIndex,
    waiting: Waiting,
    hints: PathHints,
}

impl Model for Plan {
    ghost use Rattle.std.specs.Prelude.{List};
    ghost use Rattle.bus_plan.specs.Plan.{PlannedDevice};
    ghost use Rattle.bus_plan.specs.Private.Indexed.{IsIndexed};

    ghost Value = { List PlannedDevice };

    ghost view = { λ plan. plan.devices.items };

    ghost invariant = { λ plan. IsIndexed plan.devices.items plan.index plan.consumers plan.drivers plan.waiting };
}

impl Plan {
    ghost use Rattle.bus_plan.specs.Plan.{path_of, is_available, driver_of, verdict_of, suppliers_of, device_at, paths, IsLawful};
    ghost use Rattle.bus_plan.specs.Consumers.{consumers_of};

    /// The plan of these devices, which have to be lawful together.
    pub fn of(alloc: Global, hasher: RandomState, devices: Vec<Planned>) -> Result<Self, AllocError>
        requires { IsLawful devices.items }
        ensures { IfOk result (λ plan. plan ≡ devices.items) }
    {
        let index = PathIndex::of(alloc, hasher, devices.as_slice())?;
        Self::with_index(alloc, devices, index)
    }

    /// The same, with the index made already.
    pub(crate) fn with_index(
        alloc: Global,
        devices: Vec<Planned>,
        index: PathIndex,
    ) -> Result<Self, AllocError>
        requires lawful { IsLawful devices.items }
        requires agrees { index ≡ paths devices.items }
        ensures { IfOk result (λ plan. plan ≡ devices.items) }
    {
        let consumers = consumer_lists(alloc, devices.as_slice())?;
        let drivers = driver_names(alloc, index.hasher(), devices.as_slice())?;
        let waiting = Waiting::of(alloc, index.hasher(), devices.as_slice())?;
        let hints = PathHints::of(alloc, devices.as_slice())?;
        Ok(Self {
            devices,
            index,
            consumers,
            drivers,
            waiting,
            hints,
        })
    }

    /// Costs nothing: tells a caller's proof that the plan is lawful.
    pub fn check(&self)
        ensures { IsLawful self.now }
    {
        let _ = &self.devices;
    }

    /// How many devices there are.
    pub fn len(&self) -> usize
        ensures { result ≡ length self.now }
    {
        self.devices.len()
    }

    /// Whether there is no device.
    pub fn is_empty(&self) -> bool
        ensures { IsTrue result ↔ (self.now ≡ []) }
    {
        self.devices.is_empty()
    }

    /// A device's path.
    pub fn path(&self, device: Device) -> &Path
        requires { device < length self.now }
        ensures { result.now ≡ path_of self.now device }
    {
        self.devices[device.index()].path()
    }

    /// Whether a device may be used.
    pub fn available(&self, device: Device) -> bool
        requires { device < length self.now }
        ensures { result ≡ is_available self.now device }
    {
        self.devices[device.index()].available()
    }

    /// The driver that matches a device.
    pub fn driver(&self, device: Device) -> Option<&Name>
        requires { device < length self.now }
        ensures { option_copied result ≡ driver_of self.now device }
    {
        self.devices[device.index()].driver()
    }

    /// What a device's driver does once the device is ready.
    pub fn verdict(&self, device: Device) -> Verdict
        requires { device < length self.now }
        ensures { result ≡ verdict_of self.now device }
    {
        self.devices[device.index()].verdict()
    }

    /// The devices that have to be bound before a device, in the order of the plan file.
    pub fn suppliers(&self, device: Device) -> &[Device]
        requires { device < length self.now }
        ensures { result.now ≡ suppliers_of self.now device }
    {
        self.devices[device.index()].suppliers()
    }

    /// The devices that have a device among their suppliers, each once, in plan order.
    pub fn consumers(&self, device: Device) -> &[Device]
        requires { device < length self.now }
        ensures { result.now ≡ consumers_of self.now device }
    {
        self.consumers.at(device.index())
    }

    /// The device at a path, by a look-up that takes no memory.
    pub fn device(&self, path: &[u8]) -> Option<Device>
        ensures { result ≡ device_at self.now path.now }
    {
        let guess = self.hints.guess(path);
        if self.is_at(guess, path) {
            return Some(Device::new(guess));
        }
        self.index.position(path).map(Device::new)
    }

    // Whether the device at a place has this path.
    fn is_at(&self, place: usize, path: &[u8]) -> bool
        ensures { IsTrue result → device_at self.now path.now ≡ Some place }
    {
        if place >= self.devices.len() {
            return false;
        }
        self.devices[place].path().as_bytes() == path
    }

    ghost use Rattle.bus_plan.specs.Plan.{compatibles_of, is_driver_name};
    ghost use Rattle.bus_plan.specs.LateDriver.{with_driver, gaining, is_known};

    /// The strings by which a late driver may match a device, in the order of its `compatible`.
    pub fn compatibles(&self, device: Device) -> &[Bytes]
        requires { device < length self.now }
        ensures { result.now ≡ compatibles_of self.now device }
    {
        self.devices[device.index()].compatibles()
    }

    /// Whether some device has a driver of this name.
    pub fn knows(&self, name: &Name) -> bool
        ensures { result ≡ is_known self.now name.now }
    {
        self.drivers.contains(name.as_bytes())
    }

    /// Registers a driver that comes late: each available device without a driver gets it where one of its strings is among
    /// those of the driver. Answers how many did.
    pub fn register(
        &mut self,
        alloc: Global,
        name: &Name,
        compatibles: &[Bytes],
    ) -> Result<usize, AllocError>
        requires { is_driver_name name.now ≡ true }
        ensures ok { OnOk result (self.new ≡ with_driver self.old name.now compatibles.now) }
        ensures count { IfOk result (λ count. count ≡ gaining self.old compatibles.now) }
        ensures err { OnErr result (self.new ≡ self.old) }
    {
        let hasher = self.index.hasher();
        let devices = self.devices.as_slice();
        let gaining = unmatched_by(alloc, hasher, devices, &self.waiting, compatibles)?;
        let gains = gains(alloc, gaining.as_slice(), name)?;
        add_name(alloc, &mut self.drivers, name, gaining.as_slice())?;
        let count = gains.len();
        self.waiting.empty_all(compatibles);
        give(&mut self.devices, gains);
        Ok(count)
    }

    /// What its look-ups hash with.
    pub fn hasher(&self) -> RandomState {
        self.index.hasher()
    }

    /// An equal plan.
    pub fn copy(&self, alloc: Global) -> Result<Self, AllocError>
        ensures { IfOk result (λ plan. plan ≡ self.now) }
    {
        let devices = copies(alloc, self.devices.as_slice())?;
        Self::of(alloc, self.index.hasher(), devices)
    }
}

fn copies(alloc: Global, devices: &[Planned]) -> Result<Vec<Planned>, AllocError>
    ensures { IfOk result (λ copies. copies.items ≡ devices.now) }
{
    let mut copies = Vec::with_capacity(alloc, devices.len())?;
    for device in devices {
        copies.push(device.copy(alloc)?)?;
    }
    Ok(copies)
}
