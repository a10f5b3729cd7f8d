//! One walk over a tree, from the root down.
ghost use Rattle.std.specs.Prelude.{◌≡◌, ◌≤◌, ◌⊎◌, ◌∷◌, ◌++◌, [], ℕ, nat_eq, nat_lt, length, IfOk, IfErr, OnOk, MatchResult};
ghost use Rattle.bus_plan.specs.declared.error.PlanError.TheVariants.{NoMemory};
ghost use Rattle.bus_plan.specs.Limits.{most_devices};
ghost use Rattle.indexmap.specs.IndexMap.{get};
ghost use Rattle.bus_drivers.specs.Nodes.{is_okay};
ghost use Rattle.bus_drivers.specs.Private.Entries.{device_here};
ghost use Rattle.bus_drivers.specs.Private.Walk.{with_device, own_device, available_here, device_below, devices_at, devices_in_tree, own_target, target_here, target_at, AreTargetsWith, AreTargetsIn, Refuses};

use crate::status::{is_compatible, is_okay};
use crate::target::Target;
use crate::tree_device::TreeDevice;
use bus_plan::{Device, MAX_DEVICES, PlanError};
use dt_tree::{Node, Path, is_reserved_name};
use indexmap::IndexMap;
use std::alloc::{AllocError, Global};
use std::hash::RandomState;

/// What the nodes above say of a node: whether all of them are okay, and which device they belong to.
#[derive(Drop)]
pub struct Above {
    available: bool,
    device: Option<usize>,
}

impl Above {
    fn device(&self) -> Option<Device>
        ensures { result ≡ self.now.device }
    {
        match self.device {
            None => None,
            Some(place) => Some(Device::new(place)),
        }
    }
}

/// A walk: the path of where it is, each name behind a slash, the devices so far, and the first node with each phandle.
#[derive(Drop)]
pub struct Walk<'t> {
    node_path: Vec<u8>,
    pub devices: Vec<TreeDevice<'t>>,
    pub targets: IndexMap<u32, Target<'t>, RandomState>,
}

fn lengthen(node_path: &mut Vec<u8>, name: &[u8]) -> Result<(), AllocError>
    ensures { OnOk result (node_path.new.items ≡ node_path.old.items ++ 47 ∷ name.now) }
{
    node_path.push(b'/')?;
    node_path.extend_from_slice(name)
}

// The text of names behind slashes is a path, so that only memory can be missing.
fn path_of(alloc: Global, node_path: &[u8]) -> Result<Path, PlanError>
    ensures { MatchResult result (λ path. path ≡ node_path.now) (λ e. e ≡ NoMemory) }
{
    let Ok(path) = Path::parse(alloc, node_path) else {
        return Err(PlanError::NoMemory);
    };
    Ok(path)
}

fn has_room(count: usize) -> bool
    ensures { result ≡ nat_lt count most_devices }
{
    count < MAX_DEVICES
}

// The device's place is how many were kept before it.
fn keep_device<'t>(
    alloc: Global,
    devices: &mut Vec<TreeDevice<'t>>,
    node_path: &[u8],
    available: bool,
    node: &'t Node,
) -> Result<usize, PlanError>
    requires { length devices.old.items ≤ most_devices }
    ensures place { IfOk result (λ place. place ≡ length devices.old.items) }
    ensures devices { OnOk result
        (devices.new.items ≡ with_device devices.old.items node_path.now available node.now.properties) }
    ensures few { OnOk result (length devices.new.items ≤ most_devices) }
    ensures err { IfErr result (Refuses (with_device devices.old.items node_path.now available node.now.properties)) }
{
    if !has_room(devices.len()) {
        return Err(PlanError::TooManyDevices);
    }
    let place = devices.len();
    devices.push(TreeDevice::new(path_of(alloc, node_path)?, available, node))?;
    Ok(place)
}

// Of several nodes with one phandle, the first stays.
fn keep_target<'t>(
    targets: &mut IndexMap<u32, Target<'t>, RandomState>,
    node: &'t Node,
    here: &Above,
) -> Result<(), PlanError>
    ensures targets { OnOk result (AreTargetsWith (own_target node.now.properties here.now.device)
        (get nat_eq targets.old) (get nat_eq targets.new)) }
    ensures err { IfErr result (λ e. e ≡ NoMemory) }
{
    let Some(phandle) = node.phandle() else {
        return Ok(());
    };
    if !targets.contains_key(&phandle) {
        targets.insert(phandle, Target::new(node, here.device()))?;
    }
    Ok(())
}

impl<'t> Walk<'t> {
    fn new(alloc: Global, hasher: RandomState) -> Self
        ensures node_path { result.node_path.items ≡ [] }
        ensures devices { result.devices.items ≡ [] }
        ensures targets { (phandle : ℕ) → get nat_eq result.targets phandle ≡ None }
    {
        Self {
            node_path: Vec::new(alloc),
            devices: Vec::new(alloc),
            targets: IndexMap::with_hasher(alloc, hasher),
        }
    }

    // The device that the node at the path belongs to, which is kept where it is the node itself.
    fn device_of(
        &mut self,
        alloc: Global,
        node: &'t Node,
        available: bool,
        above: &Above,
    ) -> Result<Option<usize>, PlanError>
        requires { length self.old.devices.items ≤ most_devices }
        ensures device { IfOk result
            (λ device. device ≡ device_here node.now.properties (length self.old.devices.items) above.now.device) }
        ensures devices { OnOk result (self.new.devices.items
            ≡ self.old.devices.items ++ own_device self.old.node_path.items available node.now.properties) }
        ensures few { OnOk result (length self.new.devices.items ≤ most_devices) }
        ensures node_path { OnOk result (self.new.node_path ≡ self.old.node_path) }
        ensures targets { OnOk result (self.new.targets ≡ self.old.targets) }
        ensures err { IfErr result (Refuses
            (self.old.devices.items ++ own_device self.old.node_path.items available node.now.properties)) }
    {
        if !is_compatible(node) {
            return Ok(above.device);
        }
        let device = keep_device(
            alloc,
            &mut self.devices,
            self.node_path.as_slice(),
            available,
            node,
        )?;
        Ok(Some(device))
    }

    // Keeps the node at the path, and tells what is above the nodes below it.
    fn meet(&mut self, alloc: Global, node: &'t Node, above: &Above) -> Result<Above, PlanError>
        requires { length self.old.devices.items ≤ most_devices }
        ensures available { IfOk result (λ here. here.available ≡ available_here above.now.available node.now.properties) }
        ensures device { IfOk result
            (λ here. here.device ≡ device_here node.now.properties (length self.old.devices.items) above.now.device) }
        ensures devices { OnOk result (self.new.devices.items
            ≡ self.old.devices.items ++ device_below self.old.node_path.items above.now.available node.now.properties) }
        ensures few { OnOk result (length self.new.devices.items ≤ most_devices) }
        ensures node_path { OnOk result (self.new.node_path ≡ self.old.node_path) }
        ensures targets { OnOk result (AreTargetsWith
            (target_here node.now.properties (length self.old.devices.items) above.now.device)
            (get nat_eq self.old.targets) (get nat_eq self.new.targets)) }
        ensures err { IfErr result (Refuses
            (self.old.devices.items ++ device_below self.old.node_path.items above.now.available node.now.properties)) }
    {
        let available = above.available && is_okay(node);
        let device = self.device_of(alloc, node, available, above)?;
        let here = Above { available, device };
        keep_target(&mut self.targets, node, &here)?;
        Ok(here)
    }

    // Keeps a node and all below it. The path is longer meanwhile.
    fn visit(&mut self, alloc: Global, node: &'t Node, above: &Above) -> Result<(), PlanError>
        requires { length self.old.devices.items ≤ most_devices }
        ensures devices { OnOk result (self.new.devices.items
            ≡ self.old.devices.items ++ devices_at self.old.node_path.items above.now.available node.now) }
        ensures few { OnOk result (length self.new.devices.items ≤ most_devices) }
        ensures node_path { OnOk result (self.new.node_path.items ≡ self.old.node_path.items) }
        ensures targets { OnOk result (AreTargetsWith
            (target_at above.now.device (length self.old.devices.items) node.now)
            (get nat_eq self.old.targets) (get nat_eq self.new.targets)) }
        ensures err { IfErr result (Refuses
            (self.old.devices.items ++ devices_at self.old.node_path.items above.now.available node.now)) }
    {
        let len = self.node_path.len();
        lengthen(&mut self.node_path, node.name_bytes())?;
        let here = self.meet(alloc, node, above)?;
        for child in node.children() {
            self.visit(alloc, child, &here)?;
        }
        self.node_path.truncate(len);
        Ok(())
    }

    // Keeps the nodes of a tree, but for the reserved ones.
    fn keep_tree(&mut self, alloc: Global, root: &'t Node) -> Result<(), PlanError>
        requires node_path { self.old.node_path.items ≡ [] }
        requires devices { self.old.devices.items ≡ [] }
        requires targets { (phandle : ℕ) → get nat_eq self.old.targets phandle ≡ None }
        ensures devices { OnOk result (self.new.devices.items ≡ devices_in_tree root.now) }
        ensures few { OnOk result (length self.new.devices.items ≤ most_devices) }
        ensures targets { OnOk result (AreTargetsIn root.now (get nat_eq self.new.targets)) }
        ensures err { IfErr result (Refuses (devices_in_tree root.now)) }
    {
        let here = Above {
            available: is_okay(root),
            device: None,
        };
        keep_target(&mut self.targets, root, &here)?;
        for top in root.children() {
            if is_reserved_name(top.name_bytes()) {
                continue;
            }
            self.visit(alloc, top, &here)?;
        }
        Ok(())
    }

    /// The walk over the tree below this root, but for its reserved nodes.
    pub fn over(alloc: Global, hasher: RandomState, root: &'t Node) -> Result<Self, PlanError>
        ensures devices { IfOk result (λ walk. walk.devices.items ≡ devices_in_tree root.now) }
        ensures few { IfOk result (λ walk. length walk.devices.items ≤ most_devices) }
        ensures targets { IfOk result (λ walk. AreTargetsIn root.now (get nat_eq walk.targets)) }
        ensures err { IfErr result (Refuses (devices_in_tree root.now)) }
    {
        let mut walk = Self::new(alloc, hasher);
        walk.keep_tree(alloc, root)?;
        Ok(walk)
    }
}
