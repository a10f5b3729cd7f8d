ghost use Rattle.std.specs.Prelude.{◌≡◌, ◌<◌, ◌≤◌, ◌⊎◌, MatchResult, length};
ghost use Rattle.bus_plan.specs.declared.error.PlanError.TheVariants.{NoMemory, TooManyDevices};
ghost use Rattle.bus_plan.specs.Limits.{most_devices};
ghost use Rattle.bus_drivers.specs.Nodes.{device_nodes};

use crate::target::Target;
use crate::tree_device::TreeDevice;
use crate::walk::Walk;
use bus_plan::PlanError;
use dt_tree::{Node, Tree};
use indexmap::IndexMap;
use std::alloc::Global;
use std::hash::RandomState;
use std::marker::Model;

/// A tree's devices in preorder, and what each of its phandles leads to, found without a walk. Contracts see the tree's root.
#[derive(Drop)]
pub struct PhandleIndex<'t> {
    root: &'t Node,
    devices: Vec<TreeDevice<'t>>,
    targets: IndexMap<u32, Target<'t>, RandomState>,
}

impl<'t> Model for PhandleIndex<'t> {
    ghost use Rattle.dt_tree.specs.NodeData.{NodeData};
    ghost use Rattle.dt_tree.specs.NodeCode.{coded_node};
    ghost use Rattle.bus_drivers.specs.Private.PhandleIndex.{IsPhandleIndex};

    ghost Value = { NodeData };

    ghost coded = { coded_node };

    ghost view = { λ s. s.root.now };

    ghost use Rattle.std.specs.Prelude.{nat_eq};
    ghost use Rattle.indexmap.specs.IndexMap.{get};

    ghost invariant = { λ s. IsPhandleIndex s.root.now s.devices.items (get nat_eq s.targets) };
}

impl<'t> PhandleIndex<'t> {
    ghost use Rattle.std.specs.Option.{option_copied};
    ghost use Rattle.bus_drivers.specs.Nodes.{tree_devices, target_of};

    /// Refused where the tree has more devices than a plan may have.
    pub fn of(alloc: Global, hasher: RandomState, tree: &'t Tree) -> Result<Self, PlanError>
        ensures { MatchResult result
            (λ phandle_index. (phandle_index ≡ tree.now.root) × (length (device_nodes tree.now.root) ≤ most_devices))
            (λ e. (e ≡ NoMemory) ⊎ ((e ≡ TooManyDevices) × (most_devices < length (device_nodes tree.now.root)))) }
    {
        tree.check();
        let root = tree.root();
        let walk = Walk::over(alloc, hasher, root)?;
        Ok(Self {
            root,
            devices: walk.devices,
            targets: walk.targets,
        })
    }

    /// The devices, in preorder.
    pub fn devices(&self) -> &[TreeDevice<'t>]
        ensures { result.now ≡ tree_devices self.now }
    {
        self.devices.as_slice()
    }

    /// What a phandle leads to.
    pub fn target(&self, phandle: u32) -> Option<Target<'t>>
        ensures { result ≡ target_of self.now phandle }
    {
        match self.targets.get(&phandle) {
            None => None,
            Some(target) => Some(Target::new(target.node(), target.device())),
        }
    }
}
