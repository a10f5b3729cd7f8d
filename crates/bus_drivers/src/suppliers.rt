ghost use Rattle.std.specs.Prelude.{◌≡◌, ◌<◌, ◌⊎◌, ◌∷◌, [], Ok, IfOk, IfSome, OnOk, MatchOption, MatchResult, length};
ghost use Rattle.dt_tree.specs.Steps.{then_do};
ghost use Rattle.bus_plan.specs.declared.error.PlanError.TheVariants.{NoMemory};
ghost use Rattle.bus_drivers.specs.Nodes.{target_of};
ghost use Rattle.bus_drivers.specs.References.{cells_of, references, property_references, all_references};
ghost use Rattle.bus_drivers.specs.TreePlan.{suppliers_among};
ghost use Rattle.bus_drivers.specs.Private.Suppliers.{with_mention, IsAdded};
ghost use Rattle.bus_drivers.specs.SupplierForm.{form_data};

use crate::form::Form;
use crate::phandle_index::PhandleIndex;
use crate::plan_fault::{Culprit, Entry, NO_ENTRY, PlanFault};
use crate::reference::Reference;
use bus_plan::{Device, PlanError};
use dt_tree::{Node, Property};
use indexmap::IndexSet;
use std::alloc::{AllocError, Global};
use std::hash::RandomState;
use std::marker::Model;

/// The devices that a device's properties refer to, so far: each once, in order of first mention, the device itself left out.
#[derive(Drop)]
pub struct Suppliers {
    own: usize,
    found: IndexSet<usize, RandomState>,
}

impl Model for Suppliers {
    ghost use Rattle.bus_drivers.specs.Private.Suppliers.{Suppliers as Data};

    ghost Value = { Data };

    ghost view = { λ s. record { own = s.own; found = s.found.keys } };
}

/// The first cell and the bytes behind it.
pub fn next_cell(bytes: &[u8]) -> Option<(u32, &[u8])>
    ensures cell { MatchOption result (cells_of bytes.now ≡ [])
        (λ next. cells_of bytes.now ≡ next.0 ∷ cells_of next.1.now) }
    ensures fewer { IfSome result (λ next. length next.1.now < length bytes.now) }
{
    let [a, b, c, d, rest @ ..] = bytes else {
        return None;
    };
    Some((u32::from_be_bytes([*a, *b, *c, *d]), rest))
}

impl Suppliers {
    /// Of this device, none yet.
    pub fn new(alloc: Global, hasher: RandomState, own: Device) -> Self
        ensures { result ≡ record { own = own; found = [] } }
    {
        Self {
            own: own.index(),
            found: IndexSet::with_hasher(alloc, hasher),
        }
    }

    /// Adds a device, unless it is there already or the device itself.
    pub fn add(&mut self, device: Device) -> Result<(), AllocError>
        ensures { OnOk result (self.new ≡ with_mention self.old device) }
    {
        if device.index() == self.own {
            return Ok(());
        }
        self.found.insert(device.index())?;
        Ok(())
    }

    // A refusal of this device's property at a place.
    fn refused(&self, error: PlanError, property: usize, entry: Option<Entry>) -> PlanFault
        ensures { result ≡ error }
    {
        let device = self.own;
        PlanFault::of(
            error,
            Culprit {
                device,
                property,
                entry,
            },
        )
    }

    /// Adds what a value refers to, that of the device's property at this place.
    fn add_value(
        &mut self,
        phandle_index: &PhandleIndex<'_>,
        place: usize,
        form: Form,
        value: &[u8],
    ) -> Result<(), PlanFault>
        ensures { IsAdded (references (target_of phandle_index.now) (form_data form) value.now)
            self.old result self.new }
    {
        if !form.is_length(value.len()) {
            return Err(self.refused(PlanError::BadSpecifier, place, None));
        }
        let mut rest = value;
        let mut left: u32 = 0;
        let mut entry = NO_ENTRY;
        while let Some((cell, behind)) = next_cell(rest) {
            rest = behind;
            if left > 0 {
                left -= 1;
                continue;
            }
            entry = entry.next(value.len(), behind.len());
            let reference = match Reference::of(phandle_index, form, cell) {
                Ok(reference) => reference,
                Err(error) => return Err(self.refused(error, place, Some(entry))),
            };
            if let Some(device) = reference.device {
                self.add(device)?;
            }
            left = reference.cells;
        }
        if left > 0 {
            return Err(self.refused(PlanError::BadSpecifier, place, Some(entry)));
        }
        Ok(())
    }

    /// Adds what the device's property at this place refers to: nothing, where the table doesn't have it.
    fn add_property(
        &mut self,
        phandle_index: &PhandleIndex<'_>,
        place: usize,
        property: &Property,
    ) -> Result<(), PlanFault>
        ensures { IsAdded (property_references (target_of phandle_index.now) property.now) self.old result self.new }
    {
        match Form::of(property.name.as_bytes()) {
            None => Ok(()),
            Some(form) => self.add_value(phandle_index, place, form, property.value.as_slice()),
        }
    }

    fn add_properties(
        &mut self,
        phandle_index: &PhandleIndex<'_>,
        properties: &[Property],
    ) -> Result<(), PlanFault>
        ensures { IsAdded (all_references (target_of phandle_index.now) properties.now) self.old result self.new }
    {
        for (place, property) in properties.iter().enumerate() {
            self.add_property(phandle_index, place, property)?;
        }
        Ok(())
    }

    /// The devices, in order of first mention.
    pub fn devices(&self, alloc: Global) -> Result<Vec<Device>, AllocError>
        ensures { IfOk result (λ devices. devices.items ≡ self.now.found) }
    {
        let mut devices = Vec::with_capacity(alloc, self.found.len())?;
        for place in self.found.as_slice() {
            devices.push(Device::new(*place))?;
        }
        Ok(devices)
    }
}

// Adds what these properties refer to, and gives the devices, where none was added before.
fn all_of(
    alloc: Global,
    phandle_index: &PhandleIndex<'_>,
    suppliers: &mut Suppliers,
    properties: &[Property],
) -> Result<Vec<Device>, PlanFault>
    requires { suppliers.old.found ≡ [] }
    ensures { let mentioned = all_references (target_of phandle_index.now) properties.now in
        MatchResult result
        (λ devices. then_do mentioned (λ ds. Ok (suppliers_among suppliers.old.own ds)) ≡ Ok devices.items)
        (λ e. (e ≡ NoMemory) ⊎ (then_do mentioned (λ ds. Ok (suppliers_among suppliers.old.own ds)) ≡ Err e)) }
{
    suppliers.add_properties(phandle_index, properties)?;
    Ok(suppliers.devices(alloc)?)
}

/// The suppliers of a device at this place with these properties.
pub fn suppliers_of(
    alloc: Global,
    hasher: RandomState,
    phandle_index: &PhandleIndex<'_>,
    own: Device,
    properties: &[Property],
) -> Result<Vec<Device>, PlanFault>
    ensures { let mentioned = all_references (target_of phandle_index.now) properties.now in
        MatchResult result
        (λ suppliers. then_do mentioned (λ ds. Ok (suppliers_among own ds)) ≡ Ok suppliers.items)
        (λ e. (e ≡ NoMemory) ⊎ (then_do mentioned (λ ds. Ok (suppliers_among own ds)) ≡ Err e)) }
{
    let mut suppliers = Suppliers::new(alloc, hasher, own);
    all_of(alloc, phandle_index, &mut suppliers, properties)
}
