ghost use Rattle.std.specs.Prelude.{◌≡◌};
ghost use Rattle.bus_drivers.specs.Nodes.{target_of};
ghost use Rattle.bus_drivers.specs.References.{cells_behind, reference_of};
ghost use Rattle.bus_drivers.specs.SupplierForm.{form_data};

use crate::form::Form;
use crate::phandle_index::PhandleIndex;
use crate::target::Target;
use bus_plan::{Device, PlanError};
use dt_tree::cell_in;

/// A reference: the device that it refers to, and how many cells stand behind its phandle.
#[derive(Clone, Copy, Debug)]
pub struct Reference {
    pub device: Option<Device>,
    pub cells: u32,
}

fn cells_behind(form: Form, target: &Target<'_>) -> Option<u32>
    ensures { result ≡ cells_behind (form_data form) target.now }
{
    let Form::Counted(name) = form else {
        return Some(0);
    };
    match target.node().value(name) {
        None => None,
        Some(value) => cell_in(value.as_slice()),
    }
}

impl Reference {
    /// The reference that begins with this phandle; 0 is one that is left empty.
    pub fn of(phandle_index: &PhandleIndex<'_>, form: Form, phandle: u32) -> Result<Self, PlanError>
        ensures { result ≡ reference_of (target_of phandle_index.now) (form_data form) phandle }
    {
        if phandle == 0 {
            return Ok(Self {
                device: None,
                cells: 0,
            });
        }
        let Some(target) = phandle_index.target(phandle) else {
            return Err(PlanError::DanglingPhandle);
        };
        let Some(cells) = cells_behind(form, &target) else {
            return Err(PlanError::BadSpecifier);
        };
        Ok(Self {
            device: target.device(),
            cells,
        })
    }
}
