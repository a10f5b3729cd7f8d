//! Classes of devices such that no supplier stands in an earlier one: devices that take each other are then in one class. How fine
//! they are decides only how long the components take.
ghost use Rattle.std.specs.Prelude.{◌≡◌, ◌<◌, All, IfOk, IsTrue, length, nat_le, slice_index};
ghost use Rattle.std.specs.List.{list_all};
ghost use Rattle.bus_plan.specs.Reach.Private.Classes.{AreClasses};

use crate::reach::leaving::leaving_classes;
use crate::{Device, Plan};
use std::alloc::{AllocError, Global};

// Whether none of these devices stands in a class before this one.
fn stands_before(classes: &[usize], class: usize, devices: &[Device]) -> bool
    requires { All (λ d. d < length classes.now) devices.now }
    ensures { result ≡ list_all (λ d. nat_le class (slice_index classes.now d)) devices.now }
{
    for device in devices {
        if classes[device.index()] < class {
            return false;
        }
    }
    true
}

// Whether these are classes of the plan.
fn are_classes(plan: &Plan, classes: &[usize]) -> bool
    ensures { IsTrue result → AreClasses plan.now classes.now }
{
    plan.check();
    if classes.len() != plan.len() {
        return false;
    }
    for place in 0..plan.len() {
        let suppliers = plan.suppliers(Device::new(place));
        if !stands_before(classes, classes[place], suppliers) {
            return false;
        }
    }
    true
}

// One class for all devices.
fn one_class(alloc: Global, plan: &Plan) -> Result<Vec<usize>, AllocError>
    ensures { IfOk result (λ classes. AreClasses plan.now classes.items) }
{
    vec![in alloc; 0; plan.len()]
}

/// Classes of a plan's devices: as fine as two walks find them.
pub fn classes_of(alloc: Global, plan: &Plan) -> Result<Vec<usize>, AllocError>
    ensures { IfOk result (λ classes. AreClasses plan.now classes.items) }
{
    let classes = leaving_classes(alloc, plan)?;
    if are_classes(plan, classes.as_slice()) {
        return Ok(classes);
    }
    one_class(alloc, plan)
}
