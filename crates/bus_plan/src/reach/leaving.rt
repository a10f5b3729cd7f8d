//! A guess at the cycles among a plan's devices, by two walks: the order in which the one leaves the devices is that in which the
//! other begins. Proved is that they end and that no index is out of range.
use crate::{Device, Plan};
use std::alloc::{AllocError, Global};

// What is left to do of a walk from the devices to their suppliers.
#[derive(Clone, Copy, Debug)]
enum Step {
    Enter(usize),
    Leave(usize),
}

// No walk takes more steps.
fn most_steps(plan: &Plan) -> usize {
    let mut steps = plan.len().saturating_mul(2);
    for place in 0..plan.len() {
        steps = steps.saturating_add(plan.suppliers(Device::new(place)).len());
    }
    steps
}

// Whether a device wasn't marked; it is now.
fn mark(marks: &mut [bool], place: usize) -> bool {
    match marks.get_mut(place) {
        None => false,
        Some(is_marked) => {
            let is_new = !*is_marked;
            *is_marked = true;
            is_new
        }
    }
}

fn suppliers_of<'p>(plan: &'p Plan, place: usize) -> &'p [Device] {
    if place < plan.len() {
        return plan.suppliers(Device::new(place));
    }
    &[]
}

fn consumers_of<'p>(plan: &'p Plan, place: usize) -> &'p [Device] {
    if place < plan.len() {
        return plan.consumers(Device::new(place));
    }
    &[]
}

fn enter_all(steps: &mut Vec<Step>, devices: &[Device]) -> Result<(), AllocError> {
    for device in devices {
        steps.push(Step::Enter(device.index()))?;
    }
    Ok(())
}

fn all_entered(alloc: Global, count: usize) -> Result<Vec<Step>, AllocError> {
    let mut steps = Vec::with_capacity(alloc, count)?;
    for place in 0..count {
        steps.push(Step::Enter(place))?;
    }
    Ok(steps)
}

// Enters a device that wasn't entered yet: behind its suppliers it is left.
fn enter(
    plan: &Plan,
    marks: &mut [bool],
    steps: &mut Vec<Step>,
    place: usize,
) -> Result<(), AllocError> {
    if !mark(marks, place) {
        return Ok(());
    }
    steps.push(Step::Leave(place))?;
    enter_all(steps, suppliers_of(plan, place))
}

// Puts the devices in the order in which these steps leave them.
fn leave_all(
    plan: &Plan,
    most_steps: usize,
    marks: &mut [bool],
    steps: &mut Vec<Step>,
    order: &mut Vec<usize>,
) -> Result<(), AllocError> {
    for _ in 0..most_steps {
        match steps.pop() {
            None => break,
            Some(Step::Leave(place)) => order.push(place)?,
            Some(Step::Enter(place)) => enter(plan, marks, steps, place)?,
        }
    }
    Ok(())
}

fn put_in_order(
    alloc: Global,
    plan: &Plan,
    most_steps: usize,
    order: &mut Vec<usize>,
) -> Result<(), AllocError> {
    let mut marks = vec![in alloc; false; plan.len()]?;
    let mut steps = all_entered(alloc, plan.len())?;
    leave_all(plan, most_steps, &mut marks, &mut steps, order)
}

// The devices in the order in which a walk leaves them.
fn leaving_order(alloc: Global, plan: &Plan, most_steps: usize) -> Result<Vec<usize>, AllocError> {
    let mut order = Vec::with_capacity(alloc, plan.len())?;
    put_in_order(alloc, plan, most_steps, &mut order)?;
    Ok(order)
}

// Gives the devices that the entered ones reach by consumers, and that have no class yet, this one.
fn reach_all(
    plan: &Plan,
    most_steps: usize,
    marks: &mut [bool],
    classes: &mut [usize],
    steps: &mut Vec<Step>,
    number: usize,
) -> Result<(), AllocError> {
    for _ in 0..most_steps {
        let Some(Step::Enter(place)) = steps.pop() else {
            break;
        };
        if mark(marks, place) {
            if let Some(class) = classes.get_mut(place) {
                *class = number;
            }
            enter_all(steps, consumers_of(plan, place))?;
        }
    }
    Ok(())
}

fn give_class(
    alloc: Global,
    plan: &Plan,
    most_steps: usize,
    marks: &mut [bool],
    classes: &mut [usize],
    root: usize,
    number: usize,
) -> Result<(), AllocError> {
    let mut steps = Vec::new(alloc);
    steps.push(Step::Enter(root))?;
    reach_all(plan, most_steps, marks, classes, &mut steps, number)
}

// Gives each device a class, from the last root of this order to the first: a device's before those of its suppliers.
fn give_classes(
    alloc: Global,
    plan: &Plan,
    most_steps: usize,
    order: &[usize],
    classes: &mut [usize],
) -> Result<(), AllocError> {
    let mut marks = vec![in alloc; false; plan.len()]?;
    let mut number = 0usize;
    for root in order.iter().rev() {
        give_class(alloc, plan, most_steps, &mut marks, classes, *root, number)?;
        number = number.saturating_add(1);
    }
    Ok(())
}

fn fill_classes(alloc: Global, plan: &Plan, classes: &mut [usize]) -> Result<(), AllocError> {
    let most_steps = most_steps(plan);
    let order = leaving_order(alloc, plan, most_steps)?;
    give_classes(alloc, plan, most_steps, order.as_slice(), classes)
}

/// A class for each device, as fine as can be: devices are in one where each takes the other, and a device's number is at most that
/// of each of its suppliers. Nothing is proved of that here: who needs it tests it.
pub fn leaving_classes(alloc: Global, plan: &Plan) -> Result<Vec<usize>, AllocError> {
    let mut classes = vec![in alloc; 0; plan.len()]?;
    fill_classes(alloc, plan, &mut classes)?;
    Ok(classes)
}
