//! Plans of many devices, by how the devices need each other.

use std::alloc::{AllocError, Global};

/// How the devices of a plan need each other.
#[derive(Clone, Copy, Debug, PartialEq, Eq)]
pub enum Shape {
    Flat,
    /// Each needs the one before it.
    ChainUp,
    /// Each needs the one behind it, so that it is first tried in vain.
    ChainDown,
    /// All need the first.
    FanOut,
    /// The first needs all.
    FanIn,
    /// Fours: the first needs the two in the middle, and each of these the last.
    Diamonds,
    /// Each needs the one behind it, and the last the first.
    Cycle,
}

pub const SHAPES: &[Shape] = &[
    Shape::Flat,
    Shape::ChainUp,
    Shape::ChainDown,
    Shape::FanOut,
    Shape::FanIn,
    Shape::Diamonds,
    Shape::Cycle,
];

pub const DEVICES: u32 = 48;

const LAST: u32 = DEVICES - 1;

fn is_behind(device: u32, supplier: u32) -> bool {
    device < supplier && supplier - device == 1
}

fn makes_diamond(device: u32, supplier: u32) -> bool {
    device / 4 == supplier / 4 && matches!((device % 4, supplier % 4), (0, 1 | 2) | (1 | 2, 3))
}

/// Whether the one device needs the other.
pub fn needs(shape: Shape, device: u32, supplier: u32) -> bool {
    match shape {
        Shape::Flat => false,
        Shape::ChainUp => is_behind(supplier, device),
        Shape::ChainDown => is_behind(device, supplier),
        Shape::FanOut => supplier == 0 && device > 0,
        Shape::FanIn => device == 0 && supplier > 0,
        Shape::Diamonds => makes_diamond(device, supplier),
        Shape::Cycle => is_behind(device, supplier) || (device == LAST && supplier == 0),
    }
}

/// Whether the device may be woken: it needs some device, and all that it needs are bound in the end where no driver fails.
pub fn is_woken(shape: Shape, device: u32) -> bool {
    shape != Shape::Cycle && (0..DEVICES).any(|supplier| needs(shape, device, supplier))
}

/// What the drivers of a plan do.
#[derive(Clone, Copy, Debug, PartialEq, Eq)]
pub enum Drivers {
    AllBind,
    SomeFail,
}

/// Whether the device's driver fails.
pub fn is_failing(drivers: Drivers, device: u32) -> bool {
    drivers == Drivers::SomeFail && device % 11 == 9
}

fn push_supplier(
    alloc: Global,
    text: &mut String,
    shape: Shape,
    device: u32,
    supplier: u32,
) -> Result<(), AllocError> {
    if needs(shape, device, supplier) {
        let supplier = format!(in alloc; " /d{supplier}")?;
        text.push_str(supplier.as_str())?;
    }
    Ok(())
}

fn push_line(
    alloc: Global,
    text: &mut String,
    shape: Shape,
    drivers: Drivers,
    device: u32,
) -> Result<(), AllocError> {
    let verdict = if is_failing(drivers, device) {
        "fail"
    } else {
        "ok"
    };
    let name = format!(in alloc; "/d{device} x {verdict}")?;
    text.push_str(name.as_str())?;
    for supplier in 0..DEVICES {
        push_supplier(alloc, text, shape, device, supplier)?;
    }
    text.push_str("\n")
}

/// The plan file of a shape.
pub fn plan_text(alloc: Global, shape: Shape, drivers: Drivers) -> Result<String, AllocError> {
    let mut text = String::new(alloc);
    for device in 0..DEVICES {
        push_line(alloc, &mut text, shape, drivers, device)?;
    }
    Ok(text)
}
