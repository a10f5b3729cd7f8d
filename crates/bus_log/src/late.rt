//! Drivers that a log names for devices that the plan has none for.

use bstr::ByteSlice;
use bus_plan::{Device, PathIndex, Plan, is_driver_name};
use dt_tree::Bytes;
use std::alloc::{AllocError, Global};
use std::hash::RandomState;

/// The names of drivers that are taken, and the strings for which a late driver came. Linux matches some devices by more than
/// their `compatible` strings: on an AMBA bus by a number in a register, on i2c and spi buses by the last part of a string.
#[derive(Drop)]
pub struct LateDrivers {
    names: PathIndex,
    strings: PathIndex,
}

fn is_name_byte(byte: u8) -> bool {
    byte.is_ascii_alphanumeric() || b",._+*#?@-".contains(&byte)
}

// The bytes of a driver's name that a schedule may have, others as `-`.
fn add_name(name: &mut Vec<u8>, bytes: &[u8]) -> Result<(), AllocError> {
    for byte in bytes {
        name.push(if is_name_byte(*byte) { *byte } else { b'-' })?;
    }
    Ok(())
}

fn driver_at<'p>(plan: &'p Plan, place: usize) -> Option<&'p [u8]> {
    if place >= plan.len() {
        return None;
    }
    match plan.driver(Device::new(place)) {
        Some(name) => Some(name.as_bytes()),
        None => None,
    }
}

fn strings_at<'p>(plan: &'p Plan, place: usize) -> &'p [Bytes] {
    if place >= plan.len() {
        return &[];
    }
    plan.compatibles(Device::new(place))
}

fn write_line(text: &mut Vec<u8>, name: &[u8], string: &[u8]) -> Result<(), AllocError> {
    text.extend_from_slice(b"driver ")?;
    text.extend_from_slice(name)?;
    text.push(b' ')?;
    text.extend_from_slice(string)?;
    text.push(b'\n')?;
    Ok(())
}

impl LateDrivers {
    /// None came yet.
    pub fn new(alloc: Global, hasher: RandomState) -> Self {
        Self {
            names: PathIndex::new(alloc, hasher),
            strings: PathIndex::new(alloc, hasher),
        }
    }

    /// Takes in the names of the plan's drivers.
    pub fn fill(&mut self, alloc: Global, plan: &Plan) -> Result<(), AllocError> {
        for place in 0..plan.len() {
            if let Some(name) = driver_at(plan, place) {
                self.names.add(alloc, name)?;
            }
        }
        Ok(())
    }

    // Whether a driver came for one of a device's strings.
    fn is_given(&self, strings: &[Bytes]) -> bool {
        strings
            .iter()
            .any(|string| self.strings.contains(string.as_slice()))
    }

    fn is_free(&self, name: &[u8]) -> bool {
        is_driver_name(name) && !self.names.contains(name)
    }

    // The driver's name, or where it is taken by one that matches other strings, the name with this string behind it; where the log
    // names no driver, the string.
    fn free_name(
        &self,
        alloc: Global,
        driver: &[u8],
        string: &[u8],
    ) -> Result<Option<Vec<u8>>, AllocError> {
        let mut name = Vec::new(alloc);
        add_name(&mut name, driver)?;
        if self.is_free(name.as_slice()) {
            return Ok(Some(name));
        }
        if !name.is_empty() {
            name.push(b'-')?;
        }
        add_name(&mut name, string)?;
        Ok(Some(name).filter(|name| self.is_free(name.as_slice())))
    }

    /// Writes the line by which a device gets a driver of this name, where the plan has none for it and none came. A driver comes for
    /// the first of the device's strings.
    pub fn give(
        &mut self,
        alloc: Global,
        text: &mut Vec<u8>,
        plan: &Plan,
        device: Device,
        driver: &[u8],
    ) -> Result<(), AllocError> {
        let strings = strings_at(plan, device.index());
        let Some(string) = strings.first() else {
            return Ok(());
        };
        if self.is_given(strings) {
            return Ok(());
        }
        let Some(name) = self.free_name(alloc, driver, string.as_slice())? else {
            return Ok(());
        };
        write_line(text, name.as_slice(), string.as_slice())?;
        self.names.add(alloc, name.as_slice())?;
        self.strings.add(alloc, string.as_slice())
    }
}
