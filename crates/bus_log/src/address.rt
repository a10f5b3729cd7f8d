//! Addresses that the kernel names devices by, and the unit addresses that they come from.

use bstr::ByteSlice;
use bus_plan::Device;
use std::alloc::{AllocError, Global};

/// How many of their last bits a machine's address and a unit address have in common at least: the smallest windows that buses map
/// have 4 KiB.
const WINDOW_BITS: u32 = 12;

fn digit_of(c: u8) -> Option<u8> {
    match c {
        b'0'..=b'9' => Some(c.saturating_sub(b'0')),
        b'a'..=b'f' => Some(c.saturating_sub(b'a').saturating_add(10)),
        _ => None,
    }
}

/// The number that hexadecimal digits write, 16 of them at most.
pub fn hex_number(digits: &[u8]) -> Option<u64> {
    if digits.is_empty() || digits.len() > 16 {
        return None;
    }
    let mut number: u64 = 0;
    for c in digits {
        number = number << 4 | digit_of(*c)? as u64;
    }
    Some(number)
}

/// The number of a unit address; of one with commas, as that of a chip select and an offset, what stands behind the last.
pub fn unit_number(unit: &[u8]) -> Option<u64> {
    match unit.rsplit_once_str(b",") {
        Some((_, offset)) => hex_number(offset),
        None => hex_number(unit),
    }
}

/// An address that a device with a base name may have: its number has the last bit first, so that addresses with their last bits in
/// common stand side by side.
#[derive(Clone, Copy, PartialEq, Eq, PartialOrd, Ord, Drop)]
struct Stand {
    base: usize,
    mirrored: u64,
    /// Of how many buses above it the unit addresses are added.
    height: usize,
    device: usize,
}

/// The addresses that devices may have, by their base names.
#[derive(Drop)]
pub struct Addresses {
    stands: Vec<Stand>,
}

/// An address that a device may have, where so many buses above it begin at their own unit addresses.
#[derive(Clone, Copy)]
pub struct Possible {
    pub address: u64,
    pub height: usize,
}

impl Addresses {
    /// None.
    pub fn new(alloc: Global) -> Self {
        Self {
            stands: Vec::new(alloc),
        }
    }

    /// Adds one of a device, with the place of its base name.
    pub fn add(
        &mut self,
        base: usize,
        device: Device,
        possible: Possible,
    ) -> Result<(), AllocError> {
        self.stands.push(Stand {
            base,
            mirrored: possible.address.reverse_bits(),
            height: possible.height,
            device: device.index(),
        })?;
        Ok(())
    }

    /// Puts them in order, behind the last that is added.
    pub fn arrange(&mut self) -> Result<(), AllocError> {
        self.stands.sort()
    }

    // How many of its last bits the address at a place has in common with one of a base name; all 64 where it is that one.
    fn common_bits(&self, place: usize, wanted: &Stand) -> u32 {
        match self.stands.get(place) {
            Some(stand) if stand.base == wanted.base => {
                (stand.mirrored ^ wanted.mirrored).leading_zeros()
            }
            _ => 0,
        }
    }

    // The device at a place, where that has so many bits in common.
    fn with_bits(&self, place: Option<usize>, wanted: &Stand, bits: u32) -> Option<usize> {
        let place = place?;
        if self.common_bits(place, wanted) != bits {
            return None;
        }
        self.stands.get(place).map(|stand| stand.device)
    }

    /// The device of this base name that is at a machine's address: by its unit address, or by that and those of the buses above it;
    /// else the only one that has the most of its last bits in common, as a bus's window leaves them.
    pub fn find(&self, base: usize, address: u64) -> Option<Device> {
        let wanted = Stand {
            base,
            mirrored: address.reverse_bits(),
            height: 0,
            device: 0,
        };
        let place = match self.stands.binary_search(&wanted) {
            Ok(place) => place,
            Err(place) => place,
        };
        let behind = self.common_bits(place, &wanted);
        if behind == u64::BITS {
            return self
                .with_bits(Some(place), &wanted, behind)
                .map(Device::new);
        }
        self.nearest(place, &wanted).map(Device::new)
    }

    // Of those beside a place the only device with the most bits in common.
    fn nearest(&self, place: usize, wanted: &Stand) -> Option<usize> {
        let before = place.checked_sub(1);
        let bits = match before {
            Some(before) => self
                .common_bits(before, wanted)
                .max(self.common_bits(place, wanted)),
            None => self.common_bits(place, wanted),
        };
        if bits < WINDOW_BITS {
            return None;
        }
        let sides = [
            before.and_then(|before| before.checked_sub(1)),
            before,
            Some(place),
            place.checked_add(1),
        ];
        let mut found = None;
        for side in sides {
            let device = self.with_bits(side, wanted, bits);
            if device.is_some() && found.is_some() && device != found {
                return None;
            }
            found = found.or(device);
        }
        found
    }
}
