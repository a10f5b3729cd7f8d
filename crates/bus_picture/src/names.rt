//! What devices are called in a picture.
use bus_plan::{Device, Plan};

/// A device's path; nothing where there is no such device.
pub fn path_of<'p>(plan: &'p Plan, device: Device) -> &'p [u8] {
    if device.index() < plan.len() {
        return plan.path(device).as_bytes();
    }
    &[]
}

/// The name of a device's driver; nothing where it has none.
pub fn driver_of<'p>(plan: &'p Plan, device: Device) -> &'p [u8] {
    if device.index() >= plan.len() {
        return &[];
    }
    match plan.driver(device) {
        Some(name) => name.as_bytes(),
        None => &[],
    }
}

/// What stands behind the last of these bytes before a place, or all before the place.
fn start_of_name(path: &[u8], end: usize) -> usize {
    let mut start = 0;
    for (place, byte) in path.iter().enumerate() {
        if place < end && *byte == b'/' {
            start = place + 1;
        }
    }
    start
}

// How many bytes stand behind the name's `@`.
fn unit_len(name: &[u8]) -> usize {
    for (place, byte) in name.iter().enumerate() {
        if *byte == b'@' {
            return name.len() - place - 1;
        }
    }
    0
}

/// The last name of a path, with that above it where its unit address is short: such a name stands at several places of a board.
pub fn short_name<'p>(path: &'p [u8]) -> &'p [u8] {
    let start = start_of_name(path, path.len());
    let name = path.get(start..).unwrap_or(path);
    if unit_len(name) > 4 || start < 2 {
        return name;
    }
    path.get(start_of_name(path, start - 1)..).unwrap_or(path)
}
