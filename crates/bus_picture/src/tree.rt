//! Devices as a tree, by their paths.
use crate::names::path_of;
use bus_plan::{Device, Plan};

/// Whether a path stands below another.
fn is_below(above: &[u8], path: &[u8]) -> bool {
    path.len() > above.len() && path.starts_with(above) && path.get(above.len()) == Some(&b'/')
}

/// How many of these devices, each below the one before it, stand above a device.
pub fn depth_of(plan: &Plan, open: &[Device], device: Device) -> usize {
    let path = path_of(plan, device);
    let mut depth = 0;
    for (place, above) in open.iter().enumerate() {
        if is_below(path_of(plan, *above), path) {
            depth = place + 1;
        }
    }
    depth
}

/// What a device's path says behind that of the nearest device above it.
pub fn name_below<'p>(plan: &'p Plan, above: Option<&Device>, device: Device) -> &'p [u8] {
    let path = path_of(plan, device);
    let start = match above {
        None => 1,
        Some(above) => path_of(plan, *above).len().saturating_add(1),
    };
    path.get(start..).unwrap_or(path)
}
