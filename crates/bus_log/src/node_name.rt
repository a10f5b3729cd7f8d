//! The names of nodes in the paths of devices.

use bstr::ByteSlice;
use bus_plan::{Device, Plan};

/// A device's path, and nothing for a device that the plan hasn't.
pub fn path_at<'p>(plan: &'p Plan, device: Device) -> &'p [u8] {
    if device.index() < plan.len() {
        return plan.path(device).as_bytes();
    }
    b"".as_slice()
}

/// The last name of a path.
pub fn last_name<'p>(path: &'p [u8]) -> &'p [u8] {
    match path.rsplit_once_str(b"/") {
        Some((_, name)) => name,
        None => path,
    }
}

/// The path without its last name.
pub fn path_above<'p>(path: &'p [u8]) -> &'p [u8] {
    match path.rsplit_once_str(b"/") {
        Some((above, _)) => above,
        None => b"".as_slice(),
    }
}

/// The last name but one.
pub fn name_above<'p>(path: &'p [u8]) -> &'p [u8] {
    last_name(path_above(path))
}

/// The name before its unit address.
pub fn base_name<'p>(name: &'p [u8]) -> &'p [u8] {
    match name.split_once_str(b"@") {
        Some((base, _)) => base,
        None => name,
    }
}

/// The unit address of a name, nothing where it has none.
pub fn unit_address<'p>(name: &'p [u8]) -> &'p [u8] {
    match name.split_once_str(b"@") {
        Some((_, unit)) => unit,
        None => b"".as_slice(),
    }
}

/// Whether a path stands below another.
pub fn is_below(path: &[u8], above: &[u8]) -> bool {
    match path.strip_prefix(above) {
        Some(rest) => rest.starts_with(b"/"),
        None => false,
    }
}
