//! The strings by which a late driver may match a device.
ghost use Rattle.std.specs.Prelude.{◌≡◌, ◌++◌, filter, if◌then◌else◌, [], ◌∷◌, IfOk, OnOk};
ghost use Rattle.bus_plan.specs.Plan.{is_compatible};
ghost use Rattle.bus_drivers.specs.TreePlan.{strings, compatible_strings, late_strings};

use crate::strings::next_string;
use crate::tree_device::TreeDevice;
use bus_plan::is_compatible;
use dt_tree::{Bytes, Name};
use std::alloc::{AllocError, Global};

// Puts the string last, if a driver may list it.
fn add_string(alloc: Global, copies: &mut Vec<Bytes>, string: &[u8]) -> Result<(), AllocError>
    ensures { OnOk result (copies.new.items ≡ copies.old.items ++ filter is_compatible (string.now ∷ [])) }
{
    if !is_compatible(string) {
        return Ok(());
    }
    copies.push(Bytes::from_vec(Vec::from_slice(alloc, string)?))?;
    Ok(())
}

// Copies of the strings of a value that a driver may list.
fn listable(alloc: Global, value: &[u8]) -> Result<Vec<Bytes>, AllocError>
    ensures { IfOk result (λ copies. copies.items ≡ filter is_compatible (strings value.now)) }
{
    let mut copies = Vec::new(alloc);
    let mut rest = value;
    while let Some((string, behind)) = next_string(rest) {
        rest = behind;
        add_string(alloc, &mut copies, string)?;
    }
    copies.shrink_to_fit();
    Ok(copies)
}

/// Those of a device with this driver: none, unless it is available and has none.
pub fn late_strings(
    alloc: Global,
    driver: &Option<Name>,
    device: &TreeDevice<'_>,
) -> Result<Vec<Bytes>, AllocError>
    ensures { IfOk result (λ copies. copies.items ≡ late_strings driver.now device.now) }
{
    if driver.is_some() || !device.available() {
        return Ok(Vec::new(alloc));
    }
    match device.node().value(b"compatible") {
        None => Ok(Vec::new(alloc)),
        Some(value) => listable(alloc, value.as_slice()),
    }
}
