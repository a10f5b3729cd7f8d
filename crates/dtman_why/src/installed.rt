//! The driver file of an installation of Linux, with what it leaves out.

ghost use Rattle.std.specs.Prelude.{IfOk};
ghost use Rattle.bus_drivers.specs.Modules.ModuleDrivers.{IsDriverFile};

use crate::built_in::strings_of;
use crate::shown::add_shown;
use bus_drivers::modules::{Kernel, ModuleDrivers, Origin, Unsaid, module_drivers};
use dtman_engine::Fault;
use std::alloc::{AllocError, Global};
use std::hash::RandomState;

/// A driver file, and a line for each alias that it leaves out.
#[derive(Drop)]
pub struct Installed {
    pub drivers: Vec<u8>,
    pub warnings: Vec<u8>,
}

fn add_warning(alloc: Global, text: &mut Vec<u8>, unsaid: &Unsaid<'_>) -> Result<(), AllocError> {
    let place = match unsaid.origin {
        Origin::Aliases => "modules.alias: line",
        Origin::Builtin => "modules.builtin.modinfo: entry",
    };
    let number = unsaid.number;
    let front = format!(in alloc; "warning: {place} {number}: left out: ")?;
    text.extend_from_slice(front.as_bytes())?;
    add_shown(text, unsaid.alias)?;
    text.push(b'\n')?;
    Ok(())
}

fn warnings(alloc: Global, unsaid: &[Unsaid<'_>]) -> Result<Vec<u8>, AllocError> {
    let mut text = Vec::new(alloc);
    for unsaid in unsaid {
        add_warning(alloc, &mut text, unsaid)?;
    }
    Ok(text)
}

fn told(alloc: Global, made: ModuleDrivers<'_>) -> Result<Installed, AllocError>
    requires { IsDriverFile made.text.items }
    ensures { IfOk result (λ installed. IsDriverFile installed.drivers.items) }
{
    let ModuleDrivers { text, unsaid } = made;
    let warnings = warnings(alloc, unsaid.as_slice())?;
    Ok(Installed {
        drivers: text,
        warnings,
    })
}

// The same with the tables of a kernel.
fn drivers_with(
    alloc: Global,
    hasher: RandomState,
    aliases: &[u8],
    builtin: &[u8],
    kernel: Kernel<'_>,
) -> Result<Installed, Fault>
    ensures { IfOk result (λ installed. IsDriverFile installed.drivers.items) }
{
    let made = module_drivers(alloc, hasher, aliases, builtin, kernel)?;
    Ok(told(alloc, made)?)
}

/// The driver file of `modules.alias`, `modules.builtin.modinfo` and the unpacked image of a kernel, where one is given.
pub fn installed_drivers(
    alloc: Global,
    hasher: RandomState,
    aliases: &[u8],
    builtin: &[u8],
    image: Option<&[u8]>,
) -> Result<Installed, Fault>
    ensures { IfOk result (λ installed. IsDriverFile installed.drivers.items) }
{
    let Some(image) = image else {
        return drivers_with(alloc, hasher, aliases, builtin, Kernel::NotLookedAt);
    };
    let tables = strings_of(alloc, image)?;
    drivers_with(
        alloc,
        hasher,
        aliases,
        builtin,
        Kernel::Tables(tables.as_slice()),
    )
}
