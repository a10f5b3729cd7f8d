//! The drivers that are built into a kernel, by the tables of its image.

use crate::modules::modules::Modules;
use bus_plan::{is_compatible, is_driver_name};
use std::alloc::{AllocError, Global};

/// The head of a driver file for which no kernel's tables were looked at.
pub const NOT_LOOKED_AT: &str = "# drivers that are built into the kernel weren't looked at\n";

/// Whether the head of a driver file says that no kernel's tables were looked at.
pub fn lacks_builtin(drivers: &[u8]) -> bool {
    drivers.starts_with(NOT_LOOKED_AT.as_bytes())
}

// Whether a string of the table is matched by none.
fn is_new(modules: &Modules, table: &[&[u8]]) -> bool {
    table.iter().any(|string| !modules.matches(*string))
}

// Adds a driver with all strings of its table.
fn add_all(
    alloc: Global,
    modules: &mut Modules,
    name: &[u8],
    table: &[&[u8]],
) -> Result<(), AllocError> {
    for string in table {
        if is_compatible(*string) {
            modules.add(alloc, name, *string)?;
        }
    }
    Ok(())
}

// Adds the driver of a table, which is called as its first string.
fn add_table(alloc: Global, modules: &mut Modules, table: &[&[u8]]) -> Result<(), AllocError> {
    match table.first() {
        Some(name) if is_driver_name(*name) && is_new(modules, table) => add_all(
            alloc, modules, *name, table,
        ),
        _ => Ok(()),
    }
}

/// Adds a driver for each table that has a string which no module matches.
pub fn add_tables(
    alloc: Global,
    modules: &mut Modules,
    tables: &[Vec<&[u8]>],
) -> Result<(), AllocError> {
    for table in tables {
        add_table(alloc, modules, table.as_slice())?;
    }
    Ok(())
}
