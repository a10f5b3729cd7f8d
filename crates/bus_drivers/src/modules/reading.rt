//! What `modules.alias` and `modules.builtin.modinfo` say.

ghost use Rattle.std.specs.Prelude.{IfOk};
ghost use Rattle.bus_drivers.specs.Modules.ModuleDrivers.{IsDriverFile};

use crate::modules::alias::{Said, said_of};
use crate::modules::modules::{ModuleDrivers, Modules, Unsaid};
use crate::modules::tables::{NOT_LOOKED_AT, add_tables};
use crate::read_drivers;
use bstr::ByteSlice;
use bus_plan::{Fields, PlanError, is_driver_name, lines_of};
use std::alloc::{AllocError, Global};
use std::hash::RandomState;

/// Which file says something.
#[derive(Clone, Copy, Debug, PartialEq, Eq)]
pub enum Origin {
    /// `modules.alias`: lines `alias ALIAS MODULE`.
    Aliases,
    /// `modules.builtin.modinfo`: entries `MODULE.alias=ALIAS`, each ended by a zero byte.
    Builtin,
}

/// The tables of the drivers that are built into a kernel: of each the strings that it matches.
#[derive(Clone, Copy, Debug)]
pub enum Kernel<'a> {
    /// They weren't looked at.
    NotLookedAt,
    Tables(&'a [Vec<&'a [u8]>]),
}

// A module and one of its aliases.
struct Alias<'a> {
    module: &'a [u8],
    alias: &'a [u8],
}

// Takes in what an alias says.
fn add<'a>(
    alloc: Global,
    modules: &mut Modules,
    unsaid: &mut Vec<Unsaid<'a>>,
    origin: Origin,
    number: usize,
    said: Alias<'a>,
) -> Result<(), AllocError> {
    let Alias { module, alias } = said;
    match said_of(alias) {
        Said::Matches(string) if is_driver_name(module) => modules.add(alloc, module, string),
        Said::Nothing => Ok(()),
        _ => {
            unsaid.push(Unsaid {
                origin,
                number,
                alias,
            })?;
            Ok(())
        }
    }
}

// What a line says: `alias ALIAS MODULE`.
fn in_line<'a>(line: &'a [u8]) -> Option<Alias<'a>> {
    let mut fields = Fields::of(line);
    let word = fields.next()?;
    let alias = fields.next()?;
    let module = fields.next()?;
    if word != b"alias".as_slice() || fields.next().is_some() {
        return None;
    }
    Some(Alias { module, alias })
}

// What an entry says: `MODULE.alias=ALIAS`.
fn in_entry<'a>(entry: &'a [u8]) -> Option<Alias<'a>> {
    let (module, rest) = entry.split_once_str(b".")?;
    let alias = rest.strip_prefix(b"alias=")?;
    Some(Alias { module, alias })
}

fn read_aliases<'a>(
    alloc: Global,
    modules: &mut Modules,
    unsaid: &mut Vec<Unsaid<'a>>,
    text: &'a [u8],
) -> Result<(), AllocError> {
    let mut number = 0;
    for line in lines_of(text) {
        number += 1;
        if let Some(said) = in_line(line) {
            add(alloc, modules, unsaid, Origin::Aliases, number, said)?;
        }
    }
    Ok(())
}

fn read_builtin<'a>(
    alloc: Global,
    modules: &mut Modules,
    unsaid: &mut Vec<Unsaid<'a>>,
    entries: &'a [u8],
) -> Result<(), AllocError> {
    let mut number = 0usize;
    for entry in entries.split(|byte| *byte == 0) {
        number = number.saturating_add(1);
        if let Some(said) = in_entry(entry) {
            add(alloc, modules, unsaid, Origin::Builtin, number, said)?;
        }
    }
    Ok(())
}

// The text with the drivers of a kernel behind the modules.
fn text_with(
    alloc: Global,
    modules: &mut Modules,
    kernel: Kernel<'_>,
) -> Result<Vec<u8>, AllocError> {
    match kernel {
        Kernel::NotLookedAt => modules.text(alloc, NOT_LOOKED_AT.as_bytes()),
        Kernel::Tables(tables) => {
            add_tables(alloc, modules, tables)?;
            modules.text(alloc, b"")
        }
    }
}

// The text of what both files and the kernel say.
fn read_all<'a>(
    alloc: Global,
    hasher: RandomState,
    unsaid: &mut Vec<Unsaid<'a>>,
    aliases: &'a [u8],
    builtin: &'a [u8],
    kernel: Kernel<'_>,
) -> Result<Vec<u8>, AllocError> {
    let mut modules = Modules::new(alloc, hasher);
    read_aliases(alloc, &mut modules, unsaid, aliases)?;
    read_builtin(alloc, &mut modules, unsaid, builtin)?;
    text_with(alloc, &mut modules, kernel)
}

// The text, once it was read back.
fn read_back(alloc: Global, hasher: RandomState, text: Vec<u8>) -> Result<Vec<u8>, PlanError>
    ensures { IfOk result (λ text. IsDriverFile text.items) }
{
    match read_drivers(alloc, hasher, text.as_slice()) {
        Ok(_) => Ok(text),
        Err(error) => Err(error),
    }
}

/// A driver file of the modules that these two files name, a line a module in order of first sight, with each string that the module
/// matches once; and the aliases of devicetrees that no driver file can say. Aliases of other buses are passed over. Behind the modules
/// stands a line for each table of the kernel that has a string which none of them matches, named by its first string; where the
/// kernel wasn't looked at, the head of the file says so (`NOT_LOOKED_AT`). What comes out is read by `read_drivers`: it was, before it
/// is given out.
pub fn module_drivers<'a>(
    alloc: Global,
    hasher: RandomState,
    aliases: &'a [u8],
    builtin: &'a [u8],
    kernel: Kernel<'_>,
) -> Result<ModuleDrivers<'a>, PlanError>
    ensures { IfOk result (λ made. IsDriverFile made.text.items) }
{
    let mut unsaid = Vec::new(alloc);
    let text = read_all(alloc, hasher, &mut unsaid, aliases, builtin, kernel)?;
    let text = read_back(alloc, hasher, text)?;
    Ok(ModuleDrivers { text, unsaid })
}
