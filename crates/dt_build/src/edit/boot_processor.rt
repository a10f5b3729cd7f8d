//! The processor on which a system boots, by its source.
ghost use Rattle.std.specs.Prelude.{◌≡◌, ◌≤◌, ◌++◌, IfOk, OnOk, length, map, unwrap_or};
ghost use Rattle.std.specs.List.{flat_map};
ghost use Rattle.std.specs.Option.{option_and_then};
ghost use Rattle.dt_tree.specs.Cell.{cell_in};
ghost use Rattle.dt_source.specs.TreeMeaning.BootProcessor.{boot_processor, cpus, first_below, written};
ghost use Rattle.dt_source.specs.Tree.{part_view};
ghost use Rattle.dt_live.specs.Placed.PlacedTrees.{IsPlacedTree, IsStanding, node_path};
ghost use Rattle.dt_live.specs.Placed.Tables.{rows_in};
ghost use Rattle.dt_build.specs.Edit.Private.BootReg.{Gets, boot_reg, reg_at, row_of};
ghost use Rattle.dt_build.specs.Edit.Private.DtcEdited.{placed_of};

use dt_live::placed::PlacedTree;
use dt_source::{Part, Value};
use dt_tree::cell_in;
use std::alloc::{AllocError, Global};

/// The number of the first processor below /cpus: four bytes of its `reg`, as they are written; 0 where there is none.
pub(crate) fn boot_processor<'d, 't>(
    alloc: Global,
    placed: &PlacedTree<'d, &'d Value<'t>>,
) -> Result<u32, AllocError>
    requires sound { IsPlacedTree placed.now }
    ensures { IfOk result (λ number. number ≡ boot_processor (placed_of placed.now)) }
{
    match first_reg(placed) {
        Some(value) => number_written(alloc, value.parts.as_slice()),
        None => Ok(0),
    }
}

fn first_reg<'d, 't>(placed: &PlacedTree<'d, &'d Value<'t>>) -> Option<&'d Value<'t>>
    requires sound { IsPlacedTree placed.now }
    ensures { Gets (boot_reg (placed_of placed.now)) result }
{
    let path: &'d [u8] = b"/cpus".as_slice();
    match placed.at_path(path) {
        Some(node) => reg_below(placed, node),
        None => None,
    }
}

fn reg_below<'d, 't>(placed: &PlacedTree<'d, &'d Value<'t>>, node: usize) -> Option<&'d Value<'t>>
    requires sound { IsPlacedTree placed.now }
    requires node { IsStanding placed.now node }
    requires path { cpus ≡ node_path placed.now node }
    ensures { Gets (option_and_then (reg_at (placed_of placed.now))
        (first_below cpus (placed_of placed.now).nodes)) result }
{
    match placed.first_child(node) {
        Some(first) => reg_of(placed, first),
        None => None,
    }
}

fn reg_of<'d, 't>(placed: &PlacedTree<'d, &'d Value<'t>>, node: usize) -> Option<&'d Value<'t>>
    requires sound { IsPlacedTree placed.now }
    requires known { node ≤ length (rows_in placed.now.nodes) }
    ensures { Gets (reg_at (placed_of placed.now) (row_of placed.now node)) result }
{
    if !placed.is_standing(node) {
        return None;
    }
    placed.property(node, b"reg".as_slice())
}

/// The cell that a value is, 0 where it is none.
fn number_written<'t>(alloc: Global, value: &[Part<'t>]) -> Result<u32, AllocError>
    ensures { IfOk result (λ number. number ≡ unwrap_or (cell_in (flat_map written (map part_view value.now))) 0) }
{
    let bytes = bytes_written(alloc, value)?;
    match cell_in(bytes.as_slice()) {
        Some(number) => Ok(number),
        None => Ok(0),
    }
}

fn bytes_written<'t>(alloc: Global, value: &[Part<'t>]) -> Result<Vec<u8>, AllocError>
    ensures { IfOk result (λ bytes. bytes.items ≡ flat_map written (map part_view value.now)) }
{
    let mut bytes: Vec<u8> = Vec::new(alloc);
    for part in value {
        write_part(&mut bytes, part)?;
    }
    Ok(bytes)
}

/// A reference in cells isn't known yet, and one outside has no bytes yet, nor has a part of a file that wasn't filled in.
fn write_part<'t>(bytes: &mut Vec<u8>, part: &Part<'t>) -> Result<(), AllocError>
    ensures { OnOk result (bytes.new.items ≡ bytes.old.items ++ written (part_view part.now)) }
{
    match part {
        Part::Bytes(more) => bytes.extend_from_slice(more.as_slice()),
        Part::Phandle(_) => bytes.extend_from_slice(&[255, 255, 255, 255]),
        Part::Path(_) | Part::File(_) => Ok(()),
    }
}
