//! Refusals of plans of trees.

use crate::blobs::of_file;
use crate::device_rows::DeviceRows;
use crate::diagnosis::{Diagnosis, Note, copied};
use bus_drivers::{Culprit, Entry, Form};
use bus_plan::MAX_DEVICES;
use dt_blob::read;
use dt_tree::written_paths::path_of;
use dt_tree::{Tree, cell_in};
use std::alloc::{AllocError, Global};

/// What a plan refuses by this number, 54 to 56, of the blob in the file of this name; and of which property, as the fault tells it.
pub fn diagnose_plan(
    alloc: Global,
    file: &[u8],
    blob: &[u8],
    number: u8,
    culprit: Option<Culprit>,
) -> Result<Diagnosis, AllocError> {
    match read(alloc, blob) {
        Ok(tree) => of_tree(alloc, file, &tree, number, culprit),
        Err(_) => of_file(alloc, file, number),
    }
}

fn of_tree(
    alloc: Global,
    file: &[u8],
    tree: &Tree,
    number: u8,
    culprit: Option<Culprit>,
) -> Result<Diagnosis, AllocError> {
    let mut diagnosis = of_file(alloc, file, number)?;
    let rows = DeviceRows::of(alloc, tree)?;
    match culprit {
        Some(culprit) => add_culprit(alloc, &mut diagnosis.notes, &rows, culprit)?,
        None if number == 56 => add_devices(&mut diagnosis.notes, rows.devices())?,
        None => {}
    }
    Ok(diagnosis)
}

/// Tells how many devices there are, and how many there can be.
pub(crate) fn add_devices(notes: &mut Vec<Note>, devices: usize) -> Result<(), AllocError> {
    notes.push(Note::Count {
        devices,
        most: MAX_DEVICES,
    })?;
    Ok(())
}

// Tells of the property that can't be read, and of what in it.
fn add_culprit(
    alloc: Global,
    notes: &mut Vec<Note>,
    rows: &DeviceRows<'_>,
    culprit: Culprit,
) -> Result<(), AllocError> {
    let Some(device) = rows.device(culprit.device) else {
        return Ok(());
    };
    let Some(property) = rows.property(device, culprit.property) else {
        return Ok(());
    };
    let (name, value) = (property.name.as_bytes(), property.value.as_slice());
    notes.push(Note::In {
        path: path_of(alloc, rows, device)?,
        property: Some(copied(alloc, name)?),
    })?;
    match (Form::of(name), culprit.entry) {
        (Some(form), Some(entry)) => add_entry(alloc, notes, rows, form, value, entry),
        (Some(form), None) => add_length(notes, form, value.len()),
        (None, _) => Ok(()),
    }
}

// A value of this form can't have so many bytes.
fn add_length(notes: &mut Vec<Note>, form: Form, length: usize) -> Result<(), AllocError> {
    notes.push(Note::Length(length))?;
    notes.push(Note::Words(match form {
        Form::Single => "one phandle has four bytes",
        _ => "cells have four bytes each",
    }))?;
    Ok(())
}

// An entry, and where its phandle leads to a node, what that wants.
fn add_entry(
    alloc: Global,
    notes: &mut Vec<Note>,
    rows: &DeviceRows<'_>,
    form: Form,
    value: &[u8],
    entry: Entry,
) -> Result<(), AllocError> {
    let Some([a, b, c, d, behind @ ..]) = value.get(entry.offset..) else {
        return Ok(());
    };
    let phandle = u32::from_be_bytes([*a, *b, *c, *d]);
    notes.push(Note::Entry {
        entry: entry.number,
        phandle,
    })?;
    match (form, rows.with_phandle(phandle)) {
        (Form::Counted(name), Some(provider)) => {
            add_provider(alloc, notes, rows, provider, name, behind.len() / 4)
        }
        _ => Ok(()),
    }
}

// How many cells a provider wants by its property of this name, and how many are left.
fn add_provider(
    alloc: Global,
    notes: &mut Vec<Note>,
    rows: &DeviceRows<'_>,
    provider: usize,
    name: &'static [u8],
    left: usize,
) -> Result<(), AllocError> {
    let Some(node) = rows.node(provider) else {
        return Ok(());
    };
    let count = match node.value(name) {
        Some(value) => cell_in(value.as_slice()),
        None => None,
    };
    notes.push(Note::Cells {
        path: path_of(alloc, rows, provider)?,
        name,
        count,
    })?;
    if count.is_some() {
        notes.push(Note::Left(left))?;
    }
    Ok(())
}
