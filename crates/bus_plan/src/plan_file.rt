ghost use Rattle.std.specs.Prelude.{◌≡◌, ◌<◌, ◌⊎◌, ◌++◌, ◌∷◌, [], length, None, Some, IfOk, IfErr, OnOk, OnErr, MatchResult, map};
ghost use Rattle.std.specs.Vec.{vec_len, vec_capacity};
ghost use Rattle.bus_plan.specs.PlanFile.{line_paths, strings_paths, refusal_of, repeat_of, strings_at, planned_of, unknown_of};
ghost use Rattle.bus_plan.specs.Private.Reading.{IsRefused, first_unknown};

use crate::device_line::DeviceLine;
use crate::error::PlanError;
use crate::late_faults::late_fault;
use crate::limits::MAX_DEVICES;
use crate::lines::lines_of;
use crate::paths::PathIndex;
use crate::plan::Plan;
use crate::plan_line::PlanLine;
use crate::planned::Planned;
use crate::strings::copy_strings;
use crate::strings_line::StringsLine;
use dt_tree::Bytes;
use std::alloc::{AllocError, Global};
use std::hash::RandomState;
use std::marker::Model;

/// What the lines of a plan file list: devices, and the strings of those without a driver.
#[derive(Drop)]
pub struct PlanFile<'a> {
    devices: Vec<DeviceLine<'a>>,
    index: PathIndex,
    lists: Vec<StringsLine<'a>>,
    described: PathIndex,
}

impl<'a> Model for PlanFile<'a> {
    ghost use Rattle.std.specs.Prelude.{◌≡◌};
    ghost use Rattle.bus_plan.specs.PlanFile.{line_paths, strings_paths};
    ghost use Rattle.bus_plan.specs.Private.Reading.{Listed};

    ghost Value = { Listed };

    ghost view = { λ file. record { devices = file.devices.items; lists = file.lists.items } };

    ghost invariant = { λ file. (file.index ≡ line_paths file.devices.items)
        × (file.described ≡ strings_paths file.lists.items) };
}

impl<'a> PlanFile<'a> {
    ghost use Rattle.std.specs.Option.{option_to_list};
    ghost use Rattle.bus_plan.specs.PlanFile.{meaning, device_on, strings_on, fault_of, faults_before, plan_of};
    ghost use Rattle.bus_plan.specs.Private.Reading.{IsFirst, IsFaultless, listed_before, late_fault};
    ghost use Rattle.bus_plan.specs.Lines.{lines};

    fn new(alloc: Global, hasher: RandomState) -> Self
        ensures { result ≡ record { devices = []; lists = [] } }
    {
        Self {
            devices: Vec::new(alloc),
            index: PathIndex::new(alloc, hasher),
            lists: Vec::new(alloc),
            described: PathIndex::new(alloc, hasher),
        }
    }

    fn add_device(&mut self, alloc: Global, device: DeviceLine<'a>) -> Result<(), PlanError>
        ensures ok { OnOk result ((refusal_of self.old.devices device.entry ≡ None)
            × (self.new.devices ≡ self.old.devices ++ device.entry ∷ []) × (self.new.lists ≡ self.old.lists)) }
        ensures err { IfErr result (IsRefused (refusal_of self.old.devices device.entry)) }
    {
        admit(alloc, &mut self.devices, &mut self.index, &device)?;
        self.devices.push(device).unwrap();
        Ok(())
    }

    fn add_strings(&mut self, alloc: Global, list: StringsLine<'a>) -> Result<(), PlanError>
        ensures ok { OnOk result ((repeat_of self.old.lists list.entry ≡ None)
            × (self.new.devices ≡ self.old.devices) × (self.new.lists ≡ self.old.lists ++ list.entry ∷ [])) }
        ensures err { IfErr result (IsRefused (repeat_of self.old.lists list.entry)) }
    {
        if self.described.contains(list.path()) {
            return Err(PlanError::DuplicateDevice(list.number()));
        }
        self.lists.reserve(1)?;
        self.described.push(alloc, list.path())?;
        self.lists.push(list).unwrap();
        Ok(())
    }

    // One line more: what it says is put last.
    fn read_line(&mut self, alloc: Global, number: usize, line: &'a [u8]) -> Result<(), PlanError>
        ensures fault { OnOk result (fault_of self.old.devices self.old.lists (meaning number line.now) ≡ None) }
        ensures devices { OnOk result
            (self.new.devices ≡ self.old.devices ++ option_to_list (device_on (meaning number line.now))) }
        ensures lists { OnOk result
            (self.new.lists ≡ self.old.lists ++ option_to_list (strings_on (meaning number line.now))) }
        ensures err { IfErr result (IsRefused (fault_of self.old.devices self.old.lists (meaning number line.now))) }
    {
        match PlanLine::read(alloc, number, line)? {
            None => {}
            Some(PlanLine::Device(device)) => self.add_device(alloc, device)?,
            Some(PlanLine::Strings(list)) => self.add_strings(alloc, list)?,
        }
        Ok(())
    }

    fn read_lines(&mut self, alloc: Global, text: &'a [u8]) -> Result<(), PlanError>
        requires { self.old ≡ record { devices = []; lists = [] } }
        ensures ok { OnOk result (let ls = lines text.now in
            (self.new ≡ listed_before ls (length ls)) × (faults_before ls (length ls) ≡ [])) }
        ensures err { IfErr result (λ e. let ls = lines text.now in
            (e ≡ PlanError.NoMemory) ⊎ IsFirst (faults_before ls (length ls)) e) }
    {
        let mut number = 0;
        for line in lines_of(text) {
            number += 1;
            self.read_line(alloc, number, line)?;
        }
        Ok(())
    }

    /// What a text lists, or its first line's fault.
    pub fn read(alloc: Global, hasher: RandomState, text: &'a [u8]) -> Result<Self, PlanError>
        ensures ok { IfOk result (λ file. let ls = lines text.now in
            (file ≡ listed_before ls (length ls)) × (faults_before ls (length ls) ≡ [])) }
        ensures err { IfErr result (λ e. let ls = lines text.now in
            (e ≡ PlanError.NoMemory) ⊎ IsFirst (faults_before ls (length ls)) e) }
    {
        let mut file = Self::new(alloc, hasher);
        file.read_lines(alloc, text)?;
        Ok(file)
    }

    /// The plan of the devices, or the first line that doesn't fit the others.
    pub fn plan(self, alloc: Global) -> Result<Plan, PlanError>
        requires { IsFaultless self }
        ensures ok { IfOk result (λ plan. (plan ≡ plan_of self.entry.devices self.entry.lists)
            × (late_fault self.entry ≡ None)) }
        ensures err { IfErr result (IsRefused (late_fault self.entry)) }
    {
        if let Some(fault) = late_fault(&self.devices, &self.index, &self.lists) {
            return Err(fault);
        }
        let devices = plan_all(
            alloc,
            self.devices,
            &self.index,
            &self.lists,
            &self.described,
        )?;
        Ok(Plan::with_index(alloc, devices, self.index)?)
    }
}

// What forbids a further device.
fn check_new(
    devices: &[DeviceLine<'_>],
    index: &PathIndex,
    device: &DeviceLine<'_>,
) -> Result<(), PlanError>
    requires { index.now ≡ line_paths devices.now }
    ensures { MatchResult result (λ _. refusal_of devices.now device.now ≡ None)
        (λ e. refusal_of devices.now device.now ≡ Some e) }
{
    if index.contains(device.path().as_bytes()) {
        return Err(PlanError::DuplicateDevice(device.number()));
    }
    if devices.len() >= MAX_DEVICES {
        return Err(PlanError::TooManyDevices);
    }
    Ok(())
}

// Takes the path of a further device, once there is room for the device itself.
fn admit<'a>(
    alloc: Global,
    devices: &mut Vec<DeviceLine<'a>>,
    index: &mut PathIndex,
    device: &DeviceLine<'a>,
) -> Result<(), PlanError>
    requires { index.old ≡ line_paths devices.old.items }
    ensures ok { OnOk result ((refusal_of devices.old.items device.now ≡ None)
        × (index.new ≡ line_paths devices.old.items ++ device.now.path ∷ [])) }
    ensures room { OnOk result (vec_len devices.new < vec_capacity devices.new) }
    ensures err { IfErr result (IsRefused (refusal_of devices.old.items device.now)) }
    ensures kept { OnErr result (index.new ≡ index.old) }
    ensures devices { devices.new.items ≡ devices.old.items }
{
    check_new(devices, index, device)?;
    devices.reserve(1)?;
    index.push(alloc, device.path().as_bytes())?;
    Ok(())
}

// A copy of the strings of the device at a path.
fn strings_for(
    alloc: Global,
    path: &[u8],
    lists: &[StringsLine<'_>],
    described: &PathIndex,
) -> Result<Vec<Bytes>, AllocError>
    requires { described.now ≡ strings_paths lists.now }
    ensures { IfOk result (λ strings. strings.items ≡ strings_at lists.now path.now) }
{
    match described.position(path) {
        None => Ok(Vec::new(alloc)),
        Some(place) => copy_strings(alloc, lists[place].strings()),
    }
}

fn plan_one(
    alloc: Global,
    line: DeviceLine<'_>,
    index: &PathIndex,
    lists: &[StringsLine<'_>],
    described: &PathIndex,
) -> Result<Planned, PlanError>
    requires { described.now ≡ strings_paths lists.now }
    ensures ok { IfOk result (λ d. (d ≡ planned_of index.now lists.now line.entry)
        × (unknown_of index.now line.entry ≡ None)) }
    ensures err { IfErr result (IsRefused (unknown_of index.now line.entry)) }
{
    let strings = strings_for(alloc, line.path().as_bytes(), lists, described)?;
    line.plan(alloc, index, strings)
}

fn plan_all<'a>(
    alloc: Global,
    lines: Vec<DeviceLine<'a>>,
    index: &PathIndex,
    lists: &[StringsLine<'_>],
    described: &PathIndex,
) -> Result<Vec<Planned>, PlanError>
    requires { described.now ≡ strings_paths lists.now }
    ensures ok { IfOk result (λ devices. devices.items ≡ map (planned_of index.now lists.now) lines.entry.items) }
    ensures err { IfErr result (IsRefused (first_unknown index.now lines.entry.items)) }
{
    let mut devices = Vec::new(alloc);
    for line in lines {
        devices.push(plan_one(alloc, line, index, lists, described)?)?;
    }
    Ok(devices)
}
