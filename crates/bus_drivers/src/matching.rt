ghost use Rattle.std.specs.Prelude.{◌≡◌, ◌⊎◌, ◌<◌, ◌∷◌, [], Some, None, IfOk, IfSome, MatchOption, MatchResult, OnOk, length, position};
ghost use Rattle.std.specs.Option.{option_copied, option_map};
ghost use Rattle.bus_plan.specs.declared.error.PlanError.TheVariants.{NoMemory, UnknownPath};
ghost use Rattle.bus_drivers.specs.TreePlan.{driver_naming, driver_matching, driver_for, is_zero, strings, verdict_for, planned_device, unknown_fail};
ghost use Rattle.bus_drivers.specs.Private.Matching.{IsMatcher, AreFoundWith, AreFoundAmong, driver_found, unknown_among};

use crate::driver::Driver;
use crate::driver_set::DriverSet;
use crate::fail_line::FailLine;
use crate::late_strings::late_strings;
use crate::path_sets::{add_devices, add_fails};
use crate::strings::next_string;
use crate::tree_device::TreeDevice;
use bus_plan::{Device, PathIndex, PlanError, Planned, Verdict};
use dt_tree::{Name, Path, copy_name};
use indexmap::IndexMap;
use std::alloc::{AllocError, Global};
use std::hash::RandomState;
use std::marker::Model;

/// A driver set with what finds its drivers and its `fail` lines without a walk. The hashers are random, since strings and
/// paths come from strangers.
#[derive(Drop)]
pub struct Matcher<'d> {
    set: &'d DriverSet,
    first: IndexMap<&'d [u8], &'d Name, RandomState>,
    fails: PathIndex,
}

impl<'d> Model for Matcher<'d> {
    ghost use Rattle.bus_drivers.specs.Driver.{DriverSetData};
    ghost use Rattle.bus_drivers.specs.Private.Matching.{IsMatcher};

    ghost Value = { DriverSetData };

    ghost view = { λ matcher. matcher.set.now };

    ghost invariant = { λ matcher. IsMatcher matcher.set.now matcher.first.entries matcher.fails };
}

type Found<'d> = IndexMap<&'d [u8], &'d Name, RandomState>;

fn add_string<'d>(found: &mut Found<'d>, string: &'d [u8], name: &'d Name) -> Result<(), AllocError>
    ensures { OnOk result (AreFoundWith name.now (string.now ∷ []) found.old.entries found.new.entries) }
{
    if found.contains_key(string) {
        return Ok(());
    }
    found.insert(string, name)?;
    Ok(())
}

fn add_driver<'d>(found: &mut Found<'d>, driver: &'d Driver) -> Result<(), AllocError>
    ensures { OnOk result
        (AreFoundWith driver.now.name driver.now.compatibles found.old.entries found.new.entries) }
{
    for string in driver.compatibles() {
        add_string(found, string.as_slice(), driver.name())?;
    }
    Ok(())
}

fn add_drivers<'d>(found: &mut Found<'d>, drivers: &'d [Driver]) -> Result<(), AllocError>
    ensures { OnOk result (AreFoundAmong drivers.now found.old.entries found.new.entries) }
{
    for driver in drivers {
        add_driver(found, driver)?;
    }
    Ok(())
}

// Fills the two indexes of a matcher.
fn index_set<'d>(
    alloc: Global,
    first: &mut Found<'d>,
    fails: &mut PathIndex,
    set: &'d DriverSet,
) -> Result<(), AllocError>
    requires no_drivers { first.old.entries ≡ [] }
    requires no_fails { fails.old ≡ [] }
    ensures { OnOk result (IsMatcher set.now first.new.entries fails.new) }
{
    add_drivers(first, set.drivers())?;
    add_fails(alloc, fails, set.fails())?;
    Ok(())
}

fn verdict_of(driver: &Option<Name>, fails: bool) -> Verdict
    ensures { result ≡ verdict_for driver.now fails }
{
    match driver {
        None => Verdict::Binds,
        Some(_) => {
            if fails {
                Verdict::Fails
            } else {
                Verdict::Binds
            }
        }
    }
}

// The first line whose path is none of these.
fn unknown_line(paths: &PathIndex, fails: &[FailLine]) -> Option<usize>
    ensures { result ≡ option_map (λ f. f.line) (unknown_among paths.now fails.now) }
{
    for fail in fails {
        if !paths.contains(fail.path().as_bytes()) {
            return Some(fail.line());
        }
    }
    None
}

// The line of the first of these whose path is no device's. The index is filled with the devices' paths.
fn unknown_beside(
    alloc: Global,
    paths: &mut PathIndex,
    devices: &[TreeDevice<'_>],
    fails: &[FailLine],
) -> Result<Option<usize>, AllocError>
    requires { paths.old ≡ [] }
    ensures { IfOk result (λ line. line ≡ option_map (λ f. f.line) (unknown_fail devices.now fails.now)) }
{
    add_devices(alloc, paths, devices)?;
    Ok(unknown_line(paths, fails))
}

impl<'d> Matcher<'d> {
    /// The matcher of a driver set.
    pub fn of(alloc: Global, hasher: RandomState, set: &'d DriverSet) -> Result<Self, AllocError>
        ensures { IfOk result (λ matcher. matcher ≡ set.now) }
    {
        let mut first = IndexMap::with_hasher(alloc, hasher);
        let mut fails = PathIndex::new(alloc, hasher);
        index_set(alloc, &mut first, &mut fails, set)?;
        Ok(Self { set, first, fails })
    }

    // The first driver that lists a string.
    fn naming(&self, string: &[u8]) -> Option<&'d Name>
        ensures { option_copied result ≡ driver_naming self.now.drivers string.now }
    {
        match self.first.get(string) {
            None => None,
            Some(name) => Some(*name),
        }
    }

    // The driver for the earliest string in a value of `compatible` that one lists.
    fn matching(&self, compatible: &[u8]) -> Option<&'d Name>
        ensures { option_copied result ≡ driver_matching self.now.drivers (strings compatible.now) }
    {
        let mut rest = compatible;
        while let Some((string, behind)) = next_string(rest) {
            rest = behind;
            if let Some(name) = self.naming(string) {
                return Some(name);
            }
        }
        None
    }

    fn driver_for(&self, device: &TreeDevice<'_>) -> Option<&'d Name>
        ensures { option_copied result ≡ driver_for self.now.drivers device.now }
    {
        if !device.available() {
            return None;
        }
        match device.node().value(b"compatible") {
            None => None,
            Some(value) => self.matching(value.as_slice()),
        }
    }

    // A device's path and its driver.
    fn matched(
        &self,
        alloc: Global,
        device: &TreeDevice<'_>,
    ) -> Result<(Path, Option<Name>), AllocError>
        ensures { IfOk result (λ matched. (matched.0 ≡ device.now.path)
            × (matched.1 ≡ driver_for self.now.drivers device.now)) }
    {
        let path = device.path().copy(alloc)?;
        let driver = copy_name(alloc, self.driver_for(device))?;
        Ok((path, driver))
    }

    /// A device with its driver, its verdict and the strings by which a late driver may match it.
    pub fn planned(
        &self,
        alloc: Global,
        device: &TreeDevice<'_>,
        suppliers: Vec<Device>,
    ) -> Result<Planned, AllocError>
        ensures { IfOk result (λ planned. planned ≡ planned_device self.now device.now suppliers.items) }
    {
        let (path, driver) = self.matched(alloc, device)?;
        let verdict = verdict_of(&driver, self.fails.contains(path.as_bytes()));
        let compatibles = late_strings(alloc, &driver, device)?;
        Ok(Planned::new(
            path,
            device.available(),
            driver,
            verdict,
            suppliers,
            compatibles,
        ))
    }

    /// Refused with the first `fail` line whose path is no device's.
    pub fn check_fails(
        &self,
        alloc: Global,
        hasher: RandomState,
        devices: &[TreeDevice<'_>],
    ) -> Result<(), PlanError>
        ensures { MatchResult result
            (λ _. unknown_fail devices.now self.now.fails ≡ None)
            (λ e. (e ≡ NoMemory) ⊎ (option_map (λ f. UnknownPath f.line) (unknown_fail devices.now self.now.fails) ≡ Some e)) }
    {
        match self.first_unknown(alloc, hasher, devices)? {
            None => Ok(()),
            Some(line) => Err(PlanError::UnknownPath(line)),
        }
    }

    // The line of the first `fail` line whose path is no device's.
    fn first_unknown(
        &self,
        alloc: Global,
        hasher: RandomState,
        devices: &[TreeDevice<'_>],
    ) -> Result<Option<usize>, AllocError>
        ensures { IfOk result (λ line. line ≡ option_map (λ f. f.line) (unknown_fail devices.now self.now.fails)) }
    {
        let mut paths = PathIndex::new(alloc, hasher);
        unknown_beside(alloc, &mut paths, devices, self.set.fails())
    }
}
