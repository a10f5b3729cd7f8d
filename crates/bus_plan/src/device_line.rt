ghost use Rattle.std.specs.Prelude.{◌≡◌, ◌⊎◌, ◌∷◌, IfOk, IfErr, [], map, None, Some, true, false};
ghost use Rattle.std.specs.BTreeSet.{IsEmpty};
ghost use Rattle.bus_plan.specs.Plan.{is_device_path};
ghost use Rattle.bus_plan.specs.PlanPaths.{are_known, place_of};
ghost use Rattle.bus_plan.specs.PlanFile.{are_supplier_paths};

use crate::device::Device;
use crate::error::PlanError;
use crate::fields::Fields;
use crate::matching::Matching;
use crate::paths::PathIndex;
use crate::planned::Planned;
use dt_tree::{Bytes, Path, TreeError, is_path};
use std::alloc::{AllocError, Global};
use std::collections::BTreeSet;
use std::marker::Model;

/// A device as its line of a plan file gives it: its suppliers are paths yet.
#[derive(Drop)]
pub struct DeviceLine<'a> {
    number: usize,
    path: Path,
    matching: Matching,
    suppliers: Vec<&'a [u8]>,
}

impl<'a> Model for DeviceLine<'a> {
    ghost use Rattle.std.specs.Prelude.{map};
    ghost use Rattle.bus_plan.specs.PlanLines.{DeviceLine as Line};

    ghost Value = { Line };

    ghost view = { λ d. record {
      number = d.number;
      path = d.path;
      matching = d.matching;
      suppliers = map (λ s. s.now) d.suppliers.items;
    } };
}

/// Whether it is the path of a device: any but `/`.
pub fn is_device_path(path: &[u8]) -> bool
    ensures { result ≡ is_device_path path.now }
{
    is_path(path) && path != b"/".as_slice()
}

// The path of a device: any but `/`.
fn device_path(alloc: Global, number: usize, bytes: &[u8]) -> Result<Path, PlanError>
    ensures ok { IfOk result (λ path. (path ≡ bytes.now) × (is_device_path bytes.now ≡ true)) }
    ensures err { IfErr result (λ e. (e ≡ PlanError.NoMemory)
        ⊎ ((e ≡ PlanError.BadLine number) × (is_device_path bytes.now ≡ false))) }
{
    if bytes == b"/".as_slice() {
        return Err(PlanError::BadLine(number));
    }
    match Path::parse(alloc, bytes) {
        Ok(path) => Ok(path),
        Err(TreeError::BadName) => Err(PlanError::BadLine(number)),
        Err(_) => Err(PlanError::NoMemory),
    }
}

// Takes the suppliers of a device with this path, unless one has another form, stands twice or is the device itself.
// The set is ordered, which chosen paths can't slow down.
fn take_paths<'a>(
    own: &'a [u8],
    fields: Fields<'a>,
    seen: &mut BTreeSet<&'a [u8]>,
    paths: &mut Vec<&'a [u8]>,
) -> Result<bool, AllocError>
    requires unseen { IsEmpty seen.old }
    requires none { paths.old.items ≡ [] }
    ensures { IfOk result (λ lawful. (are_supplier_paths own.now fields.entry ≡ lawful)
        × (lawful ≡ true → map (λ path. path.now) paths.new.items ≡ fields.entry)) }
{
    seen.insert(own)?;
    for path in fields {
        if !is_device_path(path) {
            return Ok(false);
        }
        if !seen.insert(path)? {
            return Ok(false);
        }
        paths.push(path)?;
    }
    Ok(true)
}

fn supplier_paths<'a>(
    alloc: Global,
    number: usize,
    own: &'a [u8],
    fields: Fields<'a>,
) -> Result<Vec<&'a [u8]>, PlanError>
    ensures ok { IfOk result (λ paths. (are_supplier_paths own.now fields.entry ≡ true)
        × (map (λ path. path.now) paths.items ≡ fields.entry)) }
    ensures err { IfErr result (λ e. (e ≡ PlanError.NoMemory)
        ⊎ ((e ≡ PlanError.BadLine number) × (are_supplier_paths own.now fields.entry ≡ false))) }
{
    let mut seen: BTreeSet<&[u8]> = BTreeSet::new(alloc);
    let mut paths = Vec::new(alloc);
    match take_paths(own, fields, &mut seen, &mut paths) {
        Ok(true) => Ok(paths),
        Ok(false) => Err(PlanError::BadLine(number)),
        Err(_) => Err(PlanError::NoMemory),
    }
}

// Whether each of these paths is among those of an index.
fn are_known(index: &PathIndex, paths: &[&[u8]]) -> bool
    ensures { result ≡ are_known index.now (map (λ path. path.now) paths.now) }
{
    for path in paths {
        if !index.contains(*path) {
            return false;
        }
    }
    true
}

// The places of the suppliers of the device of a line.
fn places_of(
    alloc: Global,
    number: usize,
    suppliers: &[&[u8]],
    index: &PathIndex,
) -> Result<Vec<Device>, PlanError>
    ensures ok { IfOk result (λ places. let paths = map (λ s. s.now) suppliers.now in
        (are_known index.now paths ≡ true)
        × (places.items ≡ map (place_of index.now) paths)) }
    ensures err { IfErr result (λ e. (e ≡ PlanError.NoMemory)
        ⊎ ((e ≡ PlanError.UnknownPath number)
        × (are_known index.now (map (λ s. s.now) suppliers.now) ≡ false))) }
{
    let mut places = Vec::new(alloc);
    for supplier in suppliers {
        let Some(place) = index.position(*supplier) else {
            return Err(PlanError::UnknownPath(number));
        };
        places.push(Device::new(place))?;
    }
    Ok(places)
}

impl<'a> DeviceLine<'a> {
    /// The device's path.
    pub fn path(&self) -> &Path
        ensures { result.now ≡ self.now.path }
    {
        &self.path
    }

    /// The line's number, from 1.
    pub fn number(&self) -> usize
        ensures { result ≡ self.now.number }
    {
        self.number
    }

    ghost use Rattle.bus_plan.specs.PlanFile.{device_of, unknown_of};
    ghost use Rattle.bus_plan.specs.Private.Reading.{IsRefused, planned_with};

    /// The device of a line with this path and these fields behind it.
    pub fn of(
        alloc: Global,
        number: usize,
        path: &'a [u8],
        mut fields: Fields<'a>,
    ) -> Result<Self, PlanError>
        ensures ok { IfOk result (λ d. device_of number (path.now ∷ fields.entry) ≡ Some d) }
        ensures err { IfErr result (λ e. (e ≡ PlanError.NoMemory)
            ⊎ ((e ≡ PlanError.BadLine number) × (device_of number (path.now ∷ fields.entry) ≡ None))) }
    {
        let driver = fields.next().ok_or(PlanError::BadLine(number))?;
        let word = fields.next().ok_or(PlanError::BadLine(number))?;
        let own = device_path(alloc, number, path)?;
        let suppliers = supplier_paths(alloc, number, path, fields)?;
        let matching = Matching::of(alloc, number, driver, word)?;
        Ok(Self {
            number,
            path: own,
            matching,
            suppliers,
        })
    }

    ghost use Rattle.bus_plan.specs.PlanFile.{is_unmatched};

    /// Whether it is available and has no driver.
    pub fn is_unmatched(&self) -> bool
        ensures { result ≡ is_unmatched self.now }
    {
        self.matching.available && self.matching.driver.is_none()
    }

    /// The fault of a device with a supplier that is no device.
    pub fn unknown(&self, index: &PathIndex) -> Option<PlanError>
        ensures { result ≡ unknown_of index.now self.now }
    {
        if are_known(index, self.suppliers.as_slice()) {
            return None;
        }
        Some(PlanError::UnknownPath(self.number))
    }

    /// The device with its suppliers found, and with these strings.
    pub fn plan(
        self,
        alloc: Global,
        index: &PathIndex,
        compatibles: Vec<Bytes>,
    ) -> Result<Planned, PlanError>
        ensures ok { IfOk result (λ d. (d ≡ planned_with index.now self.entry compatibles.items)
            × (unknown_of index.now self.entry ≡ None)) }
        ensures err { IfErr result (IsRefused (unknown_of index.now self.entry)) }
    {
        let suppliers = places_of(alloc, self.number, &self.suppliers, index)?;
        let Matching {
            available,
            driver,
            verdict,
        } = self.matching;
        Ok(Planned::new(
            self.path,
            available,
            driver,
            verdict,
            suppliers,
            compatibles,
        ))
    }
}
