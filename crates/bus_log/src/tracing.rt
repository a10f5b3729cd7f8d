//! A log as a schedule.

use crate::binders::Binders;
use crate::flights::{Flights, Line};
use crate::late::LateDrivers;
use crate::log_line::{Bus, Told, read_log_line};
use crate::naming::{Named, Names};
use bus_plan::{Device, Plan, lines_of};
use std::alloc::{AllocError, Global};
use std::hash::RandomState;

/// Why a name is left out.
#[derive(Clone, Copy, Debug, PartialEq, Eq)]
pub enum Reason {
    /// It stands for no device of the plan.
    Unknown,
    /// The device is switched off in the plan.
    SwitchedOff,
}

/// A name that is left out.
#[derive(Clone, Copy)]
pub struct Unplaced<'a> {
    /// The line where it was met, from 1.
    pub line: usize,
    pub name: &'a [u8],
    pub reason: Reason,
}

/// The text of a schedule, and the names that it leaves out.
#[derive(Drop)]
pub struct Traced<'a> {
    pub schedule: Vec<u8>,
    pub unplaced: Vec<Unplaced<'a>>,
}

// A log while it is read.
#[derive(Drop)]
struct Trace<'a> {
    names: Names,
    binders: Binders,
    flights: Flights,
    late: LateDrivers,
    /// Whether the log has told the end of each device's last probe, and not yet what it returned.
    told: Vec<bool>,
    unplaced: Vec<Unplaced<'a>>,
}

// How a probe ended that returned this number: 517 is the kernel's word for later, 6 and 19 those of a driver that doesn't want the
// device. A negative one is of a probe that was given up before its driver saw the device.
fn end_by(code: &[u8]) -> Line {
    match code {
        b"0" => Line::Settled,
        b"517" | b"-517" | b"6" | b"19" => Line::Abandon,
        _ => Line::Failed,
    }
}

fn is_available(plan: &Plan, device: Device) -> bool {
    device.index() < plan.len() && plan.available(device)
}

// Why what a name stands for is left out, if it is.
fn reason_of(plan: &Plan, device: &Option<Device>) -> Option<Reason> {
    match device {
        None => Some(Reason::Unknown),
        Some(device) if !is_available(plan, *device) => Some(Reason::SwitchedOff),
        Some(_) => None,
    }
}

// What a line tells of a probe.
#[derive(Clone, Copy)]
struct Probed<'a> {
    bus: Bus,
    driver: &'a [u8],
    name: &'a [u8],
}

impl<'a> Trace<'a> {
    // The device that is probed while a line is told, where a name placed it.
    fn within(&self) -> Option<Device> {
        self.names.device(self.binders.innermost()?)
    }

    fn meet(
        &mut self,
        alloc: Global,
        plan: &Plan,
        told: Probed<'a>,
    ) -> Result<Option<Device>, AllocError> {
        let named = Named {
            bus: told.bus,
            name: told.name,
            driver: told.driver,
            within: self.within(),
        };
        self.names.meet(alloc, plan, &named)
    }

    // The device of a name that a driver probes.
    fn device_of(
        &mut self,
        alloc: Global,
        plan: &Plan,
        number: usize,
        told: Probed<'a>,
    ) -> Result<Option<Device>, AllocError> {
        let name = told.name;
        if self.names.number(name).is_some() {
            return Ok(self.names.known(name));
        }
        let device = self.meet(alloc, plan, told)?;
        self.binders.grow(self.names.count())?;
        if let Some(reason) = reason_of(plan, &device) {
            self.leave_out(number, name, reason)?;
        }
        Ok(device)
    }

    fn leave_out(&mut self, line: usize, name: &'a [u8], reason: Reason) -> Result<(), AllocError> {
        self.unplaced.push(Unplaced { line, name, reason })?;
        Ok(())
    }

    // Has a device that the plan has no driver for get the one that the kernel probed it by.
    fn give(
        &mut self,
        alloc: Global,
        plan: &Plan,
        device: Device,
        driver: &[u8],
    ) -> Result<(), AllocError> {
        let text = self.flights.text_mut();
        self.late.give(alloc, text, plan, device, driver)
    }

    fn begin(&mut self, alloc: Global, plan: &Plan, device: Device) -> Result<(), AllocError> {
        // Where the log has lost the end of a probe, the next one ends it.
        if self.flights.is_open(device) {
            self.flights.end(alloc, plan, device, Line::Abandon)?;
        }
        self.set_told(device, false);
        self.flights.begin(plan, device)
    }

    fn end(
        &mut self,
        alloc: Global,
        plan: &Plan,
        name: &[u8],
        line: Line,
    ) -> Result<(), AllocError> {
        match self.names.known(name) {
            Some(device) if self.flights.is_open(device) => {
                self.set_told(device, true);
                self.flights.end(alloc, plan, device, line)
            }
            _ => Ok(()),
        }
    }

    fn set_told(&mut self, device: Device, value: bool) {
        if let Some(is_told) = self.told.get_mut(device.index()) {
            *is_told = value;
        }
    }

    fn is_told(&self, device: Device) -> bool {
        matches!(self.told.get(device.index()), Some(true))
    }

    // A probe has returned, of which the log may have told nothing before.
    fn pass(
        &mut self,
        alloc: Global,
        plan: &Plan,
        device: Device,
        line: Line,
    ) -> Result<(), AllocError> {
        if self.flights.is_open(device) {
            return self.flights.end(alloc, plan, device, line);
        }
        if self.is_told(device) {
            self.set_told(device, false);
            return Ok(());
        }
        self.give(alloc, plan, device, b"")?;
        self.flights.pass(alloc, plan, device, line)
    }

    // A line that tells what a probe returned. Before a probe whose suppliers aren't there the kernel turns back, by a negative number:
    // nothing has begun then.
    fn read_return(
        &mut self,
        alloc: Global,
        plan: &Plan,
        number: usize,
        name: &'a [u8],
        code: &[u8],
    ) -> Result<(), AllocError> {
        let line = end_by(code);
        if code.starts_with(b"-") {
            return match self.names.known(name) {
                Some(device) if self.flights.is_open(device) => {
                    self.flights.end(alloc, plan, device, line)
                }
                _ => Ok(()),
            };
        }
        let told = Probed {
            bus: Bus::Untold,
            driver: b"".as_slice(),
            name,
        };
        match self.device_of(alloc, plan, number, told)? {
            Some(device) if self.is_open_to(plan, device) => self.pass(alloc, plan, device, line),
            _ => Ok(()),
        }
    }

    fn read_begin(
        &mut self,
        alloc: Global,
        plan: &Plan,
        number: usize,
        told: Probed<'a>,
    ) -> Result<(), AllocError> {
        let device = self.device_of(alloc, plan, number, told)?;
        if let Some(place) = self.names.number(told.name) {
            self.binders.begin(place)?;
        }
        match device {
            Some(device) if self.is_open_to(plan, device) => {
                self.give(alloc, plan, device, told.driver)?;
                self.begin(alloc, plan, device)
            }
            _ => Ok(()),
        }
    }

    // Whether the bus may probe a device: it is switched on, and hasn't settled.
    fn is_open_to(&self, plan: &Plan, device: Device) -> bool {
        is_available(plan, device) && !self.flights.is_settled(device)
    }

    // The probe of a name runs no more.
    fn close(&mut self, name: &[u8]) {
        if let Some(place) = self.names.number(name) {
            self.binders.end(place);
        }
    }

    fn read_end(
        &mut self,
        alloc: Global,
        plan: &Plan,
        name: &[u8],
        line: Line,
    ) -> Result<(), AllocError> {
        self.close(name);
        self.end(alloc, plan, name, line)
    }

    fn read_added(&mut self, alloc: Global, name: &[u8]) -> Result<(), AllocError> {
        match self.within() {
            Some(maker) => self.names.add(alloc, name, maker),
            None => Ok(()),
        }
    }

    fn read_line(
        &mut self,
        alloc: Global,
        plan: &Plan,
        number: usize,
        line: &'a [u8],
    ) -> Result<(), AllocError> {
        match read_log_line(line) {
            Some(Told::Probing { bus, driver, name }) => {
                self.read_begin(alloc, plan, number, Probed { bus, driver, name })
            }
            Some(Told::Added { name }) => self.read_added(alloc, name),
            Some(Told::Returned { name, number: code }) => {
                self.close(name);
                self.read_return(alloc, plan, number, name, code)
            }
            Some(Told::Bound { name }) => self.read_end(alloc, plan, name, Line::Settled),
            Some(Told::Failed { name }) => self.read_end(alloc, plan, name, Line::Failed),
            Some(Told::GivenUp { name }) => self.read_end(alloc, plan, name, Line::Abandon),
            None => Ok(()),
        }
    }

    fn read(&mut self, alloc: Global, plan: &Plan, log: &'a [u8]) -> Result<(), AllocError> {
        let mut number = 0;
        for line in lines_of(log) {
            number += 1;
            self.read_line(alloc, plan, number, line)?;
        }
        self.flights.finish(alloc, plan)
    }
}

fn read_trace<'a>(
    alloc: Global,
    plan: &Plan,
    trace: &mut Trace<'a>,
    log: &'a [u8],
) -> Result<(), AllocError> {
    trace.names.fill(alloc, plan)?;
    trace.late.fill(alloc, plan)?;
    trace.read(alloc, plan, log)
}

fn new_trace<'a>(
    alloc: Global,
    hasher: RandomState,
    count: usize,
) -> Result<Trace<'a>, AllocError> {
    let names = Names::new(alloc, hasher, count)?;
    let flights = Flights::new(alloc, count)?;
    Ok(Trace {
        names,
        binders: Binders::new(alloc),
        flights,
        late: LateDrivers::new(alloc, hasher),
        told: vec![in alloc; false; count]?,
        unplaced: Vec::new(alloc),
    })
}

/// A kernel's log as a schedule over a plan: each probe that the log tells of, of a device that its name places in the plan and that is
/// switched on there, up to the one that settles it. A probe that is put off, or that the driver rejects, ends as `abandon`; one that
/// ends with an error for good as `settled` where the driver fails by the plan, else as `abandon` behind a comment. What happens within
/// the probe of a device above stands behind the end of that one.
pub fn boot_schedule<'a>(
    alloc: Global,
    hasher: RandomState,
    plan: &Plan,
    log: &'a [u8],
) -> Result<Traced<'a>, AllocError> {
    let mut trace = new_trace(alloc, hasher, plan.len())?;
    read_trace(alloc, plan, &mut trace, log)?;
    let Trace {
        names: _,
        binders: _,
        flights,
        late: _,
        told: _,
        unplaced,
    } = trace;
    Ok(Traced {
        schedule: flights.into_text(),
        unplaced,
    })
}
