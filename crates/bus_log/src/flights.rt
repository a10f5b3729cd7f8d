//! The flights of a boot, and the events that stand behind the end of another one.

use crate::node_name::{is_below, path_at};
use bus_plan::{Device, Plan, Verdict};
use std::alloc::{AllocError, Global};

/// A line of a schedule.
#[derive(Clone, Copy, Debug, PartialEq, Eq)]
pub enum Line {
    Begin,
    Settled,
    Abandon,
    /// The probe failed for good.
    Failed,
}

/// How far a device has come.
#[derive(Clone, Copy, Debug, PartialEq, Eq)]
enum Stage {
    /// No probe of it has ended.
    Untried,
    Ended,
    Settled,
}

#[derive(Clone, Copy, Debug)]
struct Event {
    line: Line,
    device: Device,
}

/// The devices that are probed, and the text of the schedule so far. Linux lets the driver of a bus make and probe the devices below
/// it before it is bound: what happens to those is held back until the bus has ended.
#[derive(Drop)]
pub struct Flights {
    open: Vec<Device>,
    held: Vec<Vec<Event>>,
    /// How far each device has come.
    stages: Vec<Stage>,
    text: Vec<u8>,
}

// A line of a path between two texts.
fn write_line(
    text: &mut Vec<u8>,
    front: &[u8],
    path: &[u8],
    back: &[u8],
) -> Result<(), AllocError> {
    text.extend_from_slice(front)?;
    text.extend_from_slice(path)?;
    text.extend_from_slice(back)
}

// A failed probe of a device that the bus would take to be bound is abandoned, and a comment says what the plan lacks.
fn write(text: &mut Vec<u8>, plan: &Plan, event: Event) -> Result<(), AllocError> {
    let path = path_at(plan, event.device);
    match event.line {
        Line::Begin => write_line(text, b"begin ", path, b"\n"),
        Line::Settled => write_line(text, b"finish ", path, b" settled\n"),
        Line::Abandon => write_line(text, b"abandon ", path, b"\n"),
        Line::Failed => {
            write_line(text, b"# fail ", path, b"\n")?;
            write_line(text, b"abandon ", path, b"\n")
        }
    }
}

// The line that ends a probe of a device: one that fails by the plan, too, settles.
fn ending(plan: &Plan, device: Device, line: Line) -> Line {
    let fails = device.index() < plan.len() && plan.verdict(device) == Verdict::Fails;
    if line == Line::Failed && fails {
        return Line::Settled;
    }
    line
}

// How a probe of a device ends by its line.
fn stage_of(line: Line) -> Stage {
    match line {
        Line::Settled => Stage::Settled,
        Line::Begin | Line::Abandon | Line::Failed => Stage::Ended,
    }
}

fn suppliers_at<'p>(plan: &'p Plan, device: Device) -> &'p [Device] {
    if device.index() >= plan.len() {
        return &[];
    }
    plan.suppliers(device)
}

impl Flights {
    /// None open, of so many devices.
    pub fn new(alloc: Global, count: usize) -> Result<Self, AllocError> {
        let mut held = Vec::with_capacity(alloc, count)?;
        for _ in 0..count {
            held.push(Vec::new(alloc))?;
        }
        Ok(Self {
            open: Vec::new(alloc),
            held,
            stages: vec![in alloc; Stage::Untried; count]?,
            text: Vec::new(alloc),
        })
    }

    /// Whether a device is probed.
    pub fn is_open(&self, device: Device) -> bool {
        self.open
            .iter()
            .any(|other| other.index() == device.index())
    }

    /// Whether a device has settled: the bus has no way back.
    pub fn is_settled(&self, device: Device) -> bool {
        matches!(self.stages.get(device.index()), Some(Stage::Settled))
    }

    // The last of the open flights of devices above this one.
    fn above(&self, plan: &Plan, device: Device) -> Option<Device> {
        let path = path_at(plan, device);
        let mut above = None;
        for other in &self.open {
            if is_below(path, path_at(plan, *other)) {
                above = Some(*other);
            }
        }
        above
    }

    // Writes an event, or holds it back.
    fn put(&mut self, plan: &Plan, event: Event) -> Result<(), AllocError> {
        if let Some(above) = self.above(plan, event.device) {
            if let Some(held) = self.held.get_mut(above.index()) {
                held.push(event)?;
                return Ok(());
            }
        }
        write(&mut self.text, plan, event)
    }

    // Takes the events out that stand behind a device's end.
    fn let_go(&mut self, alloc: Global, device: Device) -> Vec<Event> {
        let none = Vec::new(alloc);
        match self.held.get_mut(device.index()) {
            Some(held) => std::mem::replace(held, none),
            None => none,
        }
    }

    /// A probe begins.
    pub fn begin(&mut self, plan: &Plan, device: Device) -> Result<(), AllocError> {
        let line = Line::Begin;
        self.put(plan, Event { line, device })?;
        self.open.push(device)?;
        Ok(())
    }

    /// A probe ends so; what was held back for it follows.
    pub fn end(
        &mut self,
        alloc: Global,
        plan: &Plan,
        device: Device,
        line: Line,
    ) -> Result<(), AllocError> {
        self.open.retain(|other| other.index() != device.index());
        let line = ending(plan, device, line);
        self.put(plan, Event { line, device })?;
        self.follow(alloc, plan, device, line)
    }

    // What was held back for a device's end by this line follows.
    fn follow(
        &mut self,
        alloc: Global,
        plan: &Plan,
        device: Device,
        line: Line,
    ) -> Result<(), AllocError> {
        if let Some(stage) = self.stages.get_mut(device.index()) {
            *stage = stage_of(line);
        }
        let held = self.let_go(alloc, device);
        for event in &held {
            self.put(plan, *event)?;
        }
        Ok(())
    }

    // The bus that a device waits for, where no probe of it has ended.
    fn awaited(&self, plan: &Plan, device: Device) -> Option<Device> {
        let path = path_at(plan, device);
        for supplier in suppliers_at(plan, device) {
            let is_awaited = matches!(self.stages.get(supplier.index()), Some(Stage::Untried));
            if is_awaited && is_below(path, path_at(plan, *supplier)) {
                return Some(*supplier);
            }
        }
        None
    }

    // Writes an event of a probe of which the log tells only the end: it stands behind the end of the bus that the device waits for.
    fn put_late(&mut self, plan: &Plan, event: Event) -> Result<(), AllocError> {
        if let Some(bus) = self.awaited(plan, event.device) {
            if let Some(held) = self.held.get_mut(bus.index()) {
                held.push(event)?;
                return Ok(());
            }
        }
        self.put(plan, event)
    }

    /// A probe has begun and ended.
    pub fn pass(
        &mut self,
        alloc: Global,
        plan: &Plan,
        device: Device,
        line: Line,
    ) -> Result<(), AllocError> {
        let begin = Line::Begin;
        self.put_late(
            plan,
            Event {
                line: begin,
                device,
            },
        )?;
        let line = ending(plan, device, line);
        self.put_late(plan, Event { line, device })?;
        self.follow(alloc, plan, device, line)
    }

    /// The text of the schedule so far, for a line that stands before what is held back.
    pub fn text_mut(&mut self) -> &mut Vec<u8> {
        &mut self.text
    }

    /// Writes what is held back still.
    pub fn finish(&mut self, alloc: Global, plan: &Plan) -> Result<(), AllocError> {
        for place in 0..plan.len() {
            let held = self.let_go(alloc, Device::new(place));
            for event in &held {
                write(&mut self.text, plan, *event)?;
            }
        }
        Ok(())
    }

    /// The text of the schedule.
    pub fn into_text(self) -> Vec<u8> {
        self.text
    }
}
