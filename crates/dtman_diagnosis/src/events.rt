//! Refusals of events.

use crate::blobs::of_file;
use crate::bus_lines::{Line, Word, first_about, first_word, head_of, is_blank, line_of_event};
use crate::bus_texts::{BusText, Devices, location_in, marked_by};
use crate::diagnosis::{Diagnosis, Location, Note, copied};
use std::alloc::{AllocError, Global};

/// Which word of a device's line in a plan is its first supplier.
const FIRST_SUPPLIER: usize = 3;

/// How many suppliers of a device are looked at.
const MOST_SUPPLIERS: usize = 256;

/// The lines of a schedule before an event, by its number from 1.
pub fn before_event(schedule: &[u8], event: usize) -> &[u8] {
    match line_of_event(schedule, event) {
        Some(line) => schedule.get(..line.start).unwrap_or(schedule),
        None => schedule,
    }
}

/// What is refused of an event of a schedule, by its number from 1; the report is that of the lines before it.
pub fn diagnose_event(
    alloc: Global,
    schedule: BusText<'_>,
    event: usize,
    report: &[u8],
    number: u8,
) -> Result<Diagnosis, AllocError> {
    let Some(line) = line_of_event(schedule.bytes, event) else {
        return of_file(alloc, schedule.file, number);
    };
    let mut diagnosis = schedule.of_line(alloc, line, number)?;
    if let Some(stands) = report_of(report, device_of(line.text)) {
        diagnosis.notes.push(Note::Stands(copied(alloc, stands)?))?;
    }
    if number == 67 {
        schedule.add_known_driver(alloc, &mut diagnosis.notes, line)?;
    }
    if number == 63 {
        schedule.add_needs(alloc, &mut diagnosis.notes, report, device_of(line.text))?;
    }
    Ok(diagnosis)
}

impl<'a> BusText<'a> {
    // A driver that is there: in a line before, or in the plan.
    fn add_known_driver(
        &self,
        alloc: Global,
        notes: &mut Vec<Note>,
        line: Line<'a>,
    ) -> Result<(), AllocError> {
        let Some(head) = head_of(line) else {
            return Ok(());
        };
        let name = head.name.text;
        if let Some(earlier) = first_about(self.bytes, b"driver", name, line.number) {
            let there = self.location(alloc, earlier.line, marked_by(earlier.head.name))?;
            notes.push(Note::Earlier(there))?;
            return Ok(());
        }
        if let Devices::Plan { file, bytes } = self.devices {
            if let Some(there) = driver_in_plan(alloc, file, bytes, name)? {
                notes.push(Note::Earlier(there))?;
            }
        }
        Ok(())
    }
}

impl BusText<'_> {
    // The suppliers of a device that aren't bound, as the report has them.
    fn add_needs(
        &self,
        alloc: Global,
        notes: &mut Vec<Note>,
        report: &[u8],
        device: &[u8],
    ) -> Result<(), AllocError> {
        let Devices::Plan { bytes, .. } = self.devices else {
            return Ok(());
        };
        let Some(line) = line_of_device(bytes, device) else {
            return Ok(());
        };
        for supplier in line
            .words(alloc)?
            .iter()
            .skip(FIRST_SUPPLIER)
            .take(MOST_SUPPLIERS)
        {
            if let Some(unbound) = report_of(report, supplier.text).filter(|it| !is_bound(it)) {
                let (device, supplier) = (copied(alloc, device)?, copied(alloc, unbound)?);
                notes.push(Note::Needs { device, supplier })?;
            }
        }
        Ok(())
    }
}

// The line of a plan that a device has.
fn line_of_device<'a>(plan: &'a [u8], device: &[u8]) -> Option<Line<'a>> {
    let mut line = Line::from(plan, 0, 1);
    for _ in 0..plan.len() {
        if first_word(line.text).is_some_and(|word| word.text == device) {
            return Some(line);
        }
        if line.behind() >= plan.len() {
            return None;
        }
        line = Line::from(plan, line.behind(), line.number.saturating_add(1));
    }
    None
}

// Whether a line of a report tells a device that is bound.
fn is_bound(line: &[u8]) -> bool {
    line.split(|b| *b == b' ').nth(1) == Some(b"bound".as_slice())
}

// Where a plan names a driver first.
fn driver_in_plan(
    alloc: Global,
    file: &[u8],
    plan: &[u8],
    name: &[u8],
) -> Result<Option<Location>, AllocError> {
    let mut line = Line::from(plan, 0, 1);
    for _ in 0..plan.len() {
        if let Some(word) = driver_of(line) {
            if word.text == name {
                return Ok(Some(location_in(alloc, file, line, marked_by(word))?));
            }
        }
        if line.behind() >= plan.len() {
            return Ok(None);
        }
        line = Line::from(plan, line.behind(), line.number.saturating_add(1));
    }
    Ok(None)
}

// The second word of a device's line.
fn driver_of<'a>(line: Line<'a>) -> Option<Word<'a>> {
    let path = first_word(line.text)?;
    if path.text.first().copied() != Some(b'/') {
        return None;
    }
    let behind = path.end();
    let driver = first_word(line.text.get(behind..)?)?;
    Some(Word {
        start: driver.start.saturating_add(behind),
        text: driver.text,
    })
}

// The second field of an event.
fn device_of(line: &[u8]) -> &[u8] {
    let begin = line.iter().position(|b| *b == b'/').unwrap_or(line.len());
    let path = line.get(begin..).unwrap_or(&[]);
    let end = path
        .iter()
        .position(|b| is_blank(*b) || *b == b'\r')
        .unwrap_or(path.len());
    path.get(..end).unwrap_or(path)
}

// The line of a device in a report.
fn report_of<'a>(report: &'a [u8], device: &[u8]) -> Option<&'a [u8]> {
    if device.is_empty() {
        return None;
    }
    let mut start = 0;
    for number in 1..report.len().saturating_add(1) {
        let line = Line::from(report, start, number);
        if let Some(rest) = line.text.get(device.len()..) {
            if line.text.starts_with(device) && rest.starts_with(b" ".as_slice()) {
                return Some(line.text);
            }
        }
        start = line.behind();
        if start >= report.len() {
            return None;
        }
    }
    None
}
