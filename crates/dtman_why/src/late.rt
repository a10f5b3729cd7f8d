//! A board whose boot has a timeout: what is bound when it ends, and what behind it.

use crate::chain_text::{add_driver, add_path};
use crate::end::{End, ended};
use crate::reasons::BuiltIn;
use crate::rules::Timeout;
use bus_links::{Link, Linked};
use bus_picture::why::end_cause;
use bus_plan::{Device, Plan, lines_of};
use dtman_engine::Fault;
use std::alloc::{AllocError, Global};
use std::thread::Threads;

/// A board by the links of Linux: whether its driver file has built-in drivers, when Linux waits no longer, and by which entries devices
/// name disabled ones, where that is told.
#[derive(Clone, Copy)]
pub(crate) struct LinkedBoard<'b, 't> {
    pub linked: &'b Linked<'t>,
    pub built_in: BuiltIn,
    pub timeout: Timeout,
    pub lost: &'b [Link<'t>],
}

/// Which devices of a plan by links are bound when the timeout ends, the plan that is left behind it, which are bound by that one, and how
/// it is told that one waits until then. Without a timeout both are the same.
#[derive(Clone, Copy)]
pub(crate) struct Boot<'b, 't> {
    pub board: &'b LinkedBoard<'b, 't>,
    pub before: &'b [bool],
    pub last: &'b Plan,
    pub behind: &'b [bool],
    pub until: &'b [u8],
}

/// How it is told that a device waits until the timeout ends.
pub(crate) fn until_text(alloc: Global, seconds: u32) -> Result<Vec<u8>, AllocError> {
    let text = format!(in alloc; " (until the timeout: {seconds} s)")?;
    Ok(text.into_bytes())
}

fn waits(plan: &Plan, bound: &[bool], device: Device) -> bool {
    if device.index() >= plan.len() {
        return false;
    }
    end_cause(plan, bound, device).is_none()
}

impl Boot<'_, '_> {
    /// Whether a device waits until the timeout ends, and no longer.
    pub fn is_released(&self, device: Device) -> bool {
        waits(self.board.linked.plan(), self.before, device)
            && !waits(self.last, self.behind, device)
    }

    /// Whether a device is bound in the end.
    pub fn is_bound(&self, device: Device) -> bool {
        match self.behind.get(device.index()) {
            Some(is_bound) => *is_bound,
            None => false,
        }
    }

    /// Puts what becomes of a device that is released behind a text: `bound behind the timeout by DRIVER`.
    pub fn add_turn(&self, text: &mut Vec<u8>, device: Device) -> Result<(), AllocError> {
        let state = if self.is_bound(device) {
            b"bound".as_slice()
        } else {
            b"failed".as_slice()
        };
        text.extend_from_slice(state)?;
        text.extend_from_slice(b" behind the timeout by ")?;
        add_driver(text, self.last, device)
    }

    // A device's line, of those that both reports have for it.
    fn add_line(
        &self,
        text: &mut Vec<u8>,
        device: Device,
        before: &[u8],
        behind: &[u8],
    ) -> Result<(), AllocError> {
        if self.board.linked.is_absent(device) {
            add_path(text, self.board.linked.plan(), device)?;
            text.extend_from_slice(b" no-device")?;
        } else if self.is_released(device) {
            text.extend_from_slice(before)?;
            text.extend_from_slice(self.until)?;
        } else {
            text.extend_from_slice(behind)?;
        }
        text.push(b'\n')?;
        Ok(())
    }

    fn add_lines(
        &self,
        text: &mut Vec<u8>,
        before: &[u8],
        behind: &[u8],
    ) -> Result<(), AllocError> {
        let mut before = lines_of(before);
        let mut behind = lines_of(behind);
        for place in 0..self.board.linked.plan().len() {
            if let (Some(before), Some(behind)) = (before.next(), behind.next()) {
                self.add_line(text, Device::new(place), before, behind)?;
            }
        }
        Ok(())
    }

    // A line for each device that is released.
    fn add_turns(&self, text: &mut Vec<u8>) -> Result<(), AllocError> {
        for place in 0..self.board.linked.plan().len() {
            let device = Device::new(place);
            if self.is_released(device) {
                add_path(text, self.board.linked.plan(), device)?;
                text.push(b' ')?;
                self.add_turn(text, device)?;
                text.push(b'\n')?;
            }
        }
        Ok(())
    }

    // The report of both ends.
    fn report(&self, alloc: Global, before: &[u8], behind: &[u8]) -> Result<Vec<u8>, AllocError> {
        let mut text = Vec::new(alloc);
        self.add_lines(&mut text, before, behind)?;
        self.add_turns(&mut text)?;
        self.add_lost(alloc, &mut text, b" ", None)?;
        text.extend_from_slice(b"quiet\n")?;
        Ok(text)
    }
}

// The report of a boot with these ends.
fn report_of(
    alloc: Global,
    board: &LinkedBoard<'_, '_>,
    before: &End,
    last: &Plan,
    behind: &End,
    until: &[u8],
) -> Result<Vec<u8>, AllocError> {
    let boot = Boot {
        board,
        before: before.bound.as_slice(),
        last,
        behind: behind.bound.as_slice(),
        until,
    };
    boot.report(alloc, before.report.as_slice(), behind.report.as_slice())
}

fn late_report<R: Threads + Sync>(
    rt: &R,
    alloc: Global,
    board: &LinkedBoard<'_, '_>,
    workers: usize,
    before: &End,
    seconds: u32,
) -> Result<Vec<u8>, Fault> {
    let until = until_text(alloc, seconds)?;
    let last = board.linked.late();
    match ended(rt, alloc, last, workers) {
        Ok(behind) => Ok(report_of(alloc, board, before, last, &behind, until.as_slice())?),
        Err(fault) => Err(fault),
    }
}

/// The end report of a plan by links: a line for each device as it is when the timeout ends, or where it waits on, behind it; and a line
/// for each that is bound behind it, or fails.
pub(crate) fn boot_report<R: Threads + Sync>(
    rt: &R,
    alloc: Global,
    board: &LinkedBoard<'_, '_>,
    workers: usize,
) -> Result<Vec<u8>, Fault> {
    let plan = board.linked.plan();
    let before = ended(rt, alloc, plan, workers)?;
    match board.timeout {
        Timeout::Never => Ok(report_of(alloc, board, &before, plan, &before, b"")?),
        Timeout::Seconds(seconds) => late_report(rt, alloc, board, workers, &before, seconds),
    }
}
