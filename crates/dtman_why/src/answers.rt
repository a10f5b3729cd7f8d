//! Answers about a board, by the table of suppliers or by the links of Linux.

use crate::by_links::linked_answer;
use crate::order_text::needs_text;
use crate::pictures::{Picture, planned_picture};
use crate::reasons::{BuiltIn, NoReasons};
use crate::rules::Rules;
use crate::waits::why_text;
use bus_manager::TableProber;
use dtman_engine::{Fault, plan_bytes, planned, probe_bytes};
use std::alloc::Global;
use std::hash::RandomState;
use std::thread::Threads;

/// What is asked of a board's plan.
#[derive(Clone, Copy, Debug)]
pub enum Asked<'a> {
    /// Its text.
    Plan,
    /// Its text as the end of Linux's timeout leaves it; without links it is the same.
    LatePlan,
    /// A picture of it.
    Picture(Picture<'a>),
    /// The end report of a run by so many workers.
    Report(usize),
    /// Why the device at a path waits, or why each does.
    Why(Option<&'a [u8]>),
    /// What the device at a path needs.
    Needs(&'a [u8]),
}

/// The text that was asked for, whether it lists a device that isn't bound, and the warnings of the links.
#[derive(Drop)]
pub struct BoardAnswer {
    pub text: Vec<u8>,
    pub any: bool,
    pub warnings: Vec<u8>,
}

impl BoardAnswer {
    /// A text that lists nothing, without warnings.
    pub(crate) fn plain(alloc: Global, text: Vec<u8>) -> BoardAnswer {
        BoardAnswer {
            text,
            any: false,
            warnings: Vec::new(alloc),
        }
    }
}

/// What is asked of the plan of a blob's tree: by the links of Linux, by these rules, or else by the table of suppliers.
/// The faults are those of `planned`; by the links those of suppliers are warnings.
pub fn board_answer<R: Threads + Sync>(
    rt: &R,
    alloc: Global,
    hasher: RandomState,
    blob: &[u8],
    drivers: &[u8],
    links: Option<Rules>,
    asked: Asked<'_>,
) -> Result<BoardAnswer, Fault> {
    match links {
        Some(rules) => linked_answer(rt, alloc, hasher, blob, drivers, rules, asked),
        None => planned_answer(rt, alloc, hasher, blob, drivers, asked),
    }
}

fn planned_answer<R: Threads + Sync>(
    rt: &R,
    alloc: Global,
    hasher: RandomState,
    blob: &[u8],
    drivers: &[u8],
    asked: Asked<'_>,
) -> Result<BoardAnswer, Fault> {
    let text = match asked {
        Asked::Plan | Asked::LatePlan => plan_bytes(alloc, hasher, blob, drivers)?,
        Asked::Picture(picture) => {
            let plan = planned(alloc, hasher, blob, drivers)?;
            planned_picture(rt, alloc, &plan, picture)?
        }
        Asked::Report(workers) => {
            probe_bytes(rt, alloc, hasher, blob, drivers, &TableProber, workers)?.report
        }
        Asked::Needs(path) => {
            let plan = planned(alloc, hasher, blob, drivers)?;
            needs_text(alloc, &plan, path)?
        }
        Asked::Why(path) => return waits_answer(rt, alloc, hasher, blob, drivers, path),
    };
    Ok(BoardAnswer::plain(alloc, text))
}

fn waits_answer<R: Threads + Sync>(
    rt: &R,
    alloc: Global,
    hasher: RandomState,
    blob: &[u8],
    drivers: &[u8],
    path: Option<&[u8]>,
) -> Result<BoardAnswer, Fault> {
    let plan = planned(alloc, hasher, blob, drivers)?;
    let built_in = BuiltIn::of(drivers);
    let waits = why_text(rt, alloc, &plan, &NoReasons, built_in, path)?;
    Ok(BoardAnswer {
        text: waits.text,
        any: waits.any,
        warnings: Vec::new(alloc),
    })
}
