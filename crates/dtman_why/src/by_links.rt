//! Answers by the links of Linux.

use crate::answers::{Asked, BoardAnswer};
use crate::disabled::told_lost;
use crate::late::{LinkedBoard, boot_report};
use crate::late_waits::boot_why;
use crate::order_text::needs_text;
use crate::pictures::linked_picture;
use crate::reasons::BuiltIn;
use crate::rules::Rules;
use crate::waits::Waits;
use bus_links::{link, linked_text, read_link_drivers, warnings_text};
use bus_plan::plan_text;
use dt_blob::read;
use dtman_engine::Fault;
use std::alloc::Global;
use std::hash::RandomState;
use std::thread::Threads;

// A text that lists nothing.
fn alone(text: Vec<u8>) -> Waits {
    Waits { text, any: false }
}

fn answer<R: Threads + Sync>(
    rt: &R,
    alloc: Global,
    board: &LinkedBoard<'_, '_>,
    asked: Asked<'_>,
) -> Result<Waits, Fault> {
    let linked = board.linked;
    match asked {
        Asked::Plan => Ok(alone(linked_text(alloc, linked)?)),
        Asked::LatePlan => Ok(alone(plan_text(alloc, linked.late())?)),
        Asked::Picture(picture) => Ok(alone(linked_picture(rt, alloc, linked, picture)?)),
        Asked::Report(workers) => Ok(alone(boot_report(rt, alloc, board, workers)?)),
        Asked::Why(path) => boot_why(rt, alloc, board, path),
        Asked::Needs(path) => Ok(alone(needs_text(alloc, linked.plan(), path)?)),
    }
}

fn with_warnings<R: Threads + Sync>(
    rt: &R,
    alloc: Global,
    board: &LinkedBoard<'_, '_>,
    asked: Asked<'_>,
) -> Result<BoardAnswer, Fault> {
    let warnings = warnings_text(alloc, board.linked)?;
    let Waits { text, any } = answer(rt, alloc, board, asked)?;
    Ok(BoardAnswer {
        text,
        any,
        warnings,
    })
}

/// What is asked of the plan of a blob's tree by the links of Linux. The faults are those of `planned`, but for those of suppliers, which
/// are warnings here.
pub(crate) fn linked_answer<R: Threads + Sync>(
    rt: &R,
    alloc: Global,
    hasher: RandomState,
    blob: &[u8],
    drivers: &[u8],
    rules: Rules,
    asked: Asked<'_>,
) -> Result<BoardAnswer, Fault> {
    let tree = read(alloc, blob)?;
    let built_in = BuiltIn::of(drivers);
    let drivers = read_link_drivers(alloc, hasher, drivers)?;
    let linked = link(alloc, hasher, &tree, &drivers, rules.strictness)?;
    let lost = told_lost(alloc, hasher, &tree, rules.strictness, asked)?;
    let board = LinkedBoard {
        linked: &linked,
        built_in,
        timeout: rules.timeout,
        lost: lost.as_slice(),
    };
    with_warnings(rt, alloc, &board, asked)
}
