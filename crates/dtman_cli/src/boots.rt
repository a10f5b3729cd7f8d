//! Commands about what Linux says of itself and of its boots: `drivers`, `trace`, `replay`.

use crate::performing::Answer;
use bus_manager::TableProber;
use dtman_engine::{Fault, replay_bytes, replay_run_bytes};
use dtman_host::{Failure, Given, Host, Inputs, Surroundings, file_of};
use dtman_why::{Boot, Installed, boot_bytes, installed_drivers};
use std::alloc::Global;
use std::hash::RandomState;
use std::thread::Threads;

/// The driver file of an installation. What it leaves out is told as warnings.
pub fn drivers_made<'a, S: Surroundings, E: Eprint, T>(
    host: &mut Host<'_, S, E, T>,
    aliases: &'a str,
    builtin: Option<&'a str>,
    kernel: Option<&'a str>,
) -> Result<Answer<'a>, Failure<'a>> {
    let aliases = host.text(aliases)?;
    let builtin = host.text_of(builtin)?;
    let image = host.image_of(kernel)?;
    let hasher = host.seed()?;
    let image = image.as_ref().map(|image| image.as_slice());
    match installed_drivers(
        host.alloc,
        hasher,
        aliases.as_slice(),
        builtin.as_slice(),
        image,
    ) {
        Ok(Installed { drivers, warnings }) => {
            host.warn(warnings.as_slice());
            Ok(Answer::Text(drivers))
        }
        Err(fault) => Err(Failure::Refused(fault)),
    }
}

/// The schedule of a log. What it leaves out is told as warnings.
pub fn traced<'a, S: Surroundings, E: Eprint, T>(
    host: &mut Host<'_, S, E, T>,
    log: &'a str,
    plan_path: &'a str,
) -> Result<Answer<'a>, Failure<'a>> {
    let log = host.text(log)?;
    let plan = host.text(plan_path)?;
    let hasher = host.seed()?;
    let plan = file_of(plan_path, &plan);
    match boot_bytes(host.alloc, hasher, log.as_slice(), plan.bytes) {
        Ok(Boot { schedule, warnings }) => {
            host.warn(warnings.as_slice());
            Ok(Answer::Text(schedule))
        }
        Err(fault) => {
            let schedule = Given {
                name: plan.name,
                bytes: b"".as_slice(),
            };
            let inputs = Inputs::Replay {
                plan,
                schedule,
                hasher,
            };
            Err(host.refusal(fault, inputs))
        }
    }
}

/// The report after a schedule's events or, where workers are asked for, the end report of the run that they go on with,
/// probed by the plan alone.
pub fn replayed<'a, S: Surroundings, E: Eprint, T: Threads + Sync>(
    host: &mut Host<'_, S, E, T>,
    plan_path: &'a str,
    schedule_path: &'a str,
    workers: Option<u8>,
) -> Result<Answer<'a>, Failure<'a>> {
    let plan = host.text(plan_path)?;
    let schedule = host.text(schedule_path)?;
    let hasher = host.seed()?;
    let (plan, schedule) = (file_of(plan_path, &plan), file_of(schedule_path, &schedule));
    match report_of(
        host.alloc,
        hasher,
        host.threads,
        plan.bytes,
        schedule.bytes,
        workers,
    ) {
        Ok(report) => Ok(Answer::Text(report)),
        Err(fault) => {
            let inputs = Inputs::Replay {
                plan,
                schedule,
                hasher,
            };
            Err(host.refusal(fault, inputs))
        }
    }
}

// The report of a replay, or of the run that goes on with it.
fn report_of<T: Threads + Sync>(
    alloc: Global,
    hasher: RandomState,
    threads: &T,
    plan: &[u8],
    schedule: &[u8],
    workers: Option<u8>,
) -> Result<Vec<u8>, Fault> {
    let Some(workers) = workers else {
        return replay_bytes(alloc, hasher, plan, schedule);
    };
    let ran = replay_run_bytes(
        threads,
        alloc,
        hasher,
        plan,
        schedule,
        &TableProber,
        workers as usize,
    );
    match ran {
        Ok(ran) => Ok(ran.report),
        Err(fault) => Err(fault),
    }
}
