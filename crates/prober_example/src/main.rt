//! A prober of one's own: its drivers read the identity register of each device.
#![tactic(auto)]

mod registers;

use bstr::ByteSlice;
use bus_manager::{Ran, run};
use bus_plan::{Plan, read_plan};
use registers::{Found, Registers};
use std::hash::RandomState;
use std::thread::Threads;
use std::{env, fs, io};

/// The words are a plan file, a file of registers, and how many workers probe at once.
fn main(rt: HostRuntime) -> io::Result<()> {
    let words: Vec<String> = env::args(&rt)?.collect(rt.alloc())?;
    let (Some(plan), Some(registers), Some(workers)) = (words.get(1), words.get(2), words.get(3))
    else {
        return Err(io::Error::from(io::ErrorKind::InvalidInput));
    };
    let Ok(workers) = workers.as_str().parse::<usize>() else {
        return Err(io::Error::from(io::ErrorKind::InvalidInput));
    };
    let plan = fs::read(&rt, plan.as_str())?;
    let registers = fs::read(&rt, registers.as_str())?;
    let hasher = RandomState::new(&rt)?;
    match read_plan(rt.alloc(), hasher, plan.as_slice()) {
        Ok(plan) => probed(&rt, &plan, &Registers::of(registers.as_slice()), workers),
        Err(refusal) => println!(rt; "error {} {}", refusal.number(), refusal.name()),
    }
}

fn probed<R: AllocGlobal + Print + Threads + Sync>(
    rt: &R,
    plan: &Plan,
    registers: &Registers<'_>,
    workers: usize,
) -> io::Result<()> {
    match run(rt, rt.alloc(), plan, registers, workers) {
        Ok(ran) => tell(rt, plan, &ran),
        Err(refusal) => println!(rt; "error {} {}", refusal.number(), refusal.name()),
    }
}

/// Prints the end report, and behind it what the drivers read.
fn tell<R: Print>(rt: &R, plan: &Plan, ran: &Ran<Found>) -> io::Result<()> {
    print!(rt; "{}", ran.report.as_slice().as_bstr())?;
    for found in ran.notes.iter().flatten() {
        told(rt, plan, found)?;
    }
    Ok(())
}

fn told<R: Print>(rt: &R, plan: &Plan, found: &Found) -> io::Result<()> {
    if found.device.index() >= plan.len() {
        return Ok(());
    }
    let path = plan.path(found.device).as_bytes().as_bstr();
    match found.identity {
        Some(identity) => println!(rt; "{path} answers {identity}"),
        None => println!(rt; "{path} doesn't answer"),
    }
}
