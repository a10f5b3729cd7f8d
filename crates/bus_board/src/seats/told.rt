//! What a call of a seat tells its caller.

ghost use Rattle.std.specs.Prelude.{◌≡◌};
ghost use Rattle.bus_board.specs.Seats.Told.{done, refused, no_seat, is_occupied, is_shared, is_short, take_told, look_told, settle_told, step_told};

use bus_core::{Refusal, Reply};
use bus_plan::Device;

/// The call did what it is for.
const DONE: u32 = 0;

/// The buffer has too little room, and is as it was.
const SHORT: u32 = 1;

/// The board refuses the call.
const REFUSED: u32 = 2;

/// No device is left to take.
const NOTHING: u32 = 4;

/// The handle is empty.
const NO_SEAT: u32 = 5;

/// The handle that is to be filled isn't empty.
const OCCUPIED: u32 = 6;

/// Other seats of the board aren't given back.
const SHARED: u32 = 7;

/// The word of a device that bound.
const BOUND: u32 = 5;

/// The word of a device that failed.
const FAILED: u32 = 6;

/// How a call of a seat ended.
#[repr(C)]
#[derive(Clone, Copy)]
pub struct Told {
    pub status: u32,
    /// The refusal's number, what `look` found, the word by which `settle` ended the flight, or whether a closed board is quiet.
    pub number: u32,
    /// The device that was taken, or how many devices a closed board has.
    pub device: usize,
}

/// It is done.
pub(crate) fn done(number: u32, device: usize) -> Told
    ensures { result ≡ done number device }
{
    Told {
        status: DONE,
        number,
        device,
    }
}

fn ended(status: u32) -> Told
    ensures { result ≡ record { status = status; number = 0; device = 0 } }
{
    Told {
        status,
        number: 0,
        device: 0,
    }
}

/// So many words want room.
pub(crate) fn short(devices: usize) -> Told
    ensures { result ≡ is_short devices }
{
    Told {
        status: SHORT,
        number: 0,
        device: devices,
    }
}

/// The board refuses.
pub(crate) fn refused(refusal: Refusal) -> Told
    ensures { result ≡ refused refusal }
{
    Told {
        status: REFUSED,
        number: u32::from(refusal.number()),
        device: 0,
    }
}

/// The handle is empty.
pub(crate) fn no_seat() -> Told
    ensures { result ≡ no_seat }
{
    ended(NO_SEAT)
}

/// The handle isn't.
pub(crate) fn occupied() -> Told
    ensures { result ≡ is_occupied }
{
    ended(OCCUPIED)
}

/// There are other seats.
pub(crate) fn shared() -> Told
    ensures { result ≡ is_shared }
{
    ended(SHARED)
}

pub(crate) fn told_take(answer: Result<Option<Device>, Refusal>) -> Told
    ensures { result ≡ take_told answer }
{
    match answer {
        Ok(Some(device)) => done(0, device.index()),
        Ok(None) => ended(NOTHING),
        Err(refusal) => refused(refusal),
    }
}

pub(crate) fn told_look(answer: Result<bool, Refusal>) -> Told
    ensures { result ≡ look_told answer }
{
    match answer {
        Ok(true) => done(1, 0),
        Ok(false) => done(0, 0),
        Err(refusal) => refused(refusal),
    }
}

pub(crate) fn told_settle(answer: Result<Reply, Refusal>) -> Told
    ensures { result ≡ settle_told answer }
{
    match answer {
        Ok(Reply::Bound) => done(BOUND, 0),
        Ok(_) => done(FAILED, 0),
        Err(refusal) => refused(refusal),
    }
}

pub(crate) fn told_step(answer: Result<(), Refusal>) -> Told
    ensures { result ≡ step_told answer }
{
    match answer {
        Ok(()) => done(0, 0),
        Err(refusal) => refused(refusal),
    }
}
