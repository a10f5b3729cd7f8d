//! The words of the devices.

ghost use Rattle.std.specs.Prelude.{◌≡◌};
ghost use Rattle.bus_board.specs.Words.{word_of, number_of, end_word};

use bus_core::Outcome;

pub const FRESH: u64 = 0;

pub const TRYING: u64 = 1;

pub const WAITING: u64 = 2;

pub const WOKEN: u64 = 3;

pub const RETRYING: u64 = 4;

pub const BOUND: u64 = 5;

pub const FAILED: u64 = 6;

pub const UNMATCHED: u64 = 7;

/// How far a device has come.
#[derive(Clone, Copy, Debug, PartialEq, Eq)]
pub enum Word {
    /// It was never tried.
    Fresh,
    /// It is in its first flight.
    Trying,
    /// It was deferred.
    Waiting,
    /// It was deferred, and its suppliers are bound.
    Woken,
    /// It is in its second flight.
    Retrying,
    Bound,
    Failed,
    /// It isn't available, or has no driver.
    Unmatched,
}

impl Word {
    /// The word of this number.
    pub(crate) fn of(number: u64) -> Self
        ensures { result ≡ word_of number }
    {
        match number {
            FRESH => Word::Fresh,
            TRYING => Word::Trying,
            WAITING => Word::Waiting,
            WOKEN => Word::Woken,
            RETRYING => Word::Retrying,
            BOUND => Word::Bound,
            FAILED => Word::Failed,
            _ => Word::Unmatched,
        }
    }

    /// Its number in the board's table.
    pub fn number(self) -> u64
        ensures { result ≡ number_of self }
    {
        match self {
            Word::Fresh => FRESH,
            Word::Trying => TRYING,
            Word::Waiting => WAITING,
            Word::Woken => WOKEN,
            Word::Retrying => RETRYING,
            Word::Bound => BOUND,
            Word::Failed => FAILED,
            Word::Unmatched => UNMATCHED,
        }
    }
}

/// The word of a settled device.
pub fn end_word(outcome: Outcome) -> u64
    ensures { result ≡ end_word outcome }
{
    match outcome {
        Outcome::Bound => BOUND,
        Outcome::Failed => FAILED,
    }
}
