ghost use Rattle.std.specs.Prelude.{◌≡◌};
ghost use Rattle.bus_core.specs.Refusal.{number_of, name_of};
ghost use Rattle.bus_core.specs.declared.refusal.Refusal.TheVariants.{NoMemory};

use std::alloc::{AllocError, AllocFailed};
use thiserror::Error;

/// Why the core refuses a call.
#[derive(Clone, Copy, Debug, PartialEq, Eq, Error)]
pub enum Refusal {
    #[error("out of memory")]
    NoMemory,
    #[error("the device is in flight or has settled")]
    NotIdle,
    #[error("the device has no driver, or isn't available")]
    Unmatched,
    #[error("the ticket's flight is gone")]
    StaleTicket,
    #[error("a supplier isn't bound")]
    NotReady,
    #[error("the device named is no supplier, or was bound when the flight began")]
    WasBound,
    #[error("500,000 flights have begun")]
    TooManyEvents,
    #[error("the device isn't in flight")]
    NotInFlight,
    #[error("a driver of this name is known")]
    KnownDriver,
}

impl Refusal {
    /// The number that the program prints.
    pub fn number(self) -> u8
        ensures { result ≡ number_of self }
    {
        match self {
            Refusal::NoMemory => 0,
            Refusal::NotIdle => 60,
            Refusal::Unmatched => 61,
            Refusal::StaleTicket => 62,
            Refusal::NotReady => 63,
            Refusal::WasBound => 64,
            Refusal::TooManyEvents => 65,
            Refusal::NotInFlight => 66,
            Refusal::KnownDriver => 67,
        }
    }

    /// The name that the program prints.
    pub fn name(self) -> &'static str
        ensures { result.now ≡ name_of self }
    {
        match self {
            Refusal::NoMemory => "NoMemory",
            Refusal::NotIdle => "NotIdle",
            Refusal::Unmatched => "Unmatched",
            Refusal::StaleTicket => "StaleTicket",
            Refusal::NotReady => "NotReady",
            Refusal::WasBound => "WasBound",
            Refusal::TooManyEvents => "TooManyEvents",
            Refusal::NotInFlight => "NotInFlight",
            Refusal::KnownDriver => "KnownDriver",
        }
    }
}

impl From<AllocError> for Refusal {
    ghost from_gives = { λ _ refusal. refusal ≡ NoMemory };

    fn from(_error: AllocError) -> Refusal {
        Refusal::NoMemory
    }
}

impl<T: Drop> From<AllocFailed<T>> for Refusal {
    ghost from_gives = { λ _ refusal. refusal ≡ NoMemory };

    fn from(_error: AllocFailed<T>) -> Refusal {
        Refusal::NoMemory
    }
}
