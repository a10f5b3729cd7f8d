ghost use Rattle.std.specs.Prelude.{◌≡◌};
ghost use Rattle.bus_manager.specs.RunError.{number_of, name_of};

use thiserror::Error;

/// Why a run is refused.
#[derive(Clone, Copy, Debug, PartialEq, Eq, Error)]
pub enum RunError {
    #[error("out of memory")]
    NoMemory,
    #[error("the workers are not from 1 to 64")]
    TooManyWorkers,
}

impl RunError {
    /// The number that the program prints.
    pub fn number(self) -> u8
        ensures { result ≡ number_of self }
    {
        match self {
            RunError::NoMemory => 0,
            RunError::TooManyWorkers => 70,
        }
    }

    /// The name that the program prints.
    pub fn name(self) -> &'static str
        ensures { result.now ≡ name_of self }
    {
        match self {
            RunError::NoMemory => "NoMemory",
            RunError::TooManyWorkers => "TooManyWorkers",
        }
    }
}
