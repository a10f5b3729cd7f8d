ghost use Rattle.std.specs.Prelude.{◌≡◌, ◌⊎◌, IfOk, IfErr, MatchResult, Some, None};
ghost use Rattle.bus_plan.specs.Plan.{is_driver_name};
ghost use Rattle.bus_plan.specs.declared.error.PlanError.TheVariants.{NoMemory, BadLine};

use crate::error::PlanError;
use crate::verdict::Verdict;
use dt_tree::{Name, is_name};
use std::alloc::Global;

/// What the second and the third field of a plan file's line say.
#[derive(Drop)]
pub struct Matching {
    pub available: bool,
    pub driver: Option<Name>,
    pub verdict: Verdict,
}

/// Whether it is the name of a driver: any but `-`.
pub fn is_driver_name(bytes: &[u8]) -> bool
    ensures { result ≡ is_driver_name bytes.now }
{
    is_name(bytes) && bytes != b"-".as_slice()
}

impl Matching {
    ghost use Rattle.bus_plan.specs.PlanFile.{matching_of, driven, undriven};

    fn driven(alloc: Global, driver: &[u8], verdict: Verdict) -> Result<Option<Self>, PlanError>
        ensures { MatchResult result (λ m. m ≡ driven driver.now verdict) (λ e. e ≡ NoMemory) }
    {
        if !is_driver_name(driver) {
            return Ok(None);
        }
        let Ok(name) = Name::new(alloc, driver) else {
            return Err(PlanError::NoMemory);
        };
        Ok(Some(Self {
            available: true,
            driver: Some(name),
            verdict,
        }))
    }

    fn undriven(driver: &[u8]) -> Option<Self>
        ensures { result ≡ undriven driver.now }
    {
        let available = match driver {
            b"-" => true,
            b"!" => false,
            _ => return None,
        };
        Some(Self {
            available,
            driver: None,
            verdict: Verdict::Binds,
        })
    }

    /// What the two fields of a line say.
    pub fn of(alloc: Global, number: usize, driver: &[u8], word: &[u8]) -> Result<Self, PlanError>
        ensures ok { IfOk result (λ m. matching_of driver.now word.now ≡ Some m) }
        ensures err { IfErr result (λ e. (e ≡ NoMemory)
            ⊎ ((e ≡ BadLine number) × (matching_of driver.now word.now ≡ None))) }
    {
        let found = match word {
            b"ok" => Self::driven(alloc, driver, Verdict::Binds)?,
            b"fail" => Self::driven(alloc, driver, Verdict::Fails)?,
            b"-" => Self::undriven(driver),
            _ => None,
        };
        found.ok_or(PlanError::BadLine(number))
    }
}
