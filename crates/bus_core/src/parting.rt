//! What is asked of a core by whoever goes on from it in another way.

ghost use Rattle.std.specs.Prelude.{◌≡◌, ℕ, true, length};
ghost use Rattle.bus_core.specs.CoreState.{was_begun};
ghost use Rattle.bus_core.specs.History.{is_settled};
ghost use Rattle.bus_core.specs.Parting.{has_flight};

use crate::state::Core;
use bus_plan::Plan;

impl Core {
    /// Whether a flight is open.
    pub fn has_flight(&self) -> bool
        ensures { result ≡ has_flight self.now.state }
    {
        self.flights > 0
    }

    /// Costs nothing: tells a caller's proof that each settled device was begun.
    pub fn check_settled(&self)
        ensures { (d : ℕ) → is_settled self.now.state.history d ≡ true → was_begun self.now.state d ≡ true }
    {
        let _ = &self.phases;
    }

    /// Costs nothing: tells a caller's proof that each device has its place among the flights, and no other place is there.
    pub fn check_flights(&self)
        ensures { length self.now.state.flights ≡ length self.now.plan }
    {
        let _ = &self.phases;
    }

    /// The plan, with the drivers so far. All else that the core kept goes.
    pub fn into_plan(self) -> Plan
        ensures { result ≡ self.plan }
    {
        let Core {
            plan,
            phases: _,
            history: _,
            begins: _,
            missing: _,
            due: _,
            flights: _,
            registered: _,
        } = self;
        plan
    }
}
