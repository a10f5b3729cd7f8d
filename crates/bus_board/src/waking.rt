//! How a seat pays its debts: each owed device is woken, where it waits with all suppliers bound.

ghost use Rattle.std.specs.Prelude.{◌≡◌, ◌<◌, ◌∷◌, ◌≤◌, ℕ, List, [], true, false, length};
ghost use Rattle.bus_plan.specs.Plan.{suppliers_of};
ghost use Rattle.bus_board.specs.Learns.{Paid};
ghost use Rattle.bus_board.specs.Private.Checks.{HasChecked};
ghost use Rattle.bus_board.specs.Private.Standing.{IsOpen, Owes, StandsAt};
ghost use Rattle.bus_board.specs.Shown.{IsOf};
ghost use Rattle.bus_board.specs.Views.{rest};

use crate::board::{Board, Words};
use crate::hints::Hints;
use crate::order::{Check, Wake};
use crate::seat::{Seat, Token};
use crate::words::{BOUND, WAITING, WOKEN};
use bus_plan::{Device, Plan};

impl Board {
    /// Pays each debt: where a supplier of the owed device isn't BOUND the debt drops, as whoever binds it owes the device
    /// again; else the device is woken by one try.
    pub fn wake_owed(&self, seat: &mut Seat)
        requires { IsOf self.now seat.old }
        ensures board { IsOf self.now seat.new }
        ensures paid { Paid seat.old.view seat.new.view [] }
    {
        wake_all(
            &self.table,
            &self.plan,
            &self.hints,
            &mut seat.token,
            &seat.owed,
        );
        seat.owed.clear();
    }
}

// Wakes each owed device.
fn wake_all(table: &Words, plan: &Plan, hints: &Hints, token: &mut Token, owed: &[Device])
    requires table { StandsAt plan.now table.now.shared.table_id table.now.shared.key token.old.table_id }
    requires seat { IsOpen plan.now token.old.me.0 }
    requires owed { Owes plan.now token.old.me.0 owed.now }
    ensures same { (token.new.table_id ≡ token.old.table_id) × (token.new.me.1 ≡ token.old.me.1) }
    ensures paid { Paid token.old.me.0 token.new.me.0 [] }
{
    for device in owed {
        wake_one(table, plan, hints, token, *device);
    }
}

// Checks the suppliers of the first owed device, and wakes it where each is BOUND. The debt drops. The checks begin where
// those of the last wake stopped, so that all wakes of a device together go over its suppliers twice at most.
fn wake_one(table: &Words, plan: &Plan, hints: &Hints, token: &mut Token, device: Device)
    requires table { StandsAt plan.now table.now.shared.table_id table.now.shared.key token.old.table_id }
    requires seat { IsOpen plan.now token.old.me.0 }
    requires owed { (device < length plan.now) × ((more : List ℕ) × (token.old.me.0.owed ≡ device ∷ more)) }
    ensures same { (token.new.table_id ≡ token.old.table_id) × (token.new.me.1 ≡ token.old.me.1) }
    ensures dropped { Paid token.old.me.0 token.new.me.0 (rest token.old.me.0.owed) }
{
    let count = plan.suppliers(device).len();
    let start = least(hints.lacking(device.index()), count);
    if drops(table, plan, hints, token, device, start, count) {
        return;
    }
    if drops(table, plan, hints, token, device, 0, start) {
        return;
    }
    let shared = &table.shared;
    if shared.compare_exchange::<Wake>(token, device.index(), WAITING, WOKEN) == WAITING {
        hints.set(device.index());
    }
}

// Checks the suppliers of the first owed device from one place to another, and says whether one isn't BOUND, so that the debt
// drops.
fn drops(
    table: &Words,
    plan: &Plan,
    hints: &Hints,
    token: &mut Token,
    device: Device,
    from: usize,
    to: usize,
) -> bool
    requires table { StandsAt plan.now table.now.shared.table_id table.now.shared.key token.old.table_id }
    requires seat { IsOpen plan.now token.old.me.0 }
    requires owed { (device < length plan.now) × ((more : List ℕ) × (token.old.me.0.owed ≡ device ∷ more)) }
    requires places { to ≤ length (suppliers_of plan.now device) }
    ensures same { (token.new.table_id ≡ token.old.table_id) × (token.new.me.1 ≡ token.old.me.1) }
    ensures dropped { result ≡ true → Paid token.old.me.0 token.new.me.0 (rest token.old.me.0.owed) }
    ensures bound { result ≡ false → HasChecked token.old.me.0 token.new.me.0 (suppliers_of plan.now device) from to }
{
    plan.check();
    let suppliers = plan.suppliers(device);
    for place in from..to {
        if table.shared.load::<Check>(token, suppliers[place].index()) != BOUND {
            hints.note_lacking(device.index(), place);
            return true;
        }
    }
    false
}

fn least(a: usize, b: usize) -> usize
    ensures { result ≤ b }
{
    if a < b { a } else { b }
}
