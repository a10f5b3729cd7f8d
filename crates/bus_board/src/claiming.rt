//! How a seat gets a device to probe.

ghost use Rattle.std.specs.Prelude.{◌≡◌, ◌<◌, true, false, None, length, IfOk, IfErr, IfSome, IfNone};
ghost use Rattle.bus_board.specs.Learns.{Claimed, NotTaken, Passed};
ghost use Rattle.bus_board.specs.Private.Standing.{IsIdle, StandsAt};
ghost use Rattle.bus_board.specs.Private.Tries.{HasTried};
ghost use Rattle.bus_board.specs.Shown.{IsOf};

use crate::board::{Board, Words};
use crate::flight::{Open, first_looks};
use crate::hints::Hints;
use crate::order::Claim;
use crate::seat::{Seat, Token};
use crate::words::{FRESH, RETRYING, TRYING, WOKEN};
use bus_core::Refusal;
use bus_plan::{Device, Plan};
use std::alloc::Global;

impl Board {
    /// Claims a device that is found FRESH or WOKEN and won: the first that a hint names, in plan order, else the first of
    /// all. It makes the room for the flight's looks and debts beforehand.
    pub fn take(&self, alloc: Global, seat: &mut Seat) -> Result<Option<Device>, Refusal>
        requires { IsOf self.now seat.old }
        ensures board { IsOf self.now seat.new }
        ensures idle { IfOk result (λ _. seat.old.view.flight ≡ None) }
        ensures claimed { IfOk result (λ r. IfSome r (λ d. Claimed seat.old.view seat.new.view d)) }
        ensures none { IfOk result (λ r. IfNone r (Passed seat.old.view seat.new.view)) }
        ensures err { IfErr result (λ refusal. (seat.new ≡ seat.old) × NotTaken seat.old.view refusal) }
    {
        if seat.flight.is_some() {
            return Err(Refusal::NotIdle);
        }
        let room = Vec::with_capacity(alloc, self.most_suppliers)?;
        seat.owed.reserve(self.plan.len())?;
        let Some(device) = claim(&self.table, &self.plan, &self.hints, &mut seat.token) else {
            return Ok(None);
        };
        let looks = first_looks(room, self.plan.suppliers(device));
        seat.flight = Some(Open {
            device,
            looks,
            next: 0,
        });
        Ok(Some(device))
    }

    /// Whether more than one device may be there to take. It is a hint: nothing is promised of it.
    pub fn has_spare(&self) -> bool {
        self.hints.has_two()
    }
}

// Tries where hints are, and then each device in turn.
fn claim(table: &Words, plan: &Plan, hints: &Hints, token: &mut Token) -> Option<Device>
    requires table { StandsAt plan.now table.now.shared.table_id table.now.shared.key token.old.table_id }
    requires seat { IsIdle plan.now token.old.me.0 }
    ensures same { (token.new.table_id ≡ token.old.table_id) × (token.new.me.1 ≡ token.old.me.1) }
    ensures claimed { IfSome result (λ d. Claimed token.old.me.0 token.new.me.0 d) }
    ensures none { IfNone result (Passed token.old.me.0 token.new.me.0) }
{
    if let Some(device) = claim_hinted(table, plan, hints, token) {
        return Some(device);
    }
    let Some(device) = claim_any(table, plan, token) else {
        return None;
    };
    hints.clear(device.index());
    Some(device)
}

// Tries where hints are, until a claim is won or no hint is left.
fn claim_hinted(table: &Words, plan: &Plan, hints: &Hints, token: &mut Token) -> Option<Device>
    requires table { StandsAt plan.now table.now.shared.table_id table.now.shared.key token.old.table_id }
    requires seat { IsIdle plan.now token.old.me.0 }
    ensures same { (token.new.table_id ≡ token.old.table_id) × (token.new.me.1 ≡ token.old.me.1) }
    ensures claimed { IfSome result (λ d. Claimed token.old.me.0 token.new.me.0 d) }
    ensures none { IfNone result (HasTried token.old.me.0 token.new.me.0) }
{
    for _hint in 0..plan.len() {
        let Some(index) = hints.take_first(plan.len()) else {
            return None;
        };
        if claim_found(table, plan, token, index) {
            return Some(Device::new(index));
        }
    }
    None
}

// Tries the device from the word that a load finds, and says whether the claim was won.
fn claim_found(table: &Words, plan: &Plan, token: &mut Token, index: usize) -> bool
    requires table { StandsAt plan.now table.now.shared.table_id table.now.shared.key token.old.table_id }
    requires seat { IsIdle plan.now token.old.me.0 }
    requires inside { index < length plan.now }
    ensures same { (token.new.table_id ≡ token.old.table_id) × (token.new.me.1 ≡ token.old.me.1) }
    ensures won { result ≡ true → Claimed token.old.me.0 token.new.me.0 index }
    ensures lost { result ≡ false → HasTried token.old.me.0 token.new.me.0 }
{
    let shared = &table.shared;
    let found = shared.peek(index);
    if found == FRESH {
        return shared.compare_exchange::<Claim>(token, index, FRESH, TRYING) == FRESH;
    }
    if found == WOKEN {
        return shared.compare_exchange::<Claim>(token, index, WOKEN, RETRYING) == WOKEN;
    }
    false
}

// Tries each device in turn, from FRESH and from WOKEN, until a claim is won.
fn claim_any(table: &Words, plan: &Plan, token: &mut Token) -> Option<Device>
    requires table { StandsAt plan.now table.now.shared.table_id table.now.shared.key token.old.table_id }
    requires seat { IsIdle plan.now token.old.me.0 }
    ensures same { (token.new.table_id ≡ token.old.table_id) × (token.new.me.1 ≡ token.old.me.1) }
    ensures claimed { IfSome result (λ d. Claimed token.old.me.0 token.new.me.0 d) }
    ensures none { IfNone result (Passed token.old.me.0 token.new.me.0) }
{
    let shared = &table.shared;
    for index in 0..plan.len() {
        if shared.compare_exchange::<Claim>(token, index, FRESH, TRYING) == FRESH {
            return Some(Device::new(index));
        }
        if shared.compare_exchange::<Claim>(token, index, WOKEN, RETRYING) == WOKEN {
            return Some(Device::new(index));
        }
    }
    None
}
