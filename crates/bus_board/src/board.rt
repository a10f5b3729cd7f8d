//! A board and its first seats.

ghost use Rattle.std.specs.Prelude.{◌≡◌, ◌≤◌, ℕ, [], false, length, vec_capacity, IfOk, IfErr, OnOk};
ghost use Rattle.bus_plan.specs.Plan.{suppliers_of};
ghost use Rattle.bus_core.specs.CoreState.{first_core};
ghost use Rattle.bus_core.specs.Parting.{has_flight};
ghost use Rattle.bus_core.specs.declared.refusal.Refusal.TheVariants.{NoMemory};
ghost use Rattle.bus_board.specs.Learns.{IsOpenedOn};
ghost use Rattle.bus_board.specs.Opening.{NotOpened};
ghost use Rattle.bus_board.specs.Private.Standing.{IsFirstTable};
ghost use Rattle.bus_board.specs.Rule.{OpensAs};
ghost use Rattle.bus_board.specs.Shown.{IsOf};
ghost use Rattle.bus_board.specs.Views.{newcomer, lender};

use crate::hints::Hints;
use crate::opening::first_words;
use crate::order::{Further, Order};
use crate::seat::{Seat, Token};
use crate::view::View;
use crate::words::Word;
use atomic_table::Table;
use bus_core::{Core, Refusal};
use bus_plan::{Device, Plan};
use std::alloc::{AllocError, Global};
use std::marker::Model;

/// The words of a board, one a device.
pub type Words = Table<(), View, Core, Order, Global>;

/// A plan, and a word for each of its devices that any number of seats step on at once. No call of it waits.
#[derive(Drop)]
pub struct Board {
    pub(crate) table: Words,
    pub(crate) plan: Plan,
    pub(crate) hints: Hints,
    /// No device has more suppliers.
    pub(crate) most_suppliers: usize,
    /// For the words at the end.
    pub(crate) room: Vec<Word>,
}

impl Model for Board {
    ghost use Rattle.std.specs.Prelude.{◌≡◌, ◌≤◌, ◌+◌, ℕ, [], length, vec_capacity};
    ghost use Rattle.bus_plan.specs.Plan.{suppliers_of};
    ghost use Rattle.bus_board.specs.Shown.{Posted};

    ghost Value = { Posted };

    ghost view = { λ b. record { table = b.table.shared.table_id; plan = b.plan } };

    ghost invariant = { λ b.
        (b.table.shared.key.plan ≡ b.plan)
        × (b.table.shared.table_id.words ≡ length b.plan + 1)
        × (b.table.shared.table_id.slots ≡ 0)
        × (b.room.items ≡ [])
        × (length b.plan ≤ vec_capacity b.room)
        × ((d : ℕ) → length (suppliers_of b.plan d) ≤ b.most_suppliers) };
}

impl Board {
    /// A board on which nothing was begun, and its first seat.
    pub fn open(alloc: Global, plan: Plan) -> Result<(Board, Seat), Refusal>
        ensures opened { IfOk result (λ r. IsOpenedOn (first_core plan) r.0 r.1) }
        ensures words { IfOk result (λ r. OpensAs (first_core plan) r.1.view) }
        ensures err { IfErr result (λ refusal. refusal ≡ NoMemory) }
    {
        open_plan(alloc, plan)
    }

    /// A board that goes on from a core with no open flight, and its first seat, which has seen what settled there. The same
    /// core comes back from a refusal.
    pub fn open_core(alloc: Global, core: Core) -> Result<(Board, Seat), (Core, Refusal)>
        ensures landed { OnOk result (has_flight core.state ≡ false) }
        ensures opened { IfOk result (λ r. IsOpenedOn core r.0 r.1) }
        ensures words { IfOk result (λ r. OpensAs core r.1.view) }
        ensures err { IfErr result (λ r. (r.0 ≡ core) × NotOpened core.state r.1) }
    {
        if core.has_flight() {
            return Err((core, Refusal::NotIdle));
        }
        match start(alloc, core) {
            Ok(started) => Ok(started),
            Err(core) => Err((core, Refusal::NoMemory)),
        }
    }

    /// A further seat, which has seen what the given one has, and half of its share of the board.
    pub fn seat(&self, alloc: Global, seat: &mut Seat) -> Result<Seat, Refusal>
        requires { IsOf self.now seat.old }
        ensures board { IsOf self.now seat.new }
        ensures new { IfOk result (λ r. IsOf self.now r × (r.view ≡ newcomer seat.old.view)) }
        ensures left { OnOk result (seat.new.view ≡ lender seat.old.view) }
        ensures err { IfErr result (λ refusal. (seat.new ≡ seat.old) × (refusal ≡ NoMemory)) }
    {
        let owed = Vec::with_capacity(alloc, self.plan.len())?;
        let token = self.table.shared.split_seat::<Further>(&mut seat.token);
        Ok(Seat {
            token,
            flight: None,
            owed,
        })
    }
}

// A board over a core of the plan on which nothing was begun.
fn open_plan(alloc: Global, plan: Plan) -> Result<(Board, Seat), Refusal>
    ensures opened { IfOk result (λ r. IsOpenedOn (first_core plan) r.0 r.1) }
    ensures words { IfOk result (λ r. OpensAs (first_core plan) r.1.view) }
    ensures err { IfErr result (λ refusal. refusal ≡ NoMemory) }
{
    let core = Core::new(alloc, plan)?;
    match start(alloc, core) {
        Ok(started) => Ok(started),
        Err(_) => Err(Refusal::NoMemory),
    }
}

// A board over a core, and its first seat. All that they need is reserved before the plan is taken out of the core.
fn start(alloc: Global, core: Core) -> Result<(Board, Seat), Core>
    ensures started { IfOk result (λ r. IsOpenedOn core r.0 r.1) }
    ensures words { IfOk result (λ r. OpensAs core r.1.view) }
    ensures err { IfErr result (λ same. same ≡ core) }
{
    let Ok(hints) = Hints::new(alloc, core.plan().len()) else {
        return Err(core);
    };
    match first_parts(alloc, &core) {
        Ok((table, token, room, owed)) => {
            core.check();
            core.check_settled();
            let plan = core.into_plan();
            let most_suppliers = most_suppliers(&plan);
            let board = Board {
                table,
                plan,
                hints,
                most_suppliers,
                room,
            };
            let seat = Seat {
                token,
                flight: None,
                owed,
            };
            Ok((board, seat))
        }
        Err(_) => Err(core),
    }
}

// What a board and its first seat have beside the plan. The core is lent, so that it can come back.
fn first_parts(
    alloc: Global,
    core: &Core,
) -> Result<(Words, Token, Vec<Word>, Vec<Device>), AllocError>
    ensures table { IfOk result (λ p. IsFirstTable core.now p.0.shared.table_id p.0.shared.key p.1.table_id p.1.me) }
    ensures room { IfOk result (λ parts. (parts.2.items ≡ []) × (length core.now.plan ≤ vec_capacity parts.2)) }
    ensures owed { IfOk result (λ parts. parts.3.items ≡ []) }
{
    let count = core.plan().len();
    let room = Vec::with_capacity(alloc, count)?;
    let owed = Vec::with_capacity(alloc, count)?;
    let (table, token) = first_table(alloc, core)?;
    Ok((table, token, room, owed))
}

// The words at the start, and the token of the first seat.
fn first_table(alloc: Global, core: &Core) -> Result<(Words, Token), AllocError>
    ensures { IfOk result (λ t. IsFirstTable core.now t.0.shared.table_id t.0.shared.key t.1.table_id t.1.me) }
{
    let words = first_words(alloc, core)?;
    core.check();
    core.check_settled();
    Words::of_words(alloc, &words, core)
}

// The most suppliers that a device has.
fn most_suppliers(plan: &Plan) -> usize
    ensures { (d : ℕ) → length (suppliers_of plan.now d) ≤ result }
{
    let mut most = 0;
    for index in 0..plan.len() {
        most = greater(most, plan.suppliers(Device::new(index)).len());
    }
    most
}

fn greater(a: usize, b: usize) -> usize
    ensures { (a ≤ result) × (b ≤ result) }
{
    if a < b { b } else { a }
}
