//! How a board ends.

ghost use Rattle.std.specs.Prelude.{◌≡◌, ◌<◌, length};
ghost use Rattle.std.specs.List.{list_all};
ghost use Rattle.bus_board.specs.Ends.{EndsAs, suppliers_bound, is_still, is_quiet};
ghost use Rattle.bus_board.specs.Shown.{IsOf};
ghost use Rattle.bus_board.specs.Words.{word_at, is_bound_word};

use crate::board::Board;
use crate::seat::Seat;
use crate::words::Word;
use bus_plan::{Device, Plan};

/// The words of a board at its end, and whether nothing was left to do.
#[derive(Drop)]
pub struct End {
    pub words: Vec<Word>,
    pub quiet: bool,
}

impl Board {
    /// Ends the board. The words stand in room that `open` made.
    pub fn close(self, seat: Seat) -> End
        requires { IsOf self seat }
        ensures { EndsAs self.plan seat.view result.words.items result.quiet }
    {
        ended(self, seat)
    }
}

// The words at the end, and whether they are quiet.
fn ended(board: Board, seat: Seat) -> End
    requires { IsOf board seat }
    ensures { EndsAs board.plan seat.view result.words.items result.quiet }
{
    let Board {
        table,
        plan,
        hints: _,
        most_suppliers: _,
        mut room,
    } = board;
    let Seat {
        token,
        flight: _,
        owed: _,
    } = seat;
    let closed = table.close_with(token);
    for index in 0..plan.len() {
        room.push_reserved(Word::of(closed.word(index)));
    }
    closed.free();
    let quiet = is_quiet(&plan, &room);
    End { words: room, quiet }
}

// Whether nothing is left to do for any device.
fn is_quiet(plan: &Plan, words: &[Word]) -> bool
    ensures { result ≡ is_quiet plan.now words.now }
{
    (0..plan.len()).all(|index| is_still(plan, words, Device::new(index)))
}

// Whether nothing is left to do for the device.
fn is_still(plan: &Plan, words: &[Word], device: Device) -> bool
    requires { device < length plan.now }
    ensures { result ≡ is_still (word_at words.now device) (suppliers_bound plan.now words.now device) }
{
    match word_of(words, device) {
        Word::Bound | Word::Failed | Word::Unmatched => true,
        Word::Waiting => !are_bound(words, plan.suppliers(device)),
        _ => false,
    }
}

// Whether the words of these devices are BOUND.
fn are_bound(words: &[Word], devices: &[Device]) -> bool
    ensures { result ≡ list_all (λ d. is_bound_word (word_at words.now d)) devices.now }
{
    devices
        .iter()
        .all(|device| is_bound(word_of(words, *device)))
}

fn is_bound(word: Word) -> bool
    ensures { result ≡ is_bound_word word }
{
    matches!(word, Word::Bound)
}

// The device's word.
fn word_of(words: &[Word], device: Device) -> Word
    ensures { result ≡ word_at words.now device }
{
    match words.get(device.index()) {
        Some(word) => *word,
        None => Word::Unmatched,
    }
}
