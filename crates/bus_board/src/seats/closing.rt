//! How a board ends with its last seat.

ghost use Rattle.std.specs.Prelude.{◌≡◌, ◌≤◌, length, IfOk, IfErr};
ghost use Rattle.bus_board.specs.Ends.{EndsAs};
ghost use Rattle.bus_board.specs.Words.{number_of};
ghost use Rattle.bus_board.specs.Seats.Calls.{Closes, with_words};
ghost use Rattle.bus_board.specs.Seats.Handles.{seated};

use crate::seats::handle::{Lifted, SeatHandle};
use crate::seats::placed_seat::PlacedSeat;
use crate::seats::told::{Told, done, no_seat, shared, short};
use crate::{End, Word};
use std::alloc::Global;
use std::sync::Arc;

impl SeatHandle {
    /// Ends the board with its last seat, empties the handle, and puts the number of each device's word into the buffer.
    pub fn close(&mut self, alloc: Global, out: &mut [u8]) -> Told
        ensures { Closes (seated self.old) out.old (seated self.new) out.new result }
    {
        let Some(lifted) = self.lift(alloc) else {
            return no_seat();
        };
        let Lifted { block, placed } = lifted;
        let devices = placed.devices();
        if out.len() < devices {
            self.put(Lifted { block, placed });
            return short(devices);
        }
        match end(placed) {
            Ok(End { words, quiet }) => {
                write_words(&words, out);
                done(u32::from(quiet), devices)
            }
            Err(placed) => {
                self.put(Lifted { block, placed });
                shared()
            }
        }
    }
}

// The end of the board, where this is its only seat.
fn end(placed: PlacedSeat) -> Result<End, PlacedSeat>
    ensures ok { IfOk result (λ end. EndsAs placed.board.plan placed.seat.view end.words.items end.quiet) }
    ensures err { IfErr result (λ same. same ≡ placed) }
{
    let PlacedSeat {
        board,
        seat,
        devices,
    } = placed;
    match Arc::try_unwrap(board) {
        Ok(board) => Ok(board.close(seat)),
        Err(board) => Err(PlacedSeat {
            board,
            seat,
            devices,
        }),
    }
}

// Puts the number of each word into the buffer.
fn write_words(words: &[Word], out: &mut [u8])
    requires { length words.now ≤ length out.old }
    ensures { out.new ≡ with_words words.now out.old }
{
    for index in 0..words.len() {
        out[index] = byte_of(words[index]);
    }
}

fn byte_of(word: Word) -> u8
    ensures { result ≡ number_of word }
{
    match word {
        Word::Fresh => 0,
        Word::Trying => 1,
        Word::Waiting => 2,
        Word::Woken => 3,
        Word::Retrying => 4,
        Word::Bound => 5,
        Word::Failed => 6,
        Word::Unmatched => 7,
    }
}
