//! The board: the deferred-probing bus without a lock, one atomic word a device.
//!
//! Room: `seats`, a seat of a board behind a pointer that a caller in C may have.
#![tactic(auto)]

mod board;
mod claiming;
mod closing;
mod debts;
mod flight;
mod hints;
mod looking;
mod opening;
mod order;
mod returning;
mod seat;
pub mod seats;
mod settling;
mod view;
mod waking;
mod words;

pub use board::Board;
pub use closing::End;
pub use seat::Seat;
pub use view::{Flight, Opening, Share, View};
pub use words::Word;
