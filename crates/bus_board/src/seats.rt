//! A seat of a board behind a pointer that a caller in C may have. Each call takes the seat out, lets it do what the board's call
//! does, and puts it back.

mod calls;
mod closing;
mod handle;
mod held;
mod lifting;
mod opening;
mod parts;
mod placed_seat;
mod told;

pub use handle::SeatHandle;
pub use held::Held;
pub use placed_seat::{PlacedSeat, Slot};
pub use told::Told;
