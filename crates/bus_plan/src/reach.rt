//! What devices of a plan take, by their suppliers, theirs and so on: walks along the links, and the cycles among them.

mod classes;
mod components;
mod cycle;
mod direction;
mod giving;
mod leaving;
mod reaching;
mod walk;

pub use components::components_of;
pub use cycle::{Cycle, cycles_of};
pub use direction::Direction;
pub use reaching::reached;
