//! Changes of a blob in the caller's bytes: without memory of its own and without recursion.
//!
//! Room: `view`, a blob read in place, as libfdt counts its nodes and properties.
#![tactic(auto)]

mod adding;
mod bytes;
mod creating;
mod error;
mod layout;
mod naming;
mod nopping;
mod parts;
mod placing;
mod planning;
mod removing;
mod reserving;
mod setting;
mod sizing;
mod splicing;
pub mod view;

pub use adding::add_node;
pub use creating::create_empty;
pub use error::PatchError;
pub use nopping::{nop_node, nop_property};
pub use parts::set_part;
pub use removing::{delete_node, delete_property};
pub use reserving::{add_reservation, delete_reservation};
pub use setting::{set, set_in_place};
pub use sizing::{grow, trim};
