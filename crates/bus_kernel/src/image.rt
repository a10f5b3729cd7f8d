//! What an image is by the bytes that stand at fixed places of it.

mod magic;
mod packing;
mod width;

pub use packing::{Packing, packing_of};
pub use width::{Width, told_width};
