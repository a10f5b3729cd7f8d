//! The worked rows of the bus, as tables: what a row gives is what the definitions say of it, worked by hand.
//!
//! The tests stand here, above the crates of the bus, so that no crate is proved a second time for them. A room apart is `plan`: plans,
//! drivers and boards.
#![tactic(auto)]

#[cfg(test)]
mod chains;
#[cfg(test)]
mod cores;
#[cfg(test)]
mod counts;
pub mod gate;
#[cfg(test)]
mod keepers;
#[cfg(test)]
mod late;
#[cfg(test)]
mod plan;
#[cfg(test)]
mod registrations;
pub mod replays;
#[cfg(test)]
mod runs;
pub mod shapes;
#[cfg(test)]
mod told;
pub mod watching;
