//! The worked rows of the engines, as tables: what a row gives is what the definitions say of it, worked by hand.
//!
//! The tests stand here, above the crates of the engines and beside those of the program, so that neither waits for the other.
#![tactic(auto)]

#[cfg(test)]
mod answers;
#[cfg(test)]
mod compiling;
#[cfg(test)]
mod dtc_rows;
#[cfg(test)]
mod engines;
#[cfg(test)]
mod great_board;
#[cfg(test)]
mod late_drivers;
#[cfg(test)]
mod long_values;
#[cfg(test)]
mod overlaying;
#[cfg(test)]
mod places;
#[cfg(test)]
mod plugins;
#[cfg(test)]
mod probes;
#[cfg(test)]
mod told;
