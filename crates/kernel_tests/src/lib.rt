//! The worked rows of what Linux goes by, as tables: what a row gives is what the definitions say of it, worked by hand.
//!
//! Rooms: `links`, plans by the links of Linux; `why`, why devices wait, and what Linux says of its modules and boots; `kernel`, images of kernels.
#![tactic(auto)]

#[cfg(test)]
mod kernel;
#[cfg(test)]
mod links;
#[cfg(test)]
mod why;
