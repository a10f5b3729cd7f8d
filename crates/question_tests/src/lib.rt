//! The worked rows of what is asked of trees: what a row gives is what the definitions say of it, worked by hand.
#![tactic(auto)]

#[cfg(test)]
mod boards;
#[cfg(test)]
mod mapping;
#[cfg(test)]
mod naming;
#[cfg(test)]
mod users;
