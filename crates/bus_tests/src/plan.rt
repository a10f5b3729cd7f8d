//! The worked rows of plans, drivers and boards, as tables: what a row gives is what the definitions say of it, worked by hand.

#[cfg(test)]
mod boards;
#[cfg(test)]
mod core_boards;
#[cfg(test)]
mod drivers;
#[cfg(test)]
mod forms;
#[cfg(test)]
mod handles;
#[cfg(test)]
mod late_drivers;
#[cfg(test)]
mod plans;
#[cfg(test)]
mod plans_of_trees;
#[cfg(test)]
mod seats;
#[cfg(test)]
mod threads;
