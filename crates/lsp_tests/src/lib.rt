//! Worked rows of the language server: messages and their answers, as the Language Server Protocol 3.17 has them; places of texts; and
//! messages in streams.
#![tactic(auto)]

#[cfg(test)]
mod desk;
#[cfg(test)]
mod faults;
#[cfg(test)]
mod frames;
#[cfg(test)]
mod places;
#[cfg(test)]
mod sessions;
#[cfg(test)]
mod sketches;
