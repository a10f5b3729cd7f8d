//! The worked rows of trees and blobs, as tables: what a row gives is what the definitions say of it, worked by hand.

#[cfg(test)]
mod blobs;
#[cfg(test)]
mod callers;
#[cfg(test)]
mod cells;
#[cfg(test)]
mod changes;
#[cfg(test)]
mod growing;
#[cfg(test)]
mod likes;
#[cfg(test)]
mod merges;
#[cfg(test)]
mod nops;
#[cfg(test)]
mod parts;
#[cfg(test)]
mod patches;
#[cfg(test)]
mod removals;
#[cfg(test)]
mod reservations;
#[cfg(test)]
mod sizes;
#[cfg(test)]
mod trees;
#[cfg(test)]
mod versions;
#[cfg(test)]
mod view_values;
#[cfg(test)]
mod views;
