//! The worked rows of lexemes, expressions and sources and of trees in the making, as tables: what a row
//! gives is what the definitions say of it, worked by hand.

#[cfg(test)]
mod dtc;
#[cfg(test)]
mod dtc_files;
#[cfg(test)]
mod expressions;
#[cfg(test)]
mod fault_places;
#[cfg(test)]
mod gathered;
#[cfg(test)]
mod lexemes;
#[cfg(test)]
mod offsets;
#[cfg(test)]
mod places;
#[cfg(test)]
mod sources;
#[cfg(test)]
mod standing;
#[cfg(test)]
mod tree_builders;
#[cfg(test)]
mod tree_places;
