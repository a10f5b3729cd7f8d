//! Rows of layouts.
#![tactic(auto)]

#[cfg(test)]
mod rows;
