//! Tests of what a source takes in from other files.

#[cfg(test)]
mod included;
#[cfg(test)]
mod searching;
#[cfg(test)]
mod shelf;
#[cfg(test)]
mod shortfalls;
#[cfg(test)]
mod user_lines;
