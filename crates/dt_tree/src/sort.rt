//! A tree in order of its names, as dtc's option `-s` has it: two boards' trees can then be compared line by line.

mod sorting;

pub use sorting::sort;
