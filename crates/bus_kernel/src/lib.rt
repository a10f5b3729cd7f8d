//! The tables of the drivers that are built into a Linux kernel, read from its image.
//!
//! Rooms: `image`, what packs an image and how wide its words are; `tables`, the tables that stand in it; `gzip`, the bytes of a gzip
//! file; `unpacking`, an image as it lies in memory.
#![tactic(auto)]

pub mod gzip;
pub mod image;
mod slices;
pub mod tables;
pub mod unpacking;
