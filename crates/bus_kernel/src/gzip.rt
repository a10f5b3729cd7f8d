//! The bytes of a gzip file (RFC 1951, 1952).

mod bits;
mod block;
mod checksum;
mod code;
mod copying;
mod file;
mod header;
mod lengths;
mod unpacking;

pub use file::unzip;
pub use unpacking::Unpacking;
