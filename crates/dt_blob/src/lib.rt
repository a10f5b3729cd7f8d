//! Flattened devicetree blobs: made of a tree, read into one, and a tree printed as a source.
//!
//! Room: `query`, single values of blobs, read and written.
#![tactic(auto)]

mod bytes;
mod error;
mod header;
mod names;
mod parts;
mod printing;
pub mod query;
mod read_blob;
mod read_blocks;
mod read_error;
mod read_header;
mod read_laws;
mod read_nodes;
mod read_reserves;
mod read_token;
mod repeated_name;
mod room;
mod sizing;
mod strings;
mod token_words;
mod value_form;
mod value_text;
mod writer;
mod writing;

pub use error::BlobError;
pub use parts::long;
pub use printing::source_text;
pub use read_blob::read;
pub use read_blocks::{BlobBlocks, blocks_in};
pub use read_error::{ReadError, Wanted};
pub use read_laws::{blob_holds, one_tree};
pub use read_token::{BlobToken, token};
pub use room::MAX_SIZE;
pub use writing::write;
