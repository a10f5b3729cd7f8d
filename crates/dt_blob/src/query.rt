//! Single values of blobs, read and written.

mod error;
mod getting;
mod setting;

pub use error::QueryError;
pub use getting::get;
pub use setting::set;
