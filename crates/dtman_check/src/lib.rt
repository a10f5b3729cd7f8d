//! What `check` answers, from the bytes of a blob to lines of text: each mistake with its place in the user's files, its check and
//! what is wrong.
//!
//! Room: `table`, dtc's checks as one table: which are made, and what they tell.
#![tactic(auto)]

mod answer;
mod buses;
mod escaping;
mod learning;
mod line;
mod links;
mod nodes;
mod own_names;
mod paths;
mod places;
pub mod table;
mod words;
mod writer;

pub use answer::{Answer, Asked, Source, check_blob, check_tree, least_of};
pub use learning::Learned;
pub use line::Shape;
pub use own_names::{named_once, repeats_name};
pub use paths::path_at;
