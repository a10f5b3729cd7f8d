//! Laws of flattened trees: functions that do nothing, whose contracts are the laws.

mod entries;
mod names;
mod runs;
mod whole;

pub use entries::rows_of_a_flattened_tree;
pub use names::{child_look_up, property_look_up};
pub use runs::{run_below, run_by_parents};
pub use whole::{lawful_names, whole_by_rows};
