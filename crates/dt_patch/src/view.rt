//! A blob read in place: over the caller's bytes, without memory of its own and without recursion.

mod alike;
mod cells;
mod checking;
mod error;
mod finding;
mod laws;
mod nodes;
mod ordering;
mod parents;
mod properties;
mod regions;
mod reserves;
mod spans;
mod stages;
mod stepping;
mod tokens;
mod view;

pub use cells::{cell, double_cell, string, text};
pub use error::ViewError;
pub use laws::{first_of_siblings, held_is_shown};
pub use nodes::NodeOffset;
pub use properties::{PlacedProperty, PropertyOffset, ViewProperty};
pub use regions::{RegCells, Region, region_at};
pub use stepping::Step;
pub use view::View;
