//! Two trees compared by paths: what one has and the other hasn't, a phandle taken as the path of the node that it names.

mod by_name;
mod comparing;
mod difference;
mod form;
mod naming;
mod ordering;
mod parts;

pub use comparing::{Comparison, compare, is_own_phandle};
pub use difference::{Difference, Side, Thing};
pub use form::Form;
pub use naming::{Named, Naming};
pub use ordering::{Kind, Reordered, compare_order};
pub use parts::{Part, Seen, are_same};
