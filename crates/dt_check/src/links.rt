//! Mistakes in devicetrees that show along phandles and paths: specifiers, interrupts, aliases, graphs.

mod aliases;
mod endpoint;
mod graph;
mod interrupts;
mod link;
mod lists;
mod phandles;

pub use aliases::alias_fault;
pub use endpoint::{Remote, far_fault, near_fault, one_way_fault};
pub use graph::{
    graph_address_fault, graph_name_fault, graph_reg_fault, graph_size_fault, graph_unit_fault,
    is_of, single_child_fault,
};
pub use interrupts::{Way, cells_fault, length_fault, missing_fault, search, search_fault};
pub use link::LinkFault;
pub use lists::{Listing, list_faults};
pub use phandles::{different_fault, phandle_fault, twice_fault};
