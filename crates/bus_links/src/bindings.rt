//! What the properties of a device name, by the bindings of Linux: nodes, entry by entry, interrupts by their controllers.

mod binding;
mod endpoints;
mod interrupts;
mod link_node;
mod mentions;
mod naming;
mod nexus;
mod nodes;
mod walk;

pub use binding::{Binding, Listing, Strictness};
pub use endpoints::Ends;
pub use interrupts::most_steps;
pub use link_node::LinkNode;
pub use mentions::{Fault, Found, Mention};
pub use naming::bytes;
pub use nodes::Nodes;
