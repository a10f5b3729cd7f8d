//! Pictures of a board's bus: what comes up and what waits for what, as a graph for Graphviz and as a page of HTML.
//!
//! Room: `why`, why a device of a plan waits, and what it takes to bind it.
#![tactic(auto)]

mod arrows;
mod bundles;
mod drawing;
mod escape;
mod graph_devices;
mod graph_head;
mod graph_words;
mod graphing;
mod laws;
mod names;
mod page_devices;
mod page_frame;
mod page_links;
mod paging;
mod reasons;
mod showing;
mod sketch;
mod states;
mod tree;
pub mod why;

pub use arrows::{Arrow, Tie, linked_arrows, planned_arrows};
pub use escape::add_escaped;
pub use graphing::graph;
pub use laws::escaped_is_plain;
pub use paging::page;
pub use reasons::{NoOrigins, Origins};
pub use showing::shown;
pub use sketch::{Sketch, linked_sketch, planned_sketch};
pub use states::{State, linked_states, planned_states};
