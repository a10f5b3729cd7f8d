//! Mistakes in devicetrees: what the checks find by which dtc warns, over a tree alone.
//!
//! What each check finds follows the Devicetree Specification v0.4 and the bindings of Linux; names, order and severities are those of
//! dtc 1.6.1. Room: `links`, the mistakes that show along phandles and paths.
#![tactic(auto)]

mod addresses;
mod bridges;
mod buses;
mod cells;
mod chosen;
mod fault;
mod here;
pub mod links;
mod lost;
mod marks;
mod message;
mod names;
mod pci;
mod placed;
mod ports;
mod ranges;
mod reg;
mod style;
mod survey;
mod texts;
mod traits;
mod unit;
mod unit_rules;
mod walk;

pub use addresses::{i2c_bits_fault, i2c_fault, simple_fault, spi_fault};
pub use bridges::{bridge_address_fault, bridge_size_fault, spi_name_fault};
pub use buses::is_called;
pub use cells::{cell_count, cell_from, next_cell};
pub use chosen::{
    bootargs_fault, controller_fault, gpio_fault, is_gpio, is_named, is_parent_without,
    names_fault, old_stdout_fault, place_fault, stdout_fault,
};
pub use fault::Fault;
pub use here::{Here, children, has};
pub use lost::lost_fault;
pub use marks::class_of;
pub use message::{Bus, Graph, Message};
pub use names::{
    name_fault, name_twice_fault, node_byte_fault, property_byte_fault, second_at_fault,
    strict_node_fault, strict_property_fault,
};
pub use pci::{
    end_fault, later_cells_fault, no_ranges_fault, order_fault, pci_bus_fault, pci_name_fault,
    pci_unit_fault, register_fault, space_fault, two_cells_fault,
};
pub use placed::Placed;
pub use ports::is_port;
pub use ranges::{ranges_fault, ranges_size_fault};
pub use reg::{is_multiple, reg_fault};
pub use style::{default_fault, unnecessary_fault};
pub use survey::Survey;
pub use texts::{cell_fault, is_same, string_fault, string_list_fault};
pub use unit::{base_name, is_hex_of, unit_address};
pub use unit_rules::{hex_fault, unit_fault, zero_fault};
