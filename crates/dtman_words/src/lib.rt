//! What the words of a command line say: each subcommand with its arguments.
//!
//! Rooms: `grammar`, `arguments`, what a command line may say; `reading`, what one says; `subcommand`, a command;
//! `dtc_options`, what dtc's own command line says.
#![tactic(auto)]

mod arguments;
pub mod dtc_options;
mod grammar;
mod reading;
mod subcommand;

pub use reading::command;
pub use subcommand::{
    Board, Choice, Command, Definitions, Formatting, Inspection, Language, Links, Picture,
    Preprocessing,
};
