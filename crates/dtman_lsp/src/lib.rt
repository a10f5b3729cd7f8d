//! A language server for devicetree sources (Language Server Protocol 3.17) as a state: one message in, the messages to be sent out.
//!
//! Rooms: `ports`, what it asks of its surroundings; `framing`, messages in a stream of bytes; `serving`, the loop; `message`, what a
//! message asks; `writing`, JSON; `address`, paths and URIs; `library`, the texts it knows; `server`, the state and its answers;
//! `features`, what each kind of request is answered with.
#![tactic(auto)]

mod address;
mod features;
mod framing;
mod library;
mod message;
mod ports;
mod server;
mod serving;
mod writing;

pub use framing::{Inbox, MAX_MESSAGE, framed};
pub use ports::{Board, Examiner, Files, Finding};
pub use server::state::Server;
pub use serving::{Broken, Wire, serve};
