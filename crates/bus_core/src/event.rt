use crate::compatibles::Compatibles;
use bus_plan::Device;
use dt_tree::Name;

/// One flight of a device. Attempts are numbered over all begins of a core, from 1.
#[derive(Clone, Copy, Debug, PartialEq, Eq)]
pub struct Ticket {
    pub device: Device,
    pub attempt: u32,
}

/// What a driver's probe found.
#[derive(Clone, Copy, Debug, PartialEq, Eq)]
pub enum Report {
    /// All suppliers were bound.
    Settled,
    /// This supplier wasn't bound.
    Missing(Device),
}

/// What the bus says at the end of a flight.
#[derive(Clone, Copy, Debug, PartialEq, Eq)]
pub enum Reply {
    Bound,
    Failed,
    /// Deferred, until its suppliers are bound.
    Waiting,
    /// Deferred, and due again already.
    Again,
}

/// An event of a schedule. A finish is that of the flight which its device has.
#[derive(Debug, Drop)]
pub enum Event {
    Begin(Device),
    Finish(Device, Report),
    Abandon(Device),
    /// A driver comes late, by its name and the strings that it matches.
    Register(Name, Compatibles),
}
