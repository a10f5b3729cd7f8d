/// The most devices of a plan.
pub const MAX_DEVICES: usize = 4096;
