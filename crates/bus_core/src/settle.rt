use bus_plan::Device;

/// How a probe ended that saw all suppliers bound.
#[derive(Clone, Copy, Debug, PartialEq, Eq)]
pub enum Outcome {
    Bound,
    Failed,
}

/// A device that has settled. It stays so.
#[derive(Clone, Copy, Debug, PartialEq, Eq)]
pub struct Settle {
    pub device: Device,
    pub outcome: Outcome,
}
