//! dtc's package, in the place of whose programs this one stands.

/// What `-v` says. Builds look at the number: what they may ask of dtc 1.6.1 is there.
pub const DTC_VERSION: &[u8] = b"Version: DTC 1.6.1-dtman-0.3\n";
