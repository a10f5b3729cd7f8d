//! What a kernel's command line says of links.

use bus_links::Strictness;

/// When Linux waits no longer for devices that no driver matches (`deferred_probe_timeout`).
#[derive(Clone, Copy, Debug, PartialEq, Eq)]
pub enum Timeout {
    /// In kernels without it.
    Never,
    /// So many seconds behind the last driver.
    Seconds(u32),
}

/// By which rules of Linux links count.
#[derive(Clone, Copy)]
pub struct Rules {
    pub strictness: Strictness,
    pub timeout: Timeout,
}
