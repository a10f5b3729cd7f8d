/// What the driver of a ready device does.
#[derive(Clone, Copy, Debug, PartialEq, Eq)]
pub enum Verdict {
    /// It binds: `ok` in a plan file.
    Binds,
    /// It fails: `fail` in a plan file.
    Fails,
}
