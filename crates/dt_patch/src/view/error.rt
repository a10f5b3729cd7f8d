/// Why a call over a view has no answer.
#[derive(Clone, Copy, Debug, Drop, PartialEq, Eq)]
pub enum ViewError {
    /// No node, or no property, begins at the offset.
    BadOffset,
    /// The bytes are no path.
    BadPath,
}
