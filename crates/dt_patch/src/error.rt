//! Why a blob isn't changed.
use dt_blob::BlobError;

/// Why a blob isn't changed. It is then as it was.
#[derive(Clone, Copy, Debug, Drop, PartialEq, Eq)]
pub enum PatchError {
    /// The header has this fault, or the structure block makes no tree.
    Blob(BlobError),
    /// The bytes are no path.
    BadPath,
    /// No node has the path.
    NoNode,
    /// The node hasn't the property.
    NoProperty,
    /// The value has another length.
    OtherLength,
    /// The blocks aren't the header, the reserved memory, the structure and the strings, in this order and apart, or the version is 16.
    Unordered,
    /// What is added has no lawful name (section 2.2).
    BadName,
    /// The buffer has too little room: it wants so many bytes.
    Short(usize),
    /// The path is the root's, which isn't deleted.
    Root,
    /// The node has a child of this name.
    Exists,
    /// The node stands at the greatest depth that a node can have.
    TooDeep,
    /// The size is zero: readers that look at sizes alone end the list of reserved memory there.
    EndPair,
    /// No reservation has the place.
    NoReservation,
    /// No node, or no property, begins right at the offset.
    BadOffset,
}
