//! Why bytes are no blob, and the word that shows it.
ghost use Rattle.std.specs.Prelude.{◌≡◌, ◌≤◌};

use crate::error::BlobError;
use dt_tree::TreeError;
use std::alloc::{AllocError, AllocFailed};

/// What is wanted of the word at which a blob is refused: Devicetree Specification v0.4, chapter 5.
#[derive(Clone, Copy, Debug, Drop)]
pub enum Wanted {
    /// Nothing of the bytes: memory ran out.
    Memory,
    /// At most 268,435,456 bytes.
    FewerBytes,
    /// The 40 bytes of a header (section 5.2).
    Header,
    MagicNumber,
    /// Version 16 or above.
    Version,
    /// Version 17 or below, by which the blob can be read.
    LastCompatible,
    /// A size that the file has.
    SizeInFile,
    /// A size of 40 bytes or more.
    SizeOfHeader,
    StructureInBlob,
    StructureEndInBlob,
    StringsInBlob,
    StringsEndInBlob,
    /// A structure block on a multiple of 4.
    StructureAligned,
    /// Reservations on a multiple of 8.
    ReservesAligned,
    ReservesInBlob,
    /// A pair of zeros that ends the reservations (section 5.3).
    ReservesEnd,
    /// A token (section 5.4.1) before the structure block ends.
    TokenInBlock,
    /// A word that begins a token.
    TokenWord,
    /// A zero byte behind the name of a node.
    NodeNameEnd,
    /// The name of a node with its padding before the structure block ends.
    NodeNameInBlock,
    /// A property's length and the place of its name before the structure block ends.
    PropertyWords,
    /// The length of a value that ends before the structure block does.
    ValueInBlock,
    /// A place inside the strings block.
    NamePlace,
    /// The place of a name that ends with a zero byte.
    NameEnd,
    /// The BEGIN_NODE of the root.
    RootBegin,
    /// The END behind the root.
    EndBehindRoot,
    /// The END_NODE of each node before END.
    NodesEnded,
    /// The end of the structure block behind END.
    BlockEnd,
    UnnamedRoot,
    /// A node at most 64 levels below the root.
    Depth,
    /// A lawful name of a node (section 2.2.1).
    NodeName,
    /// A lawful name of a property (section 2.2.4.1).
    PropertyName,
    /// BEGIN_NODE or END_NODE behind a child.
    NodeBehindChild,
    /// Another name than those before it in the node.
    OtherName,
}

/// Why bytes are no blob, and the word that the test which failed looks at.
#[derive(Clone, Copy, Debug, Drop)]
pub struct ReadError {
    pub kind: BlobError,
    /// How many bytes stand before the word; it says nothing where memory ran out.
    pub at: usize,
    /// What is wanted of it.
    pub wanted: Wanted,
}

/// A refusal of the word behind so many bytes.
pub(crate) fn refused(kind: BlobError, at: usize, wanted: Wanted) -> ReadError
    ensures kind { result.kind ≡ kind }
    ensures at { result.at ≡ at }
{
    ReadError { kind, at, wanted }
}

impl ReadError {
    /// The refusal of bytes that stand behind so many others.
    pub(crate) fn behind(self, before: usize) -> ReadError
        ensures { result.kind ≡ self.kind }
    {
        ReadError {
            kind: self.kind,
            at: before.saturating_add(self.at),
            wanted: self.wanted,
        }
    }

    /// The refusal, of the last word of so many bytes where they end before its own.
    pub(crate) fn within(self, len: usize) -> ReadError
        ensures kind { result.kind ≡ self.kind }
        ensures at { result.at ≤ len }
    {
        ReadError {
            kind: self.kind,
            at: self.at.min(len) / 4 * 4,
            wanted: self.wanted,
        }
    }
}

impl From<AllocError> for ReadError {
    ghost use Rattle.std.specs.Prelude.{◌≡◌};
    ghost use Rattle.dt_blob.specs.declared.error.BlobError.TheVariants.{NoMemory};

    ghost from_gives = { λ _ e. (e.kind ≡ NoMemory) × (e.at ≡ 0) };

    fn from(_e: AllocError) -> ReadError {
        refused(BlobError::NoMemory, 0, Wanted::Memory)
    }
}

impl<T: Drop> From<AllocFailed<T>> for ReadError {
    ghost use Rattle.std.specs.Prelude.{◌≡◌};
    ghost use Rattle.dt_blob.specs.declared.error.BlobError.TheVariants.{NoMemory};

    ghost from_gives = { λ _ e. (e.kind ≡ NoMemory) × (e.at ≡ 0) };

    fn from(_e: AllocFailed<T>) -> ReadError {
        refused(BlobError::NoMemory, 0, Wanted::Memory)
    }
}

impl From<ReadError> for BlobError {
    ghost use Rattle.std.specs.Prelude.{◌≡◌};

    ghost from_gives = { λ refused e. e ≡ refused.kind };

    fn from(e: ReadError) -> BlobError {
        e.kind
    }
}
