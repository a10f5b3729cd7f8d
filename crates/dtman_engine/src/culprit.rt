//! What a refusal is of, where its line and its event don't say it.
ghost use Rattle.std.specs.Prelude.{◌≡◌};
ghost use Rattle.dtman_engine.specs.Culprit.{IsOfNoBlob, word_of};

use dt_blob::{BlobError, ReadError};
use dt_overlay::OverlayError;

/// Which of the blobs that an engine was given.
#[derive(Clone, Copy, Debug)]
pub enum BlobRole {
    /// The only one.
    Sole,
    /// What an overlay is applied to.
    Base,
    /// What is applied to it.
    Applied,
}

/// A blob of what was given that is no tree, and the word of it that is refused.
#[derive(Clone, Copy, Debug)]
pub struct Unread {
    pub role: BlobRole,
    pub refused: ReadError,
}

/// What a refusal is of.
#[derive(Clone, Copy, Debug)]
pub enum Culprit {
    /// The property of a tree that 54 and 55 are of.
    Property(bus_drivers::Culprit),
    /// The place in an overlay that 40 to 46 are of.
    Overlay(OverlayError),
    /// The word of a blob that 30 to 38 are of, where the bytes that came in are refused.
    Blob(Unread),
}

impl Culprit {
    pub(crate) fn of_property(property: Option<bus_drivers::Culprit>) -> Option<Culprit>
        ensures { IsOfNoBlob result }
    {
        match property {
            Some(property) => Some(Culprit::Property(property)),
            None => None,
        }
    }

    // Want of memory is no blob's.
    pub(crate) fn of_blob(role: BlobRole, refused: ReadError) -> Option<Culprit>
        ensures { result ≡ word_of refused.kind (record { role = role; refused = refused }) }
    {
        match refused.kind {
            BlobError::NoMemory => None,
            _ => Some(Culprit::Blob(Unread { role, refused })),
        }
    }
}
