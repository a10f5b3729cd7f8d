//! How a call ended.
ghost use Rattle.std.specs.Prelude.{◌≡◌};
ghost use Rattle.dtman_view_c.specs.Told.{done, nothing, node_told, out, property_told, refused, unchanged};

use dt_blob::BlobError;
use dt_patch::PatchError;
use dt_patch::view::{NodeOffset, PropertyOffset, ViewError};

const DONE: u32 = 0;

const REFUSED: u32 = 2;

/// There is none of what is asked for.
const NOTHING: u32 = 4;

/// No node, or no property, begins at the offset.
const BAD_OFFSET: u32 = 8;

/// The bytes are no path.
const BAD_PATH: u32 = 9;

/// The value that is to be set has another length.
const OTHER_LENGTH: u32 = 10;

/// The blob's blocks stand in another order, or it has version 16.
const UNORDERED: u32 = 11;

/// The buffer has too little room.
const SHORT: u32 = 12;

/// What is added has no lawful name.
const BAD_NAME: u32 = 13;

/// The root isn't deleted.
const ROOT: u32 = 14;

/// The node has a child of the name.
const EXISTS: u32 = 15;

/// The node stands at the greatest depth.
const TOO_DEEP: u32 = 16;

/// The address and the size would end the list.
const END_PAIR: u32 = 17;

/// The walk leaves the node that is round it.
const OUT: u32 = 18;

/// How a call of a view ended, and the offset or the number that it tells.
#[repr(C)]
#[derive(Clone, Copy)]
pub struct ViewTold {
    pub status: u32,
    /// The fault's number where refused.
    pub number: u32,
    /// The offset of what was found, or how many bytes are wanted.
    pub at: usize,
}

fn ended(status: u32, number: u32, at: usize) -> ViewTold
    ensures { result ≡ record { status = status; number = number; at = at } }
{
    ViewTold { status, number, at }
}

pub(crate) fn done(at: usize) -> ViewTold
    ensures { result ≡ done at }
{
    ended(DONE, 0, at)
}

/// A token's number and the offset behind it.
pub(crate) fn numbered(number: u32, at: usize) -> ViewTold
    ensures { result ≡ record { status = 0; number = number; at = at } }
{
    ended(DONE, number, at)
}

pub(crate) fn out(at: usize) -> ViewTold
    ensures { result ≡ out at }
{
    ended(OUT, 0, at)
}

pub(crate) fn nothing() -> ViewTold
    ensures { result ≡ nothing }
{
    ended(NOTHING, 0, 0)
}

pub(crate) fn refused(error: BlobError) -> ViewTold
    ensures { result ≡ refused error }
{
    ended(REFUSED, u32::from(error.number()), 0)
}

pub(crate) fn failed(error: ViewError) -> ViewTold
    ensures { result ≡ node_told (Err error) }
{
    match error {
        ViewError::BadOffset => ended(BAD_OFFSET, 0, 0),
        ViewError::BadPath => ended(BAD_PATH, 0, 0),
    }
}

/// Why a blob wasn't changed.
pub(crate) fn unchanged(error: PatchError) -> ViewTold
    ensures { result ≡ unchanged error }
{
    match error {
        PatchError::Blob(error) => refused(error),
        PatchError::BadPath => ended(BAD_PATH, 0, 0),
        PatchError::NoNode => nothing(),
        PatchError::NoProperty => nothing(),
        PatchError::OtherLength => ended(OTHER_LENGTH, 0, 0),
        PatchError::Unordered => ended(UNORDERED, 0, 0),
        PatchError::BadName => ended(BAD_NAME, 0, 0),
        PatchError::Short(wanted) => ended(SHORT, 0, wanted),
        PatchError::Root => ended(ROOT, 0, 0),
        PatchError::Exists => ended(EXISTS, 0, 0),
        PatchError::TooDeep => ended(TOO_DEEP, 0, 0),
        PatchError::EndPair => ended(END_PAIR, 0, 0),
        PatchError::NoReservation => nothing(),
        PatchError::BadOffset => ended(BAD_OFFSET, 0, 0),
    }
}

/// Where a node was found.
pub(crate) fn node_told(answer: Result<Option<NodeOffset>, ViewError>) -> ViewTold
    ensures { result ≡ node_told answer }
{
    match answer {
        Ok(Some(node)) => done(node.at),
        Ok(None) => nothing(),
        Err(error) => failed(error),
    }
}

/// Where a property was found.
pub(crate) fn property_told(answer: Result<Option<PropertyOffset>, ViewError>) -> ViewTold
    ensures { result ≡ property_told answer }
{
    match answer {
        Ok(Some(property)) => done(property.at),
        Ok(None) => nothing(),
        Err(error) => failed(error),
    }
}
