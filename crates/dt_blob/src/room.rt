//! The greatest size of a blob and of a text.
ghost use Rattle.std.specs.Prelude.{◌+◌, ◌<◌, ◌≤◌, sum};
ghost use Rattle.dt_blob.specs.Steps.Answered.{IsSize, IsWithin};
ghost use Rattle.dt_blob.specs.Blob.{limit};

use crate::error::BlobError;

/// The most bytes of a blob or of a canonical source.
pub const MAX_SIZE: usize = 268_435_456;

/// The size with `few` and `more` bytes behind `used` ones. Refuses where they are too many.
pub(crate) fn add_size(used: usize, few: usize, more: usize) -> Result<usize, BlobError>
    requires { used ≤ limit }
    ensures { IsSize (used + few + more) result }
{
    let room = MAX_SIZE - used;
    if few > room {
        return Err(BlobError::TooLarge);
    }
    if more > room - few {
        return Err(BlobError::TooLarge);
    }
    Ok(used + few + more)
}

/// Refuses where pieces of these lengths behind `used` bytes are too many.
pub(crate) fn check_pieces(used: usize, pieces: &[usize]) -> Result<(), BlobError>
    requires { used ≤ limit }
    ensures { IsWithin (used + sum pieces.now) result }
{
    let mut room = MAX_SIZE - used;
    for piece in pieces {
        if *piece > room {
            return Err(BlobError::TooLarge);
        }
        room -= *piece;
    }
    Ok(())
}
