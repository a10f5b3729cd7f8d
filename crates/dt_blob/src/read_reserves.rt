//! The block of memory reservations.
ghost use Rattle.dt_blob.specs.Steps.Answered.{ReadsReserves};

use crate::error::BlobError;
use crate::parts::long;
use crate::read_error::{ReadError, Wanted, refused};
use crate::sizing::RESERVATION_SIZE;
use dt_tree::behind;
use std::alloc::Global;

/// The addresses and sizes before the first pair of zeros; `BadLayout` where none comes.
pub(crate) fn read_reserves(alloc: Global, bytes: &[u8]) -> Result<Vec<(u64, u64)>, ReadError>
    ensures { ReadsReserves (λ v. v.items) bytes.now result }
{
    let mut reserves = Vec::new(alloc);
    let mut rest = bytes;
    'pairs: loop {
        if rest.len() < RESERVATION_SIZE {
            let before = bytes.len().saturating_sub(rest.len());
            return Err(refused(BlobError::BadLayout, before, Wanted::ReservesEnd));
        }
        let address = long(rest);
        let size = long(behind(rest, 8));
        if address == 0 && size == 0 {
            reserves.shrink_to_fit();
            return Ok(reserves);
        }
        rest = behind(rest, RESERVATION_SIZE);
        reserves.push((address, size))?;
    }
}
