//! The reserved memory.
ghost use Rattle.std.specs.Prelude.{◌≡◌, ◌≤◌, List, ℕ, IfSome, Some, length, slice_get};
ghost use Rattle.dt_tree.specs.TreeData.{TreeData};
ghost use Rattle.dt_blob.specs.Holds.{Reserves};
ghost use Rattle.dt_patch.specs.View.Reserved.{reserved_size};
ghost use Rattle.dt_patch.specs.View.Shows.{Views};

use crate::view::checking::RESERVATION_SIZE;
use crate::view::view::View;
use dt_blob::long;
use dt_tree::behind;

fn reservation_in(bytes: &[u8], index: usize) -> Option<(u64, u64)>
    ensures { (rs : List (ℕ × ℕ)) → Reserves rs bytes.now → result ≡ slice_get rs index }
{
    let mut rest = bytes;
    let mut before = index;
    'pairs: loop {
        if rest.len() < RESERVATION_SIZE {
            return None;
        }
        let address = long(rest);
        let size = long(behind(rest, 8));
        if address == 0 && size == 0 {
            return None;
        }
        if before == 0 {
            return Some((address, size));
        }
        before -= 1;
        rest = behind(rest, RESERVATION_SIZE);
    }
}

fn reserved_size_in(bytes: &[u8]) -> Option<usize>
    ensures size { (rs : List (ℕ × ℕ)) → Reserves rs bytes.now → result ≡ Some (reserved_size rs) }
    ensures inside { IfSome result (λ size. size ≤ length bytes.now) }
{
    let mut rest = bytes;
    'pairs: loop {
        if rest.len() < RESERVATION_SIZE {
            return None;
        }
        let address = long(rest);
        let size = long(behind(rest, 8));
        rest = behind(rest, RESERVATION_SIZE);
        if address == 0 && size == 0 {
            return Some(bytes.len() - rest.len());
        }
    }
}

impl<'a> View<'a> {
    /// How many bytes the reserved memory has, with the pair of zeros at its end: none where it has no end.
    pub fn reserved_size(&self) -> Option<usize>
        ensures size { (tree : TreeData) → Views self.now tree → result ≡ Some (reserved_size tree.reserves) }
        ensures inside { IfSome result (λ size. size ≤ length self.now.reserves.now) }
    {
        reserved_size_in(self.reserves)
    }

    /// The address and the size of a reservation, by its place in their order: none behind the last.
    pub fn reservation(&self, index: usize) -> Option<(u64, u64)>
        ensures { (tree : TreeData) → Views self.now tree → result ≡ slice_get tree.reserves index }
    {
        reservation_in(self.reserves, index)
    }
}
