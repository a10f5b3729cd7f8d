//! Blocks of an arena: handed out, made shorter or longer where they are, and given back.
ghost use Rattle.std.specs.Prelude.{◌≡◌, ◌<◌, ℕ, IfNone, IfSome};
ghost use Rattle.dtman_arena_c.specs.Blocks.{Becomes};
ghost use Rattle.dtman_arena_c.specs.Marks.{AreFree, IsLength};
ghost use Rattle.dtman_arena_c.specs.Told.{IsResized, IsTaken};

use crate::marks::{FIRST, FREE, FURTHER, are_free, fill, find, length_at};

/// Whether there was room for a block, and its first granule.
#[repr(C)]
#[derive(Clone, Copy)]
pub struct Taken {
    pub found: bool,
    pub at: usize,
}

// The first free run from a granule on, or else from the front.
fn find_round(marks: &[u8], from: usize, count: usize) -> Option<usize>
    requires { 0 < count }
    ensures found { IfSome result (λ at. AreFree marks.now at count) }
    ensures none { IfNone result ((at : ℕ) → AreFree marks.now at count → ⊥) }
{
    match find(marks, from, count) {
        Some(at) => Some(at),
        None => find(marks, 0, count),
    }
}

/// Makes a block of so many free granules, looked for from a granule on and then from the front.
#[unsafe(no_mangle)]
pub extern "C" fn dtman_arena_take(marks: &mut [u8], from: usize, count: usize) -> Taken
    ensures { IsTaken count marks.old marks.new result }
{
    if count == 0 {
        return Taken {
            found: false,
            at: 0,
        };
    }
    match find_round(marks, from, count) {
        None => Taken {
            found: false,
            at: 0,
        },
        Some(at) => {
            fill(marks, at, count, FURTHER);
            marks[at] = FIRST;
            Taken { found: true, at }
        }
    }
}

/// How many granules the block has that begins at this one; 0 where none does.
#[unsafe(no_mangle)]
pub extern "C" fn dtman_arena_length(marks: &[u8], at: usize) -> usize
    ensures { IsLength marks.now at result }
{
    length_at(marks, at)
}

/// Gives the block back that begins at a granule, and tells how many granules it had; 0 where none begins there.
#[unsafe(no_mangle)]
pub extern "C" fn dtman_arena_give(marks: &mut [u8], at: usize) -> usize
    ensures told { IsLength marks.old at result }
    ensures given { Becomes at result 0 marks.old marks.new }
{
    let count = length_at(marks, at);
    if count > 0 {
        fill(marks, at, count, FREE);
    }
    count
}

/// Makes the block that begins at a granule one of so many, where it is: shorter, or longer where what stands behind it is free.
#[unsafe(no_mangle)]
pub extern "C" fn dtman_arena_resize(marks: &mut [u8], at: usize, count: usize) -> bool
    ensures { IsResized at count marks.old marks.new result }
{
    let length = length_at(marks, at);
    if length == 0 || count == 0 {
        return false;
    }
    if count <= length {
        fill(marks, at + count, length - count, FREE);
        return true;
    }
    if !are_free(marks, at + length, count - length) {
        return false;
    }
    fill(marks, at + length, count - length, FURTHER);
    true
}
