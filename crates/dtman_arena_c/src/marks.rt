//! The marks of an arena, a byte a granule: which granules are free, and which make up a block.
ghost use Rattle.std.specs.Prelude.{◌≡◌, ◌↔◌, ◌≤◌, ◌<◌, ◌+◌, ℕ, IfNone, IfSome, get_or, length, true};
ghost use Rattle.dtman_arena_c.specs.Marks.{AreFree, IsLength};

/// No block has the granule.
pub(crate) const FREE: u8 = 0;

/// The first granule of a block.
pub(crate) const FIRST: u8 = 1;

/// A granule of the block that the one before it is of.
pub(crate) const FURTHER: u8 = 2;

/// The first run of so many free granules that begins at a granule or behind it.
pub(crate) fn find(marks: &[u8], from: usize, count: usize) -> Option<usize>
    requires { 0 < count }
    ensures found { IfSome result (λ at. AreFree marks.now at count) }
    ensures none { IfNone result ((at : ℕ) → from ≤ at → AreFree marks.now at count → ⊥) }
{
    let mut run: usize = 0;
    for at in from..marks.len() {
        run = if marks[at] == FREE { run + 1 } else { 0 };
        if run == count {
            return Some(at + 1 - count);
        }
    }
    None
}

/// How many granules the block has that begins at this one; 0 where none does.
pub(crate) fn length_at(marks: &[u8], at: usize) -> usize
    ensures length { IsLength marks.now at result }
    ensures inside { 0 < result → at + result ≤ length marks.now }
{
    if at >= marks.len() || marks[at] != FIRST {
        return 0;
    }
    for next in at + 1..marks.len() {
        if marks[next] != FURTHER {
            return next - at;
        }
    }
    marks.len() - at
}

/// Gives so many granules one mark.
pub(crate) fn fill(marks: &mut [u8], at: usize, count: usize, mark: u8)
    requires { at + count ≤ length marks.old }
    ensures same_length { length marks.new ≡ length marks.old }
    ensures inside { (k d : ℕ) → at ≤ k → k < at + count → get_or marks.new k d ≡ mark }
    ensures below { (k d : ℕ) → k < at → get_or marks.new k d ≡ get_or marks.old k d }
    ensures above { (k d : ℕ) → at + count ≤ k → get_or marks.new k d ≡ get_or marks.old k d }
{
    for index in 0..count {
        marks[at + index] = mark;
    }
}

/// Whether so many granules from this one on are free.
pub(crate) fn are_free(marks: &[u8], at: usize, count: usize) -> bool
    requires { at ≤ length marks.now }
    ensures { (result ≡ true) ↔ AreFree marks.now at count }
{
    if marks.len() - at < count {
        return false;
    }
    for next in at..at + count {
        if marks[next] != FREE {
            return false;
        }
    }
    true
}
