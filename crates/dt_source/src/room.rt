//! Room for lists that are mostly short.
ghost use Rattle.std.specs.Prelude.{◌≡◌, ◌++◌, ◌∷◌, [], OnOk};

use std::alloc::AllocError;

/// Pushes onto a list whose room is doubled from that for one item, since most of its kind have one or none.
pub(crate) fn push_sparingly<T: Drop>(list: &mut Vec<T>, item: T) -> Result<(), AllocError>
    ensures { OnOk result (list.new.items ≡ list.old.items ++ item ∷ []) }
{
    let count = list.len();
    if count == list.capacity() {
        list.reserve_exact(count.max(1))?;
    }
    list.push(item)?;
    Ok(())
}
