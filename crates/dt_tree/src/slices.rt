//! Parts of slices.
ghost use Rattle.std.specs.Prelude.{◌≡◌, drop};

/// What stands behind the first ones.
pub fn behind<T>(items: &[T], count: usize) -> &[T]
    ensures { result.now ≡ drop count items.now }
{
    if count < items.len() {
        &items[count..]
    } else {
        &[]
    }
}
