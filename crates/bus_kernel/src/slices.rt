//! Parts of slices.
ghost use Rattle.std.specs.Prelude.{◌≡◌, drop};

/// What stands behind so many bytes.
pub(crate) fn behind<'a>(bytes: &'a [u8], count: usize) -> &'a [u8]
    ensures { result.now ≡ drop count bytes.now }
{
    match bytes.get(count..) {
        Some(rest) => rest,
        None => &[],
    }
}
