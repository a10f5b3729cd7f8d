//! Bytes by which a file tells its kind.
ghost use Rattle.std.specs.Prelude.{◌≡◌};
ghost use Rattle.bus_kernel.specs.Image.Magic.{has_at};

use crate::slices::behind;

/// Whether these bytes stand at this offset.
pub(crate) fn has_at(image: &[u8], at: usize, magic: &[u8]) -> bool
    ensures { result ≡ has_at at magic.now image.now }
{
    behind(image, at).starts_with(magic)
}
