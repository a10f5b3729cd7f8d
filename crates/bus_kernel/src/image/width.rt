//! The word size of a kernel.
ghost use Rattle.std.specs.Prelude.{◌≡◌};
ghost use Rattle.bus_kernel.specs.Image.Width.{bytes_of, elf_width, told_width};

use crate::image::magic::has_at;

/// The word size by which tables are laid out.
#[derive(Clone, Copy, Debug, PartialEq, Eq)]
pub enum Width {
    Four,
    Eight,
}

impl Width {
    /// The bytes of a pointer.
    pub fn bytes(self) -> usize
        ensures { result ≡ bytes_of self }
    {
        match self {
            Width::Four => 4,
            Width::Eight => 8,
        }
    }
}

// The class that an ELF file tells (ELF-64 Object File Format 1.5, section 4).
fn elf_width(image: &[u8]) -> Option<Width>
    ensures { result ≡ elf_width image.now }
{
    if has_at(image, 4, b"\x01") {
        return Some(Width::Four);
    }
    if has_at(image, 4, b"\x02") {
        return Some(Width::Eight);
    }
    None
}

/// The width that an image tells: an arm64 `Image` has words of eight bytes, an ELF file those of its class.
pub fn told_width(image: &[u8]) -> Option<Width>
    ensures { result ≡ told_width image.now }
{
    if has_at(image, 56, b"ARMd") {
        return Some(Width::Eight);
    }
    if has_at(image, 0, b"\x7fELF") {
        return elf_width(image);
    }
    None
}
