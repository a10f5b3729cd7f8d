//! What packs an image.
ghost use Rattle.std.specs.Prelude.{◌≡◌};
ghost use Rattle.bus_kernel.specs.Image.Packing.{compressed, packing_of};

use crate::image::magic::has_at;
use std::fmt;

/// How an image is packed, by its first bytes.
#[derive(Clone, Copy, Debug, PartialEq, Eq)]
pub enum Packing {
    /// No known packing: an arm64 `Image`, a `vmlinux`, or any other bytes.
    Plain,
    Gzip,
    Xz,
    Lzma,
    Lz4,
    Zstd,
    Bzip2,
    /// A 32-bit ARM `zImage`, which unpacks itself.
    ArmZImage,
    /// An EFI application that unpacks the kernel within it.
    EfiZboot,
}

impl Packing {
    /// The packing's name.
    pub fn name(&self) -> &'static str {
        match self {
            Packing::Plain => "plain",
            Packing::Gzip => "gzip",
            Packing::Xz => "xz",
            Packing::Lzma => "lzma",
            Packing::Lz4 => "lz4",
            Packing::Zstd => "zstd",
            Packing::Bzip2 => "bzip2",
            Packing::ArmZImage => "zImage",
            Packing::EfiZboot => "EFI zboot",
        }
    }

    /// The command that unpacks such an image to its standard output, where it is packed. `extract-vmlinux` stands in the kernel's
    /// `scripts`.
    pub fn command(&self) -> Option<&'static str> {
        match self {
            Packing::Plain => None,
            Packing::Gzip => Some("gzip -dc"),
            Packing::Xz => Some("xz -dc"),
            Packing::Lzma => Some("xz -dc --format=lzma"),
            Packing::Lz4 => Some("lz4 -dc"),
            Packing::Zstd => Some("zstd -dc"),
            Packing::Bzip2 => Some("bzip2 -dc"),
            Packing::ArmZImage => Some("extract-vmlinux"),
            Packing::EfiZboot => Some("extract-vmlinux"),
        }
    }
}

impl fmt::Display for Packing {
    fn fmt<W: fmt::Write>(&self, f: &mut fmt::Formatter<W>) -> fmt::Result {
        f.write_str(self.name())
    }
}

// What packs a file, by the magic of compressed files.
fn compressed(image: &[u8]) -> Packing
    ensures { result ≡ compressed image.now }
{
    if has_at(image, 0, b"\x1f\x8b") {
        Packing::Gzip
    } else if has_at(image, 0, b"\xfd7zXZ\0") {
        Packing::Xz
    } else if has_at(image, 0, b"\x5d\0\0") {
        Packing::Lzma
    } else if has_at(image, 0, b"\x02\x21\x4c\x18") || has_at(image, 0, b"\x04\x22\x4d\x18") {
        Packing::Lz4
    } else if has_at(image, 0, b"\x28\xb5\x2f\xfd") {
        Packing::Zstd
    } else if has_at(image, 0, b"BZh") {
        Packing::Bzip2
    } else {
        Packing::Plain
    }
}

/// What packs an image: that of a kernel that unpacks itself, or of a compressed file (the formats' own magic numbers; of a `zImage`
/// that of Linux, `arch/arm/boot/compressed/head.S`; of an EFI zboot `drivers/firmware/efi/libstub/zboot-header.S`).
pub fn packing_of(image: &[u8]) -> Packing
    ensures { result ≡ packing_of image.now }
{
    if has_at(image, 0, b"MZ") && has_at(image, 4, b"zimg") {
        return Packing::EfiZboot;
    }
    if has_at(image, 36, b"\x18\x28\x6f\x01") {
        return Packing::ArmZImage;
    }
    compressed(image)
}
