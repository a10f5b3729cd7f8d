//! What packs an image, and its width.

use bus_kernel::image::{Packing, Width, packing_of, told_width};

const ROWS: &[(&[u8], Packing)] = &[
    (b"", Packing::Plain),
    (b"\x1f", Packing::Plain),
    (b"\x1f\x8b\x08", Packing::Gzip),
    (b"\xfd7zXZ\0\0\x04", Packing::Xz),
    (b"\x5d\0\0\x80\0", Packing::Lzma),
    (b"\x02\x21\x4c\x18", Packing::Lz4),
    (b"\x04\x22\x4d\x18", Packing::Lz4),
    (b"\x28\xb5\x2f\xfd", Packing::Zstd),
    (b"BZh9", Packing::Bzip2),
    (b"MZ\0\0zimg", Packing::EfiZboot),
    (b"MZ@\xfazimh", Packing::Plain),
    (
        b"\0\0\0\0\0\0\0\0\0\0\0\0\0\0\0\0\0\0\0\0\0\0\0\0\0\0\0\0\0\0\0\0\0\0\0\0\x18\x28\x6f\x01",
        Packing::ArmZImage,
    ),
];

#[test]
fn packings(rt: HostRuntime) {
    for (image, packing) in ROWS {
        assert_eq!(rt; packing_of(*image), *packing);
    }
}

#[test]
fn widths(rt: HostRuntime) {
    assert_eq!(rt; told_width(b"\x7fELF\x01"), Some(Width::Four));
    assert_eq!(rt; told_width(b"\x7fELF\x02"), Some(Width::Eight));
    assert_eq!(rt; told_width(b"\x7fELF\x03"), None);
    let mut image = [0u8; 60];
    assert_eq!(rt; told_width(&image), None);
    image[56..].copy_from_slice(b"ARMd");
    assert_eq!(rt; told_width(&image), Some(Width::Eight));
}
