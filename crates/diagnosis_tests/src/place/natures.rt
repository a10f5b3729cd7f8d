//! What a file is that is no blob: the bytes with which formats begin are those of their own documents.

use super::shown::{diagnosed_blob, shows};
use std::process::Abort;

/// The bytes of a file, the number by which it is refused, and what is told of it.
struct Row {
    bytes: &'static [u8],
    number: u8,
    lines: &'static str,
}

const ROWS: &[Row] = &[
    Row {
        bytes: b"",
        number: 30,
        lines: "refused\nb.dtb:0x0: the blob is cut\n = wanted is a header of 40 bytes\n = the file is empty\n",
    },
    Row {
        bytes: b"/dts-v1/;\n/ { };\n",
        number: 30,
        lines: "refused\nb.dtb:0x10: the blob is cut\n = wanted is a header of 40 bytes\n = it is a source: `dtman compile` makes a blob of it\n",
    },
    Row {
        bytes: b"// SPDX-License-Identifier: GPL-2.0\n\n\t/dts-v1/;\n/ { };\n",
        number: 31,
        lines: "refused\nb.dtb:0x0: this is no blob\n = wanted is the magic number 0xd00dfeed, and 0x2f2f2053 stands there\n = it is a source: `dtman compile` makes a blob of it\n",
    },
    Row {
        bytes: b"driver fixed regulator-fixed\ndriver serial ns16550a\n",
        number: 31,
        lines: "refused\nb.dtb:0x0: this is no blob\n = wanted is the magic number 0xd00dfeed, and 0x64726976 stands there\n = it is text\n",
    },
    Row {
        bytes: b"\x7fELF\x02\x01\x01\0\0\0\0\0\0\0\0\0\x02\0\xb7\0\x01\0\0\0\0\0\0\0\0\0\0\0\0\0\0\0\0\0\0\0\0\0\0\0",
        number: 31,
        lines: "refused\nb.dtb:0x0: this is no blob\n = wanted is the magic number 0xd00dfeed, and 0x7f454c46 stands there\n = it is an ELF file\n",
    },
    Row {
        bytes: b"\x1f\x8b\x08\0\0\0\0\0\0\x03",
        number: 30,
        lines: "refused\nb.dtb:0x8: the blob is cut\n = wanted is a header of 40 bytes\n = it is packed by gzip\n",
    },
    Row {
        bytes: b"\x27\x05\x19\x56\0\0\0\0",
        number: 30,
        lines: "refused\nb.dtb:0x8: the blob is cut\n = wanted is a header of 40 bytes\n = it is an image of U-Boot (uImage)\n",
    },
    // the beginning of a blob
    Row {
        bytes: b"\xd0\x0d\xfe\xed",
        number: 30,
        lines: "refused\nb.dtb:0x4: the blob is cut\n = wanted is a header of 40 bytes\n",
    },
    // bytes that say nothing
    Row {
        bytes: b"\0\x01\x02\x03",
        number: 30,
        lines: "refused\nb.dtb:0x4: the blob is cut\n = wanted is a header of 40 bytes\n",
    },
];

fn row_shows<R: Abort + AllocGlobal>(rt: &R, row: &Row) {
    let diagnosis = diagnosed_blob(rt.alloc(), b"b.dtb".as_slice(), row.bytes, row.number);
    shows(rt, rt.alloc(), diagnosis, row.lines);
}

#[test]
fn natures(rt: HostRuntime) {
    for row in ROWS {
        row_shows(&rt, row);
    }
}
