//! Refusals of blobs: the word that they are of, and what was wanted there.

use super::shown::{diagnosed_blob, shows};
use dtman_diagnosis::example_of;
use std::alloc::Global;
use std::process::Abort;

/// The words of the blob of `/ { a = <1>; };`, whose strings are two bytes more.
const WORDS: &[u32] = &[
    // the header
    0xd00d_feed,
    0x5a,
    0x38,
    0x58,
    0x28,
    0x11,
    0x10,
    0,
    2,
    0x20,
    // no reservations, from 0x28 on
    0,
    0,
    0,
    0,
    // BEGIN_NODE and the root's name, PROP with its length, the place of its name and its value, END_NODE, END, from 0x38 on
    1,
    0,
    3,
    4,
    0,
    1,
    2,
    9,
];

// The blob with a word changed, and cut to a length.
fn changed(rt: &impl Abort, alloc: Global, offset: usize, word: u32, len: usize) -> Vec<u8> {
    let mut bytes = Vec::new(alloc);
    for (i, known) in WORDS.iter().enumerate() {
        let word = if i * 4 == offset { word } else { *known };
        bytes
            .extend_from_slice(word.to_be_bytes().as_slice())
            .expect(rt, "memory");
    }
    bytes
        .extend_from_slice(b"a\0".as_slice())
        .expect(rt, "memory");
    bytes.truncate(len);
    bytes
}

/// The offset of a word, what it is changed to, the length of the file, the number, and the lines of the refusal.
type Row = (usize, u32, usize, u8, &'static str);

const HEADERS: &[Row] = &[
    (
        0,
        0xd00d_feed,
        39,
        30,
        "error 30 Truncated\nb.dtb:0x24: the blob is cut\n = wanted is a header of 40 bytes\n",
    ),
    (
        0,
        0xd00d_feed,
        89,
        30,
        "error 30 Truncated\nb.dtb:0x4: the blob is cut\n = wanted is a size that the file has, and 0x0000005a stands there\n",
    ),
    (
        0,
        0xedfe_0dd0,
        90,
        31,
        "error 31 BadMagic\nb.dtb:0x0: this is no blob\n = wanted is the magic number 0xd00dfeed, and 0xedfe0dd0 stands there\n = the bytes of its words stand the other way round\n",
    ),
    (
        0x14,
        3,
        90,
        32,
        "error 32 BadVersion\nb.dtb:0x14: the version isn't one that can be read\n = wanted is version 16 or above, and 0x00000003 stands there\n",
    ),
    (
        0x18,
        18,
        90,
        32,
        "error 32 BadVersion\nb.dtb:0x18: the version isn't one that can be read\n = wanted is version 17 or below, by which the blob can be read, and 0x00000012 stands there\n",
    ),
    (
        0x8,
        0x3a,
        90,
        33,
        "error 33 BadLayout\nb.dtb:0x8: a block doesn't lie where it can\n = wanted is a structure block on a multiple of 4, and 0x0000003a stands there\n",
    ),
    (
        0x8,
        0x5c,
        90,
        33,
        "error 33 BadLayout\nb.dtb:0x8: a block doesn't lie where it can\n = wanted is a structure block inside the blob, and 0x0000005c stands there\n",
    ),
    (
        0x24,
        0x24,
        90,
        33,
        "error 33 BadLayout\nb.dtb:0x24: a block doesn't lie where it can\n = wanted is a structure block that ends inside the blob, and 0x00000024 stands there\n",
    ),
    (
        0x20,
        3,
        90,
        33,
        "error 33 BadLayout\nb.dtb:0x20: a block doesn't lie where it can\n = wanted is a strings block that ends inside the blob, and 0x00000003 stands there\n",
    ),
    (
        0x10,
        0x2c,
        90,
        33,
        "error 33 BadLayout\nb.dtb:0x10: a block doesn't lie where it can\n = wanted is reservations on a multiple of 8, and 0x0000002c stands there\n",
    ),
    // two pairs stand from 0x30 on, of the words 0 0 1 0 and 3 4 0 1: behind them fewer than 16 bytes are left
    (
        0x10,
        0x30,
        90,
        33,
        "error 33 BadLayout\nb.dtb:0x50: a block doesn't lie where it can\n = wanted is a pair of zeros that ends the reservations, and 0x00000002 stands there\n",
    ),
];

const STRUCTURES: &[Row] = &[
    (
        0x40,
        5,
        90,
        34,
        "error 34 BadToken\nb.dtb:0x40: the structure breaks off here\n = wanted is a token, which is 1, 2, 3, 4 or 9, and 0x00000005 stands there\n = in /\n",
    ),
    (
        0x44,
        0x40,
        90,
        34,
        "error 34 BadToken\nb.dtb:0x44: the structure breaks off here\n = wanted is the length of a value in the structure block, and 0x00000040 stands there\n = in /\n",
    ),
    (
        0x54,
        2,
        90,
        34,
        "error 34 BadToken\nb.dtb:0x54: the structure breaks off here\n = wanted is END, 9, behind the root, and 0x00000002 stands there\n = in /\n",
    ),
    (
        0x50,
        9,
        90,
        34,
        "error 34 BadToken\nb.dtb:0x54: the structure breaks off here\n = wanted is the end of the structure block behind END, and 0x00000009 stands there\n = in /\n",
    ),
    (
        0x50,
        4,
        90,
        34,
        "error 34 BadToken\nb.dtb:0x54: the structure breaks off here\n = wanted is END_NODE, 2, of each node before END, and 0x00000009 stands there\n = in /\n",
    ),
    (
        0x38,
        2,
        90,
        34,
        "error 34 BadToken\nb.dtb:0x38: the structure breaks off here\n = wanted is BEGIN_NODE, 1, of the root, and 0x00000002 stands there\n = in /\n",
    ),
    // the structure block ends with END_NODE; what stands behind it is no part of it
    (
        0x24,
        0x1c,
        90,
        34,
        "error 34 BadToken\nb.dtb:0x54: the structure breaks off here\n = wanted is a token before the structure block ends, and 0x00000009 stands there\n = in /\n",
    ),
    (
        0x48,
        2,
        90,
        35,
        "error 35 BadString\nb.dtb:0x48: a name doesn't end here, or isn't there\n = wanted is the place of a name, which ends with a zero byte, and 0x00000002 stands there\n = in /\n",
    ),
    (
        0x48,
        3,
        90,
        35,
        "error 35 BadString\nb.dtb:0x48: a name doesn't end here, or isn't there\n = wanted is a place in the strings block, and 0x00000003 stands there\n = in /\n",
    ),
    // the name at 1 is empty
    (
        0x48,
        1,
        90,
        37,
        "error 37 BadTree\nb.dtb:0x48: the nodes make no tree\n = wanted is the place of a lawful name, and 0x00000001 stands there\n = in /\n",
    ),
    (
        0x3c,
        0x6100_0000,
        90,
        37,
        "error 37 BadTree\nb.dtb:0x3c: the nodes make no tree\n = wanted is a root without a name, and 0x61000000 stands there\n = in /\n",
    ),
];

fn row_shows<R: Abort + AllocGlobal>(rt: &R, row: &Row) {
    let (offset, word, len, number, lines) = row;
    let blob = changed(rt, rt.alloc(), *offset, *word, *len);
    let diagnosis = diagnosed_blob(rt.alloc(), b"b.dtb".as_slice(), blob.as_slice(), *number);
    shows(rt, rt.alloc(), diagnosis, *lines);
}

#[test]
fn headers(rt: HostRuntime) {
    for row in HEADERS {
        row_shows(&rt, row);
    }
}

#[test]
fn structures(rt: HostRuntime) {
    for row in STRUCTURES {
        row_shows(&rt, row);
    }
}

/// A blob of a header with these words, a pair of zeros, and what stands behind.
pub fn blob(rt: &impl Abort, alloc: Global, words: &[u32], behind: &[u8]) -> Vec<u8> {
    let mut bytes = Vec::new(alloc);
    for word in words {
        bytes
            .extend_from_slice(word.to_be_bytes().as_slice())
            .expect(rt, "memory");
    }
    bytes.extend_from_slice(behind).expect(rt, "memory");
    bytes
}

/// The words from the header on of a blob without strings, whose structure block begins at 0x38, the number, and the lines.
type NestedRow = (&'static [u32], u8, &'static str);

const NESTED: &[NestedRow] = &[
    // `a` in `a`, and then a second `a` in the first, from 0x58 on
    (
        &[
            0xd00d_feed,
            0x70,
            0x38,
            0x28,
            0x28,
            0x11,
            0x10,
            0,
            0,
            0x38,
            0,
            0,
            0,
            0,
            1,
            0,
            1,
            0x6100_0000,
            1,
            0x6100_0000,
            2,
            1,
            0x6100_0000,
            2,
            2,
            2,
            9,
            4,
        ],
        37,
        "error 37 BadTree\nb.dtb:0x58: the nodes make no tree\n = wanted is another name than those before it in the node, and 0x61000000 stands there\n = in /a\n",
    ),
    // `b/` in `a`, at 0x4c
    (
        &[
            0xd00d_feed,
            0x60,
            0x38,
            0x28,
            0x28,
            0x11,
            0x10,
            0,
            0,
            0x28,
            0,
            0,
            0,
            0,
            1,
            0,
            1,
            0x6100_0000,
            1,
            0x622f_0000,
            2,
            2,
            2,
            9,
        ],
        37,
        "error 37 BadTree\nb.dtb:0x4c: the nodes make no tree\n = wanted is a lawful name of a node, and 0x622f0000 stands there\n = in /a\n",
    ),
    // in version 16 the block ends with the blob
    (
        &[
            0xd00d_feed,
            0x40,
            0x38,
            0x28,
            0x28,
            0x10,
            0x10,
            0,
            0,
            0xffff_ffff,
            0,
            0,
            0,
            0,
            1,
            0,
        ],
        34,
        "error 34 BadToken\nb.dtb:0x40: the structure breaks off here\n = wanted is a token before the structure block ends\n = in /\n",
    ),
];

fn nested_shows<R: Abort + AllocGlobal>(rt: &R, row: &NestedRow) {
    let (words, number, lines) = row;
    let blob = blob(rt, rt.alloc(), *words, b"".as_slice());
    let diagnosis = diagnosed_blob(rt.alloc(), b"b.dtb".as_slice(), blob.as_slice(), *number);
    shows(rt, rt.alloc(), diagnosis, *lines);
}

#[test]
fn nested(rt: HostRuntime) {
    for row in NESTED {
        nested_shows(&rt, row);
    }
}

const EMPTY: &[u32] = &[];

/// The examples of `explain`: a number, the words of the file, and what stands behind them.
const EXAMPLES: &[(u8, &[u32], &[u8])] = &[
    (30, EMPTY, b""),
    (31, &[0, 0, 0, 0, 0, 0, 0, 0, 0, 0], b""),
    (32, &[0xd00d_feed, 0, 0, 0, 0, 0, 0, 0, 0, 0], b""),
    (33, &[0xd00d_feed, 0, 0, 0, 0, 17, 0, 0, 0, 0], b""),
    (
        34,
        &[0xd00d_feed, 56, 40, 40, 40, 17, 16, 0, 0, 0, 0, 0, 0, 0],
        b"",
    ),
    (
        35,
        &[0xd00d_feed, 64, 56, 40, 40, 17, 16, 0, 0, 8, 0, 0, 0, 0, 1],
        b"aaaa",
    ),
    (
        36,
        &[
            0xd00d_feed,
            96,
            56,
            68,
            40,
            17,
            16,
            0,
            2,
            40,
            0,
            0,
            0,
            0,
            1,
            0,
            1,
            0x6100_0000,
            2,
            3,
            0,
            0,
            2,
            9,
        ],
        b"",
    ),
    (
        37,
        &[
            0xd00d_feed,
            72,
            56,
            40,
            40,
            17,
            16,
            0,
            0,
            16,
            0,
            0,
            0,
            0,
            1,
            0x6100_0000,
            2,
            9,
        ],
        b"",
    ),
];

fn example_shows<R: Abort + AllocGlobal>(rt: &R, row: &(u8, &[u32], &[u8])) {
    let (number, words, behind) = row;
    let blob = blob(rt, rt.alloc(), *words, *behind);
    let diagnosis = diagnosed_blob(rt.alloc(), b"IN".as_slice(), blob.as_slice(), *number);
    let lines = example_of(*number).expect(rt, "an example");
    shows(rt, rt.alloc(), diagnosis, lines);
}

#[test]
fn examples(rt: HostRuntime) {
    for row in EXAMPLES {
        example_shows(&rt, row);
    }
}

/// What would be too long has no place.
#[test]
fn too_long(rt: HostRuntime) {
    let file = b"IN".as_slice();
    let blob = blob(&rt, rt.alloc(), WORDS, b"a\0");
    let diagnosis = diagnosed_blob(rt.alloc(), file, blob.as_slice(), 38);
    let lines =
        "error 38 TooLarge\nIN: a blob or a text has at most 268,435,456 bytes\n = its text would have more\n";
    shows(&rt, rt.alloc(), diagnosis, lines);
}
