//! Properties of some KiB and of some MB: from a source to its blob, and through an overlay.
//!
//! No clause says that memory is there, so a body that gives up at long values would meet all contracts. The blob that each row
//! must give is laid out here word by word (Devicetree Specification v0.4, chapter 5).

use crate::answers::printed;
use dtman_engine::{compile_bytes, overlay_bytes};
use std::alloc::Global;
use std::hash::RandomState;
use std::process::Abort;

/// How a value is spelled.
#[derive(Clone, Copy)]
enum Spelling {
    Cells,
    Pairs,
    Text,
}

/// A value's text in a source, and its bytes.
#[derive(Drop)]
struct Long {
    text: Vec<u8>,
    bytes: Vec<u8>,
}

fn put(rt: &impl Abort, out: &mut Vec<u8>, bytes: &[u8]) {
    out.extend_from_slice(bytes).expect(rt, "memory");
}

fn hex_digit(number: u8) -> u8 {
    if number < 10 {
        number.wrapping_add(b'0')
    } else {
        number.wrapping_add(b'a').wrapping_sub(10)
    }
}

fn put_pair(rt: &impl Abort, out: &mut Vec<u8>, byte: u8) {
    put(rt, out, &[hex_digit(byte / 16), hex_digit(byte % 16)]);
}

fn put_cell(rt: &impl Abort, out: &mut Long, number: u32) {
    put(rt, &mut out.text, b" 0x");
    for byte in &number.to_be_bytes() {
        put_pair(rt, &mut out.text, *byte);
    }
    put(rt, &mut out.bytes, &number.to_be_bytes());
}

fn put_byte(rt: &impl Abort, out: &mut Long, byte: u8) {
    put_pair(rt, &mut out.text, byte);
    put(rt, &mut out.bytes, &[byte]);
}

fn put_letter(rt: &impl Abort, out: &mut Long, letter: u8) {
    put(rt, &mut out.text, &[letter]);
    put(rt, &mut out.bytes, &[letter]);
}

/// The numbers from 0 on as cells, a place below 256 as a byte in hex, letters in turn: 4 KiB of them, without the marks round them.
fn put_block(rt: &impl Abort, out: &mut Long, spelling: Spelling) {
    for place in 0..4_096u32 {
        match spelling {
            Spelling::Cells => {
                if place < 1_024 {
                    put_cell(rt, out, place);
                }
            }
            Spelling::Pairs => put_byte(rt, out, (place % 256) as u8),
            Spelling::Text => put_letter(rt, out, ((place % 26) as u8).wrapping_add(b'a')),
        }
    }
}

fn empty(alloc: Global) -> Long {
    Long {
        text: Vec::new(alloc),
        bytes: Vec::new(alloc),
    }
}

/// What stands before the value in the text, and behind it in the text and in the bytes.
#[derive(Clone, Copy)]
struct Marks {
    before: &'static [u8],
    behind: &'static [u8],
    end: &'static [u8],
}

fn marks_of(spelling: Spelling) -> Marks {
    let (before, behind, end) = match spelling {
        Spelling::Cells => (b"<".as_slice(), b">".as_slice(), b"".as_slice()),
        Spelling::Pairs => (b"[".as_slice(), b"]".as_slice(), b"".as_slice()),
        Spelling::Text => (b"\"".as_slice(), b"\"".as_slice(), b"\0".as_slice()),
    };
    Marks {
        before,
        behind,
        end,
    }
}

/// So many blocks of 4 KiB in one value.
fn long_value(rt: &impl Abort, alloc: Global, spelling: Spelling, blocks: u32) -> Long {
    let mut block = empty(alloc);
    put_block(rt, &mut block, spelling);
    let mut value = empty(alloc);
    let marks = marks_of(spelling);
    put(rt, &mut value.text, marks.before);
    for _ in 0..blocks {
        put(rt, &mut value.text, block.text.as_slice());
        put(rt, &mut value.bytes, block.bytes.as_slice());
    }
    put(rt, &mut value.text, marks.behind);
    put(rt, &mut value.bytes, marks.end);
    value
}

fn put_words(rt: &impl Abort, out: &mut Vec<u8>, words: &[u32]) {
    for word in words {
        put(rt, out, &word.to_be_bytes());
    }
}

/// The zero bytes behind a value, by how far its length lies above a multiple of 4.
const PADDING: &[&[u8]; 4] = &[b"", b"\0\0\0", b"\0\0", b"\0"];

/// The blob of a tree whose root has one property p, with this value.
fn blob_of(rt: &impl Abort, alloc: Global, value: &[u8]) -> Vec<u8> {
    let padding = PADDING[value.len() % 4];
    let size = (value.len() % 0x1000_0000) as u32;
    // BEGIN_NODE and no name, PROP with its two words and the value, END_NODE, END
    let structure = size.wrapping_add(padding.len() as u32).wrapping_add(28);
    let strings_at = structure.wrapping_add(56);
    let mut blob = Vec::new(alloc);
    put_words(
        rt,
        &mut blob,
        &[
            0xd00d_feed,
            strings_at.wrapping_add(2),
            56,
            strings_at,
            40,
            17,
            16,
            0,
            2,
            structure,
        ],
    );
    put_words(rt, &mut blob, &[0, 0, 0, 0]);
    put_words(rt, &mut blob, &[1, 0, 3, size, 0]);
    put(rt, &mut blob, value);
    put(rt, &mut blob, padding);
    put_words(rt, &mut blob, &[2, 9]);
    put(rt, &mut blob, b"p\0");
    blob
}

/// What a source compiles to, as three pieces of its text.
fn compiled(
    rt: &impl Abort,
    alloc: Global,
    hasher: RandomState,
    before: &[u8],
    value: &[u8],
    behind: &[u8],
) -> Vec<u8> {
    let mut source = Vec::new(alloc);
    put(rt, &mut source, before);
    put(rt, &mut source, value);
    put(rt, &mut source, behind);
    let answer = compile_bytes(alloc, hasher, source.as_slice(), false);
    printed(rt, alloc, answer)
}

/// A root with the value as its property p.
fn compiled_root(rt: &impl Abort, alloc: Global, hasher: RandomState, value: &[u8]) -> Vec<u8> {
    compiled(rt, alloc, hasher, b"/dts-v1/; / { p = ", value, b"; };")
}

/// An overlay that gives the value to the root's property p.
fn compiled_overlay(
    rt: &impl Abort,
    alloc: Global,
    hasher: RandomState,
    value: &[u8],
    behind: &[u8],
) -> Vec<u8> {
    let before = b"/dts-v1/; / { fragment@0 { target-path = \"/\"; __overlay__ { p = ";
    compiled(rt, alloc, hasher, before, value, behind)
}

fn is_blob(rt: &impl Abort, alloc: Global, blob: &[u8], value: &[u8]) {
    let wanted = blob_of(rt, alloc, value);
    assert!(rt; blob == wanted.as_slice());
}

fn is_overlaid(
    rt: &impl Abort,
    alloc: Global,
    hasher: RandomState,
    base: &Vec<u8>,
    overlay: &Vec<u8>,
    value: &Long,
) {
    let made = overlay_bytes(alloc, hasher, base.as_slice(), overlay.as_slice());
    let made = printed(rt, alloc, made);
    is_blob(rt, alloc, made.as_slice(), value.bytes.as_slice());
}

/// How many blocks of 4 KiB: two, and many, as a string of 2 MiB.
const ROWS: &[(Spelling, u32)] = &[
    (Spelling::Cells, 2),
    (Spelling::Cells, 64),
    (Spelling::Pairs, 2),
    (Spelling::Pairs, 16),
    (Spelling::Text, 2),
    (Spelling::Text, 512),
];

fn is_written(rt: &impl Abort, alloc: Global, hasher: RandomState, row: &(Spelling, u32)) {
    let value = long_value(rt, alloc, row.0, row.1);
    let blob = compiled_root(rt, alloc, hasher, value.text.as_slice());
    is_blob(rt, alloc, blob.as_slice(), value.bytes.as_slice());
}

#[test]
fn long_values_are_compiled(rt: HostRuntime) {
    let hasher = RandomState::new(&rt).expect(&rt, "a seed");
    for row in ROWS {
        is_written(&rt, rt.alloc(), hasher, row);
    }
}

/// The value in the overlay, over a root without properties.
fn is_merged(rt: &impl Abort, alloc: Global, hasher: RandomState, row: &(Spelling, u32)) {
    let value = long_value(rt, alloc, row.0, row.1);
    let base = compiled(rt, alloc, hasher, b"/dts-v1/; ", b"/ { };", b"");
    let overlay = compiled_overlay(rt, alloc, hasher, value.text.as_slice(), b"; }; }; };");
    is_overlaid(rt, alloc, hasher, &base, &overlay, &value);
}

#[test]
fn long_values_of_an_overlay_are_merged(rt: HostRuntime) {
    let hasher = RandomState::new(&rt).expect(&rt, "a seed");
    for row in ROWS {
        is_merged(&rt, rt.alloc(), hasher, row);
    }
}

/// The value in the base, whose overlay changes nothing.
fn is_kept(rt: &impl Abort, alloc: Global, hasher: RandomState, row: &(Spelling, u32)) {
    let value = long_value(rt, alloc, row.0, row.1);
    let base = compiled_root(rt, alloc, hasher, value.text.as_slice());
    let overlay = b"/ { fragment@0 { target-path = \"/\"; __overlay__ { }; }; };";
    let overlay = compiled(rt, alloc, hasher, b"/dts-v1/; ", overlay, b"");
    is_overlaid(rt, alloc, hasher, &base, &overlay, &value);
}

#[test]
fn long_values_of_a_base_are_kept(rt: HostRuntime) {
    let hasher = RandomState::new(&rt).expect(&rt, "a seed");
    for row in ROWS {
        is_kept(&rt, rt.alloc(), hasher, row);
    }
}

/// Raises the first cell of the second block, which is 0.
fn raise(bytes: &mut [u8]) {
    if let Some(byte) = bytes.get_mut(4_099) {
        *byte = 1;
    }
}

/// A phandle of the overlay's own in a long value: its base has none, so that it is raised by 1.
#[test]
fn phandles_in_long_values_are_raised(rt: HostRuntime) {
    let hasher = RandomState::new(&rt).expect(&rt, "a seed");
    let alloc = rt.alloc();
    let mut value = long_value(&rt, alloc, Spelling::Cells, 64);
    raise(value.bytes.as_mut_slice());
    let base = compiled(&rt, alloc, hasher, b"/dts-v1/; ", b"/ { };", b"");
    let behind = b"; }; }; __local_fixups__ { fragment@0 { __overlay__ { p = <4096>; }; }; }; };";
    let overlay = compiled_overlay(&rt, alloc, hasher, value.text.as_slice(), behind);
    is_overlaid(&rt, alloc, hasher, &base, &overlay, &value);
}
