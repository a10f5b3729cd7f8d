//! A board of 5,000 nodes and an overlay of 1,000 fixups: to blobs, through the overlay, to text and to the blob again.
//!
//! No clause says that memory is there, so a body that gives up at great inputs would meet all contracts. What each step must
//! give is laid out here line by line (Devicetree Specification v0.4, chapter 6; dt-object-internal, sections 2 and 3).

use crate::answers::printed;
use crate::compiling::compiled;
use dtman_engine::{dump_bytes, overlay_bytes};
use std::alloc::Global;
use std::hash::RandomState;
use std::process::Abort;

const NODES: u32 = 5_000;

/// The fragments of the overlay, each with a fixup at its target and one in a value.
const FRAGMENTS: u32 = 500;

/// The node that a node names: the first names the last, and so on.
fn opposite(node: u32) -> u32 {
    4_999u32.saturating_sub(node)
}

/// The phandle of a node: the last is named first.
fn phandle_of(node: u32) -> u32 {
    NODES.saturating_sub(node)
}

fn board_source(rt: &impl Abort, alloc: Global) -> String {
    let mut source = String::new(alloc);
    source.push_str("/dts-v1/; / { ").expect(rt, "memory");
    for node in 0..NODES {
        let other = opposite(node);
        write!(&mut source, "l{node}: n{node} {{ r = <&l{other}>; }}; ").expect(rt, "memory");
    }
    source.push_str("};").expect(rt, "memory");
    source
}

fn overlay_source(rt: &impl Abort, alloc: Global) -> String {
    let mut source = String::new(alloc);
    source.push_str("/dts-v1/; /plugin/; ").expect(rt, "memory");
    for node in 0..FRAGMENTS {
        let other = opposite(node);
        write!(&mut source, "&l{node} {{ s = <&l{other}>; }}; ").expect(rt, "memory");
    }
    source
}

// A node as it is printed, with what the overlay gives it where it extends it.
fn put_node(rt: &impl Abort, text: &mut String, node: u32, extended: u32) {
    let named = phandle_of(opposite(node));
    let phandle = phandle_of(node);
    write!(
        text,
        "\tn{node} {{\n\t\tr = <0x{named:08x}>;\n\t\tphandle = <0x{phandle:08x}>;\n"
    )
    .expect(rt, "memory");
    if node < extended {
        write!(text, "\t\ts = <0x{named:08x}>;\n").expect(rt, "memory");
    }
    text.push_str("\t};\n").expect(rt, "memory");
}

// The board's text, with the first nodes extended.
fn board_text(rt: &impl Abort, alloc: Global, extended: u32) -> String {
    let mut text = String::new(alloc);
    text.push_str("/dts-v1/;\n\n/ {\n").expect(rt, "memory");
    for node in 0..NODES {
        put_node(rt, &mut text, node, extended);
    }
    text.push_str("\t__symbols__ {\n").expect(rt, "memory");
    for node in 0..NODES {
        write!(&mut text, "\t\tl{node} = \"/n{node}\";\n").expect(rt, "memory");
    }
    text.push_str("\t};\n};\n").expect(rt, "memory");
    text
}

fn is_printed(rt: &impl Abort, alloc: Global, blob: &[u8], extended: u32) -> bool {
    let text = printed(rt, alloc, dump_bytes(alloc, blob));
    text.as_slice() == board_text(rt, alloc, extended).as_bytes()
}

// That the text of the extended board is compiled to this blob.
fn comes_back(rt: &impl Abort, alloc: Global, hasher: RandomState, blob: &[u8]) -> bool {
    let text = board_text(rt, alloc, FRAGMENTS);
    let again = compiled(rt, alloc, hasher, text.as_str(), false);
    again.as_slice() == blob
}

/// Row `great board`.
#[test]
fn great_board(rt: HostRuntime) {
    let alloc = rt.alloc();
    let hasher = RandomState::new(&rt).expect(&rt, "a seed");
    let source = board_source(&rt, alloc);
    let base = compiled(&rt, alloc, hasher, source.as_str(), true);
    assert!(rt; is_printed(&rt, alloc, base.as_slice(), 0));
    let source = overlay_source(&rt, alloc);
    let overlay = compiled(&rt, alloc, hasher, source.as_str(), false);
    let answer = overlay_bytes(alloc, hasher, base.as_slice(), overlay.as_slice());
    let blob = printed(&rt, alloc, answer);
    assert!(rt; is_printed(&rt, alloc, blob.as_slice(), FRAGMENTS));
    assert!(rt; comes_back(&rt, alloc, hasher, blob.as_slice()));
}
