//! Blobs: written, read, changed; canonical sources.
use dt_blob::{ReadError, blob_holds, one_tree, read, source_text, write};
use dt_tree::{Bytes, Name, Node, Property, Tree};
use std::alloc::Global;
use std::hash::RandomState;
use std::process::Abort;

/// The words of a structure block: a root with `a = <1>` (at 8) and a node `n` (at 24), in which an empty `b` stands (at 32).
pub(crate) const NESTED: &[u32] = &[1, 0, 3, 4, 0, 1, 1, 0x6e00_0000, 3, 0, 2, 2, 2, 9];

/// And its strings.
pub(crate) const NESTED_STRINGS: &[u8] = b"a\0b\0";

/// A root with the one property `a = <1>`.
pub(crate) const ONE_CELL: &[u8] =
    b"\xd0\x0d\xfe\xed\x00\x00\x00\x5a\x00\x00\x00\x38\x00\x00\x00\x58\x00\x00\x00\x28\x00\x00\x00\x11\x00\x00\x00\x10\x00\x00\x00\x00\x00\x00\x00\x02\x00\x00\x00\x20\x00\x00\x00\x00\x00\x00\x00\x00\x00\x00\x00\x00\x00\x00\x00\x00\x00\x00\x00\x01\x00\x00\x00\x00\x00\x00\x00\x03\x00\x00\x00\x04\x00\x00\x00\x00\x00\x00\x00\x01\x00\x00\x00\x02\x00\x00\x00\x09\x61\x00";

/// The same bytes with one word changed.
pub(crate) fn changed(
    rt: &impl Abort,
    alloc: Global,
    blob: &[u8],
    at: usize,
    word: u32,
) -> Vec<u8> {
    let new = word.to_be_bytes();
    let mut bytes = Vec::new(alloc);
    for (place, byte) in blob.iter().enumerate() {
        let byte = match place.checked_sub(at) {
            Some(0) => new[0],
            Some(1) => new[1],
            Some(2) => new[2],
            Some(3) => new[3],
            _ => *byte,
        };
        bytes.push(byte).expect(rt, "memory");
    }
    bytes
}

fn push_words(rt: &impl Abort, bytes: &mut Vec<u8>, words: &[u32]) {
    for word in words {
        bytes
            .extend_from_slice(&word.to_be_bytes())
            .expect(rt, "memory");
    }
}

/// A blob without reservations, of the words of the structure block and the strings.
pub(crate) fn blob(rt: &impl Abort, alloc: Global, structure: &[u32], strings: &[u8]) -> Vec<u8> {
    let size = (structure.len() % 1000 * 4) as u32;
    let text = (strings.len() % 1000) as u32;
    let mut bytes = Vec::new(alloc);
    push_words(
        rt,
        &mut bytes,
        &[
            0xd00d_feed,
            56 + size + text,
            56,
            56 + size,
            40,
            17,
            16,
            0,
            text,
            size,
        ],
    );
    push_words(rt, &mut bytes, &[0, 0, 0, 0]);
    push_words(rt, &mut bytes, structure);
    bytes.extend_from_slice(strings).expect(rt, "memory");
    bytes
}

/// The number of the refusal, or none.
pub(crate) fn refusal(outcome: Result<Tree, ReadError>) -> Option<u8> {
    match outcome {
        Ok(_) => None,
        Err(e) => Some(e.kind.number()),
    }
}

pub(crate) fn is_one_cell(
    rt: &impl Abort,
    alloc: Global,
    hasher: RandomState,
    bytes: &[u8],
) -> bool {
    let tree = read(alloc, bytes).expect(rt, "a tree");
    let again = write(alloc, hasher, &tree).expect(rt, "a blob");
    again.as_slice() == ONE_CELL
}

/// Blobs of one-cell's tree: words of the structure block, and strings.
const OF_ONE_CELL: &[(&str, &[u32], &[u8])] = &[
    ("a NOP", &[1, 0, 4, 3, 4, 0, 1, 2, 9], b"a\0"),
    (
        "NOPs wherever they may be",
        &[4, 1, 0, 4, 4, 3, 4, 0, 1, 4, 2, 4, 9],
        b"a\0",
    ),
    (
        "a name behind other strings",
        &[1, 0, 3, 4, 2, 1, 2, 9],
        b"bba\0",
    ),
];

fn makes_one_cell(
    rt: &impl Abort,
    alloc: Global,
    hasher: RandomState,
    structure: &[u32],
    strings: &[u8],
) -> bool {
    let bytes = blob(rt, alloc, structure, strings);
    is_one_cell(rt, alloc, hasher, bytes.as_slice())
}

/// Whether a blob with one word changed is one of one-cell's tree.
fn stays_one_cell(
    rt: &impl Abort,
    alloc: Global,
    hasher: RandomState,
    blob: &[u8],
    at: usize,
    word: u32,
) -> bool {
    let bytes = changed(rt, alloc, blob, at, word);
    is_one_cell(rt, alloc, hasher, bytes.as_slice())
}

fn longer_is_one_cell(rt: &impl Abort, alloc: Global, hasher: RandomState) -> bool {
    let mut longer = Vec::from_slice(alloc, ONE_CELL).expect(rt, "memory");
    longer.extend_from_slice(b"more").expect(rt, "memory");
    is_one_cell(rt, alloc, hasher, longer.as_slice())
}

fn gap_is_one_cell(rt: &impl Abort, alloc: Global, hasher: RandomState) -> bool {
    let gap = blob(rt, alloc, &[1, 0, 3, 4, 0, 1, 2, 9, 0], b"a\0");
    stays_one_cell(rt, alloc, hasher, gap.as_slice(), 0x24, 0x20)
}

#[test]
fn changed_blob(rt: HostRuntime) {
    let alloc = rt.alloc();
    let hasher = RandomState::new(&rt).expect(&rt, "a seed");
    blob_holds();
    one_tree();
    assert!(rt; is_one_cell(&rt, alloc, hasher, ONE_CELL));
    for &(name, structure, strings) in OF_ONE_CELL {
        assert!(rt;
            makes_one_cell(&rt, alloc, hasher, structure, strings),
            "{name}"
        );
    }
    assert!(rt; longer_is_one_cell(&rt, alloc, hasher));
    assert!(rt; gap_is_one_cell(&rt, alloc, hasher));
    assert!(rt; stays_one_cell(&rt, alloc, hasher, ONE_CELL, 0x14, 18));
}

// A place in one-cell's blob, the word that is put there, and the number of the refusal.
pub(crate) const CHANGED: &[(usize, u32, u8)] = &[
    (0x24, 0xffff_fffc, 33),
    (0x24, 0x1c, 34),
    (0x10, 0x48, 33),
    (0x20, 1, 35),
    (0x44, 0xffff_ffff, 34),
    (0x48, 1, 37),
    (0x48, 2, 35),
    (0x00, 0xd00d_feec, 31),
    (0x14, 3, 32),
    (0x14, 15, 32),
    (0x18, 18, 32),
    (0x04, 0x5b, 30),
    (0x04, 0x27, 33),
    (0x08, 0x3a, 33),
    (0x0c, 0x59, 33),
    (0x10, 0x2c, 33),
    (0x10, 0x80, 33),
    (0x38, 2, 34),
    (0x40, 5, 34),
    (0x54, 4, 34),
];

fn changed_refusal(rt: &impl Abort, alloc: Global, at: usize, word: u32) -> Option<u8> {
    let bytes = changed(rt, alloc, ONE_CELL, at, word);
    refusal(read(alloc, bytes.as_slice()))
}

fn is_refused_changed(rt: &impl Abort, alloc: Global, row: &(usize, u32, u8)) {
    let (at, word, number) = *row;
    let told = changed_refusal(rt, alloc, at, word);
    assert_eq!(rt; told, Some(number), "{at} {word}");
}

#[test]
fn changed_words(rt: HostRuntime) {
    for row in CHANGED {
        is_refused_changed(&rt, rt.alloc(), row);
    }
}

fn cut_is_refused(rt: &impl Abort, alloc: Global, cut: &[u8]) {
    let told = refusal(read(alloc, cut));
    assert_eq!(rt; told, Some(30), "{}", cut.len());
}

#[test]
fn every_cut(rt: HostRuntime) {
    let alloc = rt.alloc();
    let hasher = RandomState::new(&rt).expect(&rt, "a seed");
    let mut cut = Vec::new(alloc);
    for byte in ONE_CELL {
        cut_is_refused(&rt, alloc, cut.as_slice());
        cut.push(*byte).expect(&rt, "memory");
    }
    assert!(rt; is_one_cell(&rt, alloc, hasher, cut.as_slice()));
}

// What is wrong with a structure block, its words, and the number of the refusal.
pub(crate) const BAD_TOKENS: &[(&str, &[u32], u8)] = &[
    (
        "a property after a child",
        &[1, 0, 1, 0x6e00_0000, 2, 3, 0, 0, 2, 9],
        36,
    ),
    ("a name without its zero byte", &[1, 0x6e6e_6e6e], 35),
    ("a root with a name", &[1, 0x6e00_0000, 2, 9], 37),
    ("an unlawful name", &[1, 0, 1, 0x2f00_0000, 2, 2, 9], 37),
    ("equal properties", &[1, 0, 3, 0, 0, 3, 0, 0, 2, 9], 37),
    (
        "equal children",
        &[1, 0, 1, 0x6e00_0000, 2, 1, 0x6e00_0000, 2, 2, 9],
        37,
    ),
    ("two roots", &[1, 0, 2, 1, 0, 2, 9], 34),
    ("END in a node", &[1, 0, 9], 34),
    ("no END", &[1, 0, 2], 34),
    ("no root", &[9], 34),
    ("END_NODE first", &[2, 9], 34),
    ("a property first", &[3, 0, 0, 1, 0, 2, 9], 34),
    ("an unknown token", &[1, 0, 5, 2, 9], 34),
    ("an offset at the strings' end", &[1, 0, 3, 0, 2, 2, 9], 35),
    ("an offset past the strings", &[1, 0, 3, 0, 3, 2, 9], 35),
    ("a cut PROP", &[1, 0, 3, 0], 34),
    ("a value past the block", &[1, 0, 3, 9, 0, 2, 9], 34),
    (
        "a value past the block, an offset past the strings",
        &[1, 0, 3, 9, 3, 2, 9],
        34,
    ),
    (
        "equal properties, then a bad token",
        &[1, 0, 3, 0, 0, 3, 0, 0, 5],
        34,
    ),
    ("bytes behind END", &[1, 0, 2, 9, 0], 34),
    ("a NOP behind END", &[1, 0, 2, 9, 4], 34),
];

fn structure_refusal(
    rt: &impl Abort,
    alloc: Global,
    structure: &[u32],
    strings: &[u8],
) -> Option<u8> {
    let bytes = blob(rt, alloc, structure, strings);
    refusal(read(alloc, bytes.as_slice()))
}

pub(crate) fn is_told(rt: &impl Abort, told: Option<u8>, number: Option<u8>, name: &str) {
    assert_eq!(rt; told, number, "{name}");
}

#[test]
fn faults_of_tokens(rt: HostRuntime) {
    for (name, structure, number) in BAD_TOKENS {
        let told = structure_refusal(&rt, rt.alloc(), *structure, b"a\0");
        is_told(&rt, told, Some(*number), *name);
    }
}

/// A root with so many nodes below one another.
fn nested(rt: &impl Abort, alloc: Global, depth: usize) -> Vec<u8> {
    let mut words = Vec::from_slice(alloc, &[1, 0]).expect(rt, "memory");
    for _ in 0..depth {
        words
            .extend_from_slice(&[1, 0x6e00_0000])
            .expect(rt, "memory");
    }
    for _ in 0..depth {
        words.push(2).expect(rt, "memory");
    }
    words.extend_from_slice(&[2, 9]).expect(rt, "memory");
    blob(rt, alloc, words.as_slice(), b"")
}

#[test]
fn depth(rt: HostRuntime) {
    let alloc = rt.alloc();
    assert_eq!(rt;
        refusal(read(alloc, nested(&rt, alloc, 64).as_slice())),
        None
    );
    assert_eq!(rt;
        refusal(read(alloc, nested(&rt, alloc, 65).as_slice())),
        Some(37)
    );
}

// What is cut, the words of the structure block, the size that it is told to have, and the number of the refusal.
const CUT: &[(&str, &[u32], u32, Option<u8>)] = &[
    ("all of it", &[1, 0, 2, 9], 16, None),
    ("of a node's name", &[1, 0, 2, 9], 6, Some(34)),
    (
        "of a node's name, without its zero byte",
        &[1, 0x6e6e_6e6e, 2, 9],
        6,
        Some(35),
    ),
    (
        "of a value",
        &[1, 0, 3, 1, 0, 0x6100_0000, 2, 9],
        21,
        Some(34),
    ),
];

fn cut_blob(rt: &impl Abort, alloc: Global, structure: &[u32], size: u32) -> Vec<u8> {
    let bytes = blob(rt, alloc, structure, b"a\0");
    changed(rt, alloc, bytes.as_slice(), 0x24, size)
}

fn cut_refusal(rt: &impl Abort, alloc: Global, structure: &[u32], size: u32) -> Option<u8> {
    let bytes = cut_blob(rt, alloc, structure, size);
    refusal(read(alloc, bytes.as_slice()))
}

#[test]
fn cut_padding(rt: HostRuntime) {
    for (name, structure, size, number) in CUT {
        let told = cut_refusal(&rt, rt.alloc(), *structure, *size);
        is_told(&rt, told, *number, *name);
    }
}

const UNLAWFUL: &[(&str, &[u32], u8)] = &[
    ("in a node", &[1, 0, 3, 0, 0, 2, 9], 37),
    (
        "behind a child",
        &[1, 0, 1, 0x6e00_0000, 2, 3, 0, 0, 2, 9],
        36,
    ),
];

#[test]
fn unlawful_property_names(rt: HostRuntime) {
    for (name, structure, number) in UNLAWFUL {
        let told = structure_refusal(&rt, rt.alloc(), *structure, b"/\0");
        is_told(&rt, told, Some(*number), *name);
    }
}

fn property(rt: &impl Abort, alloc: Global, name: &[u8], value: &[u8]) -> Property {
    let value = Bytes::from_vec(Vec::from_slice(alloc, value).expect(rt, "memory"));
    let name = Name::new(alloc, name).expect(rt, "a name");
    Property { name, value }
}

/// A root with these properties and no children.
fn root(rt: &impl Abort, alloc: Global, properties: &[(&[u8], &[u8])]) -> Node {
    let mut list = Vec::new(alloc);
    for (name, value) in properties {
        let property = property(rt, alloc, name, value);
        list.push(property).expect(rt, "memory");
    }
    Node::new(alloc, None, list, Vec::new(alloc)).expect(rt, "a node")
}

/// A tree of that root.
fn tree(
    rt: &impl Abort,
    alloc: Global,
    reserves: &[(u64, u64)],
    properties: &[(&[u8], &[u8])],
) -> Tree {
    let reserves = Vec::from_slice(alloc, reserves).expect(rt, "memory");
    Tree::new(reserves, 0, root(rt, alloc, properties)).expect(rt, "a tree")
}

/// A row: its name, reserves, the root's properties, the blob and the text.
#[derive(Clone, Copy, Drop)]
struct Row {
    name: &'static str,
    reserves: &'static [(u64, u64)],
    properties: &'static [(&'static [u8], &'static [u8])],
    blob: &'static [u8],
    text: &'static [u8],
}

const WRITTEN: &[Row] = &[
    Row {
        name: "empty-root",
        reserves: &[],
        properties: &[],
        blob: b"\xd0\x0d\xfe\xed\x00\x00\x00\x48\x00\x00\x00\x38\x00\x00\x00\x48\x00\x00\x00\x28\x00\x00\x00\x11\x00\x00\x00\x10\x00\x00\x00\x00\x00\x00\x00\x00\x00\x00\x00\x10\x00\x00\x00\x00\x00\x00\x00\x00\x00\x00\x00\x00\x00\x00\x00\x00\x00\x00\x00\x01\x00\x00\x00\x00\x00\x00\x00\x02\x00\x00\x00\x09",
        text: b"/dts-v1/;\n\n/ {\n};\n",
    },
    Row {
        name: "one-cell",
        reserves: &[],
        properties: &[(b"a", b"\0\0\0\x01")],
        blob: b"\xd0\x0d\xfe\xed\x00\x00\x00\x5a\x00\x00\x00\x38\x00\x00\x00\x58\x00\x00\x00\x28\x00\x00\x00\x11\x00\x00\x00\x10\x00\x00\x00\x00\x00\x00\x00\x02\x00\x00\x00\x20\x00\x00\x00\x00\x00\x00\x00\x00\x00\x00\x00\x00\x00\x00\x00\x00\x00\x00\x00\x01\x00\x00\x00\x00\x00\x00\x00\x03\x00\x00\x00\x04\x00\x00\x00\x00\x00\x00\x00\x01\x00\x00\x00\x02\x00\x00\x00\x09\x61\x00",
        text: b"/dts-v1/;\n\n/ {\n\ta = <0x00000001>;\n};\n",
    },
    Row {
        name: "suffix-sharing",
        reserves: &[],
        properties: &[(b"xreg", b""), (b"reg", b"")],
        blob: b"\xd0\x0d\xfe\xed\x00\x00\x00\x65\x00\x00\x00\x38\x00\x00\x00\x60\x00\x00\x00\x28\x00\x00\x00\x11\x00\x00\x00\x10\x00\x00\x00\x00\x00\x00\x00\x05\x00\x00\x00\x28\x00\x00\x00\x00\x00\x00\x00\x00\x00\x00\x00\x00\x00\x00\x00\x00\x00\x00\x00\x01\x00\x00\x00\x00\x00\x00\x00\x03\x00\x00\x00\x00\x00\x00\x00\x00\x00\x00\x00\x03\x00\x00\x00\x00\x00\x00\x00\x01\x00\x00\x00\x02\x00\x00\x00\x09\x78\x72\x65\x67\x00",
        text: b"/dts-v1/;\n\n/ {\n\txreg;\n\treg;\n};\n",
    },
    Row {
        name: "reservation",
        reserves: &[(0x1000, 0x2000)],
        properties: &[],
        blob: b"\xd0\x0d\xfe\xed\x00\x00\x00\x58\x00\x00\x00\x48\x00\x00\x00\x58\x00\x00\x00\x28\x00\x00\x00\x11\x00\x00\x00\x10\x00\x00\x00\x00\x00\x00\x00\x00\x00\x00\x00\x10\x00\x00\x00\x00\x00\x00\x10\x00\x00\x00\x00\x00\x00\x00\x20\x00\x00\x00\x00\x00\x00\x00\x00\x00\x00\x00\x00\x00\x00\x00\x00\x00\x00\x00\x00\x01\x00\x00\x00\x00\x00\x00\x00\x02\x00\x00\x00\x09",
        text: b"/dts-v1/;\n\n/memreserve/ 0x0000000000001000 0x0000000000002000;\n/ {\n};\n",
    },
];

fn row_is_written(rt: &impl Abort, alloc: Global, hasher: RandomState, tree: &Tree, row: &Row) {
    let blob = write(alloc, hasher, tree).expect(rt, "a blob");
    assert!(rt; blob.as_slice() == row.blob, "{}", row.name);
    let text = source_text(alloc, tree).expect(rt, "a text");
    assert!(rt; text.as_slice() == row.text, "{}", row.name);
}

fn row_holds(rt: &impl Abort, alloc: Global, hasher: RandomState, row: &Row) {
    let tree = tree(rt, alloc, row.reserves, row.properties);
    row_is_written(rt, alloc, hasher, &tree, row);
}

#[test]
fn written_rows(rt: HostRuntime) {
    let hasher = RandomState::new(&rt).expect(&rt, "a seed");
    for row in WRITTEN {
        row_holds(&rt, rt.alloc(), hasher, row);
    }
}

/// A property of each form of values.
const FORMS: &[(&[u8], &[u8])] = &[
    (b"s", b"a\0b\0"),
    (b"e", b""),
    (b"n", b"\0\0\0\0"),
    (b"o", b"\"\\\0"),
    (b"h", b"a"),
];

const FORMS_TEXT: &[u8] =
    b"/dts-v1/;\n\n/ {\n\ts = \"a\", \"b\";\n\te;\n\tn = <0x00000000>;\n\to = \"\\\"\\\\\";\n\th = [61];\n};\n";

fn text_is(rt: &impl Abort, alloc: Global, tree: &Tree, wanted: &[u8]) {
    let text = source_text(alloc, tree).expect(rt, "a text");
    assert!(rt; text.as_slice() == wanted);
}

#[test]
fn value_forms(rt: HostRuntime) {
    let tree = tree(&rt, rt.alloc(), &[], FORMS);
    text_is(&rt, rt.alloc(), &tree, FORMS_TEXT);
}

/// Properties whose names are tails of one another.
const TAILS: &[(&[u8], &[u8])] = &[(b"reg", b""), (b"xreg", b""), (b"g", b""), (b"eg", b"")];

fn tails_are_shared(rt: &impl Abort, alloc: Global, hasher: RandomState, tree: &Tree) {
    let wanted = blob(
        rt,
        alloc,
        &[1, 0, 3, 0, 0, 3, 0, 4, 3, 0, 2, 3, 0, 1, 2, 9],
        b"reg\0xreg\0",
    );
    let written = write(alloc, hasher, tree).expect(rt, "a blob");
    assert!(rt; written.as_slice() == wanted.as_slice());
}

#[test]
fn tails_of_names(rt: HostRuntime) {
    let hasher = RandomState::new(&rt).expect(&rt, "a seed");
    let tree = tree(&rt, rt.alloc(), &[], TAILS);
    tails_are_shared(&rt, rt.alloc(), hasher, &tree);
}
