//! Merging a node into a tree: the canonical source of the new tree, and the refusals.
use crate::tree::growing::{Call, Step, grown};
use dt_blob::source_text;
use dt_tree::{Name, Node, Path, Tree, TreeError};
use std::alloc::Global;
use std::process::Abort;

/// The tree that each row begins with.
const BASE: &[u8] =
    b"/dts-v1/;\n\n/ {\n\tx = [01];\n\ty;\n\tsoc {\n\t\tx = [01];\n\t\tuart {\n\t\t};\n\t};\n\tclk {\n\t};\n};\n";

/// The same with `other` merged into its root.
const AT_ROOT: &[u8] =
    b"/dts-v1/;\n\n/ {\n\tx = [02];\n\ty;\n\tz;\n\tsoc {\n\t\tx = [02];\n\t\tz;\n\t\tuart {\n\t\t};\n\t\tspi {\n\t\t};\n\t};\n\tclk {\n\t};\n\tgpio {\n\t};\n};\n";

/// The same with `other` merged into clk.
const AT_CLK: &[u8] =
    b"/dts-v1/;\n\n/ {\n\tx = [01];\n\ty;\n\tsoc {\n\t\tx = [01];\n\t\tuart {\n\t\t};\n\t};\n\tclk {\n\t\tx = [02];\n\t\tz;\n\t\tgpio {\n\t\t};\n\t\tsoc {\n\t\t\tx = [02];\n\t\t\tz;\n\t\t\tspi {\n\t\t\t};\n\t\t\tuart {\n\t\t\t};\n\t\t};\n\t};\n};\n";

/// The calls that make the tree that each row begins with.
const BASE_STEPS: &[Step] = &[
    (Call::Set(&[1]), b"/", b"x"),
    (Call::Set(&[]), b"/", b"y"),
    (Call::Add, b"/", b"soc"),
    (Call::Set(&[1]), b"/soc", b"x"),
    (Call::Add, b"/soc", b"uart"),
    (Call::Add, b"/", b"clk"),
];

/// Those that make `other`, a node with x = 2 and z, and the children gpio and soc, of which soc has x = 2 and z and
/// the children spi and uart.
const OTHER_STEPS: &[Step] = &[
    (Call::Add, b"/", b"other"),
    (Call::Set(&[2]), b"/other", b"x"),
    (Call::Set(&[]), b"/other", b"z"),
    (Call::Add, b"/other", b"gpio"),
    (Call::Add, b"/other", b"soc"),
    (Call::Set(&[2]), b"/other/soc", b"x"),
    (Call::Set(&[]), b"/other/soc", b"z"),
    (Call::Add, b"/other/soc", b"spi"),
    (Call::Add, b"/other/soc", b"uart"),
];

fn floor(rt: &impl Abort, alloc: Global, children: Vec<Node>) -> Node {
    let name = Name::new(alloc, b"floor").expect(rt, "a name");
    Node::new(alloc, Some(name), Vec::new(alloc), children).expect(rt, "a node")
}

fn over(rt: &impl Abort, alloc: Global, node: Node) -> Node {
    let children = Vec::from_array(alloc, [node]).ok().expect(rt, "memory");
    floor(rt, alloc, children)
}

/// A node with so many levels of nodes below it.
fn tower(rt: &impl Abort, alloc: Global, levels: usize) -> Node {
    let mut node = floor(rt, alloc, Vec::new(alloc));
    for _ in 0..levels {
        node = over(rt, alloc, node);
    }
    node
}

/// A path of so many names.
fn stairs(rt: &impl Abort, alloc: Global, levels: usize) -> Path {
    let name = Name::new(alloc, b"floor").expect(rt, "a name");
    let mut path = Path::parse(alloc, b"/").expect(rt, "a path");
    for _ in 0..levels {
        path = path.child(alloc, &name).expect(rt, "memory");
    }
    path
}

/// The number of the refusal, or 255 where there is a tree.
fn refusal(answer: Result<Tree, TreeError>) -> u8 {
    match answer {
        Ok(_) => 255,
        Err(e) => e.number(),
    }
}

/// The same, of a tower merged into a tree.
fn tower_refused(rt: &impl Abort, alloc: Global, tree: &Tree, path: &Path, levels: usize) -> u8 {
    let node = tower(rt, alloc, levels);
    refusal(tree.merge(alloc, path, &node))
}

fn is_written_as(rt: &impl Abort, alloc: Global, tree: &Tree, text: &[u8]) {
    assert!(rt; tree.boot_cpu() == 3);
    let written = source_text(alloc, tree).expect(rt, "a text");
    assert!(rt; written.as_slice() == text);
}

fn merged(rt: &impl Abort, alloc: Global, tree: &Tree, path: &[u8], node: &Node) -> Tree {
    let path = Path::parse(alloc, path).expect(rt, "a path");
    tree.merge(alloc, &path, node).expect(rt, "a tree")
}

fn is_merged_at(
    rt: &impl Abort,
    alloc: Global,
    tree: &Tree,
    path: &[u8],
    node: &Node,
    text: &[u8],
) {
    let tree = merged(rt, alloc, tree, path, node);
    is_written_as(rt, alloc, &tree, text);
}

fn is_merged(rt: &impl Abort, alloc: Global, tree: &Tree, others: &Tree) {
    let node = others.root().child(b"other").expect(rt, "a node");
    is_merged_at(rt, alloc, tree, b"/", node, AT_ROOT);
    is_merged_at(rt, alloc, tree, b"/clk", node, AT_CLK);
    is_written_as(rt, alloc, tree, BASE);
}

fn others_are_merged(rt: &impl Abort, alloc: Global, tree: &Tree) {
    let others = grown(rt, alloc, &[], OTHER_STEPS);
    is_merged(rt, alloc, tree, &others);
}

/// What is there keeps its place and takes the new value; what is new goes last. The tree that was merged into stays.
#[test]
fn merged_nodes(rt: HostRuntime) {
    let tree = grown(&rt, rt.alloc(), &[], BASE_STEPS);
    others_are_merged(&rt, rt.alloc(), &tree);
}

/// The tree with ten levels of nodes below its root.
fn high(rt: &impl Abort, alloc: Global, tree: &Tree) -> Tree {
    let node = tower(rt, alloc, 10);
    merged(rt, alloc, tree, b"/", &node)
}

fn is_too_high(rt: &impl Abort, alloc: Global, tree: &Tree) {
    for (names, levels, number) in [(10, 54, 255), (10, 60, 4), (11, 60, 5)] {
        let path = stairs(rt, alloc, names);
        assert_eq!(rt; tower_refused(rt, alloc, tree, &path, levels), number);
    }
}

fn is_nowhere(rt: &impl Abort, alloc: Global, tree: &Tree) {
    let nowhere = Path::parse(alloc, b"/uart").expect(rt, "a path");
    assert_eq!(rt; tower_refused(rt, alloc, tree, &nowhere, 64), 5);
}

fn high_is_refused(rt: &impl Abort, alloc: Global, tree: &Tree) {
    let high = high(rt, alloc, tree);
    is_too_high(rt, alloc, &high);
}

/// No node at the path is told before a node that would lie too deep.
#[test]
fn refused_merges(rt: HostRuntime) {
    let tree = grown(&rt, rt.alloc(), &[], BASE_STEPS);
    is_nowhere(&rt, rt.alloc(), &tree);
    high_is_refused(&rt, rt.alloc(), &tree);
}
