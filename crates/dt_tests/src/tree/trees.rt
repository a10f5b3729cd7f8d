//! Names, paths and trees.
use dt_tree::{
    Bytes, MAX_DEPTH, MAX_NAME_LEN, Name, Node, Path, Property, Tree, TreeError, is_name, is_path,
    is_reserved_name, map_of_a_tree, path_texts_and_names, paths_in_preorder, preorder_of_a_tree,
    same_map_same_tree,
};
use std::alloc::Global;
use std::process::Abort;

/// A property `phandle` with this number.
fn phandle(rt: &impl Abort, alloc: Global, number: u32) -> Property {
    let value = Vec::from_slice(alloc, &number.to_be_bytes()).expect(rt, "memory");
    let name = Name::new(alloc, b"phandle").expect(rt, "a name");
    Property {
        name,
        value: Bytes::from_vec(value),
    }
}

/// A node with a phandle and these children.
fn numbered(rt: &impl Abort, alloc: Global, name: &[u8], number: u32, children: Vec<Node>) -> Node {
    let mut properties = Vec::new(alloc);
    properties
        .push(phandle(rt, alloc, number))
        .expect(rt, "memory");
    let name = Name::new(alloc, name).expect(rt, "a name");
    Node::new(alloc, Some(name), properties, children).expect(rt, "a node")
}

/// A node with one child.
fn over(rt: &impl Abort, alloc: Global, name: &[u8], number: u32, child: Node) -> Node {
    let mut children = Vec::new(alloc);
    children.push(child).expect(rt, "memory");
    numbered(rt, alloc, name, number, children)
}

/// A node with this many levels below it.
fn tower(rt: &impl Abort, alloc: Global, levels: u8) -> Node {
    let mut node = numbered(rt, alloc, b"top", 0, Vec::new(alloc));
    for _ in 0..levels {
        node = over(rt, alloc, b"floor", 0, node);
    }
    node
}

fn push_over(
    rt: &impl Abort,
    alloc: Global,
    children: &mut Vec<Node>,
    name: &[u8],
    number: u32,
    uart: u32,
) {
    let uart = numbered(rt, alloc, b"uart", uart, Vec::new(alloc));
    let node = over(rt, alloc, name, number, uart);
    children.push(node).expect(rt, "memory");
}

fn push_sample(rt: &impl Abort, alloc: Global, children: &mut Vec<Node>) {
    push_over(rt, alloc, children, b"soc", u32::MAX, 7);
    push_over(rt, alloc, children, b"__symbols__", 9, 8);
    let clk = numbered(rt, alloc, b"clk", 7, Vec::new(alloc));
    children.push(clk).expect(rt, "memory");
}

/// `/` with `soc` (0xffffffff) over `uart` (7), `__symbols__` (9) over `uart` (8), and `clk` (7).
fn sample(rt: &impl Abort, alloc: Global) -> Tree {
    let reserves = Vec::from_slice(alloc, &[(0, 0), (4096, 16), (0, 1)]).expect(rt, "memory");
    let mut children = Vec::new(alloc);
    push_sample(rt, alloc, &mut children);
    let root = Node::new(alloc, None, Vec::new(alloc), children).expect(rt, "a node");
    Tree::new(reserves, 3, root).expect(rt, "a tree")
}

/// Whether the bytes make a name that reads and copies as they are; a refusal is BadName.
fn makes_name(rt: &impl Abort, alloc: Global, bytes: &[u8]) -> bool {
    match Name::new(alloc, bytes) {
        Ok(name) => {
            name.check();
            name.as_bytes() == bytes && name.copy(alloc).expect(rt, "memory") == name
        }
        Err(e) => {
            assert_eq!(rt; e, TreeError::BadName);
            false
        }
    }
}

#[test]
fn names(rt: HostRuntime) {
    let alloc = rt.alloc();
    let longest = [b'a'; 256];
    for (bytes, lawful) in [
        (b"".as_slice(), false),
        (b"a/b".as_slice(), false),
        (b"soc@0,_.+*#?-Z".as_slice(), true),
        (&longest[1..], true),
        (longest.as_slice(), false),
    ] {
        assert_eq!(rt; is_name(bytes), lawful);
        assert_eq!(rt; makes_name(&rt, alloc, bytes), lawful);
    }
}

/// The same for a path.
fn makes_path(rt: &impl Abort, alloc: Global, bytes: &[u8]) -> bool {
    match Path::parse(alloc, bytes) {
        Ok(path) => {
            path.check();
            path.as_bytes() == bytes && path.copy(alloc).expect(rt, "memory") == path
        }
        Err(e) => {
            assert_eq!(rt; e, TreeError::BadName);
            false
        }
    }
}

const PATHS: &[(&[u8], bool)] = &[
    (b"", false),
    (b"/", true),
    (b"a", false),
    (b"/a/b@1", true),
    (b"/a/", false),
    (b"//a", false),
];

#[test]
fn paths(rt: HostRuntime) {
    let alloc = rt.alloc();
    path_texts_and_names();
    for &(bytes, lawful) in PATHS {
        assert_eq!(rt; is_path(bytes), lawful);
        assert_eq!(rt; makes_path(&rt, alloc, bytes), lawful);
    }
}

/// What makes a node unlawful.
#[derive(Clone, Copy, Drop)]
struct Faults {
    nameless: bool,
    property_twice: bool,
    child_twice: bool,
    deep: bool,
}

fn push_tower(rt: &impl Abort, alloc: Global, children: &mut Vec<Node>, levels: u8) {
    children.push(tower(rt, alloc, levels)).expect(rt, "memory");
}

fn push_nameless(rt: &impl Abort, alloc: Global, children: &mut Vec<Node>) {
    let node = Node::new(alloc, None, Vec::new(alloc), Vec::new(alloc)).expect(rt, "a node");
    children.push(node).expect(rt, "memory");
}

fn push_faulty(rt: &impl Abort, alloc: Global, children: &mut Vec<Node>, faults: Faults) {
    push_tower(rt, alloc, children, if faults.deep { 64 } else { 63 });
    if faults.child_twice {
        push_tower(rt, alloc, children, 1);
    }
    if faults.nameless {
        push_nameless(rt, alloc, children);
    }
}

fn faulty_children(rt: &impl Abort, alloc: Global, faults: Faults) -> Vec<Node> {
    let mut children = Vec::new(alloc);
    push_faulty(rt, alloc, &mut children, faults);
    children
}

fn faulty_properties(rt: &impl Abort, alloc: Global, faults: Faults) -> Vec<Property> {
    let mut properties = Vec::new(alloc);
    properties.push(phandle(rt, alloc, 1)).expect(rt, "memory");
    if faults.property_twice {
        properties.push(phandle(rt, alloc, 2)).expect(rt, "memory");
    }
    properties
}

/// The number of the refusal of a node with these faults, or the height of the node.
fn attempt(rt: &impl Abort, alloc: Global, faults: Faults) -> usize {
    let properties = faulty_properties(rt, alloc, faults);
    let children = faulty_children(rt, alloc, faults);
    match Node::new(alloc, None, properties, children) {
        Ok(node) => node.height(),
        Err(e) => e.number() as usize,
    }
}

#[test]
fn lowest_fault(rt: HostRuntime) {
    let alloc = rt.alloc();
    for (nameless, property_twice, child_twice, deep, answer) in [
        (false, false, false, false, 64),
        (true, false, false, false, 1),
        (false, true, false, false, 2),
        (false, false, true, false, 3),
        (false, false, false, true, 4),
        (true, true, false, false, 1),
        (true, false, true, false, 1),
        (true, false, false, true, 1),
        (false, true, true, false, 2),
        (false, true, false, true, 2),
        (false, false, true, true, 3),
    ] {
        let faults = Faults {
            nameless,
            property_twice,
            child_twice,
            deep,
        };
        assert_eq!(rt; attempt(&rt, alloc, faults), answer);
    }
}

#[test]
fn named_root(rt: HostRuntime) {
    let alloc = rt.alloc();
    let tree = Tree::new(Vec::new(alloc), 0, tower(&rt, alloc, 0));
    let refusal = tree.err().expect(&rt, "a refusal");
    assert!(rt; refusal.name() == "BadName");
}

fn is_sample(rt: &impl Abort, tree: &Tree) {
    tree.check();
    tree.root().check();
    assert!(rt; tree.reserves() == [(4096, 16), (0, 1)].as_slice());
    assert_eq!(rt; tree.boot_cpu(), 3);
    assert_eq!(rt; tree.root().children().len(), 3);
}

#[test]
fn copied_tree(rt: HostRuntime) {
    same_map_same_tree();
    map_of_a_tree();
    let tree = sample(&rt, rt.alloc());
    let copy = tree.copy(rt.alloc()).expect(&rt, "memory");
    is_sample(&rt, &copy);
}

/// Where the nodes of these phandles are.
const PHANDLES: &[(u32, &[u8])] = &[(7, b"/soc/uart"), (8, b""), (u32::MAX, b"")];

fn phandles_are_told(rt: &impl Abort, alloc: Global, tree: &Tree) {
    assert_eq!(rt; tree.greatest_phandle(), 7);
    for &(number, text) in PHANDLES {
        match tree.by_phandle(alloc, number).expect(rt, "memory") {
            None => assert!(rt; text.is_empty()),
            Some(path) => assert!(rt; path.as_bytes() == text),
        }
    }
}

#[test]
fn phandles(rt: HostRuntime) {
    let tree = sample(&rt, rt.alloc());
    preorder_of_a_tree();
    phandles_are_told(&rt, rt.alloc(), &tree);
}

/// The phandles of the nodes at these paths.
const AT_PATHS: &[(&[u8], Option<u32>)] = &[
    (b"/", None),
    (b"/soc/clk", None),
    (b"/soc/uart", Some(7)),
    (b"/__symbols__/uart", Some(8)),
];

fn phandle_at(rt: &impl Abort, alloc: Global, tree: &Tree, text: &[u8]) -> Option<u32> {
    let path = Path::parse(alloc, text).expect(rt, "a path");
    tree.find(&path).and_then(|node| node.phandle())
}

fn nodes_are_found(rt: &impl Abort, alloc: Global, tree: &Tree) {
    for &(text, number) in AT_PATHS {
        assert!(rt; phandle_at(rt, alloc, tree, text) == number);
    }
}

#[test]
fn finds(rt: HostRuntime) {
    let tree = sample(&rt, rt.alloc());
    nodes_are_found(&rt, rt.alloc(), &tree);
}

fn is_uart(rt: &impl Abort, alloc: Global, node: &Node) {
    assert!(rt; node.name_bytes() == b"uart".as_slice());
    let value = node.value(b"phandle").expect(rt, "a value");
    let copy = value.copy(alloc).expect(rt, "memory");
    assert!(rt; copy.into_vec().as_slice() == [0, 0, 0, 7].as_slice());
}

fn uart_is_below(rt: &impl Abort, alloc: Global, soc: &Node) {
    let path = Path::parse(alloc, b"/uart").expect(rt, "a path");
    is_uart(rt, alloc, soc.find(&path).expect(rt, "a node"));
}

fn soc_copied(rt: &impl Abort, alloc: Global, tree: &Tree) -> Node {
    let soc = tree.root().child(b"soc").expect(rt, "a child");
    soc.copy(alloc).expect(rt, "memory")
}

#[test]
fn node_copied(rt: HostRuntime) {
    let tree = sample(&rt, rt.alloc());
    let soc = soc_copied(&rt, rt.alloc(), &tree);
    uart_is_below(&rt, rt.alloc(), &soc);
}

fn first_copied(rt: &impl Abort, alloc: Global, node: &Node) -> Property {
    let first = node.properties().first().expect(rt, "a property");
    first.copy(alloc).expect(rt, "memory")
}

fn is_phandle(rt: &impl Abort, property: &Property) {
    assert!(rt; property.name.as_bytes() == b"phandle".as_slice());
    assert!(rt; property.value.phandle() == Some(8));
}

fn phandle_is_first(rt: &impl Abort, alloc: Global, node: &Node) {
    let property = first_copied(rt, alloc, node);
    is_phandle(rt, &property);
    assert!(rt; node.value(b"reg").is_none() && Bytes::new(alloc).as_slice().is_empty());
}

#[test]
fn property_copied(rt: HostRuntime) {
    let node = numbered(&rt, rt.alloc(), b"uart", 8, Vec::new(rt.alloc()));
    phandle_is_first(&rt, rt.alloc(), &node);
}

#[test]
fn limits(rt: HostRuntime) {
    assert!(rt; MAX_DEPTH == 64 && MAX_NAME_LEN == 255);
}

/// The root of the sample is taken apart, and what is left of it takes another name.
fn root_has_parts(rt: &impl Abort, alloc: Global, root: Node, bare: Name) {
    let (name, properties, children) = root.into_parts();
    assert!(rt; name.is_none() && properties.is_empty() && children.len() == 3);
    let bare = Node::from_distinct(Some(bare), properties, Vec::new(alloc));
    assert!(rt; bare.name_bytes() == b"bare".as_slice() && bare.height() == 0);
}

#[test]
fn parts(rt: HostRuntime) {
    paths_in_preorder();
    let bare = Name::new(rt.alloc(), b"bare").expect(&rt, "a name");
    let (reserves, boot_cpu, root) = sample(&rt, rt.alloc()).into_parts();
    assert!(rt; reserves.as_slice() == [(4096, 16), (0, 1)].as_slice() && boot_cpu == 3);
    root_has_parts(&rt, rt.alloc(), root, bare);
}

/// Paths, and those of their children uart@1.
const OF_CHILDREN: &[(&[u8], &[u8])] = &[
    (b"/", b"/uart@1"),
    (b"/soc", b"/soc/uart@1"),
    (b"/a/b", b"/a/b/uart@1"),
];

fn path_of_child(rt: &impl Abort, alloc: Global, above: &[u8], name: &Name) -> Path {
    let path = Path::parse(alloc, above).expect(rt, "a path");
    path.child(alloc, name).expect(rt, "memory")
}

#[test]
fn paths_of_children(rt: HostRuntime) {
    let name = Name::new(rt.alloc(), b"uart@1").expect(&rt, "a name");
    for &(above, text) in OF_CHILDREN {
        let path = path_of_child(&rt, rt.alloc(), above, &name);
        assert!(rt; path.as_bytes() == text);
    }
}

const RESERVED: &[(&[u8], bool)] = &[
    (b"__symbols__", true),
    (b"__fixups__", true),
    (b"__local_fixups__", true),
    (b"__symbols", false),
    (b"__overlay__", false),
];

#[test]
fn reserved_names(rt: HostRuntime) {
    for &(name, reserved) in RESERVED {
        assert_eq!(rt; is_reserved_name(name), reserved);
    }
}
