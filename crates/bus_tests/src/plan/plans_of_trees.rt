//! Plans of trees.

mod drivers;
mod suppliers;

use bus_drivers::{Culprit, DriverSet, Entry as EntryAt, PlanFault, plan, read_drivers};
use bus_plan::{Plan, PlanError, plan_text};
use drivers::DRIVERS;
use dt_tree::{Bytes, Name, Node, Property, Tree};
use std::alloc::Global;
use std::hash::RandomState;
use std::process::Abort;
use suppliers::SUPPLIERS;

/// A property: its name and its value.
pub type Entry = (&'static str, &'static [u8]);

/// A node: how many are above it, its name, its properties. A tree's nodes stand in preorder, its root first.
pub type Row = (usize, &'static str, &'static [Entry]);

fn properties_of(rt: &impl Abort, alloc: Global, entries: &[Entry]) -> Vec<Property> {
    let mut properties = Vec::new(alloc);
    for (name, value) in entries {
        let name = Name::new(alloc, name.as_bytes()).expect(rt, "a name");
        let value = Vec::from_slice(alloc, *value).expect(rt, "memory");
        let value = Bytes::from_vec(value);
        properties
            .push(Property { name, value })
            .expect(rt, "memory");
    }
    properties
}

fn last_level(levels: &mut Vec<Vec<Node>>, alloc: Global, depth: usize) -> Vec<Node> {
    match levels.get_mut(depth) {
        None => Vec::new(alloc),
        Some(level) => std::mem::replace(level, Vec::new(alloc)),
    }
}

fn empty_levels(rt: &impl Abort, alloc: Global) -> Vec<Vec<Node>> {
    let mut levels = Vec::new(alloc);
    for _ in 0..66 {
        levels.push(Vec::new(alloc)).expect(rt, "memory");
    }
    levels
}

fn name_of(rt: &impl Abort, alloc: Global, depth: usize, name: &str) -> Option<Name> {
    if depth == 0 {
        return None;
    }
    Some(Name::new(alloc, name.as_bytes()).expect(rt, "a name"))
}

// The children stand in the level below in their order from the last on.
fn node_of(rt: &impl Abort, alloc: Global, row: &Row, mut children: Vec<Node>) -> Node {
    let (depth, name, entries) = row;
    children.reverse();
    let name = name_of(rt, alloc, *depth, *name);
    let properties = properties_of(rt, alloc, *entries);
    Node::new(alloc, name, properties, children).expect(rt, "a node")
}

fn push_row(rt: &impl Abort, alloc: Global, levels: &mut Vec<Vec<Node>>, row: &Row) {
    let (depth, ..) = row;
    let children = last_level(levels, alloc, depth.saturating_add(1));
    let node = node_of(rt, alloc, row, children);
    if let Some(level) = levels.get_mut(*depth) {
        level.push(node).expect(rt, "memory");
    }
}

/// The tree of these nodes, made from its last node on.
fn tree_of(rt: &impl Abort, alloc: Global, rows: &[Row]) -> Tree {
    let mut levels = empty_levels(rt, alloc);
    for row in rows.iter().rev() {
        push_row(rt, alloc, &mut levels, row);
    }
    let root = last_level(&mut levels, alloc, 0).pop().expect(rt, "a root");
    Tree::new(Vec::new(alloc), 0, root).expect(rt, "a tree")
}

/// The error's number, name and line.
fn told(rt: &impl Abort, alloc: Global, error: PlanError) -> Vec<u8> {
    let (number, name) = (error.number(), error.name());
    let told = match error.line() {
        None => format!(in alloc; "error {number} {name}"),
        Some(line) => format!(in alloc; "error {number} {name} line {line}"),
    };
    told.expect(rt, "memory").into_bytes()
}

fn printed_answer(rt: &impl Abort, alloc: Global, answer: Result<Plan, PlanFault>) -> Vec<u8> {
    match answer {
        Ok(plan) => plan_text(alloc, &plan).expect(rt, "a text"),
        Err(fault) => told(rt, alloc, fault.error()),
    }
}

fn printed_of(
    rt: &impl Abort,
    alloc: Global,
    hasher: RandomState,
    tree: &Tree,
    drivers: &str,
) -> Vec<u8> {
    let drivers = read_drivers(alloc, hasher, drivers.as_bytes()).expect(rt, "a driver file");
    printed_answer(rt, alloc, plan(alloc, hasher, tree, &drivers))
}

/// What the program would print: the plan, or the error's number, name and line.
fn printed(
    rt: &impl Abort,
    alloc: Global,
    hasher: RandomState,
    rows: &[Row],
    drivers: &str,
) -> Vec<u8> {
    let tree = tree_of(rt, alloc, rows);
    printed_of(rt, alloc, hasher, &tree, drivers)
}

/// A root without properties.
pub const ROOT: Row = (0, "", &[]);

/// A row: its name, the tree, the driver file, what is printed.
pub type Worked = (&'static str, &'static [Row], &'static str, &'static str);

fn is_printed(rt: &impl Abort, alloc: Global, hasher: RandomState, row: &Worked) {
    let (name, rows, drivers, wanted) = row;
    let text = printed(rt, alloc, hasher, *rows, *drivers);
    assert_eq!(rt; text.as_slice(), wanted.as_bytes(), "{name}");
}

fn are_printed(rt: &impl Abort, alloc: Global, hasher: RandomState, rows: &[Worked]) {
    for row in rows {
        is_printed(rt, alloc, hasher, row);
    }
}

#[test]
fn rows_of_drivers_and_verdicts(rt: HostRuntime) {
    let hasher = RandomState::new(&rt).expect(&rt, "a seed");
    are_printed(&rt, rt.alloc(), hasher, &DRIVERS);
}

#[test]
fn rows_of_suppliers(rt: HostRuntime) {
    let hasher = RandomState::new(&rt).expect(&rt, "a seed");
    are_printed(&rt, rt.alloc(), hasher, &SUPPLIERS);
}

fn numbered_name(rt: &impl Abort, alloc: Global, place: usize) -> Name {
    let name = format!(in alloc; "d{place}").expect(rt, "memory");
    Name::new(alloc, name.as_bytes()).expect(rt, "a name")
}

/// A device's properties, and those with a reference to no node.
const DEVICE: &[Entry] = &[("compatible", b"d\0")];

const DANGLING: &[Entry] = &[("compatible", b"d\0"), ("clocks", b"\0\0\0\x07")];

fn numbered_device(rt: &impl Abort, alloc: Global, place: usize, entries: &[Entry]) -> Node {
    let name = numbered_name(rt, alloc, place);
    let properties = properties_of(rt, alloc, entries);
    Node::new(alloc, Some(name), properties, Vec::new(alloc)).expect(rt, "a node")
}

/// A tree of so many devices below the root.
fn wide(rt: &impl Abort, alloc: Global, count: usize, entries: &[Entry]) -> Tree {
    let mut children = Vec::new(alloc);
    for place in 0..count {
        let node = numbered_device(rt, alloc, place, entries);
        children.push(node).expect(rt, "memory");
    }
    let root = Node::new(alloc, None, Vec::new(alloc), children).expect(rt, "a node");
    Tree::new(Vec::new(alloc), 0, root).expect(rt, "a tree")
}

// The refusal of a tree of so many devices, by these drivers.
fn refused_by(
    rt: &impl Abort,
    alloc: Global,
    hasher: RandomState,
    drivers: &DriverSet,
    count: usize,
) -> Option<PlanError> {
    let tree = wide(rt, alloc, count, DANGLING);
    let fault = plan(alloc, hasher, &tree, drivers).err()?;
    Some(fault.error())
}

fn refused(
    rt: &impl Abort,
    alloc: Global,
    hasher: RandomState,
    drivers: &[u8],
    count: usize,
) -> Option<PlanError> {
    let drivers = read_drivers(alloc, hasher, drivers).expect(rt, "a driver file");
    refused_by(rt, alloc, hasher, &drivers, count)
}

/// As many devices as a plan may have and one more: the last comes before all other faults.
#[test]
fn too_many_devices(rt: HostRuntime) {
    let alloc = rt.alloc();
    let hasher = RandomState::new(&rt).expect(&rt, "a seed");
    let many = refused(&rt, alloc, hasher, b"fail /nix", 4_097);
    assert_eq!(rt; many, Some(PlanError::TooManyDevices));
    let few = refused(&rt, alloc, hasher, b"fail /nix", 4_096);
    assert_eq!(rt; few, Some(PlanError::UnknownPath(1)));
    let dangling = refused(&rt, alloc, hasher, b"", 4_096);
    assert_eq!(rt; dangling, Some(PlanError::DanglingPhandle));
}

/// A row of `SUPPLIERS`, and the property that it is refused for, worked by hand.
type Refused = (&'static str, Culprit);

/// The first entry of the first device's second property, and of the second device's; and that a value's length is at fault.
const CULPRITS: &[Refused] = &[
    ("dangling-phandle", OF_SECOND_DEVICE),
    ("clock-cells: fewer cells left", OF_SECOND_DEVICE),
    (
        "faults in the order of devices, properties and entries",
        OF_FIRST_DEVICE,
    ),
    ("the length is tested before the entries", OF_LENGTH),
    ("one phandle is wanted", OF_LENGTH),
];

const FIRST_ENTRY: Option<EntryAt> = Some(EntryAt {
    number: 1,
    offset: 0,
});

const OF_FIRST_DEVICE: Culprit = Culprit {
    device: 0,
    property: 1,
    entry: FIRST_ENTRY,
};

const OF_SECOND_DEVICE: Culprit = Culprit {
    device: 1,
    property: 1,
    entry: FIRST_ENTRY,
};

const OF_LENGTH: Culprit = Culprit {
    device: 0,
    property: 1,
    entry: None,
};

fn is_culprit(rt: &impl Abort, alloc: Global, hasher: RandomState, name: &str, culprit: Culprit) {
    let row = SUPPLIERS
        .iter()
        .find(|row| row.0 == name)
        .expect(rt, "a row");
    let tree = tree_of(rt, alloc, row.1);
    let drivers = read_drivers(alloc, hasher, row.2.as_bytes()).expect(rt, "a driver file");
    let fault = plan(alloc, hasher, &tree, &drivers)
        .err()
        .expect(rt, "a refusal");
    assert_eq!(rt; fault.culprit(), Some(culprit));
}

#[test]
fn culprits(rt: HostRuntime) {
    let hasher = RandomState::new(&rt).expect(&rt, "a seed");
    for (name, culprit) in CULPRITS {
        is_culprit(&rt, rt.alloc(), hasher, *name, *culprit);
    }
}

fn has_a_plan(
    rt: &impl Abort,
    alloc: Global,
    hasher: RandomState,
    drivers: &DriverSet,
    count: usize,
) {
    let tree = wide(rt, alloc, count, DEVICE);
    let plan = plan(alloc, hasher, &tree, drivers).expect(rt, "a plan");
    assert_eq!(rt; plan.len(), count);
}

/// Row `chain-4096`, its first sentence, and the most devices that a plan may have.
#[test]
fn plans_of_many_devices(rt: HostRuntime) {
    let hasher = RandomState::new(&rt).expect(&rt, "a seed");
    let drivers = read_drivers(rt.alloc(), hasher, b"driver x d").expect(&rt, "a driver file");
    has_a_plan(&rt, rt.alloc(), hasher, &drivers, 513);
    has_a_plan(&rt, rt.alloc(), hasher, &drivers, 4_096);
}
