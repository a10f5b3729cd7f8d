//! Nodes and properties that are removed and made again, and names that have two places.
use dt_live::placed::{PlaceError, PlacedTree};
use std::hash::RandomState;

/// `/ { a { }; }; / { /delete-node/ a; }; / { b { }; a { }; };`: dtc has `a` before `b`.
#[test]
fn a_node_made_again_has_its_place(rt: HostRuntime) {
    let hasher = RandomState::new(&rt).expect(&rt, "a seed");
    let mut tree: PlacedTree<'_, u8> = PlacedTree::new(rt.alloc(), hasher);
    tree.begin();
    let first = tree.make_node(0, b"a", 0).expect(&rt, "memory");
    assert!(&rt; first.begins);
    tree.remove_child(0, b"a");
    let other = tree.make_node(0, b"b", 0).expect(&rt, "memory");
    assert!(&rt; other.begins);
    let again = tree.make_node(0, b"a", 0).expect(&rt, "memory");
    assert!(&rt; !again.begins);
    assert_eq!(&rt; again.node, first.node);
}

/// `/ { x; x; };`: 25.
#[test]
fn a_property_twice_in_a_first_body(rt: HostRuntime) {
    let hasher = RandomState::new(&rt).expect(&rt, "a seed");
    let mut tree: PlacedTree<'_, u8> = PlacedTree::new(rt.alloc(), hasher);
    tree.begin();
    tree.new_property(0, b"x", 1).expect(&rt, "memory");
    assert_eq!(&rt;
        tree.new_property(0, b"x", 2),
        Err(PlaceError::DuplicateInBody)
    );
}

/// `/ { /delete-property/ r; r; }; / { r; };`: the name has two places, and can't be made again.
#[test]
fn a_property_with_two_places(rt: HostRuntime) {
    let hasher = RandomState::new(&rt).expect(&rt, "a seed");
    let mut tree: PlacedTree<'_, u8> = PlacedTree::new(rt.alloc(), hasher);
    tree.begin();
    tree.reserve_property(0, b"r").expect(&rt, "memory");
    tree.new_property(0, b"r", 1).expect(&rt, "memory");
    assert_eq!(&rt;
        tree.set_property(0, b"r", 2),
        Err(PlaceError::DuplicateInBody)
    );
}
