//! Trees out of their nodes.
use dt_live::builder::TreeBuilder;
use dt_tree::{Name, Node};
use std::alloc::Global;
use std::process::Abort;

fn with_child(rt: &impl Abort, alloc: Global, name: &[u8]) -> Node {
    let builder = TreeBuilder::new(alloc, Vec::new(alloc));
    let name = Name::new(alloc, name).expect(rt, "a name");
    let builder = builder
        .push(alloc, 1, name, Vec::new(alloc))
        .expect(rt, "memory");
    builder.finish().expect(rt, "memory")
}

#[test]
fn a_child(rt: HostRuntime) {
    let root = with_child(&rt, rt.alloc(), b"soc");
    assert!(rt; root.name_bytes().is_empty() && root.children().len() == 1);
    assert!(rt; root.child(b"soc").is_some());
}

/// The definitions give what was worked by hand.
#[test]
fn rows_are_computed() {
    dt_source::tree_meaning::worked_rows();
    dt_source::tree_meaning::worked_rows_of_dtc();
    dt_source::tree_meaning::nodes_at_places();
    dt_source::tree_meaning::properties_at_places();
}
