//! The calls that change a tree, as data, and the trees that grow by them.
use dt_tree::{Bytes, Name, Node, Path, Tree, TreeError};
use std::alloc::Global;
use std::process::Abort;

/// A call, but for its path and name.
#[derive(Clone, Copy, Drop)]
pub enum Call {
    Set(&'static [u8]),
    Unset,
    Add,
    Remove,
}

/// A call with its path and name.
pub type Step = (Call, &'static [u8], &'static [u8]);

/// Makes the call, whose path and name are lawful; setting and adding answer false.
pub fn made(
    rt: &impl Abort,
    alloc: Global,
    tree: &mut Tree,
    step: Step,
) -> Result<bool, TreeError> {
    let (call, path, name) = step;
    let path = Path::parse(alloc, path).expect(rt, "a path");
    made_at(rt, alloc, tree, call, &path, name)
}

fn made_at(
    rt: &impl Abort,
    alloc: Global,
    tree: &mut Tree,
    call: Call,
    path: &Path,
    name: &[u8],
) -> Result<bool, TreeError> {
    let name = Name::new(alloc, name).expect(rt, "a name");
    match call {
        Call::Set(value) => {
            let value = Vec::from_slice(alloc, value).expect(rt, "memory");
            tree.set_property(path, name, Bytes::from_vec(value))
                .map(|()| false)
        }
        Call::Unset => tree.remove_property(path, &name),
        Call::Add => tree.add_child(alloc, path, name).map(|()| false),
        Call::Remove => tree.remove_child(path, &name),
    }
}

/// Makes the calls in order.
fn grow(rt: &impl Abort, alloc: Global, tree: &mut Tree, steps: &[Step]) {
    for step in steps {
        made(rt, alloc, tree, *step).expect(rt, "a change");
    }
}

/// A root alone.
fn seed(rt: &impl Abort, alloc: Global, reserves: &[(u64, u64)]) -> Tree {
    let reserves = Vec::from_slice(alloc, reserves).expect(rt, "memory");
    let root = Node::new(alloc, None, Vec::new(alloc), Vec::new(alloc)).expect(rt, "a node");
    Tree::new(reserves, 3, root).expect(rt, "a tree")
}

/// The tree of these reserves and of boot processor 3 that the calls make of a root alone.
pub fn grown(rt: &impl Abort, alloc: Global, reserves: &[(u64, u64)], steps: &[Step]) -> Tree {
    let mut tree = seed(rt, alloc, reserves);
    grow(rt, alloc, &mut tree, steps);
    tree
}
