//! The calls that change a tree: what they answer and the canonical source of what they leave.
use crate::tree::growing::{Call, Step, grown, made};
use dt_blob::source_text;
use dt_tree::{MAX_DEPTH, Name, Path, Tree, TreeError};
use std::alloc::Global;
use std::process::Abort;

/// The lines of each tree before those of its root.
const HEAD: &[u8] = b"/dts-v1/;\n\n/memreserve/ 0x0000000000001000 0x0000000000000010;\n/ {\n";

/// The lines in the root of the tree that each row begins with.
const BASE: &[u8] = b"\ta = [01];\n\tb;\n\tsoc {\n\t\tuart {\n\t\t};\n\t};\n\tclk {\n\t};\n};\n";

/// The calls that make that tree.
const BASE_STEPS: &[Step] = &[
    (Call::Set(&[1]), b"/", b"a"),
    (Call::Set(&[]), b"/", b"b"),
    (Call::Add, b"/", b"soc"),
    (Call::Add, b"/soc", b"uart"),
    (Call::Add, b"/", b"clk"),
];

/// What a call answers: it is done, it found what it took out, or the number of its refusal.
#[derive(Clone, Copy, Drop)]
enum Answer {
    Done,
    Found,
    Refused(u8),
}

/// A call of the base tree, what it answers, and the lines in the root that it leaves.
type Row = (Step, Answer, &'static [u8]);

fn base(rt: &impl Abort, alloc: Global) -> Tree {
    grown(rt, alloc, &[(4096, 16)], BASE_STEPS)
}

fn answers(rt: &impl Abort, alloc: Global, tree: &mut Tree, step: Step, answer: Answer) -> bool {
    match (made(rt, alloc, tree, step), answer) {
        (Ok(there), Answer::Done) => !there,
        (Ok(there), Answer::Found) => there,
        (Err(e), Answer::Refused(number)) => e.number() == number,
        _ => false,
    }
}

fn is_left(rt: &impl Abort, alloc: Global, tree: &Tree, left: &[u8]) -> bool {
    let text = source_text(alloc, tree).expect(rt, "a text");
    tree.boot_cpu() == 3 && text.as_slice().strip_prefix(HEAD) == Some(left)
}

fn row_holds(rt: &impl Abort, alloc: Global, row: &Row) -> bool {
    let (step, answer, left) = row;
    let mut tree = base(rt, alloc);
    let answered = answers(rt, alloc, &mut tree, *step, *answer);
    answered && is_left(rt, alloc, &tree, *left)
}

fn rows_hold(rt: &impl Abort, alloc: Global, rows: &[Row]) {
    for row in rows {
        assert!(rt; row_holds(rt, alloc, row));
    }
}

const OF_PROPERTIES: &[Row] = &[
    (
        (Call::Set(&[2]), b"/", b"a"),
        Answer::Done,
        b"\ta = [02];\n\tb;\n\tsoc {\n\t\tuart {\n\t\t};\n\t};\n\tclk {\n\t};\n};\n",
    ),
    (
        (Call::Set(&[2]), b"/", b"c"),
        Answer::Done,
        b"\ta = [01];\n\tb;\n\tc = [02];\n\tsoc {\n\t\tuart {\n\t\t};\n\t};\n\tclk {\n\t};\n};\n",
    ),
    (
        (Call::Set(&[]), b"/soc/uart", b"a"),
        Answer::Done,
        b"\ta = [01];\n\tb;\n\tsoc {\n\t\tuart {\n\t\t\ta;\n\t\t};\n\t};\n\tclk {\n\t};\n};\n",
    ),
    (
        (Call::Set(&[2]), b"/soc/clk", b"a"),
        Answer::Refused(5),
        BASE,
    ),
    (
        (Call::Set(&[2]), b"/clk/a/b", b"a"),
        Answer::Refused(5),
        BASE,
    ),
    (
        (Call::Unset, b"/", b"a"),
        Answer::Found,
        b"\tb;\n\tsoc {\n\t\tuart {\n\t\t};\n\t};\n\tclk {\n\t};\n};\n",
    ),
    ((Call::Unset, b"/", b"soc"), Answer::Done, BASE),
    ((Call::Unset, b"/soc", b"a"), Answer::Done, BASE),
    ((Call::Unset, b"/uart", b"a"), Answer::Refused(5), BASE),
];

#[test]
fn properties(rt: HostRuntime) {
    rows_hold(&rt, rt.alloc(), OF_PROPERTIES);
}

const OF_NODES: &[Row] = &[
    (
        (Call::Add, b"/", b"uart"),
        Answer::Done,
        b"\ta = [01];\n\tb;\n\tsoc {\n\t\tuart {\n\t\t};\n\t};\n\tclk {\n\t};\n\tuart {\n\t};\n};\n",
    ),
    (
        (Call::Add, b"/soc", b"a"),
        Answer::Done,
        b"\ta = [01];\n\tb;\n\tsoc {\n\t\tuart {\n\t\t};\n\t\ta {\n\t\t};\n\t};\n\tclk {\n\t};\n};\n",
    ),
    ((Call::Add, b"/", b"clk"), Answer::Refused(3), BASE),
    ((Call::Add, b"/soc", b"uart"), Answer::Refused(3), BASE),
    ((Call::Add, b"/clk/a", b"b"), Answer::Refused(5), BASE),
    (
        (Call::Remove, b"/", b"soc"),
        Answer::Found,
        b"\ta = [01];\n\tb;\n\tclk {\n\t};\n};\n",
    ),
    (
        (Call::Remove, b"/soc", b"uart"),
        Answer::Found,
        b"\ta = [01];\n\tb;\n\tsoc {\n\t};\n\tclk {\n\t};\n};\n",
    ),
    ((Call::Remove, b"/", b"uart"), Answer::Done, BASE),
    ((Call::Remove, b"/", b"a"), Answer::Done, BASE),
    ((Call::Remove, b"/uart", b"a"), Answer::Refused(5), BASE),
];

#[test]
fn children(rt: HostRuntime) {
    rows_hold(&rt, rt.alloc(), OF_NODES);
}

/// Puts as many floors below one another as there may be, and gives the path of the lowest.
fn deepest(rt: &impl Abort, alloc: Global, tree: &mut Tree, name: &Name) -> Path {
    let mut path = Path::parse(alloc, b"/").expect(rt, "a path");
    for _ in 0..MAX_DEPTH {
        let copy = name.copy(alloc).expect(rt, "memory");
        tree.add_child(alloc, &path, copy).expect(rt, "a child");
        path = path.child(alloc, name).expect(rt, "memory");
    }
    path
}

fn is_too_deep(rt: &impl Abort, alloc: Global, tree: &mut Tree, path: &Path, name: Name) {
    let before = source_text(alloc, tree).expect(rt, "a text");
    let added = tree.add_child(alloc, path, name);
    assert!(rt; matches!(added, Err(TreeError::TooDeep)));
    let after = source_text(alloc, tree).expect(rt, "a text");
    assert!(rt; after.as_slice() == before.as_slice());
}

fn floors_end(rt: &impl Abort, alloc: Global, tree: &mut Tree) {
    let name = Name::new(alloc, b"floor").expect(rt, "a name");
    let path = deepest(rt, alloc, tree, &name);
    is_too_deep(rt, alloc, tree, &path, name);
    let removed = made(rt, alloc, tree, (Call::Remove, b"/", b"floor"));
    assert!(rt; removed.expect(rt, "a change"));
}

/// A node below a path of 64 names is too deep, whatever its name; one with a taken name is not tested for depth.
#[test]
fn deepest_child(rt: HostRuntime) {
    let mut tree = base(&rt, rt.alloc());
    floors_end(&rt, rt.alloc(), &mut tree);
}
