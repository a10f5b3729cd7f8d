//! Trees out of folders, as Linux shows its own in /proc/device-tree, over folders in memory.

use crate::runs::{Left, left_by};
use crate::shelf::{Shelf, Things};
use dtman_host::EntryKind;
use std::hash::RandomState;
use std::process::Abort;
use std::thread::Threads;

const FILES: &[(&str, &[u8])] = &[
    ("tree/model", b"one\0"),
    ("tree/name", b"\0"),
    ("tree/cpus/cpu@5/reg", b"\0\0\0\x05"),
    ("tree/cpus/cpu@5/name", b"cpu\0"),
    ("tree/b@1/s", b"a\x001\0"),
];

const FOLDERS: &[(&str, Things<'_>)] = &[
    (
        "tree",
        &[
            ("model", EntryKind::File),
            ("cpus", EntryKind::Folder),
            ("pipe", EntryKind::Other),
            ("name", EntryKind::File),
            ("b@1", EntryKind::Folder),
        ],
    ),
    ("tree/cpus", &[("cpu@5", EntryKind::Folder)]),
    (
        "tree/cpus/cpu@5",
        &[("reg", EntryKind::File), ("name", EntryKind::File)],
    ),
    ("tree/b@1", &[("s", EntryKind::File)]),
    ("loop", &[("loop", EntryKind::Folder)]),
];

// A `name` that says its node's name goes, and a zero byte before a digit has three.
/// The words, the exit status, and what is told and printed.
type Row = (&'static [&'static str], u8, &'static [u8]);

const ROWS: &[Row] = &[
    (
        &["dtc", "-q", "-I", "fs", "-O", "dts", "tree"],
        0,
        b"/dts-v1/;\n\n/ {\n\tmodel = \"one\";\n\n\tcpus {\n\n\t\tcpu@5 {\n\t\t\treg = <0x05>;\n\t\t};\n\t};\n\n\tb@1 {\n\t\ts = \"a\\0001\";\n\t};\n};\n",
    ),
    // a folder is known to be one, and a slash may end its path
    (
        &["dtc", "-q", "tree/cpus"],
        0,
        b"/dts-v1/;\n\n/ {\n\n\tcpu@5 {\n\t\treg = <0x05>;\n\t};\n};\n",
    ),
    (
        &["dtc", "-q", "-I", "fs", "tree/b@1"],
        0,
        b"/dts-v1/;\n\n/ {\n\ts = \"a\\0001\";\n};\n",
    ),
    (
        &["dtc", "-I", "fs", "none"],
        1,
        b"FATAL ERROR: Couldn't open \"none\": error 80 CannotRead\n",
    ),
    (
        &["dtc", "loop"],
        1,
        b"Error: loop: folders are nested over 64 deep\nFATAL ERROR: Unable to parse input tree\n",
    ),
];

fn runs<R: Abort + AllocGlobal + Threads + Sync>(rt: &R, hasher: RandomState, row: &Row) {
    let mut shelf = Shelf::with_folders(rt.alloc(), FILES, FOLDERS, hasher);
    let Left { status, text } = left_by(rt, row.0, &mut shelf);
    assert_eq!(rt; text.as_slice(), row.2);
    assert_eq!(rt; status, row.1);
}

#[test]
fn folders_are_trees(rt: HostRuntime) {
    let hasher = RandomState::new(&rt).expect(&rt, "a seed");
    for row in ROWS {
        runs(&rt, hasher, row);
    }
}
