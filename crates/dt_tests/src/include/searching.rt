//! Where a file of a name is looked for: alone, beside the file that names it, in folders.

use dt_text::include::{Reads, search};
use std::alloc::{AllocError, Global};
use std::process::Abort;

/// Files that hold their own paths.
#[derive(Clone, Copy)]
struct Shelf;

const FILES: &[&str] = &[
    "top.h",
    "/top.h",
    "src/near.h",
    "one/near.h",
    "one/first.h",
    "two/first.h",
    "two/second.h",
    "two/sub/deep.h",
];

impl Reads for Shelf {
    ghost reads = { λ path bytes. Unit {0} };

    ghost lacks = { λ path. Unit {0} };

    fn read(&mut self, alloc: Global, path: &str) -> Result<Option<Vec<u8>>, AllocError> {
        for file in FILES {
            if *file == path {
                return Ok(Some(Vec::from_slice(alloc, path.as_bytes())?));
            }
        }
        Ok(None)
    }
}

/// A name, the path beside which it is looked for, and the path of the file that is found; nothing where none is.
type Row = (&'static str, &'static str, &'static str);

fn is_found(rt: &impl Abort, alloc: Global, folders: &[&str], row: &Row) {
    let (name, beside, path) = *row;
    let found = search(
        alloc,
        &mut Shelf,
        folders,
        beside.as_bytes(),
        name.as_bytes(),
    );
    match found.expect(rt, "memory") {
        Some(found) => {
            assert_eq!(rt; found.path.as_slice(), path.as_bytes());
            assert_eq!(rt; found.bytes.as_slice(), path.as_bytes());
        }
        None => assert_eq!(rt; path, ""),
    }
}

#[test]
fn in_folders(rt: HostRuntime) {
    const ROWS: &[Row] = &[
        // alone, as it begins with a slash
        ("/top.h", "src/board.dts", "/top.h"),
        ("/near.h", "src/board.dts", ""),
        // beside the file, before the folders
        ("near.h", "src/board.dts", "src/near.h"),
        ("top.h", "/board.dts", "/top.h"),
        // in the first folder, and in the second, whose name ends in a slash
        ("first.h", "src/board.dts", "one/first.h"),
        ("second.h", "src/board.dts", "two/second.h"),
        ("sub/deep.h", "src/board.dts", "two/sub/deep.h"),
        // nowhere
        ("gone.h", "src/board.dts", ""),
    ];
    for row in ROWS {
        is_found(&rt, rt.alloc(), &["one", "two/"], row);
    }
}

#[test]
fn in_no_folder(rt: HostRuntime) {
    const ROWS: &[Row] = &[
        ("top.h", "board.dts", "top.h"),
        ("first.h", "src/board.dts", ""),
    ];
    for row in ROWS {
        is_found(&rt, rt.alloc(), &[], row);
    }
}

#[test]
fn in_an_empty_folder(rt: HostRuntime) {
    is_found(
        &rt,
        rt.alloc(),
        &["one", ""],
        &("top.h", "src/board.dts", "top.h"),
    );
}

#[test]
fn beside_a_path_that_is_no_text(rt: HostRuntime) {
    let found = search(
        rt.alloc(),
        &mut Shelf,
        &["one"],
        b"\xff/board.dts",
        b"near.h",
    );
    let found = found.expect(&rt, "memory").expect(&rt, "a file");
    assert_eq!(rt; found.path.as_slice(), b"one/near.h".as_slice());
}
