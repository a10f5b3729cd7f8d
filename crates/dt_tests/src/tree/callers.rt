//! A boot loader's edit of a blob, as one who calls `dt_tree` and `dt_blob` writes it.

use super::blobs::ONE_CELL;
use super::growing::{Call, grown};
use dt_blob::{BlobError, ReadError, read, source_text, write};
use dt_tree::{Bytes, Name, Path, Tree, TreeError};
use std::alloc::Global;
use std::hash::RandomState;

/// Gives the kernel its command line: the property `bootargs` of `/chosen`, ended by a zero byte.
fn set_command_line(alloc: Global, tree: &mut Tree, line: &[u8]) -> Result<(), TreeError> {
    let chosen = Path::parse(alloc, b"/chosen")?;
    let bootargs = Name::new(alloc, b"bootargs")?;
    let mut value = Vec::from_slice(alloc, line)?;
    value.extend_from_slice(b"\0")?;
    tree.set_property(&chosen, bootargs, Bytes::from_vec(value))
}

/// Why a blob got no command line.
#[derive(Debug, Drop)]
enum Refused {
    Unread(ReadError),
    Unwritten(BlobError),
    Tree(TreeError),
}

/// The blob with that command line.
fn with_command_line(
    alloc: Global,
    hasher: RandomState,
    blob: &[u8],
    line: &[u8],
) -> Result<Vec<u8>, Refused> {
    let mut tree = read(alloc, blob).map_err(Refused::Unread)?;
    set_command_line(alloc, &mut tree, line).map_err(Refused::Tree)?;
    write(alloc, hasher, &tree).map_err(Refused::Unwritten)
}

#[test]
fn a_boot_loader_sets_the_command_line(rt: HostRuntime) {
    let hasher = RandomState::new(&rt).expect(&rt, "a seed");
    let tree = grown(&rt, rt.alloc(), &[], &[(Call::Add, b"/", b"chosen")]);
    let blob = write(rt.alloc(), hasher, &tree).expect(&rt, "a blob");
    let blob = with_command_line(rt.alloc(), hasher, blob.as_slice(), b"quiet");
    let blob = blob.expect(&rt, "a blob with a command line");
    let tree = read(rt.alloc(), blob.as_slice()).expect(&rt, "a tree");
    let text = source_text(rt.alloc(), &tree).expect(&rt, "a text");
    let wanted = b"/dts-v1/;\n\n/ {\n\tchosen {\n\t\tbootargs = \"quiet\";\n\t};\n};\n";
    assert_eq!(rt; text.as_slice(), wanted.as_slice());
    // A board without `/chosen` takes none.
    let refused = with_command_line(rt.alloc(), hasher, ONE_CELL, b"quiet");
    assert!(rt; matches!(refused, Err(Refused::Tree(TreeError::NoSuchPath))));
}
