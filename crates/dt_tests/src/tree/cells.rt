//! Numbers in bytes, parts of slices, and copies of names.
use dt_tree::{Name, behind, cell_at, cell_in, copy_name, lawful_name};
use std::alloc::Global;
use std::process::Abort;

#[test]
fn cells(rt: HostRuntime) {
    let bytes = b"\x01\x02\x03\x04\x05".as_slice();
    assert_eq!(rt; cell_at(bytes, 1), 0x0203_0405);
    assert!(rt; cell_in(bytes).is_none());
    assert!(rt; cell_in(behind(bytes, 1)) == Some(0x0203_0405));
    assert!(rt; behind(bytes, 3) == b"\x04\x05".as_slice());
    assert!(rt; behind(bytes, 6).is_empty());
}

fn is_copied(rt: &impl Abort, alloc: Global, name: Option<&Name>) -> bool {
    match copy_name(alloc, name).expect(rt, "memory") {
        None => name.is_none(),
        Some(copy) => copy.as_bytes() == b"phandle".as_slice(),
    }
}

#[test]
fn copied_names(rt: HostRuntime) {
    let alloc = rt.alloc();
    let name = lawful_name(alloc, b"phandle".as_slice()).expect(&rt, "memory");
    assert!(rt; is_copied(&rt, alloc, Some(&name)));
    assert!(rt; is_copied(&rt, alloc, None));
}
