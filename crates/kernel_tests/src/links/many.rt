//! Many devices that name each other.

use crate::links::links::tree_of;
use bus_links::{Linked, Strictness, link, read_link_drivers};
use bus_picture::{linked_sketch, page};
use bus_plan::{Device, MAX_DEVICES};
use std::alloc::Global;
use std::hash::RandomState;
use std::process::Abort;
use std::str;

/// So many devices, of which each names so many of the next ones, around the end.
#[derive(Clone, Copy)]
struct Ring {
    devices: usize,
    named: usize,
}

fn push(rt: &impl Abort, text: &mut String, part: &str) {
    text.push_str(part).expect(rt, "memory");
}

// A device with its phandle, and the clocks that it names.
fn push_device(rt: &impl Abort, alloc: Global, text: &mut String, ring: Ring, place: usize) {
    let phandle = place.wrapping_add(1);
    let head = format!(in alloc; "d{place} {{ compatible = \"c\"; phandle = <{phandle}>; ");
    push(rt, text, head.expect(rt, "memory").as_str());
    push(rt, text, "#clock-cells = <0>; clocks = <");
    for step in 1..=ring.named {
        let named = place
            .wrapping_add(step)
            .checked_rem(ring.devices)
            .unwrap_or(0)
            .wrapping_add(1);
        let cell = format!(in alloc; "{named} ").expect(rt, "memory");
        push(rt, text, cell.as_str());
    }
    push(rt, text, ">; };");
}

fn source(rt: &impl Abort, alloc: Global, ring: Ring) -> String {
    let mut text = String::new(alloc);
    for place in 0..ring.devices {
        push_device(rt, alloc, &mut text, ring, place);
    }
    text
}

fn supplier_count(linked: &Linked<'_>) -> usize {
    let plan = linked.plan();
    let mut count: usize = 0;
    for place in 0..plan.len() {
        count = count.saturating_add(plan.suppliers(Device::new(place)).len());
    }
    count
}

/// As many as a plan may have: all of them are one cycle, and nobody waits.
#[test]
fn devices_that_name_each_other(rt: HostRuntime) {
    let alloc = rt.alloc();
    let hasher = RandomState::new(&rt).expect(&rt, "a seed");
    let ring = Ring {
        devices: MAX_DEVICES,
        named: 16,
    };
    let tree = tree_of(&rt, alloc, hasher, source(&rt, alloc, ring).as_str());
    let drivers = read_link_drivers(alloc, hasher, b"driver x c").expect(&rt, "drivers");
    let linked = link(alloc, hasher, &tree, &drivers, Strictness::Usual).expect(&rt, "links");
    let cycles = linked.cycles(alloc).expect(&rt, "memory");
    assert_eq!(rt; cycles.len(), 1);
    for cycle in &cycles {
        assert_eq!(rt; cycle.devices().len(), MAX_DEVICES);
    }
    assert_eq!(rt; supplier_count(&linked), 0);
}

/// Where each of 260 names the 259 others, a page tells 16 of each list, and that 243 more are left.
#[test]
fn lists_that_are_cut_short(rt: HostRuntime) {
    let alloc = rt.alloc();
    let hasher = RandomState::new(&rt).expect(&rt, "a seed");
    let ring = Ring {
        devices: 260,
        named: 259,
    };
    let tree = tree_of(&rt, alloc, hasher, source(&rt, alloc, ring).as_str());
    let drivers = read_link_drivers(alloc, hasher, b"driver x c").expect(&rt, "drivers");
    let linked = link(alloc, hasher, &tree, &drivers, Strictness::Usual).expect(&rt, "links");
    let sketch = linked_sketch(alloc, &linked, &[]).expect(&rt, "a sketch");
    let page = page(alloc, linked.plan(), sketch, &linked, None).expect(&rt, "a page");
    let text = str::from_utf8(page.as_slice()).expect(&rt, "text");
    assert!(rt; text.contains("<li>and 243 more</li></ul>"));
    assert!(rt; text.contains("href=#d16>"));
    assert!(rt; !text.contains("href=#d17>"));
}
