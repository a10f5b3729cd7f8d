//! What it takes to bind a device.

use bus_picture::why::needs;
use bus_plan::{Device, Plan, read_plan};
use std::alloc::Global;
use std::hash::RandomState;
use std::process::Abort;

// A plan, a device of it, and the devices that it takes, in their order.
struct Row {
    name: &'static str,
    plan: &'static str,
    device: &'static str,
    order: &'static str,
}

const ROWS: &[Row] = &[
    Row {
        name: "alone",
        plan: "/clk fixed ok\n/uart ns ok /clk\n",
        device: "/clk",
        order: "/clk",
    },
    Row {
        name: "clock-and-uart",
        plan: "/uart ns ok /clk\n/clk fixed ok\n/led l ok\n",
        device: "/uart",
        order: "/clk /uart",
    },
    // /d needs /b and /c, both of which need /a: /a once, before both.
    Row {
        name: "diamond",
        plan: "/d x ok /b /c\n/c x ok /a\n/b x ok /a\n/a x ok\n",
        device: "/d",
        order: "/a /b /c /d",
    },
    // Neither a driver nor that a device is available is asked for.
    Row {
        name: "without-drivers",
        plan: "/d - - /b\n/b ! - /a\n/a f fail\n",
        device: "/d",
        order: "/a /b /d",
    },
    // A cycle is gone round once; /a, which the walk enters first, is left last.
    Row {
        name: "cycle",
        plan: "/x x ok /a\n/a x ok /b\n/b x ok /c /a\n/c x ok\n",
        device: "/x",
        order: "/c /b /a /x",
    },
    Row {
        name: "within-a-cycle",
        plan: "/a x ok /b\n/b y ok /a\n",
        device: "/a",
        order: "/b /a",
    },
];

fn add_path(rt: &impl Abort, text: &mut Vec<u8>, plan: &Plan, device: Device) {
    assert!(rt; device.index() < plan.len(), "not of the plan");
    if !text.is_empty() {
        text.push(b' ').expect(rt, "room");
    }
    text.extend_from_slice(plan.path(device).as_bytes())
        .expect(rt, "room");
}

fn order_of(rt: &impl Abort, alloc: Global, plan: &Plan, device: Device) -> Vec<u8> {
    assert!(rt; device.index() < plan.len(), "not of the plan");
    let order = needs(alloc, plan, device).expect(rt, "room");
    let mut text = Vec::new(alloc);
    for device in &order {
        add_path(rt, &mut text, plan, *device);
    }
    text
}

fn holds(rt: &impl Abort, alloc: Global, hasher: RandomState, row: &Row) {
    let plan = read_plan(alloc, hasher, row.plan.as_bytes()).expect(rt, "a plan");
    let device = plan.device(row.device.as_bytes()).expect(rt, "a device");
    let text = order_of(rt, alloc, &plan, device);
    assert!(rt; text.as_slice() == row.order.as_bytes(), "{}", row.name);
}

#[test]
fn orders(rt: HostRuntime) {
    let hasher = RandomState::new(&rt).expect(&rt, "a seed");
    for row in ROWS {
        holds(&rt, rt.alloc(), hasher, row);
    }
}
