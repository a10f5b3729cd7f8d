//! Why devices wait.

use bus_picture::why::{Cause, Chain, chain_from, waiting_chains};
use bus_plan::{Device, Plan, read_plan};
use std::alloc::Global;
use std::hash::RandomState;
use std::process::Abort;

// A plan, the devices of it that are bound, and a line for each that waits: the chain and its cause.
struct Row {
    name: &'static str,
    plan: &'static str,
    bound: &'static [bool],
    chains: &'static str,
}

const ROWS: &[Row] = &[
    Row {
        name: "all-bound",
        plan: "/clk fixed ok\n/uart ns ok /clk\n",
        bound: &[true, true],
        chains: "",
    },
    // The panel waits for the backlight, that for the pwm, for which there is no driver.
    Row {
        name: "no-driver",
        plan: "/panel p ok /backlight\n/backlight b ok /clk /pwm\n/clk c ok\n/pwm - - /clk\n",
        bound: &[false, false, true, false],
        chains: "/panel /backlight /pwm unmatched\n/backlight /pwm unmatched\n",
    },
    Row {
        name: "disabled-supplier",
        plan: "/s ! -\n/d y ok /s\n",
        bound: &[false, false],
        chains: "/d /s disabled\n",
    },
    Row {
        name: "failed-supplier",
        plan: "/s x fail\n/d y ok /s\n/e z ok /d\n",
        bound: &[false, false, false],
        chains: "/d /s failed\n/e /d /s failed\n",
    },
    // What waits behind a cycle is told with the cycle, which is shown whole.
    Row {
        name: "cycle-waits",
        plan: "/x x ok /a\n/a x ok /b\n/b y ok /a\n",
        bound: &[false, false, false],
        chains: "/x /a /b /a cycle 1\n/a /b /a cycle 0\n/b /a /b cycle 0\n",
    },
];

fn cause_text(rt: &impl Abort, alloc: Global, cause: Cause) -> String {
    match cause {
        Cause::Bound => format!(in alloc; "bound").expect(rt, "room"),
        Cause::Failed => format!(in alloc; "failed").expect(rt, "room"),
        Cause::Unmatched => format!(in alloc; "unmatched").expect(rt, "room"),
        Cause::Disabled => format!(in alloc; "disabled").expect(rt, "room"),
        Cause::Cycle(place) => format!(in alloc; "cycle {place}").expect(rt, "room"),
    }
}

fn add_path(rt: &impl Abort, text: &mut Vec<u8>, plan: &Plan, device: Device) {
    assert!(rt; device.index() < plan.len(), "not of the plan");
    text.extend_from_slice(plan.path(device).as_bytes())
        .expect(rt, "room");
    text.push(b' ').expect(rt, "room");
}

fn add_chain(rt: &impl Abort, alloc: Global, text: &mut Vec<u8>, plan: &Plan, chain: &Chain) {
    for device in &chain.devices {
        add_path(rt, text, plan, *device);
    }
    let cause = cause_text(rt, alloc, chain.cause);
    text.extend_from_slice(cause.as_bytes()).expect(rt, "room");
    text.push(b'\n').expect(rt, "room");
}

fn chains_of(rt: &impl Abort, alloc: Global, plan: &Plan, bound: &[bool]) -> Vec<u8> {
    let chains = waiting_chains(alloc, plan, bound).expect(rt, "room");
    let mut text = Vec::new(alloc);
    for chain in &chains {
        add_chain(rt, alloc, &mut text, plan, chain);
    }
    text
}

fn holds(rt: &impl Abort, alloc: Global, hasher: RandomState, row: &Row) {
    let plan = read_plan(alloc, hasher, row.plan.as_bytes()).expect(rt, "a plan");
    let text = chains_of(rt, alloc, &plan, row.bound);
    assert!(rt; text.as_slice() == row.chains.as_bytes(), "{}", row.name);
}

#[test]
fn chains(rt: HostRuntime) {
    let hasher = RandomState::new(&rt).expect(&rt, "a seed");
    for row in ROWS {
        holds(&rt, rt.alloc(), hasher, row);
    }
}

fn chain_at(rt: &impl Abort, alloc: Global, plan: &Plan, bound: &[bool], path: &str) -> Vec<u8> {
    let device = plan.device(path.as_bytes()).expect(rt, "a device");
    assert!(rt; device.index() < plan.len(), "not of the plan");
    let chain = chain_from(alloc, plan, bound, device).expect(rt, "room");
    let mut text = Vec::new(alloc);
    add_chain(rt, alloc, &mut text, plan, &chain);
    text
}

#[test]
fn one_chain(rt: HostRuntime) {
    let hasher = RandomState::new(&rt).expect(&rt, "a seed");
    let text = "/uart ns ok /clk\n/clk fixed ok\n/led - -\n";
    let plan = read_plan(rt.alloc(), hasher, text.as_bytes()).expect(&rt, "a plan");
    let bound = [true, true, false];
    let uart = chain_at(&rt, rt.alloc(), &plan, &bound, "/uart");
    assert!(&rt; uart.as_slice() == b"/uart bound\n".as_slice());
    let led = chain_at(&rt, rt.alloc(), &plan, &bound, "/led");
    assert!(&rt; led.as_slice() == b"/led unmatched\n".as_slice());
}
