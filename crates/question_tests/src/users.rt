//! Who names a node.

use crate::boards::{HERON, tree_of};
use dt_questions::{WhoFault, who_lines};
use dt_tree::Path;
use std::alloc::Global;
use std::hash::RandomState;
use std::process::Abort;

/// A node, the number that is asked for, and the answer.
struct Row {
    path: &'static str,
    number: Option<u64>,
    wanted: &'static str,
}

const ROWS: &[Row] = &[
    Row {
        path: "/soc/gpio@7e200000",
        number: None,
        wanted: "- /touch interrupt-parent[0] <>\n\
            3 /keys/menu gpios[0] <3 1>\n\
            3 /keys/spare gpios[0] <3 0>\n\
            4 /keys/menu gpios[2] <4 1>\n\
            5 /soc/spi@7e201100 interrupts-extended[1] <5 8>\n\
            12 /leds/led gpios[0] <12 0>\n\
            12 /keys/power gpios[0] <12 1> shared with /leds/led\n\
            12 /touch interrupts[0] <12 8>\n",
    },
    Row {
        path: "/soc/gpio@7e200000",
        number: Some(4),
        wanted: "4 /keys/menu gpios[2] <4 1>\n",
    },
    Row {
        path: "/controller@ff841000",
        number: Some(153),
        wanted: "153 /soc/serial@7e201000 interrupts[0] <0 121 4>\n\
            153 /soc/spi@7e201100 interrupts-extended[0] <0 121 4> shared with /soc/serial@7e201000\n",
    },
    Row {
        path: "/soc/pcie@7d500000",
        number: None,
        wanted: "2 /soc/pcie@7d500000/usb@1 interrupts[0] <2>\n",
    },
    Row {
        path: "/leds",
        number: None,
        wanted: "",
    },
];

fn try_row(rt: &impl Abort, alloc: Global, hasher: RandomState, row: &Row) {
    let tree = tree_of(rt, alloc, hasher, HERON);
    let path = Path::parse(alloc, row.path.as_bytes()).expect(rt, "a path");
    let told = who_lines(alloc, hasher, &tree, &path, row.number).expect(rt, "an answer");
    assert!(rt; told.as_slice() == row.wanted.as_bytes());
}

#[test]
fn users_of_nodes(rt: HostRuntime) {
    for row in ROWS {
        try_row(
            &rt,
            rt.alloc(),
            RandomState::new(&rt).expect(&rt, "a seed"),
            row,
        );
    }
}

#[test]
fn no_node(rt: HostRuntime) {
    let hasher = RandomState::new(&rt).expect(&rt, "a seed");
    let tree = tree_of(&rt, rt.alloc(), hasher, HERON);
    let path = Path::parse(rt.alloc(), b"/soc/none").expect(&rt, "a path");
    let fault = who_lines(rt.alloc(), hasher, &tree, &path, None).expect_err(
        &rt,
        "a node that isn't",
    );
    assert!(rt; fault == WhoFault::NoNode);
}
