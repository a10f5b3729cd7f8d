//! Nodes by their aliases, strings, properties and values.

use crate::boards::tree_of;
use dt_questions::{PathFault, Question, find_lines, path_by};
use std::alloc::Global;
use std::hash::RandomState;
use std::process::Abort;

const BOARD: &str = "compatible = \"heron,carrier\"; model = \"Heron\";
    aliases { serial0 = \"/soc/serial@7e201000\"; bad = \"soc\"; open = [2f]; };
    soc { compatible = \"simple-bus\"; ranges;
        serial@7e201000 { compatible = \"arm,pl011\", \"arm,primecell\"; status = \"okay\"; clock-frequency = <48000000 7>; };
        serial@7e201400 { compatible = \"arm,pl011\"; status = \"disabled\"; child { }; }; };";

/// A text, and the path that it is, or why it is none.
struct PathRow {
    text: &'static str,
    wanted: Result<&'static str, PathFault>,
}

const PATHS: &[PathRow] = &[
    PathRow {
        text: "/soc",
        wanted: Ok("/soc"),
    },
    PathRow {
        text: "serial0",
        wanted: Ok("/soc/serial@7e201000"),
    },
    PathRow {
        text: "serial0/child",
        wanted: Ok("/soc/serial@7e201000/child"),
    },
    PathRow {
        text: "serial1",
        wanted: Err(PathFault::NoAlias),
    },
    PathRow {
        text: "open",
        wanted: Err(PathFault::NoAlias),
    },
    PathRow {
        text: "",
        wanted: Err(PathFault::BadPath),
    },
    PathRow {
        text: "bad",
        wanted: Err(PathFault::BadPath),
    },
    PathRow {
        text: "serial0/",
        wanted: Err(PathFault::BadPath),
    },
    PathRow {
        text: "/soc//a",
        wanted: Err(PathFault::BadPath),
    },
];

fn try_path(rt: &impl Abort, alloc: Global, hasher: RandomState, row: &PathRow) {
    let tree = tree_of(rt, alloc, hasher, BOARD);
    match path_by(alloc, &tree, row.text.as_bytes()) {
        Ok(path) => {
            let wanted = row.wanted.expect(rt, "no path");
            assert!(rt; path.as_bytes() == wanted.as_bytes());
        }
        Err(fault) => {
            let wanted = row.wanted.expect_err(rt, "a path");
            assert!(rt; fault == wanted);
        }
    }
}

#[test]
fn paths_by_aliases(rt: HostRuntime) {
    for row in PATHS {
        try_path(
            &rt,
            rt.alloc(),
            RandomState::new(&rt).expect(&rt, "a seed"),
            row,
        );
    }
}

/// A question, and the paths of the nodes that are found.
struct FindRow {
    question: &'static str,
    wanted: &'static str,
}

const FINDS: &[FindRow] = &[
    FindRow {
        question: "arm,pl011",
        wanted: "/soc/serial@7e201000\n/soc/serial@7e201400\n",
    },
    FindRow {
        question: "arm,primecell",
        wanted: "/soc/serial@7e201000\n",
    },
    FindRow {
        question: "arm,pl01",
        wanted: "",
    },
    FindRow {
        question: "compatible",
        wanted: "/\n/soc\n/soc/serial@7e201000\n/soc/serial@7e201400\n",
    },
    FindRow {
        question: "ranges",
        wanted: "/soc\n",
    },
    FindRow {
        question: "status=disabled",
        wanted: "/soc/serial@7e201400\n",
    },
    FindRow {
        question: "clock-frequency=48000000",
        wanted: "/soc/serial@7e201000\n",
    },
    FindRow {
        question: "clock-frequency=0x7",
        wanted: "/soc/serial@7e201000\n",
    },
    FindRow {
        question: "clock-frequency=0x8",
        wanted: "",
    },
];

fn try_find(rt: &impl Abort, alloc: Global, hasher: RandomState, row: &FindRow) {
    let tree = tree_of(rt, alloc, hasher, BOARD);
    let found = find_lines(alloc, hasher, &tree, &Question::of(row.question)).expect(rt, "memory");
    assert!(rt; found.as_slice() == row.wanted.as_bytes());
}

#[test]
fn nodes_by_what_they_have(rt: HostRuntime) {
    for row in FINDS {
        try_find(
            &rt,
            rt.alloc(),
            RandomState::new(&rt).expect(&rt, "a seed"),
            row,
        );
    }
}
