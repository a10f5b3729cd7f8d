//! Blobs whose nodes make no tree: what is told of them, and what `-f -O dts` prints, as dtc 1.6.1 does by hand.

use crate::runs::{Files, Row, rows_end};

/// A property stands twice in a node.
const TWICE: &[u8] = &[
    208, 13, 254, 237, 0, 0, 0, 118, 0, 0, 0, 56, 0, 0, 0, 116, 0, 0, 0, 40, 0, 0, 0, 17, 0, 0, 0,
    16, 0, 0, 0, 0, 0, 0, 0, 2, 0, 0, 0, 60, 0, 0, 0, 0, 0, 0, 0, 0, 0, 0, 0, 0, 0, 0, 0, 0, 0, 0,
    0, 1, 0, 0, 0, 0, 0, 0, 0, 1, 115, 111, 99, 0, 0, 0, 0, 3, 0, 0, 0, 2, 0, 0, 0, 0, 120, 0, 0,
    0, 0, 0, 0, 3, 0, 0, 0, 2, 0, 0, 0, 0, 121, 0, 0, 0, 0, 0, 0, 2, 0, 0, 0, 2, 0, 0, 0, 9, 97, 0,
];

/// A node has a bad character in its name.
const BAD_NAME: &[u8] = &[
    208, 13, 254, 237, 0, 0, 0, 88, 0, 0, 0, 56, 0, 0, 0, 88, 0, 0, 0, 40, 0, 0, 0, 17, 0, 0, 0,
    16, 0, 0, 0, 0, 0, 0, 0, 0, 0, 0, 0, 32, 0, 0, 0, 0, 0, 0, 0, 0, 0, 0, 0, 0, 0, 0, 0, 0, 0, 0,
    0, 1, 0, 0, 0, 0, 0, 0, 0, 1, 115, 111, 33, 99, 0, 0, 0, 0, 0, 0, 0, 2, 0, 0, 0, 2, 0, 0, 0, 9,
];

/// The root has a name.
const NAMED_ROOT: &[u8] = &[
    208, 13, 254, 237, 0, 0, 0, 88, 0, 0, 0, 56, 0, 0, 0, 88, 0, 0, 0, 40, 0, 0, 0, 17, 0, 0, 0,
    16, 0, 0, 0, 0, 0, 0, 0, 0, 0, 0, 0, 32, 0, 0, 0, 0, 0, 0, 0, 0, 0, 0, 0, 0, 0, 0, 0, 0, 0, 0,
    0, 1, 110, 97, 109, 101, 100, 0, 0, 0, 0, 0, 0, 1, 115, 111, 99, 0, 0, 0, 0, 2, 0, 0, 0, 2, 0,
    0, 0, 9,
];

/// A property stands behind a child.
const BEHIND_CHILD: &[u8] = &[
    208, 13, 254, 237, 0, 0, 0, 98, 0, 0, 0, 56, 0, 0, 0, 96, 0, 0, 0, 40, 0, 0, 0, 17, 0, 0, 0,
    16, 0, 0, 0, 0, 0, 0, 0, 2, 0, 0, 0, 40, 0, 0, 0, 0, 0, 0, 0, 0, 0, 0, 0, 0, 0, 0, 0, 0, 0, 0,
    0, 1, 0, 0, 0, 0, 0, 0, 0, 1, 115, 0, 0, 0, 0, 0, 0, 2, 0, 0, 0, 3, 0, 0, 0, 0, 0, 0, 0, 0, 0,
    0, 0, 2, 0, 0, 0, 9, 97, 0,
];

const FILES: Files = &[
    ("twice.dtb", TWICE),
    ("bad.dtb", BAD_NAME),
    ("root.dtb", NAMED_ROOT),
    ("behind.dtb", BEHIND_CHILD),
];

const REFUSED: &[Row] = &[
    (
        &["dtc", "-O", "dts", "twice.dtb"],
        1,
        "",
        "Error: twice.dtb:0x60: BadTree: the nodes make no tree; wanted is another name than those before it in the node, and 0x00000000 stands there; in /soc; its name is a\nFATAL ERROR: Unable to parse input tree\n",
    ),
    (
        &["dtc", "-f", "-O", "dtb", "root.dtb"],
        1,
        "",
        "Error: root.dtb:0x3c: BadTree: the nodes make no tree; wanted is a root without a name, and 0x6e616d65 stands there; in /; its name is named\nFATAL ERROR: Unable to parse input tree\n",
    ),
];

const FORCED: &[Row] = &[
    (
        &["dtc", "-f", "-O", "dts", "twice.dtb"],
        0,
        "/dts-v1/;\n\n/ {\n\n\tsoc {\n\t\ta = \"x\";\n\t\ta = \"y\";\n\t};\n};\n",
        "Error: twice.dtb:0x60: BadTree: the nodes make no tree; wanted is another name than those before it in the node, and 0x00000000 stands there; in /soc; its name is a\nWarning: Input tree has errors, output forced\n",
    ),
    (
        &["dtc", "-f", "bad.dtb"],
        0,
        "/dts-v1/;\n\n/ {\n\n\tso!c {\n\t};\n};\n",
        "Error: bad.dtb:0x44: BadTree: the nodes make no tree; wanted is a lawful name of a node, and 0x736f2163 stands there; in /; its name is so!c\nWarning: Input tree has errors, output forced\n",
    ),
    (
        &["dtc", "-qqq", "-f", "root.dtb"],
        0,
        "/dts-v1/;\n\nnamed {\n\n\tsoc {\n\t};\n};\n",
        "Error: root.dtb:0x3c: BadTree: the nodes make no tree; wanted is a root without a name, and 0x6e616d65 stands there; in /; its name is named\n",
    ),
    // dtc takes it with a warning, and puts the property first
    (
        &["dtc", "-f", "behind.dtb"],
        0,
        "/dts-v1/;\n\n/ {\n\ta;\n\n\ts {\n\t};\n};\n",
        "Error: behind.dtb:0x4c: PropertyAfterNode: a property stands behind a child; wanted is BEGIN_NODE, 1, or END_NODE, 2, behind a child, and 0x00000003 stands there; in /; its name is a\nWarning: Input tree has errors, output forced\n",
    ),
];

#[test]
fn blobs_without_a_tree_are_refused_by_name(rt: HostRuntime) {
    rows_end(&rt, FILES, REFUSED);
}

#[test]
fn blobs_without_a_tree_are_printed_by_force(rt: HostRuntime) {
    rows_end(&rt, FILES, FORCED);
}
