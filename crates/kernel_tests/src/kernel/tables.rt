//! Tables of drivers in images.

use bus_kernel::tables::tables_in;
use std::alloc::Global;
use std::process::Abort;

// What stands in an image.
#[derive(Clone, Copy)]
enum Part {
    /// So many zero bytes.
    Zeros(usize),
    /// An entry with this string, and with this pointer.
    Entry(&'static [u8], u8),
    /// An entry with a type besides.
    Typed(&'static [u8]),
    /// Other bytes.
    Bytes(&'static [u8]),
}

// An image whose pointers have so many bytes, and the strings of its tables: each with a space behind it, each table with a line feed.
struct Row {
    name: &'static str,
    pointer: usize,
    parts: &'static [Part],
    tables: &'static [u8],
}

// A class of ELF tells the width.
const ELF: Part = Part::Bytes(b"\x7fELF\x02\0\0\0");

const ELF_OF_FOUR: Part = Part::Bytes(b"\x7fELF\x01\0\0\0");

const END: Part = Part::Zeros(200);

const ROWS: &[Row] = &[
    Row {
        name: "nothing",
        pointer: 8,
        parts: &[],
        tables: b"",
    },
    Row {
        name: "two-tables",
        pointer: 8,
        parts: &[
            ELF,
            Part::Entry(b"a,one", 1),
            Part::Entry(b"a,two", 0),
            END,
            Part::Entry(b"fixed-clock", 0),
            END,
        ],
        tables: b"a,one a,two \nfixed-clock \n",
    },
    // A string of the image is no table without a comma or a dash.
    Row {
        name: "no-comma",
        pointer: 8,
        parts: &[ELF, Part::Entry(b"stat", 0), END],
        tables: b"",
    },
    Row {
        name: "one-dash-is-enough",
        pointer: 8,
        parts: &[
            ELF,
            Part::Entry(b"isa", 0),
            Part::Entry(b"simple-bus", 0),
            END,
        ],
        tables: b"isa simple-bus \n",
    },
    Row {
        name: "no-end",
        pointer: 8,
        parts: &[ELF, Part::Entry(b"a,one", 0), Part::Entry(b"a,two", 0)],
        tables: b"",
    },
    // One with a type besides asks for more than a string: the table begins behind it.
    Row {
        name: "typed",
        pointer: 8,
        parts: &[ELF, Part::Typed(b"a,one"), Part::Entry(b"a,two", 0), END],
        tables: b"a,two \n",
    },
    // A pointer of 44 is a comma with zero bytes around it, which stands within the table.
    Row {
        name: "comma-as-pointer",
        pointer: 8,
        parts: &[ELF, Part::Entry(b"a,one", 44), END, Part::Zeros(200)],
        tables: b"a,one \n",
    },
    Row {
        name: "not-aligned",
        pointer: 8,
        parts: &[ELF, Part::Zeros(4), Part::Entry(b"a,one", 0), END],
        tables: b"",
    },
    Row {
        name: "four-bytes",
        pointer: 4,
        parts: &[
            ELF_OF_FOUR,
            Part::Zeros(4),
            Part::Entry(b"a,one", 7),
            Part::Entry(b"a,two", 7),
            END,
        ],
        tables: b"a,one a,two \n",
    },
    // An image that tells no width has words of eight bytes, or else of four.
    Row {
        name: "untold-eight",
        pointer: 8,
        parts: &[
            Part::Zeros(8),
            Part::Entry(b"a,one", 7),
            Part::Entry(b"a,two", 7),
            END,
        ],
        tables: b"a,one a,two \n",
    },
    Row {
        name: "untold-four",
        pointer: 4,
        parts: &[
            Part::Zeros(8),
            Part::Entry(b"a,one", 7),
            Part::Entry(b"a,two", 7),
            END,
        ],
        tables: b"a,one a,two \n",
    },
];

fn add_zeros(rt: &impl Abort, image: &mut Vec<u8>, count: usize) {
    for _ in 0..count {
        image.push(0).expect(rt, "room");
    }
}

fn add_bytes(rt: &impl Abort, image: &mut Vec<u8>, bytes: &[u8]) {
    image.extend_from_slice(bytes).expect(rt, "room");
}

// A compatible and a pointer.
fn add_string(rt: &impl Abort, image: &mut Vec<u8>, string: &[u8], pointer: usize) {
    add_bytes(rt, image, string);
    add_zeros(rt, image, 128usize.saturating_sub(string.len()));
    add_zeros(rt, image, pointer.saturating_sub(1));
}

fn add_part(rt: &impl Abort, image: &mut Vec<u8>, pointer: usize, part: Part) {
    match part {
        Part::Zeros(count) => add_zeros(rt, image, count),
        Part::Bytes(bytes) => add_bytes(rt, image, bytes),
        Part::Entry(string, first) => {
            add_zeros(rt, image, 64);
            add_bytes(rt, image, string);
            add_zeros(rt, image, 128usize.saturating_sub(string.len()));
            add_bytes(rt, image, &[first]);
            add_zeros(rt, image, pointer.saturating_sub(1));
        }
        Part::Typed(string) => {
            add_zeros(rt, image, 32);
            add_bytes(rt, image, b"pci");
            add_zeros(rt, image, 29);
            add_string(rt, image, string, pointer.saturating_add(1));
        }
    }
}

fn image_of(rt: &impl Abort, alloc: Global, row: &Row) -> Vec<u8> {
    let mut image = Vec::new(alloc);
    for part in row.parts {
        add_part(rt, &mut image, row.pointer, *part);
    }
    image
}

fn add_strings(rt: &impl Abort, text: &mut Vec<u8>, strings: &[&[u8]]) {
    for string in strings {
        add_bytes(rt, text, *string);
        add_bytes(rt, text, b" ");
    }
    add_bytes(rt, text, b"\n");
}

fn holds(rt: &impl Abort, alloc: Global, row: &Row) {
    let image = image_of(rt, alloc, row);
    let mut text = Vec::new(alloc);
    for table in &tables_in(alloc, image.as_slice()).expect(rt, "tables") {
        add_strings(rt, &mut text, table.compatibles.as_slice());
    }
    assert!(rt; text.as_slice() == row.tables, "{}", row.name);
}

#[test]
fn tables(rt: HostRuntime) {
    for row in ROWS {
        holds(&rt, rt.alloc(), row);
    }
}
