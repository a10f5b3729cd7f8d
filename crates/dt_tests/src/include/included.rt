//! A text with all that it takes in, and the files that it names.

use crate::include::shelf::Shelf;
use dt_text::include::included;
use std::alloc::Global;
use std::process::Abort;

/// A text of the file `a.dts`, what it comes to, and the files that it names: where, and their bytes.
type Row = (&'static str, &'static str, &'static [(u32, &'static [u8])]);

fn comes_to(rt: &impl Abort, alloc: Global, row: &Row) {
    let Ok(whole) = included(alloc, &mut Shelf, b"a.dts", row.0.as_bytes()) else {
        panic!(rt; "not whole");
    };
    assert_eq!(rt; whole.text.as_slice(), row.1.as_bytes());
    assert_eq!(rt; whole.binaries.len(), row.2.len());
    for (binary, (at, bytes)) in whole.binaries.iter().zip(row.2) {
        assert_eq!(rt; binary.at, *at);
        assert_eq!(rt; binary.bytes.as_slice(), *bytes);
    }
}

const TEXTS: &[Row] = &[
    ("x;", "x;", &[]),
    (
        "x; /include/ \"one\" w;",
        "x; \n# 1 \"one\"\ny;\n\n# 1 \"a.dts\"\n w;",
        &[],
    ),
    // words over two lines, and a marker of the user's
    (
        "\n# 7 \"b.dtsi\"\n/include/\n\"empty\"v;",
        "\n# 7 \"b.dtsi\"\n\n# 1 \"empty\"\n\n# 8 \"b.dtsi\"\nv;",
        &[],
    ),
    // a gap between the words
    (
        "/include/ // its name\n/* */\"empty\"",
        "\n# 1 \"empty\"\n\n# 2 \"a.dts\"\n",
        &[],
    ),
    // a comment and a string hold none
    (
        "/* /include/ \"one\" */ \"/include/ \\\"one\\\"\" // /include/ \"one\"",
        "/* /include/ \"one\" */ \"/include/ \\\"one\\\"\" // /include/ \"one\"",
        &[],
    ),
    (
        "'\"' /* /include/ \"one\"",
        "'\"' /* /include/ \"one\"",
        &[],
    ),
    // nor does a character literal, which goes on behind an apostrophe with a backslash before it, where another follows
    ("'\\' /include/ \"one\" '", "'\\' /include/ \"one\" '", &[]),
    (
        "'\\'/include/ \"one\"",
        "'\\'\n# 1 \"one\"\ny;\n\n# 1 \"a.dts\"\n",
        &[],
    ),
    // a keyword may have a comment right behind it
    (
        "/dts-v1//* 1 */; /include/ \"empty\"",
        "/dts-v1//* 1 */; \n# 1 \"empty\"\n\n# 1 \"a.dts\"\n",
        &[],
    ),
    (
        "/bits//* it's */32/include/ \"empty\"",
        "/bits//* it's */32\n# 1 \"empty\"\n\n# 1 \"a.dts\"\n",
        &[],
    ),
    (
        "/omit-if-no-ref//incbin//include/ \"empty\"",
        "/omit-if-no-ref//incbin/\n# 1 \"empty\"\n\n# 1 \"a.dts\"\n",
        &[],
    ),
    // what is no keyword has a comment behind its slashes
    ("/bit//include/ \"empty\"", "/bit//include/ \"empty\"", &[]),
    // a comment of a line ends with its file
    (
        "/include/ \"line\" w;",
        "\n# 1 \"line\"\ny; // a\n# 1 \"a.dts\"\n w;",
        &[],
    ),
];

#[test]
fn texts_in_place_of_words(rt: HostRuntime) {
    for row in TEXTS {
        comes_to(&rt, rt.alloc(), row);
    }
}

#[test]
fn files_that_are_named(rt: HostRuntime) {
    const ROWS: &[Row] = &[
        (
            "v = /incbin/(\"bin\");",
            "v = /incbin/(\"bin\");",
            &[(4, b"\x00\"\xff")],
        ),
        // offset and length are left to those who read the value
        (
            "v = /incbin/ ( /* its name */ \"bin\" , 1, 2+3), /incbin/(\"empty\");",
            "v = /incbin/ ( /* its name */ \"bin\" , 1, 2+3), /incbin/(\"empty\");",
            &[(4, b"\x00\"\xff"), (47, b"")],
        ),
        // beside the file that names it, at its place in the whole text
        (
            "u = /incbin/(\"own\");/include/ \"two\"",
            "u = /incbin/(\"own\");\n# 1 \"two\"\n\n# 1 \"one\"\ny;\n\n# 1 \"two\"\nz = /incbin/(\"own\");\n# 1 \"a.dts\"\n",
            &[(4, b"a.dts"), (60, b"two")],
        ),
        // the escapes of strings stand in its name
        (
            "/incbin/(\"\\x62\\151n\")",
            "/incbin/(\"\\x62\\151n\")",
            &[(0, b"\x00\"\xff")],
        ),
        // without a name, in a comment and in a string there is none
        ("/incbin/(bin)", "/incbin/(bin)", &[]),
        ("/incbin/ \"bin\"", "/incbin/ \"bin\"", &[]),
        ("/incbin/(\"bin", "/incbin/(\"bin", &[]),
        (
            "// /incbin/(\"bin\")\n\"/incbin/(\" /incbin/",
            "// /incbin/(\"bin\")\n\"/incbin/(\" /incbin/",
            &[],
        ),
    ];
    for row in ROWS {
        comes_to(&rt, rt.alloc(), row);
    }
}
