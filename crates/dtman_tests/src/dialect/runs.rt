//! Runs of dtc and fdtoverlay over files in memory: what they write, print and tell.

use crate::runs::{Left, left_by};
use crate::shelf::Shelf;
use dtman_engine::compile_bytes;
use std::hash::RandomState;
use std::io;
use std::process::Abort;
use std::thread::Threads;

/// The words, the exit status, and what is told, printed and written last.
type Row = (&'static [&'static str], u8, &'static str);

const FILES: &[(&str, &[u8])] = &[
    ("a.dts", b"/dts-v1/; / { /include/ \"b.dtsi\" };"),
    ("in/b.dtsi", b"x = /incbin/(\"c\", 1, 2);"),
    ("in/c", b"\x00\x1f\x7f\x00"),
    ("one.dts", b"/dts-v1/; / { };"),
    ("two.dts", b"/dts-v1/; / { b; a; };"),
    (
        "text.dtb",
        b"0123456789012345678901234567890123456789/ { };",
    ),
    ("bad.dts", b"/dts-v1/;\n&unknown { };"),
    (
        "gone.dts",
        b"/dts-v1/;\n/ { };\n/delete-node/ /* one */ &unknown;",
    ),
    (
        "unknown.dts",
        b"/dts-v1/;\n/ {\n\tx = <1\n\t\t&unknown>;\n};",
    ),
    ("lost.dts", b"/dts-v1/;\n /include/ \"none.dtsi\"\n"),
    ("five.dts", b"/dts-v1/;\n/include/ 5;\n"),
    ("latin.dts", b"/dts-v1/; / { a = /incbin/(\"no\xff\"); };"),
    ("deep.dts", b"\n/include/ \"deep.dts\""),
];

fn runs<R: Abort + AllocGlobal + Threads + Sync>(rt: &R, hasher: RandomState, row: &Row) {
    let mut shelf = Shelf::new(rt.alloc(), FILES, hasher);
    shelf.input = b"/dts-v1/; / { };";
    let Left { status, text } = left_by(rt, row.0, &mut shelf);
    assert_eq!(rt; status, row.1);
    assert_eq!(rt; text.as_slice(), row.2.as_bytes());
}

/// Where the system tells why a file can't be opened.
const REASONS: &[Row] = &[
    (
        &["dtc", "lost.dts"],
        1,
        "Error: lost.dts:2.2-23: CannotRead: no file can be read that is named `none.dtsi`\nFATAL ERROR: Couldn't open \"none.dtsi\": No such file or directory (os error 2)\n",
    ),
    (
        &["dtc", "none.dts"],
        1,
        "FATAL ERROR: Couldn't open \"none.dts\": No such file or directory (os error 2)\n",
    ),
    (
        &["dtc", "-o", "locked", "one.dts"],
        1,
        "FATAL ERROR: Couldn't open output file locked: No such file or directory (os error 2)\n",
    ),
    (
        &["fdtget", "none", "/", "x"],
        1,
        "Couldn't open blob from 'none': No such file or directory (os error 2)\n",
    ),
];

#[test]
fn the_system_tells_why(rt: HostRuntime) {
    let hasher = RandomState::new(&rt).expect(&rt, "a seed");
    for row in REASONS {
        let mut shelf = Shelf::new(rt.alloc(), FILES, hasher);
        shelf.reason = Some(io::Error::from_raw_os_error(2));
        let Left { status, text } = left_by(&rt, row.0, &mut shelf);
        assert_eq!(&rt; status, row.1);
        assert_eq!(&rt; text.as_slice(), row.2.as_bytes());
    }
}

const DTC_RUNS: &[Row] = &[
    (&["dtc", "-v"], 0, "Version: DTC 1.6.1-dtman-0.3\n"),
    (&["fdtoverlay", "-V"], 0, "Version: DTC 1.6.1-dtman-0.3\n"),
    (&["dtc", "-Z"], 1, "Error: unknown option -Z\n"),
    (
        &["dtc", "-T", "a.dts"],
        1,
        "Error: dtc's option -T isn't there in dtman\n",
    ),
    (
        &["dtc", "-s", "-O", "dts", "two.dts"],
        0,
        "/dts-v1/;\n\n/ {\n\ta;\n\tb;\n};\n",
    ),
    (
        &["dtc", "-qo"],
        1,
        "Error: option -qo requires an argument\n",
    ),
    (
        &["dtc", "-V", "16", "a.dts"],
        1,
        "Error: dtc's -V 16 isn't there in dtman\n",
    ),
    (
        &["dtc", "-V18", "a.dts"],
        1,
        "Error: option -V18 doesn't take 18\n",
    ),
    (
        &["dtc", "-H", "both", "a.dts"],
        1,
        "Error: dtc's -H both isn't there in dtman\n",
    ),
    (
        &["dtc", "-O", "yaml", "a.dts"],
        1,
        "Error: dtc's -O yaml isn't there in dtman\n",
    ),
    (
        &["dtc", "-I", "fs", "a.dts"],
        1,
        "FATAL ERROR: Couldn't open \"a.dts\": error 80 CannotRead\n",
    ),
    (
        &[
            "dtc", "-O", "null", "-V", "17", "-H", "epapr", "-i", "in", "a.dts",
        ],
        0,
        "",
    ),
    // the output's name says that it is a source
    (
        &["dtc", "-o", "x.dts", "one.dts"],
        0,
        "/dts-v1/;\n\n/ {\n};\n",
    ),
    (
        &["dtc", "-o", "x.DTS", "one.dts"],
        0,
        "/dts-v1/;\n\n/ {\n};\n",
    ),
    (
        &["dtc", "-o", "x.yaml", "one.dts"],
        1,
        "Error: dtc's -o x.yaml isn't there in dtman\n",
    ),
    // the input's name says that it is a blob
    (
        &["dtc", "-O", "dts", "text.dtb"],
        1,
        "Error: text.dtb:0x0: BadMagic: this is no blob; wanted is the magic number 0xd00dfeed, and 0x30313233 stands there; it is text\nFATAL ERROR: Unable to parse input tree\n",
    ),
    (
        &["dtc", "-o", "-", "-d", "y", "-O", "null", "-"],
        0,
        "-: <stdin>\n",
    ),
    // the file of dependencies comes first, then an empty x
    (
        &["dtc", "-d", "-", "-o", "x", "-O", "null", "one.dts"],
        0,
        "",
    ),
    (
        &["dtc", "-p", "1", "-S", "2"],
        1,
        "FATAL ERROR: Can't set both -p and -S\n",
    ),
    (
        &["dtc", "-a", "3", "a.dts"],
        1,
        "Error: option -a doesn't take 3\n",
    ),
    (
        &["dtc", "none.dts"],
        1,
        "FATAL ERROR: Couldn't open \"none.dts\": error 80 CannotRead\n",
    ),
    (
        &["dtc", "bad.dts"],
        1,
        "Error: bad.dts:2.1-9: UnknownLabel: no node has the label `unknown`\nFATAL ERROR: Unable to parse input tree\n",
    ),
    (
        &["dtc", "gone.dts"],
        1,
        "Error: gone.dts:3.25-33: UnknownLabel: no node has the label `unknown`\nFATAL ERROR: Unable to parse input tree\n",
    ),
    (
        &["dtc", "unknown.dts"],
        2,
        "Error: unknown.dts:4.3-11: UnknownLabel: no node has the label `unknown`\nERROR: Input tree has errors, aborting\n",
    ),
    (
        &["dtc", "lost.dts"],
        1,
        "Error: lost.dts:2.2-23: CannotRead: no file can be read that is named `none.dtsi`\nFATAL ERROR: Couldn't open \"none.dtsi\": error 80 CannotRead\n",
    ),
    (
        &["dtc", "latin.dts"],
        1,
        "Error: latin.dts:1.19-33: CannotRead: no file can be read that is named `no\\xff`\nFATAL ERROR: Couldn't open \"?\": its name is no text of UTF-8\n",
    ),
    (
        &["dtc", "five.dts"],
        1,
        "Error: five.dts:2.11-12: Syntax: this can't stand here\nFATAL ERROR: error 10 Syntax in an inclusion\n",
    ),
    (
        &["dtc", "deep.dts"],
        1,
        "Error: deep.dts:2.1-21: TooDeep: files within files, over 200 deep\nFATAL ERROR: Includes nested too deeply\n",
    ),
    (
        &[
            "dtc", "-i", "in", "-O", "dts", "--out=x", "-d", "y", "a.dts",
        ],
        0,
        "/dts-v1/;\n\n/ {\n\tx = [1f 7f];\n};\n",
    ),
];

#[test]
fn dtc(rt: HostRuntime) {
    let hasher = RandomState::new(&rt).expect(&rt, "a seed");
    for row in DTC_RUNS {
        runs(&rt, hasher, row);
    }
}

/// Words, and what is told of them.
const OVERLAY_MISTAKES: &[(&[&str], &str)] = &[
    (
        &["fdtoverlay", "-i", "base", "-o", "x"],
        "Error: missing overlay file(s)\n",
    ),
    (
        &["fdtoverlay", "-o", "x", "over"],
        "Error: option -i requires an argument\n",
    ),
    (&["fdtoverlay", "-x"], "Error: unknown option -x\n"),
    (
        &["fdtoverlay", "-i", "base", "-o", "x", "unknown"],
        "Error: unknown: UnknownSymbol: the base has no such symbol, or no phandle where it leads\nFailed to apply 'unknown'\n",
    ),
    (
        &["fdtoverlay", "-i", "none", "-o", "x", "over"],
        "FATAL ERROR: Couldn't open \"none\": error 80 CannotRead\n",
    ),
];

/// Words that apply one overlay.
const APPLYING: &[&[&str]] = &[
    &["fdtoverlay", "-i", "base", "-o", "x", "over", "over"],
    &["dtman", "fdtoverlay", "--input=base", "-ox", "over"],
    // one without a fragment changes nothing
    &["bin/fdtoverlay", "-i", "base", "-ox", "over", "base"],
];

fn blob_of<R: Abort + AllocGlobal>(rt: &R, hasher: RandomState, source: &str) -> Vec<u8> {
    compile_bytes(rt.alloc(), hasher, source.as_bytes(), false).expect(rt, "a blob")
}

/// A base, an overlay of it, and one whose symbol it has not.
#[derive(Drop)]
struct Blobs {
    base: Vec<u8>,
    over: Vec<u8>,
    unknown: Vec<u8>,
}

fn make_blobs<R: Abort + AllocGlobal>(rt: &R, hasher: RandomState) -> Blobs {
    Blobs {
        base: blob_of(rt, hasher, "/dts-v1/; / { a { }; };"),
        over: blob_of(
            rt,
            hasher,
            "/dts-v1/; / { fragment@0 { target-path = \"/a\"; __overlay__ { x; }; }; };",
        ),
        unknown: blob_of(
            rt,
            hasher,
            "/dts-v1/; / { fragment@0 { target = <0xffffffff>; __overlay__ { }; }; __fixups__ { u = \"/fragment@0:target:0\"; }; };",
        ),
    }
}

fn applied<R: Abort + AllocGlobal + Threads + Sync>(
    rt: &R,
    hasher: RandomState,
    blobs: &Blobs,
    words: &[&str],
) -> Left {
    let files = [
        ("base", blobs.base.as_slice()),
        ("over", blobs.over.as_slice()),
        ("unknown", blobs.unknown.as_slice()),
    ];
    let mut shelf = Shelf::new(rt.alloc(), files.as_slice(), hasher);
    left_by(rt, words, &mut shelf)
}

fn leaves<R: Abort + AllocGlobal + Threads + Sync>(
    rt: &R,
    hasher: RandomState,
    blobs: &Blobs,
    words: &[&str],
    wanted: (u8, &[u8]),
) {
    let Left { status, text } = applied(rt, hasher, blobs, words);
    assert_eq!(rt; status, wanted.0);
    assert_eq!(rt; text.as_slice(), wanted.1);
}

#[test]
fn overlays_are_applied(rt: HostRuntime) {
    let hasher = RandomState::new(&rt).expect(&rt, "a seed");
    let blobs = make_blobs(&rt, hasher);
    let wanted = blob_of(&rt, hasher, "/dts-v1/; / { a { x; }; };");
    for words in APPLYING {
        leaves(&rt, hasher, &blobs, *words, (0, wanted.as_slice()));
    }
}

#[test]
fn overlays_are_refused(rt: HostRuntime) {
    let hasher = RandomState::new(&rt).expect(&rt, "a seed");
    let blobs = make_blobs(&rt, hasher);
    for (words, told) in OVERLAY_MISTAKES {
        leaves(&rt, hasher, &blobs, *words, (1, told.as_bytes()));
    }
}
