//! Parts of files in values: what dtc 1.6.1 answers, of files that hold `abcdefgh`.

use crate::source::sources::{has_last_bytes, last_value};
use dt_source::{Binary, Source, parse};
use dt_text::lexeme::{Language, ReadError, RefusalKind};
use std::alloc::Global;
use std::process::Abort;

const FILE: &[u8] = b"abcdefgh";

fn push_file(rt: &impl Abort, alloc: Global, binaries: &mut Vec<Binary>, at: u32) {
    let bytes = Vec::from_slice(alloc, FILE).expect(rt, "memory");
    let pushed = binaries.push(Binary { at, bytes });
    assert!(rt; pushed.is_ok());
}

// The files of `/incbin/`s at these places.
fn files(rt: &impl Abort, alloc: Global, places: &[u32]) -> Vec<Binary> {
    let mut binaries = Vec::new(alloc);
    for at in places {
        push_file(rt, alloc, &mut binaries, *at);
    }
    binaries
}

fn filled<'a>(rt: &impl Abort, alloc: Global, text: &'a [u8], places: &[u32]) -> Source<'a> {
    let source = parse(alloc, text, Language::Dtc).expect(rt, "a source");
    let binaries = files(rt, alloc, places);
    source
        .fill(alloc, binaries)
        .expect(rt, "a source with its files")
}

// Sources, the places of their `/incbin/`s, and the bytes of their last value.
const VALUES: &[(&[u8], &[u32], &[u8])] = &[
    (b"/dts-v1/; / { p = /incbin/(\"f\"); };", &[18], b"abcdefgh"),
    (
        b"/dts-v1/; / { p = /incbin/(\"f\", 2, 3); };",
        &[18],
        b"cde",
    ),
    (
        b"/dts-v1/; / { p = /incbin/(\"f\", (1 + 1), 'A'); };",
        &[18],
        b"cdefgh",
    ),
    (
        b"/dts-v1/; / { p = /incbin/(\"f\", 0x7, 02); };",
        &[18],
        b"h",
    ),
    (b"/dts-v1/; / { p = /incbin/(\"f\", 0, 1); };", &[18], b"a"),
    (
        b"/dts-v1/; / { p = [01], l: /incbin/ ( \"f\" , 6,1 ) m: , \"x\"; };",
        &[27],
        b"\x01gx\0",
    ),
    (
        b"/dts-v1/; / { q = /incbin/(\"g\"); p = /incbin/(\"f\", 3, 1), [02]; };",
        &[18, 37],
        b"d\x02",
    ),
];

// Sources whose last value has no bytes.
const EMPTY: &[&[u8]] = &[
    b"/dts-v1/; / { p = /incbin/(\"f\", 0, 0); };",
    b"/dts-v1/; / { p = /incbin/(\"f\", 8, 1); };",
    b"/dts-v1/; / { p = /incbin/(\"f\", 9, 1); };",
];

fn says_nothing(rt: &impl Abort, source: &Source<'_>) {
    let value = last_value(source).expect(rt, "a value");
    assert!(rt; value.is_empty());
}

#[test]
fn values(rt: HostRuntime) {
    for (text, places, bytes) in VALUES {
        let source = filled(&rt, rt.alloc(), *text, *places);
        has_last_bytes(&rt, &source, *bytes);
    }
    for text in EMPTY {
        let source = filled(&rt, rt.alloc(), *text, &[18]);
        says_nothing(&rt, &source);
    }
}

// The number of the text's refusal, or 255.
fn number(alloc: Global, text: &[u8], language: Language) -> u8 {
    match parse(alloc, text, language) {
        Ok(_) => 255,
        Err(error) => error.number(),
    }
}

// Sources, and the numbers of their refusals in dtc's language. In the profile each is 10.
const REFUSALS: &[(&[u8], u8)] = &[
    (b"/dts-v1/; / { p = /incbin/(\"f\"); };", 255),
    (b"/dts-v1/; / { p = /incbin/\"f\"; };", 10),
    (b"/dts-v1/; / { p = /incbin/(\"f\", 1); };", 10),
    (b"/dts-v1/; / { p = /incbin/(\"f\",); };", 10),
    (b"/dts-v1/; / { p = /incbin/(f); };", 10),
    (b"/dts-v1/; / { p = /incbin/(\"f\" \"g\"); };", 10),
    (b"/dts-v1/; / { p = /incbin/(\"f\", 1 + 1, 2); };", 10),
    (b"/dts-v1/; / { p = /incbin/(\"f\"", 10),
    (b"/dts-v1/; / { p = </incbin/(\"f\")>; };", 10),
    (b"/dts-v1/; / { /incbin/(\"f\"); };", 10),
    (b"/dts-v1/; / { p = /incbin/(\"f\") /incbin/(\"f\"); };", 10),
    (b"/dts-v1/; / { p = /incbin/(\"f\", 08, 2); };", 14),
    (b"/dts-v1/; / { p = /incbin/(\"f\", 1, (1 / 0)); };", 12),
    (b"/dts-v1/; / { p = /incbin/(\"\\x\"); };", 15),
];

#[test]
fn refusals(rt: HostRuntime) {
    for (text, dtc) in REFUSALS {
        assert_eq!(rt; number(rt.alloc(), *text, Language::Dtc), *dtc);
        assert_eq!(rt; number(rt.alloc(), *text, Language::Profile), 10);
    }
}

// Where the next file is that of another place, or none is left, the `/incbin/` is refused.
fn lacks_file(rt: &impl Abort, alloc: Global, places: &[u32]) {
    let text = b"/dts-v1/; / { q; p = /incbin/(\"f\"); };";
    let source = parse(alloc, text, Language::Dtc).expect(rt, "a source");
    match source.fill(alloc, files(rt, alloc, places)) {
        Err(ReadError::Refused(refusal)) => {
            assert_eq!(rt; refusal.kind, RefusalKind::Syntax);
            assert_eq!(rt; refusal.place, 21);
        }
        _ => panic!(rt; "a refusal"),
    }
}

#[test]
fn missing_files(rt: HostRuntime) {
    lacks_file(&rt, rt.alloc(), &[]);
    lacks_file(&rt, rt.alloc(), &[20]);
    lacks_file(&rt, rt.alloc(), &[22, 21]);
}
