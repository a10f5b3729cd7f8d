//! Refusals as objects of JSON (RFC 8259, section 7: which characters a string escapes).

use crate::place::refused::{Compiled, refused_by};
use crate::place::shown::diagnosed_blob;
use dt_text::lexeme::Language;
use dtman_diagnosis::{Diagnosis, diagnose_source, json_of};
use std::alloc::AllocError;
use std::process::Abort;
use std::random::RandomSource;

fn is_object<R: Abort + AllocGlobal>(
    rt: &R,
    name: &str,
    line: Option<usize>,
    diagnosis: Result<Diagnosis, AllocError>,
    object: &str,
) {
    let diagnosis = diagnosis.expect(rt, "a diagnosis");
    let text = json_of(rt.alloc(), name, line, &diagnosis).expect(rt, "a text");
    assert_eq!(rt; text.as_str(), object);
}

/// A source, the number, the name and the line of its refusal, and the object.
struct Row {
    source: &'static str,
    number: u8,
    name: &'static str,
    line: Option<usize>,
    object: &'static str,
}

const ROWS: &[Row] = &[
    Row {
        source: "# 3 \"board.dts\"\n/dts-v1/;\n/ {\n\ta = <&b>;\n};\n",
        number: 20,
        name: "UnknownLabel",
        line: None,
        object: "{\"file\":\"board.dts\",\"line\":5,\"column\":7,\"end\":9,\"severity\":\"error\",\"number\":20,\"name\":\"UnknownLabel\",\"path\":\"/\",\"property\":\"a\",\"message\":\"no node has the label `b`\"}\n",
    },
    Row {
        source: "/dts-v1/;\n/ { s = 'okay'; };\n",
        number: 10,
        name: "Syntax",
        line: Some(2),
        object: "{\"file\":\"a\\\"\\\\\\tb.dts\",\"line\":2,\"column\":9,\"end\":10,\"severity\":\"error\",\"number\":10,\"name\":\"Syntax\",\"path\":\"/\",\"property\":\"s\",\"message\":\"no lexeme begins here\",\"notes\":[\"strings stand in \\\"\"]}\n",
    },
    Row {
        source: "/dts-v1/;\n/ { s = \"\\x\"; };\n",
        number: 15,
        name: "BadEscape",
        line: Some(2),
        object: "{\"file\":\"a\\\"\\\\\\tb.dts\",\"line\":2,\"column\":10,\"end\":12,\"severity\":\"error\",\"number\":15,\"name\":\"BadEscape\",\"path\":\"/\",\"property\":\"s\",\"message\":\"`\\\\x` is no escape\"}\n",
    },
    Row {
        source: "",
        number: 17,
        name: "TooLong",
        line: Some(1),
        object: "{\"file\":\"a\\\"\\\\\\tb.dts\",\"line\":1,\"severity\":\"error\",\"number\":17,\"name\":\"TooLong\",\"message\":\"a source has at most 16,777,216 bytes\"}\n",
    },
];

fn row_is_object<R: Abort + AllocGlobal + RandomSource>(rt: &R, row: &Row) {
    let file = b"a\"\\\tb.dts".as_slice();
    let source = row.source.as_bytes();
    let compiled = Compiled {
        language: Language::Profile,
        text: source,
        symbols: false,
    };
    let refused = refused_by(rt, compiled, row.number);
    let diagnosis = diagnose_source(rt.alloc(), file, source, refused);
    is_object(rt, row.name, row.line, diagnosis, row.object);
}

#[test]
fn sources(rt: HostRuntime) {
    for row in ROWS {
        row_is_object(&rt, row);
    }
}

/// A file's name that is no text.
#[test]
fn blobs(rt: HostRuntime) {
    let diagnosis = diagnosed_blob(rt.alloc(), b"b\xff\x01.dtb".as_slice(), b"", 30);
    let object =
        "{\"file\":\"b\\\\xff\\\\x01.dtb\",\"offset\":0,\"severity\":\"error\",\"number\":30,\"name\":\"Truncated\",\"message\":\"the blob is cut\",\"notes\":[\"wanted is a header of 40 bytes\",\"the file is empty\"]}\n";
    is_object(&rt, "Truncated", None, diagnosis, object);
}
