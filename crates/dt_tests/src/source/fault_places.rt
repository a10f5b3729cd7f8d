//! Where the faults 20 to 28 stand: each row's text is in two parts, and the second one begins with the name or the reference that is at
//! fault (`docs/errors.md`).
use dt_build::edit::{edit_dtc, fragments_of};
use dt_build::resolve::{BuildError, BuildErrorKind, gather, prepare};
use dt_source::{Source, parse};
use dt_text::lexeme::Language;
use std::alloc::Global;
use std::hash::RandomState;
use std::process::Abort;

#[derive(Drop)]
struct Row {
    kind: BuildErrorKind,
    before: &'static [u8],
    fault: &'static [u8],
}

const PROFILE: &[Row] = &[
    Row {
        kind: BuildErrorKind::UnknownLabel,
        before: b"/dts-v1/; / { p = <1 ",
        fault: b"&nope>; };",
    },
    Row {
        kind: BuildErrorKind::UnknownLabel,
        before: b"/dts-v1/; / { p = \"x\", ",
        fault: b"&nope; };",
    },
    Row {
        kind: BuildErrorKind::UnknownLabel,
        before: b"/dts-v1/; / { }; ",
        fault: b"&nope { };",
    },
    Row {
        kind: BuildErrorKind::UnknownLabel,
        before: b"/dts-v1/; / { l: a { }; }; /delete-node/ &l; /delete-node/ ",
        fault: b"&l;",
    },
    // the name that a label stands before, and the reference
    Row {
        kind: BuildErrorKind::DuplicateLabel,
        before: b"/dts-v1/; / { l: a { }; l: ",
        fault: b"b { }; };",
    },
    Row {
        kind: BuildErrorKind::DuplicateLabel,
        before: b"/dts-v1/; / { l: a { }; b { }; }; l: ",
        fault: b"&{/b} { };",
    },
    Row {
        kind: BuildErrorKind::UnknownPath,
        before: b"/dts-v1/; / { p = <",
        fault: b"&{/a}>; };",
    },
    Row {
        kind: BuildErrorKind::UnknownPath,
        before: b"/dts-v1/; / { p = ",
        fault: b"&{/a}; };",
    },
    Row {
        kind: BuildErrorKind::UnknownPath,
        before: b"/dts-v1/; / { }; ",
        fault: b"&{/a} { };",
    },
    Row {
        kind: BuildErrorKind::BadPhandle,
        before: b"/dts-v1/; / { a { reg = <1>; ",
        fault: b"phandle = <0>; }; };",
    },
    Row {
        kind: BuildErrorKind::DuplicatePhandle,
        before: b"/dts-v1/; / { a { phandle = <1>; }; b { ",
        fault: b"phandle = <1>; }; };",
    },
    // the later one of the walk, which stands first in the text
    Row {
        kind: BuildErrorKind::DuplicatePhandle,
        before: b"/dts-v1/; / { a { b { ",
        fault: b"phandle = <1>; }; }; }; &{/a} { phandle = <1>; };",
    },
    // a property that is set again stands where it is set last
    Row {
        kind: BuildErrorKind::BadPhandle,
        before: b"/dts-v1/; / { a { phandle = <1>; }; }; &{/a} { ",
        fault: b"phandle = <0>; };",
    },
    Row {
        kind: BuildErrorKind::DuplicateInBody,
        before: b"/dts-v1/; / { p; ",
        fault: b"p = <1>; };",
    },
    Row {
        kind: BuildErrorKind::DuplicateInBody,
        before: b"/dts-v1/; / { a { }; l: ",
        fault: b"a { }; };",
    },
    Row {
        kind: BuildErrorKind::PathInPlugin,
        before: b"/dts-v1/; /plugin/; / { a { p = <",
        fault: b"&{/a}>; }; };",
    },
    Row {
        kind: BuildErrorKind::ReservedName,
        before: b"/dts-v1/; / { }; /delete-node/ ",
        fault: b"&{/};",
    },
    Row {
        kind: BuildErrorKind::ReservedName,
        before: b"/dts-v1/; / { p = <",
        fault: b"&l>; l: __symbols__ { }; };",
    },
    Row {
        kind: BuildErrorKind::ReservedName,
        before: b"/dts-v1/; /plugin/; / { a { }; ",
        fault: b"__local_fixups__ { }; };",
    },
    Row {
        kind: BuildErrorKind::ReservedName,
        before: b"/dts-v1/; /plugin/; / { fragment@0 { }; }; ",
        fault: b"&l { };",
    },
    Row {
        kind: BuildErrorKind::ReservedName,
        before: b"/dts-v1/; /plugin/; &l { }; / { ",
        fault: b"fragment@0 { }; };",
    },
];

const WITH_SYMBOLS: &[Row] = &[Row {
    kind: BuildErrorKind::ReservedName,
    before: b"/dts-v1/; / { a { }; ",
    fault: b"__symbols__ { }; };",
}];

const DTC: &[Row] = &[
    Row {
        kind: BuildErrorKind::UnknownLabel,
        before: b"/dts-v1/; / { p = <1 ",
        fault: b"&nope>; };",
    },
    Row {
        kind: BuildErrorKind::UnknownLabel,
        before: b"/dts-v1/; / { }; /omit-if-no-ref/ ",
        fault: b"&nope;",
    },
    // told when all is read
    Row {
        kind: BuildErrorKind::DuplicateLabel,
        before: b"/dts-v1/; / { l: a { }; l: ",
        fault: b"b { }; }; / { c { }; };",
    },
    Row {
        kind: BuildErrorKind::DuplicateLabel,
        before: b"/dts-v1/; / { l: a { }; b { }; }; l: ",
        fault: b"&{/b} { };",
    },
    Row {
        kind: BuildErrorKind::UnknownPath,
        before: b"/dts-v1/; / { }; ",
        fault: b"&{/a} { };",
    },
    Row {
        kind: BuildErrorKind::BadPhandle,
        before: b"/dts-v1/; / { a { ",
        fault: b"phandle = \"x\"; }; };",
    },
    // another number of the same node
    Row {
        kind: BuildErrorKind::BadPhandle,
        before: b"/dts-v1/; / { a { linux,phandle = <1>; ",
        fault: b"phandle = <2>; }; };",
    },
    Row {
        kind: BuildErrorKind::DuplicatePhandle,
        before: b"/dts-v1/; / { a { phandle = <1>; }; b { ",
        fault: b"linux,phandle = <1>; }; };",
    },
    Row {
        kind: BuildErrorKind::DuplicateInBody,
        before: b"/dts-v1/; / { p; ",
        fault: b"p = <1>; };",
    },
    Row {
        kind: BuildErrorKind::DuplicateInBody,
        before: b"/dts-v1/; / { b { }; /delete-node/ ",
        fault: b"b; };",
    },
    Row {
        kind: BuildErrorKind::DuplicateInBody,
        before: b"/dts-v1/; /plugin/; / { fragment@0 { }; }; ",
        fault: b"&l { };",
    },
    Row {
        kind: BuildErrorKind::PathInPlugin,
        before: b"/dts-v1/; /plugin/; / { a { p = <",
        fault: b"&{/a}>; }; };",
    },
    Row {
        kind: BuildErrorKind::ReservedName,
        before: b"/dts-v1/; / { }; /delete-node/ ",
        fault: b"&{/};",
    },
    Row {
        kind: BuildErrorKind::ReservedName,
        before: b"/dts-v1/; /plugin/; / { a { }; ",
        fault: b"__fixups__ { }; };",
    },
];

// Why a source makes no tree.
fn fault_of(
    rt: &impl Abort,
    alloc: Global,
    hasher: RandomState,
    source: &Source<'_>,
    language: Language,
    symbols: bool,
) -> Option<BuildError> {
    source.check();
    let fragments = fragments_of(alloc, source.items.as_slice()).expect(rt, "memory");
    match language {
        Language::Profile => prepare(alloc, hasher, source, &fragments, symbols).err(),
        Language::Dtc => match edit_dtc(alloc, hasher, &fragments, source) {
            Ok(standing) => gather(alloc, standing, symbols, source.plugin).err(),
            Err(error) => Some(BuildError::from(error)),
        },
    }
}

fn is_told(rt: &impl Abort, fault: Option<BuildError>, kind: BuildErrorKind, at: usize) {
    let fault = fault.expect(rt, "a fault");
    assert_eq!(rt; fault.kind, kind);
    assert_eq!(rt; fault.at as usize, at);
}

fn is_at_fault(
    rt: &impl Abort,
    alloc: Global,
    hasher: RandomState,
    row: &Row,
    language: Language,
    symbols: bool,
) {
    let mut text = Vec::from_slice(alloc, row.before).expect(rt, "memory");
    text.extend_from_slice(row.fault).expect(rt, "memory");
    let source = parse(alloc, text.as_slice(), language).expect(rt, "a source");
    let fault = fault_of(rt, alloc, hasher, &source, language, symbols);
    is_told(rt, fault, row.kind, row.before.len());
}

#[test]
fn faults_of_the_profile(rt: HostRuntime) {
    let hasher = RandomState::new(&rt).expect(&rt, "a seed");
    for row in PROFILE {
        is_at_fault(&rt, rt.alloc(), hasher, row, Language::Profile, false);
    }
    for row in WITH_SYMBOLS {
        is_at_fault(&rt, rt.alloc(), hasher, row, Language::Profile, true);
    }
}

#[test]
fn faults_of_dtc(rt: HostRuntime) {
    let hasher = RandomState::new(&rt).expect(&rt, "a seed");
    for row in DTC {
        is_at_fault(&rt, rt.alloc(), hasher, row, Language::Dtc, false);
    }
    for row in WITH_SYMBOLS {
        is_at_fault(&rt, rt.alloc(), hasher, row, Language::Dtc, true);
    }
}

fn push_times(rt: &impl Abort, text: &mut Vec<u8>, word: &[u8], times: usize) {
    for _ in 0..times {
        text.extend_from_slice(word).expect(rt, "memory");
    }
}

// A node at level 65, by an extension of one at level 60; and where its name begins.
fn deep_text(rt: &impl Abort, alloc: Global) -> (Vec<u8>, usize) {
    let mut text = Vec::from_slice(alloc, b"/dts-v1/; / { ").expect(rt, "memory");
    push_times(rt, &mut text, b"a { ", 60);
    push_times(rt, &mut text, b"}; ", 61);
    push_times(rt, &mut text, b"&{", 1);
    push_times(rt, &mut text, b"/a", 60);
    push_times(rt, &mut text, b"} { ", 1);
    push_times(rt, &mut text, b"b { ", 4);
    let at = text.len();
    push_times(rt, &mut text, b"b { ", 1);
    push_times(rt, &mut text, b"}; ", 6);
    (text, at)
}

#[test]
fn too_deep(rt: HostRuntime) {
    let hasher = RandomState::new(&rt).expect(&rt, "a seed");
    let (text, at) = deep_text(&rt, rt.alloc());
    for language in [Language::Profile, Language::Dtc] {
        let source = parse(rt.alloc(), text.as_slice(), language).expect(&rt, "a source");
        let fault = fault_of(&rt, rt.alloc(), hasher, &source, language, false);
        is_told(&rt, fault, BuildErrorKind::TooDeep, at);
    }
}
