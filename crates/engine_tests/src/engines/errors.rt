//! Each number by a small input, and its explanation.

use crate::answers::printed;
use crate::compiling::compiled;
use dtman_engine::{Fault, compile_bytes, dump_bytes, explain, overlay_bytes, replay_bytes};
use std::alloc::Global;
use std::hash::RandomState;
use std::process::Abort;

/// That the line tells the number, under the name by which it is explained.
fn is_explained(rt: &impl Abort, alloc: Global, number: u8, line: &[u8]) -> bool {
    match explain(number) {
        Some(explanation) => {
            let name = explanation.name;
            let head = format!(in alloc; "error {number} {name}").expect(rt, "memory");
            explanation.number == number && line.starts_with(head.as_bytes())
        }
        None => false,
    }
}

// That the answer is the refusal that the line tells, and that its number is explained.
fn is_refused(
    rt: &impl Abort,
    alloc: Global,
    number: u8,
    line: &str,
    answer: Result<Vec<u8>, Fault>,
) {
    let told = printed(rt, alloc, answer);
    assert_eq!(rt; told.as_slice(), line.as_bytes(), "{number}");
    assert!(rt;
        is_explained(rt, alloc, number, line.as_bytes()),
        "{number}"
    );
}

#[test]
fn sources_are_refused(rt: HostRuntime) {
    const ROWS: &[(u8, &str, &str)] = &[
        (10, "", "error 10 Syntax line 1"),
        (
            11,
            "/dts-v1/;/{a=<0x100000000>;};",
            "error 11 ElementRange line 1",
        ),
        (
            12,
            "/dts-v1/;/{a=<(1/0)>;};",
            "error 12 DivideByZero line 1",
        ),
        (13, "/dts-v1/;/{a=/bits/ 9<1>;};", "error 13 BadBits line 1"),
        (14, "/dts-v1/;/{a=<08>;};", "error 14 LiteralRange line 1"),
        (15, "/dts-v1/;/{a=\"\\x\";};", "error 15 BadEscape line 1"),
        (
            16,
            "/dts-v1/;/{a=<(((((((((((((((((((((((((((((((((((((((((((((((((((((((((((((((((",
            "error 16 TooDeep line 1",
        ),
        (20, "/dts-v1/;/{a=<&b>;};", "error 20 UnknownLabel"),
        (
            21,
            "/dts-v1/;/{a: x { }; a: y { };};",
            "error 21 DuplicateLabel",
        ),
        (22, "/dts-v1/;/{a=&{/b};};", "error 22 UnknownPath"),
        (23, "/dts-v1/;/{phandle=<0>;};", "error 23 BadPhandle"),
        (
            24,
            "/dts-v1/;/{phandle=<1>; a{phandle=<1>;};};",
            "error 24 DuplicatePhandle",
        ),
        (25, "/dts-v1/;/{a; a;};", "error 25 DuplicateInBody"),
        (
            26,
            "/dts-v1/;/plugin/;&a{r=<&{/b}>;};",
            "error 26 PathInPlugin",
        ),
        (
            27,
            "/dts-v1/;/{a=<&{/__symbols__}>; __symbols__{};};",
            "error 27 ReservedName",
        ),
    ];
    let hasher = RandomState::new(&rt).expect(&rt, "a seed");
    for &(number, text, line) in ROWS {
        let answer = compile_bytes(rt.alloc(), hasher, text.as_bytes(), false);
        is_refused(&rt, rt.alloc(), number, line, answer);
    }
}

#[test]
fn overlays_are_refused(rt: HostRuntime) {
    const ROWS: &[(u8, &str, &str)] = &[
        (40, "/dts-v1/;/{};", "error 40 NotOverlay"),
        (
            41,
            "/dts-v1/;/{f{target-path=\"/b\"; __overlay__{};};};",
            "error 41 NoTarget",
        ),
        (42, "/dts-v1/;/plugin/;&b{};", "error 42 UnknownSymbol"),
        (
            43,
            "/dts-v1/;/{f{target=<0>; __overlay__{};}; __fixups__{b=\"/f:target\";};};",
            "error 43 BadFixup",
        ),
        (
            44,
            "/dts-v1/;/{f{__overlay__{phandle=<0xfffffffe>;};};};",
            "error 44 PhandleOverflow",
        ),
        (
            45,
            "/dts-v1/;/{f{target-path=\"/a\"; __overlay__{phandle=<1>;};};};",
            "error 45 PhandleClash",
        ),
    ];
    let hasher = RandomState::new(&rt).expect(&rt, "a seed");
    let base = compiled(&rt, rt.alloc(), hasher, "/dts-v1/; / { a: a { }; };", true);
    for &(number, overlay, line) in ROWS {
        let overlay = compiled(&rt, rt.alloc(), hasher, overlay, false);
        let answer = overlay_bytes(rt.alloc(), hasher, base.as_slice(), overlay.as_slice());
        is_refused(&rt, rt.alloc(), number, line, answer);
    }
    assert!(rt; is_explained(&rt, rt.alloc(), 46, b"error 46 TooDeep"));
}

#[test]
fn plans_and_events_are_refused(rt: HostRuntime) {
    const ROWS: &[(u8, &str, &str, &str)] = &[
        (50, "/a", "", "error 50 BadLine line 1"),
        (52, "/a - -\n/a - -", "", "error 52 DuplicateDevice line 2"),
        (53, "/a - - /b", "", "error 53 UnknownPath line 1"),
        (
            60,
            "/a x ok",
            "begin /a\nbegin /a",
            "error 60 NotIdle event 2",
        ),
        (61, "/a - -", "begin /a", "error 61 Unmatched event 1"),
        (
            63,
            "/a x ok /b\n/b - -",
            "begin /a\nfinish /a settled",
            "error 63 NotReady event 2",
        ),
        (
            64,
            "/a x ok\n/b - -",
            "begin /a\nfinish /a missing /b",
            "error 64 WasBound event 2",
        ),
        (66, "/a x ok", "abandon /a", "error 66 NotInFlight event 1"),
        (67, "/a x ok", "driver x b", "error 67 KnownDriver event 1"),
    ];
    let hasher = RandomState::new(&rt).expect(&rt, "a seed");
    for &(number, plan, schedule, line) in ROWS {
        let answer = replay_bytes(rt.alloc(), hasher, plan.as_bytes(), schedule.as_bytes());
        is_refused(&rt, rt.alloc(), number, line, answer);
    }
}

#[test]
fn a_plan_of_4_097_devices_is_refused(rt: HostRuntime) {
    let mut plan = String::new(rt.alloc());
    for device in 0..4_097u16 {
        write!(&mut plan, "/d{device} - -\n").expect(&rt, "memory");
    }
    let hasher = RandomState::new(&rt).expect(&rt, "a seed");
    let answer = replay_bytes(rt.alloc(), hasher, plan.as_bytes(), b"");
    is_refused(&rt, rt.alloc(), 56, "error 56 TooManyDevices", answer);
}

/// A blob of a header with these words, a pair of zeros, and what stands behind.
fn blob(rt: &impl Abort, alloc: Global, words: [u32; 10], behind: &[u8]) -> Vec<u8> {
    let mut bytes = Vec::new(alloc);
    for word in words {
        bytes
            .extend_from_slice(word.to_be_bytes().as_slice())
            .expect(rt, "memory");
    }
    bytes
        .extend_from_slice([0u8; 16].as_slice())
        .expect(rt, "memory");
    bytes.extend_from_slice(behind).expect(rt, "memory");
    bytes
}

const MAGIC: u32 = 0xd00d_feed;

#[test]
fn headers_are_refused(rt: HostRuntime) {
    const ROWS: &[(u8, usize, [u32; 10], &str)] = &[
        (30, 0, [0; 10], "error 30 Truncated"),
        (31, 40, [0; 10], "error 31 BadMagic"),
        (
            32,
            40,
            [MAGIC, 0, 0, 0, 0, 0, 0, 0, 0, 0],
            "error 32 BadVersion",
        ),
        (
            33,
            40,
            [MAGIC, 0, 0, 0, 0, 17, 0, 0, 0, 0],
            "error 33 BadLayout",
        ),
        (
            34,
            56,
            [MAGIC, 56, 40, 40, 40, 17, 16, 0, 0, 0],
            "error 34 BadToken",
        ),
    ];
    for &(number, len, words, line) in ROWS {
        let blob = blob(&rt, rt.alloc(), words, b"");
        let front = blob.as_slice().get(..len).expect(&rt, "so many bytes");
        let answer = dump_bytes(rt.alloc(), front);
        is_refused(&rt, rt.alloc(), number, line, answer);
    }
}

#[test]
fn structures_are_refused(rt: HostRuntime) {
    const ROWS: &[(u8, u32, &[u8], &str)] = &[
        // The root's name is four bytes without a zero.
        (35, 8, b"\0\0\0\x01aaaa", "error 35 BadString"),
        // The root has the child `a`, and then the property `a`, whose name is the child's.
        (
            36,
            40,
            b"\0\0\0\x01\0\0\0\0\0\0\0\x01a\0\0\0\0\0\0\x02\0\0\0\x03\0\0\0\0\0\0\0\0\0\0\0\x02\0\0\0\x09",
            "error 36 PropertyAfterNode",
        ),
        // The root is called `a`.
        (
            37,
            16,
            b"\0\0\0\x01a\0\0\0\0\0\0\x02\0\0\0\x09",
            "error 37 BadTree",
        ),
    ];
    for &(number, len, structure, line) in ROWS {
        let words = [MAGIC, 56 + len, 56, 68, 40, 17, 16, 0, 2, len];
        let words = if number == 36 {
            words
        } else {
            [MAGIC, 56 + len, 56, 40, 40, 17, 16, 0, 0, len]
        };
        let blob = blob(&rt, rt.alloc(), words, structure);
        let answer = dump_bytes(rt.alloc(), blob.as_slice());
        is_refused(&rt, rt.alloc(), number, line, answer);
    }
}

/// Each number that a command prints is explained, and no other.
#[test]
fn numbers_are_explained(rt: HostRuntime) {
    const EXPLAINED: &[&[u8]] = &[
        &[0],
        &[10, 11, 12, 13, 14, 15, 16, 17],
        &[20, 21, 22, 23, 24, 25, 26, 27, 28],
        &[30, 31, 32, 33, 34, 35, 36, 37, 38],
        &[40, 41, 42, 43, 44, 45, 46],
        &[50, 51, 52, 53, 54, 55, 56],
        &[60, 61, 62, 63, 64, 65, 66, 67],
        &[70],
        &[80, 81, 82],
        &[83, 84, 85, 86, 87, 88, 89, 90, 91, 92, 93],
    ];
    for number in 0..=255u8 {
        let wanted = EXPLAINED.iter().any(|numbers| numbers.contains(&number));
        assert_eq!(rt; explain(number).is_some(), wanted, "{number}");
    }
}
