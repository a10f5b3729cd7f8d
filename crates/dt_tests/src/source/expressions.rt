//! Expressions in cells: their values, their faults, and the elements that they make.
use dt_text::expression::{
    Width, bytes_of, digit_of, element, literal, primary, push_low_bytes, reads_the_grammar,
    syntax_at, too_deep, width_of,
};
use dt_text::lexeme::{Fault, FaultKind, Kind, Language, Lexeme, Refusal, RefusalKind, scan};
use std::alloc::Global;
use std::process::Abort;

// The first cell of a property: its value or fault. Seven lexemes stand before it.
fn first_cell(alloc: Global, text: &[u8]) -> Result<Result<u64, Fault>, Refusal> {
    let lost = Refusal {
        kind: RefusalKind::Syntax,
        place: 0,
    };
    if text.len() > 1000 {
        return Err(lost);
    }
    match scan(alloc, text, Language::Profile) {
        Ok(lexemes) => match lexemes.as_slice() {
            [_, _, _, _, _, _, _, cells @ ..] => {
                let (value, _) = primary(text, cells)?;
                Ok(value)
            }
            _ => Err(lost),
        },
        Err(_) => Err(lost),
    }
}

/// Where a literal starts and ends, its bytes, its value or fault.
type Literal = (u32, u32, &'static [u8], Result<u64, Fault>);

fn is_read(rt: &impl Abort, text: &[u8], row: &Literal) {
    let (start, end, bytes, value) = *row;
    let lexeme = Lexeme {
        kind: Kind::Literal,
        start,
        end,
    };
    assert_eq!(rt; bytes_of(text, lexeme), bytes);
    assert_eq!(rt; literal(text, lexeme), value);
    refusals_tell_it(rt, lexeme);
}

fn refusals_tell_it(rt: &impl Abort, lexeme: Lexeme) {
    assert_eq!(rt; syntax_at([lexeme].as_slice()).place, lexeme.start);
    assert_eq!(rt; too_deep(lexeme).kind, RefusalKind::TooDeep);
}

#[test]
fn literals(rt: HostRuntime) {
    const ROWS: &[Literal] = &[
        (1, 7, b"0x1fUL", Ok(31)),
        (
            8,
            10,
            b"08",
            Err(Fault {
                kind: FaultKind::LiteralRange,
                place: 8,
            }),
        ),
    ];
    reads_the_grammar();
    let text = b" 0x1fUL 08";
    for row in ROWS {
        is_read(&rt, text, row);
    }
    assert_eq!(rt; digit_of(b'F'), 15);
}

#[test]
fn cells(rt: HostRuntime) {
    const ROWS: &[(&[u8], u64)] = &[
        (b"/dts-v1/; / { p = <(1 << 64)>; };", 0),
        (b"/dts-v1/; / { p = <(0 - 1)>; };", 0xffff_ffff_ffff_ffff),
        (b"/dts-v1/; / { p = <(2 + 3 * 4)>; };", 14),
        (b"/dts-v1/; / { p = <(8 - 4 - 2)>; };", 2),
        (b"/dts-v1/; / { p = <(1 | 2 == 2)>; };", 1),
        (b"/dts-v1/; / { p = <(2 - 3 < 0)>; };", 0),
        (b"/dts-v1/; / { p = <(1 ? 2 : 3 ? 4 : 5)>; };", 2),
        (b"/dts-v1/; / { p = <(-1 >> 63)>; };", 1),
        (b"/dts-v1/; / { p = <(!0 + ~0xfUL % 010)>; };", 1),
        (b"/dts-v1/; / { p = <0X1fULL>; };", 31),
    ];
    for (text, value) in ROWS {
        assert_eq!(rt; first_cell(rt.alloc(), *text), Ok(Ok(*value)));
    }
}

#[test]
fn faults(rt: HostRuntime) {
    const ROWS: &[(&[u8], FaultKind, u32)] = &[
        (
            b"/dts-v1/; / { p = <(0 && 1 / 0)>; };",
            FaultKind::DivideByZero,
            27,
        ),
        (
            b"/dts-v1/; / { p = <(1 ? 2 : 3 % (1 / 0))>; };",
            FaultKind::DivideByZero,
            35,
        ),
        (b"/dts-v1/; / { p = <08>; };", FaultKind::LiteralRange, 19),
        (
            b"/dts-v1/; / { p = <18446744073709551616>; };",
            FaultKind::LiteralRange,
            19,
        ),
        (
            b"/dts-v1/; / { p = <(1 / 09 + 1 / 0)>; };",
            FaultKind::LiteralRange,
            24,
        ),
    ];
    for (text, kind, place) in ROWS {
        let fault = Fault {
            kind: *kind,
            place: *place,
        };
        assert_eq!(rt; first_cell(rt.alloc(), *text), Ok(Err(fault)));
    }
}

#[test]
fn nesting(rt: HostRuntime) {
    let within = [
        b"/dts-v1/; / { p = <((((((((((((((((((((((((((((((((((((((((((((((((((((((((((((((((1))))))))))))))))))))))))))))))))))))))))))))))))))))))))))))))))>; };".as_slice(),
        b"/dts-v1/; / { p = <(---------------------------------------------------------------1)>; };",
        b"/dts-v1/; / { p = <(1?1:1?1:1?1:1?1:1?1:1?1:1?1:1?1:1?1:1?1:1?1:1?1:1?1:1?1:1?1:1?1:1?1:1?1:1?1:1?1:1?1:1?1:1?1:1?1:1?1:1?1:1?1:1?1:1?1:1?1:1?1:1?1:1?1:1?1:1?1:1?1:1?1:1?1:1?1:1?1:1?1:1?1:1?1:1?1:1?1:1?1:1?1:1?1:1?1:1?1:1?1:1?1:1?1:1?1:1?1:1?1:1?1:1?1:1?1:1?1:1?1:1?1:1?1:1)>; };",
    ];
    for text in &within {
        assert!(rt; first_cell(rt.alloc(), *text).is_ok());
    }
    let beyond = [
        (
            b"/dts-v1/; / { p = <(((((((((((((((((((((((((((((((((((((((((((((((((((((((((((((((((1)))))))))))))))))))))))))))))))))))))))))))))))))))))))))))))))))>; };".as_slice(),
            RefusalKind::TooDeep,
            83,
        ),
        (
            b"/dts-v1/; / { p = <(----------------------------------------------------------------1)>; };",
            RefusalKind::TooDeep,
            83,
        ),
        (
            b"/dts-v1/; / { p = <(1?1:1?1:1?1:1?1:1?1:1?1:1?1:1?1:1?1:1?1:1?1:1?1:1?1:1?1:1?1:1?1:1?1:1?1:1?1:1?1:1?1:1?1:1?1:1?1:1?1:1?1:1?1:1?1:1?1:1?1:1?1:1?1:1?1:1?1:1?1:1?1:1?1:1?1:1?1:1?1:1?1:1?1:1?1:1?1:1?1:1?1:1?1:1?1:1?1:1?1:1?1:1?1:1?1:1?1:1?1:1?1:1?1:1?1:1?1:1?1:1?1:1?1:1?1:1?1:1)>; };",
            RefusalKind::TooDeep,
            273,
        ),
        (b"/dts-v1/; / { p = <(1 2)>; };", RefusalKind::Syntax, 22),
        (b"/dts-v1/; / { p = <()>; };", RefusalKind::Syntax, 20),
        (b"/dts-v1/; / { p = <(1 +", RefusalKind::Syntax, u32::MAX),
    ];
    for (text, kind, place) in &beyond {
        let refusal = Refusal {
            kind: *kind,
            place: *place,
        };
        assert_eq!(rt; first_cell(rt.alloc(), *text), Err(refusal));
    }
}

fn push_element(rt: &impl Abort, bytes: &mut Vec<u8>, bits: u64, number: u64) {
    if let Some(width) = width_of(bits) {
        assert_eq!(rt; element(width, 7, Ok(number)), Ok(number));
        push_low_bytes(bytes, width, number).expect(rt, "memory");
    }
}

fn makes(rt: &impl Abort, alloc: Global, bits: u64, number: u64, expected: &[u8]) {
    let mut bytes = Vec::new(alloc);
    push_element(rt, &mut bytes, bits, number);
    assert_eq!(rt; bytes.as_slice(), expected);
}

fn is_out_of_range(rt: &impl Abort, width: Width, number: u64) {
    let fault = Fault {
        kind: FaultKind::ElementRange,
        place: 7,
    };
    assert_eq!(rt; element(width, 7, Ok(number)), Err(fault));
}

#[test]
fn elements(rt: HostRuntime) {
    const ACCEPTED: &[(u64, u64, &[u8])] = &[
        (8, 1, &[0x01]),
        (8, 0xff, &[0xff]),
        (8, u64::MAX, &[0xff]),
        (8, u64::MAX - 127, &[0x80]),
        (8, u64::MAX - 255, &[0x00]),
        (16, 0xabcd, &[0xab, 0xcd]),
        (32, u64::MAX, &[0xff, 0xff, 0xff, 0xff]),
        (32, 14, &[0, 0, 0, 14]),
        (
            64,
            0xffff_ffff_ffff_ffff,
            &[0xff, 0xff, 0xff, 0xff, 0xff, 0xff, 0xff, 0xff],
        ),
    ];
    for (bits, number, expected) in ACCEPTED {
        makes(&rt, rt.alloc(), *bits, *number, *expected);
    }
    let refused = [
        (Width::Eight, 0u64.wrapping_sub(257)),
        (Width::Eight, 256),
        (Width::ThirtyTwo, 0x1_0000_0000),
    ];
    for (width, number) in &refused {
        is_out_of_range(&rt, *width, *number);
    }
    assert_eq!(rt; width_of(12), None);
}
