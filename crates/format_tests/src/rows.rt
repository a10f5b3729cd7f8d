//! Texts, and how they are laid out.
use dt_format::{FormatError, Hex, RefusalKind, Style, difference, first_difference, formatted};
use std::alloc::Global;
use std::process::Abort;
use std::test::Fail;

const PLAIN: Style = Style {
    hex: Hex::AsWritten,
};

// The text is laid out as is wanted.
fn comes_to(rt: &impl Abort, alloc: Global, style: Style, text: &str, wanted: &str) {
    match formatted(alloc, text.as_bytes(), style) {
        Ok(made) => assert_eq!(rt; made.as_slice(), wanted.as_bytes()),
        Err(_) => panic!(rt; "refused"),
    }
}

// The text is laid out as is wanted, and that as it is.
fn settles(rt: &impl Abort, alloc: Global, style: Style, text: &str, wanted: &str) {
    comes_to(rt, alloc, style, text, wanted);
    comes_to(rt, alloc, style, wanted, wanted);
}

fn is_refused(rt: &impl Abort, alloc: Global, text: &str, kind: RefusalKind, place: usize) {
    match formatted(alloc, text.as_bytes(), PLAIN) {
        Err(FormatError::Refused(refusal)) => {
            assert!(rt; refusal.kind == kind);
            assert_eq!(rt; refusal.place, place);
        }
        _ => panic!(rt; "not refused"),
    }
}

#[test]
fn layouts(rt: HostRuntime) -> Result<(), Fail> {
    const ROWS: &[(&str, &str)] = &[
        ("", ""),
        ("\n \n", ""),
        // one statement a line, tabs by depth, one blank around an equals sign and before a brace, a blank line before a child
        (
            "/dts-v1/;/{compatible=\"a\" ,\"b\";c{d;};};",
            "/dts-v1/;\n\n/ {\n\tcompatible = \"a\", \"b\";\n\n\tc {\n\t\td;\n\t};\n};\n",
        ),
        // one blank line at most, none inside a brace, no white space at the ends of lines
        (
            "/ {\n\n    a;  \n\n\n    b;\n\n};\n\n\n",
            "/ {\n\ta;\n\n\tb;\n};\n",
        ),
        // a label stands by its node, a name with a number sign is no directive, `/` and names of properties stay whole
        (
            "l:n@1{#address-cells=<1>;ti,x;};\n/delete-node/   &l ;",
            "l: n@1 {\n\t#address-cells = <1>;\n\tti,x;\n};\n/delete-node/ &l;\n",
        ),
        // directives stay as they are; a comment of one line goes with the nodes
        (
            "#include <a.h>\n#define X(a)   \\\n  a\n/ {\n#ifdef  Y\n  // z\n x;   /* y  */\n#endif\n};\n",
            "#include <a.h>\n#define X(a)   \\\n  a\n/ {\n#ifdef  Y\n\t// z\n\tx;   /* y  */\n#endif\n};\n",
        ),
        // values stand below one another; white space between cells and within parentheses is the author's
        (
            "/ {\n  reg=<0x0   1>,\n  <( 1 << 2 ) M(a, b,c)>;\n};\n",
            "/ {\n\treg = <0x0   1>,\n\t      <( 1 << 2 ) M(a, b,c)>;\n};\n",
        ),
        // lines within cells move as their statement does
        (
            "/ {\n    k = <\n        A\n        B\n    >;\n};\n",
            "/ {\n\tk = <\n\t    A\n\t    B\n\t>;\n};\n",
        ),
        // a reference by a path, bytes, a width
        (
            "&{/a/b}{c=[ 00 11 ];d=/bits/ 8   <1 2>,&{/a};};",
            "&{/a/b} {\n\tc = [00 11];\n\td = /bits/ 8 <1 2>, &{/a};\n};\n",
        ),
        // branches of a condition begin at one depth
        (
            "#if A\na {\n#else\nb {\n#endif\nc;\n};\n",
            "#if A\na {\n#else\nb {\n#endif\n\tc;\n};\n",
        ),
        // the comment before a node is its own
        (
            "/ {\n\ta;\n\t/* n */\n\tn {\n\t};\n};\n",
            "/ {\n\ta;\n\n\t/* n */\n\tn {\n\t};\n};\n",
        ),
        // what ends a line keeps its end
        ("a // c\n;", "a // c\n;\n"),
    ];
    for (text, wanted) in ROWS {
        settles(&rt, rt.alloc(), PLAIN, text, wanted);
    }
    Ok(())
}

#[test]
fn hex_numbers(rt: HostRuntime) -> Result<(), Fail> {
    const ROWS: &[(&str, &str)] = &[
        // numbers alone: no names, strings, comments, directives, bytes
        (
            "a@AB { r = <0XAB 0xCDull (0xEF|0XF)>, \"0xAB\"; };",
            "a@AB {\n\tr = <0xab 0xcdull (0xef|0xf)>, \"0xAB\";\n};\n",
        ),
        (
            "#define A 0xAB\nx-0xAB = [AB]; /* 0xAB */\n",
            "#define A 0xAB\nx-0xAB = [AB]; /* 0xAB */\n",
        ),
        ("a = <0xABG 0x 0xABUL>;\n", "a = <0xABG 0x 0xabUL>;\n"),
    ];
    for (text, wanted) in ROWS {
        settles(&rt, rt.alloc(), Style { hex: Hex::Lower }, text, wanted);
    }
    Ok(())
}

#[test]
fn refusals(rt: HostRuntime) -> Result<(), Fail> {
    const ROWS: &[(&str, RefusalKind, usize)] = &[
        ("a; /* b", RefusalKind::OpenComment, 3),
        ("#define A /* b", RefusalKind::OpenComment, 0),
        ("a = \"b\\\";", RefusalKind::OpenString, 4),
        ("a = <'b>;", RefusalKind::OpenCharacter, 5),
        ("&{/a ;", RefusalKind::OpenPath, 0),
        ("/ { a { };", RefusalKind::OpenBrace, 2),
        ("/ { }; };", RefusalKind::StrayBrace, 7),
        // on a line of its own it would be a directive
        ("a; #define b;", RefusalKind::Changed, 0),
    ];
    for (text, kind, place) in ROWS {
        is_refused(&rt, rt.alloc(), text, *kind, *place);
    }
    Ok(())
}

// As `diff -U 3` tells it of the same texts.
#[test]
fn differences(rt: HostRuntime) -> Result<(), Fail> {
    let before = "a;\nb;\nc;\nd;\n\n\ne=1;\nf;\ng;\nh;\ni;\nj;\nk;\nl;\nm ;";
    let after = "a;\nb;\nc;\nd;\n\ne = 1;\nf;\ng;\nh;\ni;\nj;\nk;\nl;\nm;\n";
    let wanted =
        "--- n\n+++ n\n@@ -3,8 +3,7 @@\n c;\n d;\n \n-\n-e=1;\n+e = 1;\n f;\n g;\n h;\n@@ -12,4 +11,4 @@\n j;\n k;\n l;\n-m ;\n\\ No newline at end of file\n+m;\n";
    let made = difference(rt.alloc(), b"n", before.as_bytes(), after.as_bytes())?;
    assert_eq!(rt; made.as_slice(), wanted.as_bytes());
    let same = difference(rt.alloc(), b"n", before.as_bytes(), before.as_bytes())?;
    assert!(rt; same.is_empty());
    assert_eq!(rt;
        first_difference(before.as_bytes(), after.as_bytes()),
        Some(6)
    );
    assert_eq!(rt; first_difference(b"a\n", b"a\nb"), Some(2));
    assert_eq!(rt; first_difference(b"a\n", b"a\n"), None);
    Ok(())
}
