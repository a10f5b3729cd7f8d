//! Files within files, the command line and texts that have a directive.

use crate::preprocess::shelf::{Shelf, come_to};
use dt_preprocess::{Request, has_directive, preprocess};
use std::hash::RandomState;
use std::test::Fail;

#[test]
fn included_files(rt: HostRuntime) -> Result<(), Fail> {
    const ROWS: &[(&str, &str)] = &[
        // beside the file that names it, in its own folder
        (
            "#include \"d/s.dtsi\"\nx;\n",
            "# 1 \"d/s.dtsi\" 1\n# 1 \"d/t.h\" 1\n# 2 \"d/s.dtsi\" 2\ny;\n# 2 \"b.dts\" 2\nx;\n",
        ),
        // in a folder of `-I`, and by a whole path
        (
            "#include <n.h>\nN\n",
            "# 1 \"inc/n.h\" 1\n# 2 \"b.dts\" 2\n3\n",
        ),
        (
            "#include \"/abs.h\" // its name\n",
            "# 1 \"/abs.h\" 1\nabsolute;\n# 2 \"b.dts\" 2\n",
        ),
        // twice, with a guard
        (
            "#include <guarded.h>\n#include <guarded.h>\n",
            "# 1 \"inc/guarded.h\" 1\n\n\nonce;\n\nalways;\n# 2 \"b.dts\" 2\n# 1 \"inc/guarded.h\" 1\n\n\n\n\nalways;\n# 3 \"b.dts\" 2\n",
        ),
        // none where it is skipped
        ("#if 0\n#include <gone>\n#endif\nx\n", "\n\n\nx\n"),
    ];
    come_to(&rt, rt.alloc(), RandomState::new(&rt)?, ROWS);
    Ok(())
}

#[test]
fn command_line(rt: HostRuntime) -> Result<(), Fail> {
    let mut shelf = Shelf { asked: 0 };
    let request = Request {
        path: b"d/b.dts",
        text: b"N A B(2) C PRE __ASSEMBLER__\n#include <n.h>\n#include <n.h>\nN\n",
        folders: &["inc"],
        defines: &["A", "B(x)=[x]", "C="],
        preincluded: &["pre.h"],
    };
    match preprocess(rt.alloc(), RandomState::new(&rt)?, &mut shelf, &request) {
        Ok(done) => {
            let wanted =
                "# 1 \"pre.h\"\n\nbefore;\n# 1 \"d/b.dts\"\nN 1 [2] 5 1\n# 1 \"inc/n.h\" 1\n# 3 \"d/b.dts\" 2\n# 1 \"inc/n.h\" 1\n# 4 \"d/b.dts\" 2\n3\n";
            assert_eq!(rt; done.text.as_slice(), wanted.as_bytes());
        }
        Err(_) => panic!(rt; "refused"),
    }
    // each file is asked for once
    assert_eq!(rt; shelf.asked, 2);
    Ok(())
}

#[test]
fn texts_with_directives(rt: HostRuntime) {
    const HAVE: &[&[u8]] = &[
        b"#include \"a\"",
        b"x;\n  # /* a */ define A",
        b"/* a\n */ #if 1",
        b"'\n#else\n",
        b"\\\n#undef A",
    ];
    const HAVE_NONE: &[&[u8]] = &[
        b"",
        b"/dts-v1/;\n/ { #address-cells = <1>; };\n",
        b"# 33 \"x\"\n#line 3\n#\n",
        b"x #include \"a\"",
        b"/*\n#include \"a\"\n*/",
        b"// \\\n#include \"a\"",
        b"#includes",
    ];
    for text in HAVE {
        assert!(rt; has_directive(*text), "has none: {text:?}");
    }
    for text in HAVE_NONE {
        assert!(rt; !has_directive(*text), "has one: {text:?}");
    }
}
