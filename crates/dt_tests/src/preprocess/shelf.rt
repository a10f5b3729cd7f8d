//! Files by their paths, and texts that are preprocessed with them.

use dt_preprocess::{Headers, Preprocessed, Reason, Refusal, Request, preprocess};
use std::alloc::{AllocError, Global};
use std::hash::RandomState;
use std::process::Abort;

/// Files that are found under their paths. It counts how often it was asked.
#[derive(Clone, Copy)]
pub struct Shelf {
    pub asked: usize,
}

const FILES: &[(&str, &str)] = &[
    ("d/s.dtsi", "#include \"t.h\"\ny;\n"),
    ("d/t.h", ""),
    ("inc/n.h", "#define N 3\n"),
    (
        "inc/guarded.h",
        "#ifndef G\n#define G\nonce;\n#endif\nalways;\n",
    ),
    ("inc/call.h", "F(1\n"),
    ("inc/if.h", "\n#if 1\n"),
    ("inc/self.h", "#include \"self.h\"\n"),
    (
        "inc/twice.h",
        "#include \"twice.h\"\n#include \"twice.h\"\n",
    ),
    ("inc/comment.h", "a; /* b\n"),
    ("pre.h", "#define PRE 5\nbefore;\n"),
    ("/abs.h", "absolute;\n"),
];

impl Headers for Shelf {
    fn open(&mut self, alloc: Global, path: &[u8]) -> Result<Option<Vec<u8>>, AllocError> {
        self.asked = self.asked.saturating_add(1);
        for (name, text) in FILES {
            if name.as_bytes() == path {
                return Ok(Some(Vec::from_slice(alloc, text.as_bytes())?));
            }
        }
        Ok(None)
    }
}

/// What a text of `b.dts` comes to, with `N=3` and `M` on the command line.
pub fn made(alloc: Global, hasher: RandomState, text: &str) -> Result<Preprocessed, Refusal> {
    let request = Request {
        path: b"b.dts",
        text: text.as_bytes(),
        folders: &["inc"],
        defines: &["D=4", "M"],
        preincluded: &[],
    };
    preprocess(alloc, hasher, &mut Shelf { asked: 0 }, &request)
}

/// Texts of `b.dts`, and what they come to behind the first line marker.
pub fn come_to(rt: &impl Abort, alloc: Global, hasher: RandomState, rows: &[(&str, &str)]) {
    for (text, wanted) in rows {
        match made(alloc, hasher, text) {
            Ok(done) => {
                let Some(left) = done.text.as_slice().strip_prefix(b"# 1 \"b.dts\"\n") else {
                    panic!(rt; "no marker: {text:?}");
                };
                assert_eq!(rt; left, wanted.as_bytes());
            }
            Err(_) => panic!(rt; "refused: {text:?}"),
        }
    }
}

/// A text that is refused: why, in which file, line and column, and the word.
pub struct Refused {
    pub text: &'static str,
    pub reason: Reason,
    pub path: &'static str,
    pub line: usize,
    pub column: usize,
    pub word: &'static str,
}

/// Texts that are refused.
pub fn are_refused(rt: &impl Abort, alloc: Global, hasher: RandomState, rows: &[Refused]) {
    for row in rows {
        let text = row.text;
        match made(alloc, hasher, text) {
            Ok(_) => panic!(rt; "not refused: {text:?}"),
            Err(refusal) => {
                assert!(rt; refusal.reason == row.reason, "another reason: {text:?}");
                assert_eq!(rt; refusal.path.as_slice(), row.path.as_bytes());
                assert_eq!(rt; refusal.line, row.line);
                assert_eq!(rt; refusal.column, row.column);
                assert_eq!(rt; refusal.word.as_slice(), row.word.as_bytes());
            }
        }
    }
}
