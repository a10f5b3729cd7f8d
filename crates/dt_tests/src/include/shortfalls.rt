//! Where a text stops short that takes in others: the words in the user's file.

use crate::include::shelf::Shelf;
use dt_text::include::{Incomplete, included};
use std::alloc::Global;
use std::process::Abort;

/// A text of the file `a.dts`, the number of why it isn't whole, the file and the line, and the columns: the first, and the one
/// behind the last.
type Row = (&'static str, u8, (&'static str, usize), (usize, usize));

fn number_of(reason: &Incomplete) -> u8 {
    match reason {
        Incomplete::NoMemory => 0,
        Incomplete::NoFile(_) => 80,
        Incomplete::TooDeep => 16,
        Incomplete::TooLong => 17,
        Incomplete::Syntax => 10,
    }
}

fn stops_short(rt: &impl Abort, alloc: Global, row: &Row) {
    let Err(shortfall) = included(alloc, &mut Shelf, b"a.dts", row.0.as_bytes()) else {
        panic!(rt; "whole");
    };
    assert_eq!(rt; number_of(&shortfall.reason), row.1);
    let site = shortfall.site.expect(rt, "a site");
    assert_eq!(rt; site.file.as_slice(), row.2.0.as_bytes());
    assert_eq!(rt; site.line, row.2.1);
    assert_eq!(rt; (site.columns.start, site.columns.end), row.3);
}

#[test]
fn words_that_take_nothing_in(rt: HostRuntime) {
    const ROWS: &[Row] = &[
        // what can't stand there
        ("\n/include/ 5;", 10, ("a.dts", 2), (11, 12)),
        ("/include/ name", 10, ("a.dts", 1), (11, 15)),
        ("/include/ \"open", 10, ("a.dts", 1), (11, 12)),
        ("x /include/ ", 10, ("a.dts", 1), (3, 12)),
        // files that aren't there, and one that takes itself in
        ("\n /include/ \"gone\";", 80, ("a.dts", 2), (2, 18)),
        ("/incbin/(\"gone\")", 80, ("a.dts", 1), (1, 16)),
        // an `/include/`'s name has no escapes
        ("/include/ \"\\x6fne\"", 80, ("a.dts", 1), (1, 19)),
        ("/include/ \"low\"", 80, ("low", 2), (17, 33)),
        ("/include/ \"self\"", 16, ("self", 2), (2, 18)),
        // behind words that were taken, and by a line marker
        (
            "/include/ \"one\"\n/incbin/(\"bin\")\n /include/ 5",
            10,
            ("a.dts", 3),
            (12, 13),
        ),
        ("/include/ \"marked\"", 10, ("m.dts", 10), (12, 13)),
        // what a file that is taken in leaves open
        ("/include/ \"string\" \"", 10, ("string", 2), (5, 6)),
        ("/include/ \"character\"'>;", 10, ("character", 1), (2, 3)),
        ("/include/ \"comment\" */", 10, ("comment", 1), (9, 11)),
        ("/include/ \"behind\" \"", 10, ("behind", 1), (17, 18)),
    ];
    for row in ROWS {
        stops_short(&rt, rt.alloc(), row);
    }
}
