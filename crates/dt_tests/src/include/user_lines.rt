//! Lines and columns of the user's files.

use dt_text::include::{Span, columns_of, line_of, plain, user_place};

/// A line of a text of the file `a`, and the file and the line that it stands for.
type Row = (usize, &'static [u8], usize);

#[test]
fn lines_by_markers(rt: HostRuntime) {
    const TEXT: &[u8] = b"x\n# 9 \"b\"\ny\nz\n#line 3\nw\n#\x0b7 \"c\"\nv";
    const ROWS: &[Row] = &[
        (1, b"a", 1),
        (3, b"b", 9),
        (4, b"b", 10),
        (6, b"b", 3),
        // a marker has spaces and tabs alone
        (8, b"b", 5),
    ];
    for (line, file, number) in ROWS {
        let place = user_place(b"a", TEXT, *line);
        assert_eq!(&rt; place.file, *file);
        assert_eq!(&rt; place.line, *number);
    }
}

#[test]
fn columns_in_a_line(rt: HostRuntime) {
    let text = b"ab\n cde\nf".as_slice();
    let span = Span { start: 4, end: 7 };
    assert_eq!(&rt; line_of(text, span), b" cde".as_slice());
    let columns = columns_of(text, span);
    assert_eq!(&rt; (columns.start, columns.end), (2, 5));
}

#[test]
fn names_in_markers(rt: HostRuntime) {
    assert_eq!(&rt; plain(b"a b.dts"), b"a b.dts".as_slice());
    assert_eq!(&rt; plain(b"a\"b"), b"".as_slice());
    assert_eq!(&rt; plain(b"a\\b"), b"".as_slice());
}
