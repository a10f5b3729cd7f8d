//! Whether a text has a directive.

use crate::lexing::bytes::{behind, blanks, front, is_blank};
use crate::lexing::lexeme::token_len;
use memchr::{memchr, memmem};

/// How many bytes of white space stand at the front: blanks, a comment or a splice.
fn gap_len(s: &[u8]) -> usize {
    match s {
        [b'/', b'*', ..] => match memmem::find(behind(s, 2), b"*/") {
            Some(at) => at.saturating_add(4),
            None => s.len(),
        },
        [b'/', b'/', ..] => line_comment_len(s),
        [b'\\', ..] => splice_len(s),
        [c, ..] => { if is_blank(*c) { blanks(s) } else { 0 } }
        [] => 0,
    }
}

/// The length of a comment of a line, which goes on behind a splice.
fn line_comment_len(s: &[u8]) -> usize {
    let mut splices = false;
    for (i, c) in s.iter().enumerate() {
        if *c == b'\n' && !splices {
            return i;
        }
        splices = *c == b'\\' || splices && is_blank(*c);
    }
    s.len()
}

/// The length of a splice, 0 where a backslash is none.
fn splice_len(s: &[u8]) -> usize {
    let gap = blanks(behind(s, 1)).saturating_add(1);
    if behind(s, gap).first() == Some(&b'\n') {
        gap.saturating_add(1)
    } else {
        0
    }
}

/// What stands behind white space.
fn past_gaps(s: &[u8]) -> &[u8] {
    let mut left = s;
    for _ in 0..s.len() {
        let gap = gap_len(left);
        if gap == 0 {
            break;
        }
        left = behind(left, gap);
    }
    left
}

fn is_directive(name: &[u8]) -> bool {
    matches!(
        name,
        b"include"
            | b"define"
            | b"undef"
            | b"if"
            | b"ifdef"
            | b"ifndef"
            | b"elif"
            | b"else"
            | b"endif"
            | b"error"
            | b"warning"
    )
}

/// Whether a directive's word stands at the front, behind white space.
fn names_directive(s: &[u8]) -> bool {
    let word = past_gaps(s);
    is_directive(front(word, token_len(word)))
}

/// Whether a text has a directive, so that it wants preprocessing: a logical line that begins with `#` and `include`, `define`,
/// `undef`, `if`, `ifdef`, `ifndef`, `elif`, `else`, `endif`, `error` or `warning` (C11, 6.10).
pub fn has_directive(text: &[u8]) -> bool {
    if memchr(b'#', text).is_none() {
        return false;
    }
    let mut left = text;
    let mut begins = true;
    for _ in 0..=text.len() {
        left = past_gaps(left);
        match left.first() {
            None => return false,
            Some(b'\n') => begins = true,
            Some(c) => {
                if begins && *c == b'#' && names_directive(behind(left, 1)) {
                    return true;
                }
                begins = false;
            }
        }
        left = behind(left, token_len(left).max(1));
    }
    false
}
