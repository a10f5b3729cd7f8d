//! A unified diff.
use crate::differing::changes::{Change, changes_of};
use crate::differing::lines::lines_of;
use std::alloc::{AllocError, Global};

/// How many lines are shown before and behind a change.
const CONTEXT: usize = 3;

// A line, behind a sign.
fn put_line(made: &mut Vec<u8>, sign: u8, line: &[u8]) -> Result<(), AllocError> {
    made.push(sign)?;
    made.extend_from_slice(line)?;
    if line.last() != Some(&b'\n') {
        made.extend_from_slice(b"\n\\ No newline at end of file\n")?;
    }
    Ok(())
}

// Lines from one to before another, each behind a sign.
fn put_lines(
    made: &mut Vec<u8>,
    sign: u8,
    lines: &[&[u8]],
    first: usize,
    end: usize,
) -> Result<(), AllocError> {
    for i in first..end {
        if let Some(line) = lines.get(i) {
            put_line(made, sign, line)?;
        }
    }
    Ok(())
}

// Where a hunk stands in a text, as diff writes it: its first line from 1, or the one before it where it has none, and how many it has.
fn put_range(
    made: &mut Vec<u8>,
    alloc: Global,
    first: usize,
    end: usize,
) -> Result<(), AllocError> {
    let len = end.saturating_sub(first);
    let from = if len == 0 {
        first
    } else {
        first.saturating_add(1)
    };
    let text = format!(in alloc; "{from},{len}")?;
    made.extend_from_slice(text.as_bytes())
}

// The lines of a hunk, whose changes these are.
fn put_changes(
    made: &mut Vec<u8>,
    changes: &[Change],
    old: &[&[u8]],
    new: &[&[u8]],
    hunk: Change,
) -> Result<(), AllocError> {
    let mut at = hunk.old;
    for change in changes {
        put_lines(made, b' ', old, at, change.old)?;
        put_lines(made, b'-', old, change.old, change.old_end)?;
        put_lines(made, b'+', new, change.new, change.new_end)?;
        at = change.old_end;
    }
    put_lines(made, b' ', old, at, hunk.old_end)
}

// The lines that a hunk of these changes shows of each text.
fn hunk_of(first: &Change, last: &Change, old: &[&[u8]], new: &[&[u8]]) -> Change {
    let before = CONTEXT.min(first.old).min(first.new);
    Change {
        old: first.old - before,
        old_end: last.old_end.saturating_add(CONTEXT).min(old.len()),
        new: first.new - before,
        new_end: last.new_end.saturating_add(CONTEXT).min(new.len()),
    }
}

// How many changes at the front stand so near to one another that one hunk shows them.
fn near(changes: &[Change]) -> usize {
    let mut count: usize = 0;
    let mut end: usize = 0;
    for change in changes {
        if count > 0 && change.old > end.saturating_add(2 * CONTEXT) {
            break;
        }
        end = change.old_end;
        count = count.saturating_add(1);
    }
    count
}

fn put_hunk(
    made: &mut Vec<u8>,
    alloc: Global,
    changes: &[Change],
    old: &[&[u8]],
    new: &[&[u8]],
) -> Result<(), AllocError> {
    let (Some(first), Some(last)) = (changes.first(), changes.last()) else {
        return Ok(());
    };
    let hunk = hunk_of(first, last, old, new);
    made.extend_from_slice(b"@@ -")?;
    put_range(made, alloc, hunk.old, hunk.old_end)?;
    made.extend_from_slice(b" +")?;
    put_range(made, alloc, hunk.new, hunk.new_end)?;
    made.extend_from_slice(b" @@\n")?;
    put_changes(made, changes, old, new, hunk)
}

fn put_hunks(
    made: &mut Vec<u8>,
    alloc: Global,
    changes: &[Change],
    old: &[&[u8]],
    new: &[&[u8]],
) -> Result<(), AllocError> {
    let mut left = changes;
    for _ in 0..changes.len() {
        let count = near(left);
        if count == 0 || count > left.len() {
            return Ok(());
        }
        let (shown, rest) = left.split_at(count);
        put_hunk(made, alloc, shown, old, new)?;
        left = rest;
    }
    Ok(())
}

fn put_heads(made: &mut Vec<u8>, name: &[u8]) -> Result<(), AllocError> {
    made.extend_from_slice(b"--- ")?;
    made.extend_from_slice(name)?;
    made.extend_from_slice(b"\n+++ ")?;
    made.extend_from_slice(name)?;
    made.extend_from_slice(b"\n")
}

/// A unified diff (POSIX.1-2017, diff, "Diff -u Output Format") of a text and what its layout made of it, under this name; nothing
/// where they are the same. Lines are matched by what isn't white space, so of two texts of other kinds it shows more lines than needed.
pub fn difference(
    alloc: Global,
    name: &[u8],
    before: &[u8],
    after: &[u8],
) -> Result<Vec<u8>, AllocError> {
    let old = lines_of(alloc, before)?;
    let new = lines_of(alloc, after)?;
    let changes = changes_of(alloc, &old, &new)?;
    let mut made = Vec::new(alloc);
    if !changes.is_empty() {
        put_heads(&mut made, name)?;
        put_hunks(&mut made, alloc, &changes, &old, &new)?;
    }
    Ok(made)
}
