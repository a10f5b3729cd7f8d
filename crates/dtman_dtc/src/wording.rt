//! What a refusal's number says, in the words of its line.

/// The words behind a refusal's name; none for a number that needs none.
pub(crate) fn words_of_number(number: u8) -> &'static str {
    match number {
        10..=19 => of_inclusion(number),
        30..=39 => of_blob(number),
        _ => of_overlay(number),
    }
}

fn of_inclusion(number: u8) -> &'static str {
    match number {
        10 => "this can't stand here",
        16 => "files within files, over 200 deep",
        _ => "a source of over 16 MiB",
    }
}

fn of_blob(number: u8) -> &'static str {
    match number {
        30 => "the file ends before the blob does",
        31 => "no blob: it doesn't begin with d00dfeed",
        32 => "a version that isn't read: 16 or 17 and later compatible ones are",
        33 => "the blocks don't lie inside the blob, or not as they are aligned",
        34 => "a token of the structure block is cut, unknown or in a wrong place",
        35 => "a string has no end, or lies outside of its block",
        36 => "a property behind a child",
        37 => "names or depths that no tree has",
        _ => "over 256 MiB",
    }
}

fn of_overlay(number: u8) -> &'static str {
    match number {
        40 => "no node of the root has an __overlay__",
        41 => "the base has no node that a fragment is meant for",
        42 => "the base has no such symbol, or no phandle where it leads",
        43 => "a fixup that names no place of the overlay",
        44 => "phandles above the greatest",
        45 => "a node of the base has a phandle already: is the overlay applied?",
        46 => "over 64 levels of nodes",
        _ => "not done",
    }
}
