//! The form that is meant by a line of the bus's text files, and the word that is wrong in it.

use crate::bus_lines::Word;
use bus_plan::is_driver_name;
use dt_tree::is_path;
use std::alloc::{AllocError, Global};
use std::collections::BTreeSet;

/// A text file of the bus.
#[derive(Clone, Copy, Debug, PartialEq, Eq)]
pub enum TextKind {
    Drivers,
    /// A driver file in which lines `early` and `bus` count, too.
    LinkDrivers,
    Plan,
    Schedule,
    /// What nodes have, for `check --known`.
    Reference,
}

/// What is wrong in a line.
#[derive(Clone, Copy)]
pub(crate) struct Slip {
    /// The word, by its index; behind the last one where more must follow.
    pub word: usize,
    /// What is meant, in words.
    pub form: &'static str,
    /// What stands at that place in lines that are right.
    pub choices: &'static [&'static str],
}

const DRIVER: &str = "the form is `driver NAME COMPATIBLE..`";

const FAIL: &str = "the form is `fail PATH`";

const EARLY: &str = "the form is `early COMPATIBLE..`";

const BUS: &str = "the form is `bus COMPATIBLE..`";

const DEVICE: &str = "the form is `PATH DRIVER ok|fail SUPPLIER..`, or `- -` or `! -` behind PATH";

const STRINGS: &str = "the form is `compatible PATH COMPATIBLE..`";

const BEGIN: &str = "the form is `begin PATH`";

const ABANDON: &str = "the form is `abandon PATH`";

const FINISH: &str = "the form is `finish PATH settled` or `finish PATH missing SUPPLIER`";

fn slip_at(word: usize, form: &'static str) -> Option<Slip> {
    choice(word, form, &[])
}

fn choice(word: usize, form: &'static str, choices: &'static [&'static str]) -> Option<Slip> {
    Some(Slip {
        word,
        form,
        choices,
    })
}

/// What is wrong in a line of these words.
pub(crate) fn slip_in(
    alloc: Global,
    kind: TextKind,
    words: &[Word<'_>],
) -> Result<Option<Slip>, AllocError> {
    let Some(first) = words.first() else {
        return Ok(None);
    };
    match kind {
        TextKind::Plan if first.text.first().copied() == Some(b'/') => device(alloc, words),
        TextKind::Plan => Ok(strings(words)),
        TextKind::Schedule => Ok(event(words)),
        TextKind::Reference => Ok(None),
        _ => Ok(statement(kind, words)),
    }
}

fn is_word(words: &[Word<'_>], index: usize, wanted: &str) -> bool {
    match words.get(index) {
        Some(word) => word.text == wanted.as_bytes(),
        None => false,
    }
}

fn is_path_at(words: &[Word<'_>], index: usize) -> bool {
    match words.get(index) {
        Some(word) => is_path(word.text),
        None => false,
    }
}

// The path of a device: of any node but the root.
fn is_device_path(path: &[u8]) -> bool {
    is_path(path) && path != b"/".as_slice()
}

// ---- driver files

fn statement(kind: TextKind, words: &[Word<'_>]) -> Option<Slip> {
    let is_linked = kind == TextKind::LinkDrivers;
    if is_word(words, 0, "driver") {
        return driver(words);
    }
    if is_word(words, 0, "fail") {
        return one_path(words, FAIL);
    }
    if is_word(words, 0, "early") {
        return linked(is_linked, EARLY);
    }
    if is_word(words, 0, "bus") {
        return linked(is_linked, BUS);
    }
    match kind {
        TextKind::LinkDrivers => choice(
            0,
            "a line is `driver NAME COMPATIBLE..`, `fail PATH`, `early COMPATIBLE..` or `bus COMPATIBLE..`",
            &["driver", "fail", "early", "bus"],
        ),
        _ => choice(
            0,
            "a line is `driver NAME COMPATIBLE..` or `fail PATH`",
            &["driver", "fail"],
        ),
    }
}

fn linked(is_linked: bool, form: &'static str) -> Option<Slip> {
    if is_linked {
        slip_at(1, form)
    } else {
        slip_at(
            0,
            "lines `early` and `bus` count with `--links linux` alone",
        )
    }
}

// `driver NAME COMPATIBLE..`
fn driver(words: &[Word<'_>]) -> Option<Slip> {
    match words.get(1) {
        Some(name) if !is_driver_name(name.text) => slip_at(
            1,
            "a driver's name is up to 255 letters, digits and `,._+*#?@-`, and isn't `-`",
        ),
        _ if words.len() < 3 => slip_at(words.len(), DRIVER),
        _ => None,
    }
}

// A word and a path.
fn one_path(words: &[Word<'_>], form: &'static str) -> Option<Slip> {
    if words.len() < 2 {
        slip_at(words.len(), form)
    } else if !is_path_at(words, 1) {
        no_path(1)
    } else if words.len() > 2 {
        slip_at(2, form)
    } else {
        None
    }
}

fn no_path(word: usize) -> Option<Slip> {
    slip_at(word, "a path is made of names, each behind a slash")
}

// ---- plan files

fn strings(words: &[Word<'_>]) -> Option<Slip> {
    if !is_word(words, 0, "compatible") {
        return choice(
            0,
            "a line begins with a path, or is `compatible PATH COMPATIBLE..`",
            &["compatible"],
        );
    }
    match words.get(1) {
        Some(path) if !is_device_path(path.text) => no_path(1),
        _ if words.len() < 3 => slip_at(words.len(), STRINGS),
        _ => slip_at(
            1,
            "only a device whose line has `- -` has strings for a late driver",
        ),
    }
}

fn device(alloc: Global, words: &[Word<'_>]) -> Result<Option<Slip>, AllocError> {
    if let Some(slip) = matching(words) {
        return Ok(Some(slip));
    }
    suppliers(alloc, words)
}

// The path, the driver, and what its probe comes to.
fn matching(words: &[Word<'_>]) -> Option<Slip> {
    let is_undriven = is_word(words, 1, "-") || is_word(words, 1, "!");
    match words.first() {
        Some(path) if !is_device_path(path.text) => return no_path(0),
        _ => {}
    }
    match words.get(1) {
        Some(name) if !is_undriven && !is_driver_name(name.text) => slip_at(1, DEVICE),
        _ if words.len() < 3 => slip_at(words.len(), DEVICE),
        _ if is_undriven && !is_word(words, 2, "-") => {
            slip_at(2, "`-` stands behind `-` and `!`")
        }
        _ if !is_undriven && !is_word(words, 2, "ok") && !is_word(words, 2, "fail") => {
            choice(2, DEVICE, &["ok", "fail"])
        }
        _ => None,
    }
}

// Each supplier is a path that stands once, and not the device's own.
fn suppliers(alloc: Global, words: &[Word<'_>]) -> Result<Option<Slip>, AllocError> {
    let mut seen = BTreeSet::new(alloc);
    for (index, word) in words.iter().enumerate() {
        if index == 1 || index == 2 {
            continue;
        }
        if !is_device_path(word.text) {
            return Ok(no_path(index));
        }
        if seen.contains(&word.text) {
            return Ok(slip_at(
                index,
                "each supplier stands once, and isn't the device itself",
            ));
        }
        seen.insert(word.text)?;
    }
    Ok(None)
}

// ---- schedules

fn event(words: &[Word<'_>]) -> Option<Slip> {
    if is_word(words, 0, "driver") {
        driver(words)
    } else if is_word(words, 0, "begin") {
        one_path(words, BEGIN)
    } else if is_word(words, 0, "abandon") {
        one_path(words, ABANDON)
    } else if is_word(words, 0, "finish") {
        finish(words)
    } else {
        choice(
            0,
            "a line is `begin PATH`, `finish PATH ..`, `abandon PATH` or `driver NAME COMPATIBLE..`",
            &["begin", "finish", "abandon", "driver"],
        )
    }
}

fn finish(words: &[Word<'_>]) -> Option<Slip> {
    if words.len() > 1 && !is_path_at(words, 1) {
        no_path(1)
    } else if words.len() < 3 {
        slip_at(words.len(), FINISH)
    } else if is_word(words, 2, "settled") {
        beyond(words, 3)
    } else if !is_word(words, 2, "missing") {
        choice(2, FINISH, &["settled", "missing"])
    } else if words.len() > 3 && !is_path_at(words, 3) {
        no_path(3)
    } else if words.len() < 4 {
        slip_at(words.len(), FINISH)
    } else {
        beyond(words, 4)
    }
}

// A word behind so many.
fn beyond(words: &[Word<'_>], count: usize) -> Option<Slip> {
    if words.len() > count {
        slip_at(count, FINISH)
    } else {
        None
    }
}
