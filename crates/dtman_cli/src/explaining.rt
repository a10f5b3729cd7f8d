//! What is said of errors: of one by its number, of those of a name, or of all in a line each; of checks likewise.

use crate::check_texts::{CheckText, check_text};
use dtman_check::table::{CHECK_COUNT, Check, Severity, check_at};
use dtman_diagnosis::example_of;
use dtman_engine::{Explanation, Fault, explain};
use dtman_host::{Failure, no_such};
use std::alloc::{AllocError, Global};

/// Behind every number of an error.
const NUMBERS_END: u8 = 100;

/// What is said of what a word names: an error by its number or name, a check by its name, `all` errors, or all `checks`.
pub fn explained(alloc: Global, word: &str) -> Result<Vec<u8>, Failure<'_>> {
    let text = match word {
        "all" => listed(alloc),
        "checks" => checks_listed(alloc),
        _ => named(alloc, word),
    };
    match text {
        Ok(text) if text.is_empty() => check_named(alloc, word),
        Ok(text) => Ok(text.into_bytes()),
        Err(_) => Err(Failure::Refused(Fault::no_memory())),
    }
}

fn check_named<'a>(alloc: Global, word: &'a str) -> Result<Vec<u8>, Failure<'a>> {
    let Some(check) = check_of(word) else {
        return Err(unknown(alloc, word));
    };
    match check_entry(alloc, check) {
        Ok(text) => Ok(text.into_bytes()),
        Err(_) => Err(Failure::Refused(Fault::no_memory())),
    }
}

fn check_of(word: &str) -> Option<&'static Check> {
    for place in 0..CHECK_COUNT {
        match check_at(place) {
            Some(check) if check.name == word => return Some(check),
            _ => {}
        }
    }
    None
}

// What a mistake that a check finds comes to, where nothing else is said.
fn level_of(check: &Check) -> &'static str {
    match check.severity {
        Severity::Off => "off",
        Severity::Warning => "warning",
        Severity::Error => "error",
    }
}

fn check_entry(alloc: Global, check: &Check) -> Result<String, AllocError> {
    let CheckText {
        meaning,
        remedy,
        ..
    } = check_text(check.name);
    let (name, level) = (check.name, level_of(check));
    format!(in alloc; "{name} ({level})\n{meaning}\nwhat to do: {remedy}\n")
}

// A line for each check.
fn checks_listed(alloc: Global) -> Result<String, AllocError> {
    let mut text = String::new(alloc);
    for place in 0..CHECK_COUNT {
        if let Some(check) = check_at(place) {
            let meaning = check_text(check.name).meaning;
            let (name, level) = (check.name, level_of(check));
            writeln!(text, "{name} ({level}): {meaning}")?;
        }
    }
    Ok(text)
}

// No error and no check has this number or name.
fn unknown<'a>(alloc: Global, word: &'a str) -> Failure<'a> {
    if word.parse::<u64>().is_ok() {
        return no_such(alloc, "no error has the number", word, &[]);
    }
    match names(alloc) {
        Ok(names) => no_such(
            alloc,
            "no error or check has the name",
            word,
            names.as_slice(),
        ),
        Err(_) => Failure::Refused(Fault::no_memory()),
    }
}

fn names(alloc: Global) -> Result<Vec<&'static [u8]>, AllocError> {
    let mut names = Vec::new(alloc);
    for number in 0..NUMBERS_END {
        if let Some(explanation) = explain(number) {
            names.push(explanation.name.as_bytes())?;
        }
    }
    add_checks(&mut names)?;
    Ok(names)
}

fn add_checks(names: &mut Vec<&'static [u8]>) -> Result<(), AllocError> {
    for place in 0..CHECK_COUNT {
        if let Some(check) = check_at(place) {
            names.push(check.name.as_bytes())?;
        }
    }
    Ok(())
}

// A line for each error.
fn listed(alloc: Global) -> Result<String, AllocError> {
    let mut text = String::new(alloc);
    for number in 0..NUMBERS_END {
        if let Some(explanation) = explain(number) {
            let Explanation { name, meaning, .. } = explanation;
            writeln!(text, "{number} {name}: {meaning}")?;
        }
    }
    Ok(text)
}

// The errors with this number or name, in any case.
fn named(alloc: Global, word: &str) -> Result<String, AllocError> {
    let mut text = String::new(alloc);
    let wanted = word.parse::<u8>().ok();
    for number in 0..NUMBERS_END {
        if let Some(explanation) = explain(number) {
            if wanted == Some(number) || explanation.name.eq_ignore_ascii_case(word) {
                if !text.is_empty() {
                    text.push_str("\n")?;
                }
                push_entry(&mut text, explanation)?;
            }
        }
    }
    Ok(text)
}

// An entry, and what is told of its example in detail.
fn push_entry(text: &mut String, explanation: Explanation) -> Result<(), AllocError> {
    write!(text, "{explanation}")?;
    if let Some(lines) = example_of(explanation.number) {
        text.push_str("\n")?;
        text.push_str(lines)?;
    }
    Ok(())
}
