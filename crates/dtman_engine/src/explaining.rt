//! What each number means, and what to do about it.
ghost use Rattle.std.specs.Prelude.{◌≡◌, IfSome, option_map};
ghost use Rattle.dtman_engine.specs.Explain.{name_in, name_for, memory_faults, source_faults, build_faults, blob_faults, overlay_faults, text_faults, event_faults, run_faults, file_faults, preprocess_faults};

mod texts;

use std::fmt;

/// An error for its reader.
#[derive(Clone, Copy, Debug)]
pub struct Explanation {
    pub number: u8,
    pub name: &'static str,
    pub meaning: &'static str,
    /// A small input that gives it.
    pub input: &'static str,
    pub remedy: &'static str,
}

impl fmt::Display for Explanation {
    ghost use Rattle.std.specs.Prelude.{Some};
    ghost use Rattle.dtman_engine.specs.Explain.{entry_text};

    ghost output = { λ explanation. Some (entry_text explanation) };

    fn fmt<W: fmt::Write>(&self, f: &mut fmt::Formatter<W>) -> fmt::Result {
        let Explanation {
            number,
            name,
            meaning,
            input,
            remedy,
        } = *self;
        write!(
            f,
            "## {number} {name}\n{meaning}\n\n- Such an input: {input}\n- What to do: {remedy}\n"
        )
    }
}

/// The explanation of a number that the program prints.
pub fn explain(number: u8) -> Option<Explanation>
    // It is there for the numbers of refusals alone, and has the name by which the refusal is told.
    ensures named { option_map (λ found. found.name.now) result ≡ name_for number }
    ensures numbered { IfSome result (λ found. found.number ≡ number) }
{
    let (name, meaning, input, remedy) = texts_of(number)?;
    Some(Explanation {
        number,
        name,
        meaning,
        input,
        remedy,
    })
}

/// A name, a meaning, an input and a remedy.
type Texts = (&'static str, &'static str, &'static str, &'static str);

fn texts_of(number: u8) -> Option<Texts>
    ensures { option_map (λ texts. texts.0.now) result ≡ name_for number }
{
    of_memory(number)
        .or(of_source(number))
        .or(of_build(number))
        .or(of_blob(number))
        .or(of_overlay(number))
        .or(of_text(number))
        .or(of_event(number))
        .or(of_run(number))
        .or(of_file(number))
        .or(of_preprocessor(number))
}

fn of_memory(number: u8) -> Option<Texts>
    ensures { option_map (λ texts. texts.0.now) result ≡ name_in memory_faults number }
{
    match number {
        0 => Some(texts::NO_MEMORY),
        _ => None,
    }
}

fn of_source(number: u8) -> Option<Texts>
    ensures { option_map (λ texts. texts.0.now) result ≡ name_in source_faults number }
{
    match number {
        10 => Some(texts::SYNTAX),
        11 => Some(texts::ELEMENT_RANGE),
        12 => Some(texts::DIVIDE_BY_ZERO),
        13 => Some(texts::BAD_BITS),
        14 => Some(texts::LITERAL_RANGE),
        15 => Some(texts::BAD_ESCAPE),
        16 => Some(texts::SOURCE_TOO_DEEP),
        17 => Some(texts::TOO_LONG),
        _ => None,
    }
}

fn of_build(number: u8) -> Option<Texts>
    ensures { option_map (λ texts. texts.0.now) result ≡ name_in build_faults number }
{
    match number {
        20 => Some(texts::UNKNOWN_LABEL),
        21 => Some(texts::DUPLICATE_LABEL),
        22 => Some(texts::UNKNOWN_REFERENCE_PATH),
        23 => Some(texts::BAD_PHANDLE),
        24 => Some(texts::DUPLICATE_PHANDLE),
        25 => Some(texts::DUPLICATE_IN_BODY),
        26 => Some(texts::PATH_IN_PLUGIN),
        27 => Some(texts::RESERVED_NAME),
        28 => Some(texts::TREE_TOO_DEEP),
        _ => None,
    }
}

fn of_blob(number: u8) -> Option<Texts>
    ensures { option_map (λ texts. texts.0.now) result ≡ name_in blob_faults number }
{
    match number {
        30 => Some(texts::TRUNCATED),
        31 => Some(texts::BAD_MAGIC),
        32 => Some(texts::BAD_VERSION),
        33 => Some(texts::BAD_LAYOUT),
        34 => Some(texts::BAD_TOKEN),
        35 => Some(texts::BAD_STRING),
        36 => Some(texts::PROPERTY_AFTER_NODE),
        37 => Some(texts::BAD_TREE),
        38 => Some(texts::TOO_LARGE),
        _ => None,
    }
}

fn of_overlay(number: u8) -> Option<Texts>
    ensures { option_map (λ texts. texts.0.now) result ≡ name_in overlay_faults number }
{
    match number {
        40 => Some(texts::NOT_OVERLAY),
        41 => Some(texts::NO_TARGET),
        42 => Some(texts::UNKNOWN_SYMBOL),
        43 => Some(texts::BAD_FIXUP),
        44 => Some(texts::PHANDLE_OVERFLOW),
        45 => Some(texts::PHANDLE_CLASH),
        46 => Some(texts::OVERLAY_TOO_DEEP),
        _ => None,
    }
}

fn of_text(number: u8) -> Option<Texts>
    ensures { option_map (λ texts. texts.0.now) result ≡ name_in text_faults number }
{
    match number {
        50 => Some(texts::BAD_LINE),
        51 => Some(texts::DUPLICATE_DRIVER),
        52 => Some(texts::DUPLICATE_DEVICE),
        53 => Some(texts::UNKNOWN_LINE_PATH),
        54 => Some(texts::DANGLING_PHANDLE),
        55 => Some(texts::BAD_SPECIFIER),
        56 => Some(texts::TOO_MANY_DEVICES),
        _ => None,
    }
}

fn of_event(number: u8) -> Option<Texts>
    ensures { option_map (λ texts. texts.0.now) result ≡ name_in event_faults number }
{
    match number {
        60 => Some(texts::NOT_IDLE),
        61 => Some(texts::UNMATCHED),
        62 => Some(texts::STALE_TICKET),
        63 => Some(texts::NOT_READY),
        64 => Some(texts::WAS_BOUND),
        65 => Some(texts::TOO_MANY_EVENTS),
        66 => Some(texts::NOT_IN_FLIGHT),
        67 => Some(texts::KNOWN_DRIVER),
        _ => None,
    }
}

fn of_run(number: u8) -> Option<Texts>
    ensures { option_map (λ texts. texts.0.now) result ≡ name_in run_faults number }
{
    match number {
        70 => Some(texts::TOO_MANY_WORKERS),
        _ => None,
    }
}

fn of_file(number: u8) -> Option<Texts>
    ensures { option_map (λ texts. texts.0.now) result ≡ name_in file_faults number }
{
    match number {
        80 => Some(texts::CANNOT_READ),
        81 => Some(texts::CANNOT_WRITE),
        82 => Some(texts::FILE_TOO_LONG),
        _ => None,
    }
}

fn of_preprocessor(number: u8) -> Option<Texts>
    ensures { option_map (λ texts. texts.0.now) result ≡ name_in preprocess_faults number }
{
    match number {
        83 => Some(texts::NO_HEADER),
        84 => Some(texts::NESTED_TOO_DEEP),
        85 => Some(texts::TOO_MANY_TOKENS),
        86 => Some(texts::TEXT_TOO_LONG),
        87 => Some(texts::OPEN_COMMENT),
        88 => Some(texts::UNSERVED),
        89 => Some(texts::BAD_DIRECTIVE),
        90 => Some(texts::BAD_CONDITION),
        91 => Some(texts::BAD_CALL),
        92 => Some(texts::BAD_CONDITIONAL),
        93 => Some(texts::ERROR_DIRECTIVE),
        _ => None,
    }
}
