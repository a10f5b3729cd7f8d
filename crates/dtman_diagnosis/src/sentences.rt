//! One sentence a refusal.

use crate::diagnosis::{Diagnosis, Subject};
use crate::escaping::push_shown;
use std::alloc::AllocError;

/// What is said before and behind the subject. Where there is nothing behind, the subject isn't told.
#[derive(Clone, Copy)]
struct Sentence {
    before: &'static str,
    behind: Option<&'static str>,
}

fn plain(before: &'static str) -> Sentence {
    Sentence {
        before,
        behind: None,
    }
}

fn of(before: &'static str, behind: &'static str) -> Sentence {
    Sentence {
        before,
        behind: Some(behind),
    }
}

fn syntax(kind: Subject) -> Sentence {
    match kind {
        Subject::End => plain("the text ends, and more must follow"),
        Subject::Unclosed => plain("what begins here isn't closed"),
        Subject::Nothing => plain("no lexeme begins here"),
        Subject::LongText => plain("the string that begins here goes on in the next line"),
        Subject::BehindChild => of(
            "",
            " stands behind a child; properties stand before children",
        ),
        Subject::Missing => of("expected ", ""),
        Subject::DtcLanguage => of("", " is of dtc's language, which `--dtc` reads"),
        Subject::Word => of(
            "",
            " is no value: a value is a string \"..\", <..>, [..] or a reference",
        ),
        _ => of("", " can't stand here"),
    }
}

fn bits(kind: Subject) -> Sentence {
    match kind {
        Subject::Label | Subject::Path => {
            of(
                "the reference to ",
                " stands among elements that aren't 32 bits wide",
            )
        }
        _ => of("the width ", " isn't 8, 16, 32 or 64"),
    }
}

fn literal(kind: Subject) -> Sentence {
    match kind {
        Subject::Octal => of("", " is no octal number, which a leading 0 says that it is"),
        _ => of("", " is no number below 2^64"),
    }
}

fn depth(kind: Subject) -> Sentence {
    match kind {
        Subject::Inclusion => of("", " nests files deeper than 200"),
        _ => of("", " nests deeper than 64"),
    }
}

fn reserved(kind: Subject) -> Sentence {
    match kind {
        Subject::Name => of("the name ", " is kept for the compiler"),
        _ => of("a reference can't name ", " here"),
    }
}

fn doubled(kind: Subject) -> Sentence {
    match kind {
        Subject::Label | Subject::Path => {
            of(
                "a child of the root has the name of the fragment that ",
                " makes",
            )
        }
        Subject::Deletion => {
            of(
                "the body with which a node begins can't delete ",
                ", which it defines",
            )
        }
        Subject::Deleted => {
            of(
                "",
                " was deleted in the body with which its node begins, before it was defined there",
            )
        }
        _ => of("the body defines ", " twice"),
    }
}

fn of_source(number: u8, kind: Subject) -> Sentence {
    match number {
        0 => plain("the system refused memory"),
        10 => syntax(kind),
        11 => of("the element ", " doesn't fit its width"),
        12 => of("", " divides by zero"),
        13 => bits(kind),
        14 => literal(kind),
        15 => of("", " is no escape"),
        16 => depth(kind),
        17 => plain("a source has at most 16,777,216 bytes"),
        20 => of("no node has the label ", ""),
        21 => of("the label ", " is another node's"),
        22 => of("no node has the path ", ""),
        23 => plain("a phandle is four plain bytes, and neither 0 nor 0xffffffff"),
        24 => plain("another node has this phandle"),
        25 => doubled(kind),
        26 => of("cells of a plugin can't refer to the path ", ""),
        27 => reserved(kind),
        28 => of("", " lies deeper than 64 levels"),
        _ => of_blob(number),
    }
}

fn of_blob(number: u8) -> Sentence {
    match number {
        30 => plain("the blob is cut"),
        31 => plain("this is no blob"),
        32 => plain("the version isn't one that can be read"),
        33 => plain("a block doesn't lie where it can"),
        34 => plain("the structure breaks off here"),
        35 => plain("a name doesn't end here, or isn't there"),
        36 => plain("a property stands behind a child"),
        37 => plain("the nodes make no tree"),
        38 => plain("a blob or a text has at most 268,435,456 bytes"),
        _ => plain("this is refused"),
    }
}

fn of_overlay(number: u8, kind: Subject) -> Sentence {
    match number {
        40 => plain("this is no overlay"),
        41 => match kind {
            Subject::Path => of("the base has no node at ", ""),
            _ => plain("the base has no node that a fragment targets"),
        },
        42 => of(
            "the base has no symbol ",
            " that leads to a node with a phandle",
        ),
        43 => match kind {
            Subject::Label => of("an entry of the label ", " can't be used"),
            _ => plain("an entry can't be used"),
        },
        44 => plain("a raised phandle is 0xffffffff or more"),
        45 => plain("a node would get a second phandle, or two nodes have one"),
        _ => plain("a node would lie deeper than 64 levels"),
    }
}

fn of_line(kind: Subject) -> Sentence {
    match kind {
        Subject::Word => of("", " can't stand here"),
        Subject::End => plain("the line ends, and more must follow"),
        Subject::Character => plain("this can't stand in a line"),
        _ => plain("the line has no lawful form"),
    }
}

fn of_bus(number: u8, kind: Subject) -> Sentence {
    match number {
        50 => of_line(kind),
        51 => plain("a line before names this driver"),
        52 => plain("a line before has this path"),
        53 => match kind {
            Subject::Path => of("no device has the path ", ""),
            Subject::Node => of("no node has the path ", ""),
            Subject::Property => of("the node has no property ", ""),
            _ => plain("the line names a path that no device has"),
        },
        54 => plain("no node has the phandle of an entry"),
        55 => plain("a property doesn't list its suppliers as they want it"),
        56 => plain("there are more devices than a plan may have"),
        60 => plain("the device is in flight or has settled"),
        61 => plain("the device has no driver, or is switched off"),
        62 => plain("the flight is gone"),
        63 => plain("a supplier of the device isn't bound"),
        64 => plain("the device named is no supplier, or was bound at the begin"),
        65 => plain("there were 500,000 begins before"),
        66 => plain("the device isn't in flight"),
        67 => plain("a driver has this name"),
        _ => plain("this is refused"),
    }
}

fn of_file(number: u8, kind: Subject) -> Sentence {
    match number {
        80 => match kind {
            Subject::Inclusion => of("no file can be read that is named ", ""),
            _ => plain("the file can't be read"),
        },
        81 => plain("the file can't be written"),
        _ => plain("the file is too long: at most 268,435,456 bytes are read"),
    }
}

fn of_preprocessor(number: u8, kind: Subject) -> Sentence {
    match number {
        83 => of("no file can be read that is named ", ""),
        84 => plain("files or calls of macros are nested deeper than 200 here"),
        85 => plain("the line comes to more than 4,000,000 tokens"),
        86 => plain("the text with all that it includes has more than 67,108,864 bytes"),
        87 => plain("the comment that begins here isn't closed in its file"),
        88 => of("", " isn't served"),
        91 => of(
            "the call of ",
            " has a wrong number of arguments, or isn't closed",
        ),
        92 => of(
            "",
            " stands without its `#if`, or is an `#if` that isn't closed",
        ),
        93 => of("the source says: ", ""),
        _ => match kind {
            Subject::Nothing => plain("the directive ends, and more must follow"),
            _ => of("", " can't stand here in a directive"),
        },
    }
}

/// Writes the sentence of a diagnosis.
pub(crate) fn push_sentence(out: &mut String, diagnosis: &Diagnosis) -> Result<(), AllocError> {
    let sentence = match diagnosis.number {
        0..=29 => of_source(diagnosis.number, diagnosis.kind),
        30..=39 => of_blob(diagnosis.number),
        40..=49 => of_overlay(diagnosis.number, diagnosis.kind),
        80..=82 => of_file(diagnosis.number, diagnosis.kind),
        83..=93 => of_preprocessor(diagnosis.number, diagnosis.kind),
        _ => of_bus(diagnosis.number, diagnosis.kind),
    };
    out.push_str(sentence.before)?;
    if let Some(behind) = sentence.behind {
        out.push_str("`")?;
        push_shown(out, diagnosis.subject.as_slice())?;
        out.push_str("`")?;
        out.push_str(behind)?;
    }
    Ok(())
}
