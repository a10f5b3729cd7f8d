//! What is told of a refusal, in a sentence.

use dt_preprocess::Reason;
use dt_source::SourceErrorKind;
use std::alloc::{AllocError, Global};
use std::str;

/// How much of a word is shown, in bytes.
const SHOWN: usize = 80;

/// Why a text isn't whole.
#[derive(Clone, Copy)]
pub(crate) enum Incompletion {
    NoFile,
    TooDeep,
    TooLong,
    Syntax,
}

impl Incompletion {
    /// The number by which users know it.
    pub(crate) fn number(self) -> u8 {
        match self {
            Incompletion::NoFile => 80,
            Incompletion::TooDeep => 16,
            Incompletion::TooLong => 17,
            Incompletion::Syntax => 10,
        }
    }

    fn words(self) -> &'static str {
        match self {
            Incompletion::NoFile => "there is no such file",
            Incompletion::TooDeep => "files are taken in deeper than 200",
            Incompletion::TooLong => "the text would be longer than 16 MiB",
            Incompletion::Syntax =>
                "the name of a file must follow, and a file closes what it opens",
        }
    }
}

/// What is told of a text that isn't whole.
pub(crate) fn short_sentence(alloc: Global, short: Incompletion) -> Result<String, AllocError> {
    String::from_str(alloc, short.words())
}

/// A sentence about a word, which is left out where it is none or no text.
fn about(alloc: Global, word: &[u8], words: &str) -> Result<String, AllocError> {
    let shown = word.get(..SHOWN).unwrap_or(word);
    match str::from_utf8(shown) {
        Ok(shown) if !shown.is_empty() => format!(in alloc; "`{shown}`: {words}"),
        _ => String::from_str(alloc, words),
    }
}

fn source_words(kind: SourceErrorKind) -> &'static str {
    match kind {
        SourceErrorKind::NoMemory => "out of memory",
        SourceErrorKind::Syntax => "this can't stand here",
        SourceErrorKind::ElementRange => "its width can't hold this element",
        SourceErrorKind::DivideByZero => "this divides by zero",
        SourceErrorKind::BadBits =>
            "widths are 8, 16, 32 and 64, and references stand among 32 wide ones",
        SourceErrorKind::LiteralRange => "this is no number below 2^64",
        SourceErrorKind::BadEscape => "this escape stands for no byte",
        SourceErrorKind::TooDeep => "this nests deeper than 64",
        SourceErrorKind::TooLong => "the text is longer than 16 MiB",
    }
}

/// What is told of a fault in the grammar.
pub(crate) fn source_sentence(
    alloc: Global,
    kind: SourceErrorKind,
    word: &[u8],
) -> Result<String, AllocError> {
    if word.is_empty() && kind == SourceErrorKind::Syntax {
        return String::from_str(alloc, "the text ends, and more must follow");
    }
    about(alloc, word, source_words(kind))
}

fn preprocess_words(reason: Reason) -> &'static str {
    match reason {
        Reason::NoMemory => "out of memory",
        Reason::NoFile => "there is no such header in the folders that are searched",
        Reason::TooDeep => "files or calls nest deeper than 200",
        Reason::TooManyTokens => "this line comes to more than 4,000,000 tokens",
        Reason::TooLong => "the text comes to more than 64 MiB",
        Reason::OpenComment => "the comment that begins here isn't closed",
        Reason::Unserved => "no board uses this of the C preprocessor, and it isn't served",
        Reason::Directive => "the directive isn't formed so",
        Reason::Condition => "this condition has no value",
        Reason::Call => "this call isn't closed, or has a wrong number of arguments",
        Reason::Conditional => "this directive has no #if, or its #if isn't closed",
        Reason::Error => "#error",
    }
}

/// What is told of a refusal of the preprocessor.
pub(crate) fn preprocess_sentence(
    alloc: Global,
    reason: Reason,
    word: &[u8],
) -> Result<String, AllocError> {
    about(alloc, word, preprocess_words(reason))
}
