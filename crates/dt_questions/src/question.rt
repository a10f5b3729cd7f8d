//! What is looked for in nodes.
ghost use Rattle.std.specs.Prelude.{◌≡◌};
ghost use Rattle.dt_questions.specs.Question.{has_compatible, has_text, has_number, is_value};

use dt_check::{is_same, next_cell};
use dt_tree::Node;

/// What a node is to have.
#[derive(Clone, Copy, Debug)]
pub enum Question<'q> {
    /// This string in `compatible`, or a property of this name.
    Named(&'q [u8]),
    /// A property of this name that has this text among its strings or, where it is said, this number among its cells.
    Valued {
        name: &'q [u8],
        text: &'q [u8],
        number: Option<u32>,
    },
}

// The number that a word is, in decimal digits or, behind `0x`, in hexadecimal ones.
fn number_in(word: &str) -> Option<u32> {
    if word.starts_with("+") {
        return None;
    }
    match word.strip_prefix("0x") {
        None => u32::from_str_radix(word, 10).ok(),
        Some(digits) if digits.starts_with("+") => None,
        Some(digits) => u32::from_str_radix(digits, 16).ok(),
    }
}

impl<'q> Question<'q> {
    /// The question that a word asks: `NAME`, or `NAME=VALUE`, where a value may be a number, in hex behind `0x`.
    pub fn of(word: &'q str) -> Question<'q> {
        match word.split_once('=') {
            None => Question::Named(word.as_bytes()),
            Some((name, value)) => Question::Valued {
                name: name.as_bytes(),
                text: value.as_bytes(),
                number: number_in(value),
            },
        }
    }
}

/// Whether a value has a string.
pub fn has_text(value: &[u8], text: &[u8]) -> bool
    ensures { result ≡ has_text text.now value.now }
{
    value
        .split(|byte| *byte == 0)
        .any(|string| is_same(string, text))
}

// Whether a value has a number among its cells.
fn has_number(value: &[u8], number: u32) -> bool
    ensures { result ≡ has_number number value.now }
{
    let mut rest = value;
    while let Some((cell, behind)) = next_cell(rest) {
        rest = behind;
        if cell == number {
            return true;
        }
    }
    false
}

fn is_value(value: &[u8], text: &[u8], number: Option<u32>) -> bool
    ensures { result ≡ is_value text.now number value.now }
{
    if has_text(value, text) {
        return true;
    }
    match number {
        None => false,
        Some(number) => has_number(value, number),
    }
}

fn has_compatible(node: &Node, string: &[u8]) -> bool
    ensures { result ≡ has_compatible string.now node.now.properties }
{
    match node.value(b"compatible") {
        None => false,
        Some(value) => has_text(value.as_slice(), string),
    }
}

impl<'q> Question<'q> {
    ghost use Rattle.dt_questions.specs.Question.{fits};

    /// Whether a node has it.
    pub fn fits(&self, node: &Node) -> bool
        ensures { result ≡ fits self.now node.now.properties }
    {
        match self {
            Question::Named(word) => has_compatible(node, *word) || node.value(*word).is_some(),
            Question::Valued { name, text, number } => match node.value(*name) {
                None => false,
                Some(value) => is_value(value.as_slice(), *text, *number),
            },
        }
    }
}
