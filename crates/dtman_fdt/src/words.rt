//! Options and other words of a command line, in any order, as getopt takes them.

use std::alloc::{AllocError, Global};

/// An option: its letter, its long name, and whether a word belongs to it.
#[derive(Clone, Copy, Debug)]
pub struct Choice {
    pub letter: &'static str,
    pub long: &'static str,
    pub takes: bool,
}

/// An option that was given, by its letter, with its word.
#[derive(Clone, Copy, Debug)]
pub struct Chosen<'a> {
    pub letter: &'static str,
    pub word: &'a str,
}

/// Why words are no command line.
#[derive(Clone, Copy, Debug)]
pub enum Unread {
    NoMemory,
    /// An option is unknown, or its word isn't there.
    Option,
}

impl From<AllocError> for Unread {
    fn from(_error: AllocError) -> Unread {
        Unread::NoMemory
    }
}

/// What the words say.
#[derive(Drop)]
pub struct Words<'a> {
    pub options: Vec<Chosen<'a>>,
    pub others: Vec<&'a str>,
}

impl<'a> Words<'a> {
    /// Whether an option was given.
    pub fn has(&self, letter: &str) -> bool {
        self.options.iter().any(|chosen| chosen.letter == letter)
    }

    /// The word of an option, the last where it was given several times.
    pub fn word(&self, letter: &str) -> Option<&'a str> {
        let mut found = None;
        for chosen in &self.options {
            if chosen.letter == letter {
                found = Some(chosen.word);
            }
        }
        found
    }

    fn choose(&mut self, letter: &'static str, word: &'a str) -> Result<(), Unread> {
        match self.options.push(Chosen { letter, word }) {
            Ok(()) => Ok(()),
            Err(_) => Err(Unread::NoMemory),
        }
    }
}

// The choice that letters begin with, and the letters behind it.
fn first_choice<'a>(choices: &[Choice], letters: &'a str) -> Option<(Choice, &'a str)> {
    for choice in choices {
        if let Some(rest) = letters.strip_prefix(choice.letter) {
            return Some((*choice, rest));
        }
    }
    None
}

// The choice of a long name, and the word that is joined to it.
fn long_choice<'a>(choices: &[Choice], name: &'a str) -> Option<(Choice, Option<&'a str>)> {
    for choice in choices {
        match name.strip_prefix(choice.long) {
            Some("") => return Some((*choice, None)),
            Some(rest) => {
                if let Some(word) = rest.strip_prefix("=") {
                    return Some((*choice, Some(word)));
                }
            }
            None => {}
        }
    }
    None
}

// Takes the letters of a word, and answers the one that the next word belongs to.
fn take_letters<'a>(
    words: &mut Words<'a>,
    choices: &[Choice],
    letters: &'a str,
) -> Result<Option<&'static str>, Unread> {
    let mut letters = letters;
    for _letter in 0..letters.len() {
        if letters.is_empty() {
            break;
        }
        let Some((choice, rest)) = first_choice(choices, letters) else {
            return Err(Unread::Option);
        };
        if choice.takes {
            if rest.is_empty() {
                return Ok(Some(choice.letter));
            }
            words.choose(choice.letter, rest)?;
            return Ok(None);
        }
        words.choose(choice.letter, "")?;
        letters = rest;
    }
    Ok(None)
}

fn take_long<'a>(
    words: &mut Words<'a>,
    choices: &[Choice],
    name: &'a str,
) -> Result<Option<&'static str>, Unread> {
    match long_choice(choices, name) {
        None => Err(Unread::Option),
        Some((choice, None)) if choice.takes => Ok(Some(choice.letter)),
        Some((choice, None)) => {
            words.choose(choice.letter, "")?;
            Ok(None)
        }
        Some((choice, Some(word))) if choice.takes => {
            words.choose(choice.letter, word)?;
            Ok(None)
        }
        Some(_) => Err(Unread::Option),
    }
}

// Takes a word, and answers the option that the next one belongs to.
fn take<'a>(
    words: &mut Words<'a>,
    choices: &[Choice],
    word: &'a str,
) -> Result<Option<&'static str>, Unread> {
    if let Some(name) = word.strip_prefix("--") {
        return take_long(words, choices, name);
    }
    match word.strip_prefix("-") {
        Some("") | None => match words.others.push(word) {
            Ok(()) => Ok(None),
            Err(_) => Err(Unread::NoMemory),
        },
        Some(letters) => take_letters(words, choices, letters),
    }
}

/// Reads words by the options that there are. Behind `--` no word is an option.
pub fn read_words<'a>(
    alloc: Global,
    choices: &[Choice],
    given: &[&'a str],
) -> Result<Words<'a>, Unread> {
    let mut words = Words {
        options: Vec::new(alloc),
        others: Vec::new(alloc),
    };
    let mut open: Option<&'static str> = None;
    let mut ended = false;
    for word in given {
        match open.take() {
            Some(letter) => words.choose(letter, *word)?,
            None if ended => words.others.push(*word).map_err(AllocError::from)?,
            None if *word == "--" => ended = true,
            None => open = take(&mut words, choices, *word)?,
        }
    }
    match open {
        Some(_) => Err(Unread::Option),
        None => Ok(words),
    }
}
