//! dtc's command line: what its words say.

use dtman_blobs::Room;
use dtman_check::table::{Kind, Selection};
use std::alloc::{AllocError, Global};

/// What a file holds.
#[derive(Clone, Copy, Debug, PartialEq, Eq)]
pub enum Format {
    /// A source.
    Dts,
    /// A blob.
    Dtb,
    /// A folder, which only an input can be.
    Folder,
}

/// What is asked of the output.
#[derive(Clone, Copy, Debug, PartialEq, Eq)]
pub enum Output {
    Holds(Format),
    /// Nothing is written: the input is looked at alone (`-O null`).
    Nothing,
}

/// In which order nodes and properties stand.
#[derive(Clone, Copy, Debug, PartialEq, Eq)]
pub enum Order {
    /// As the input has them.
    AsRead,
    ByName,
}

/// What is asked for.
#[derive(Drop)]
pub struct Options<'a> {
    pub input: &'a str,
    pub output: &'a str,
    pub from: Option<Format>,
    pub to: Option<Output>,
    pub dependencies: Option<&'a str>,
    /// Where files are looked for (`-i`), in order.
    pub folders: Vec<&'a str>,
    pub symbols: bool,
    /// Whether nodes and properties are put in order of their names (`-s`).
    pub order: Order,
    pub boot_cpu: Option<u32>,
    pub room: Room,
    /// How often `-q` stands.
    pub quiet: usize,
    /// Which checks warn and which are errors (`-W`, `-E`).
    pub selection: Selection,
    /// Whether what an error is found in is written all the same (`-f`).
    pub force: bool,
}

/// What a command line comes to.
#[derive(Drop)]
pub enum Asked<'a> {
    Conversion(Options<'a>),
    Help,
    Version,
}

/// Why the words are no command line.
#[derive(Clone, Copy)]
pub enum BadWord<'a> {
    NoMemory,
    /// No option of this name.
    Unknown(&'a str),
    /// An option of dtc that this program doesn't have.
    Missing(&'a str),
    /// What follows the option is something that dtc takes and this program doesn't.
    MissingArgument(&'a str, &'a str),
    /// An option without what must follow it.
    NoArgument(&'a str),
    /// What follows the option is nothing that it takes.
    BadArgument(&'a str, &'a str),
    /// A second input.
    Extra(&'a str),
    /// Nothing is there to be applied.
    NoOverlay,
    /// No check of this name.
    NoCheck(&'a str),
    /// Two options that exclude each other.
    Both(&'a str, &'a str),
}

impl From<AllocError> for BadWord<'_> {
    fn from(_error: AllocError) -> Self {
        BadWord::NoMemory
    }
}

impl<T: Drop> From<std::alloc::AllocFailed<T>> for BadWord<'_> {
    fn from(_error: std::alloc::AllocFailed<T>) -> Self {
        BadWord::NoMemory
    }
}

/// An option, by dtc's names.
#[derive(Clone, Copy, Debug, PartialEq, Eq)]
enum Letter {
    Quiet,
    From,
    Output,
    To,
    Layout,
    Phandles,
    Dependencies,
    Reserve,
    Space,
    Pad,
    Align,
    BootCpu,
    Include,
    Force,
    Warning,
    Mistake,
    Symbols,
    Sort,
    Help,
    Version,
}

impl Letter {
    /// Whether a word follows.
    fn takes_word(self) -> bool {
        !matches!(
            self,
            Letter::Quiet
                | Letter::Force
                | Letter::Symbols
                | Letter::Sort
                | Letter::Help
                | Letter::Version
        )
    }
}

fn short(letter: u8) -> Option<Letter> {
    match letter {
        b'q' => Some(Letter::Quiet),
        b'I' => Some(Letter::From),
        b'o' => Some(Letter::Output),
        b'O' => Some(Letter::To),
        b'V' => Some(Letter::Layout),
        b'H' => Some(Letter::Phandles),
        b'd' => Some(Letter::Dependencies),
        b'R' => Some(Letter::Reserve),
        b'S' => Some(Letter::Space),
        b'p' => Some(Letter::Pad),
        b'a' => Some(Letter::Align),
        b'b' => Some(Letter::BootCpu),
        b'i' => Some(Letter::Include),
        b'f' => Some(Letter::Force),
        b'W' => Some(Letter::Warning),
        b'E' => Some(Letter::Mistake),
        b'@' => Some(Letter::Symbols),
        b's' => Some(Letter::Sort),
        b'h' => Some(Letter::Help),
        b'v' => Some(Letter::Version),
        _ => None,
    }
}

fn long(name: &str) -> Option<Letter> {
    match name {
        "quiet" => Some(Letter::Quiet),
        "in-format" => Some(Letter::From),
        "out" => Some(Letter::Output),
        "out-format" => Some(Letter::To),
        "out-version" => Some(Letter::Layout),
        "phandle" => Some(Letter::Phandles),
        "out-dependency" => Some(Letter::Dependencies),
        "reserve" => Some(Letter::Reserve),
        "space" => Some(Letter::Space),
        "pad" => Some(Letter::Pad),
        "align" => Some(Letter::Align),
        "boot-cpu" => Some(Letter::BootCpu),
        "include" => Some(Letter::Include),
        "force" => Some(Letter::Force),
        "warning" => Some(Letter::Warning),
        "error" => Some(Letter::Mistake),
        "symbols" => Some(Letter::Symbols),
        "sort" => Some(Letter::Sort),
        "help" => Some(Letter::Help),
        "version" => Some(Letter::Version),
        _ => None,
    }
}

impl<'a> Options<'a> {
    /// What stands for what no word says.
    pub(crate) fn new(alloc: Global) -> Result<Options<'a>, AllocError> {
        Ok(Options {
            input: "-",
            output: "-",
            from: None,
            to: None,
            dependencies: None,
            folders: Vec::new(alloc),
            symbols: false,
            order: Order::AsRead,
            boot_cpu: None,
            room: Room {
                reserves: 0,
                space: 0,
                padding: 0,
                align: 0,
            },
            quiet: 0,
            selection: Selection::usual(alloc)?,
            force: false,
        })
    }
}

/// What was read of a command line.
#[derive(Drop)]
struct Reading<'a> {
    options: Options<'a>,
    /// The option that the next word belongs to, and how it was written.
    open: Option<(Letter, &'a str)>,
    has_input: bool,
    asks_help: bool,
    asks_version: bool,
    /// Behind `--`.
    only_files: bool,
}

/// Reads the words behind the program's name.
pub fn read_words<'a>(alloc: Global, words: &[&'a str]) -> Result<Asked<'a>, BadWord<'a>> {
    let mut reading = Reading {
        options: Options::new(alloc)?,
        open: None,
        has_input: false,
        asks_help: false,
        asks_version: false,
        only_files: false,
    };
    for word in words {
        read_word(&mut reading, *word)?;
    }
    if let Some((_, name)) = reading.open {
        return Err(BadWord::NoArgument(name));
    }
    if reading.asks_help {
        return Ok(Asked::Help);
    }
    if reading.asks_version {
        return Ok(Asked::Version);
    }
    if reading.options.room.space > 0 && reading.options.room.padding > 0 {
        return Err(BadWord::Both("-p", "-S"));
    }
    Ok(Asked::Conversion(reading.options))
}

fn read_word<'a>(reading: &mut Reading<'a>, word: &'a str) -> Result<(), BadWord<'a>> {
    if let Some((letter, name)) = reading.open.take() {
        return set(reading, letter, name, word);
    }
    if reading.only_files || word == "-" {
        return read_input(reading, word);
    }
    if word == "--" {
        reading.only_files = true;
        return Ok(());
    }
    if let Some(name) = word.strip_prefix("--") {
        return read_long(reading, word, name);
    }
    match word.strip_prefix("-") {
        Some(letters) => read_letters(reading, word, letters),
        None => read_input(reading, word),
    }
}

fn read_input<'a>(reading: &mut Reading<'a>, word: &'a str) -> Result<(), BadWord<'a>> {
    if reading.has_input {
        return Err(BadWord::Extra(word));
    }
    reading.has_input = true;
    reading.options.input = word;
    Ok(())
}

/// `--name`, `--name=WORD`.
fn read_long<'a>(
    reading: &mut Reading<'a>,
    word: &'a str,
    name: &'a str,
) -> Result<(), BadWord<'a>> {
    let (name, argument) = match name.split_once("=") {
        Some((name, argument)) => (name, Some(argument)),
        None => (name, None),
    };
    let Some(letter) = long(name) else {
        return Err(not_there(word, name));
    };
    match argument {
        Some(argument) if letter.takes_word() => set(reading, letter, word, argument),
        Some(_) => Err(BadWord::Unknown(word)),
        None => meet(reading, letter, word),
    }
}

/// An option that dtc has and this program doesn't, or none at all.
fn not_there<'a>(word: &'a str, name: &str) -> BadWord<'a> {
    match name {
        "auto-alias" | "annotate" | "A" | "T" => BadWord::Missing(word),
        _ => BadWord::Unknown(word),
    }
}

/// `-q`, `-qq`, `-O dtb`, `-Odtb`.
fn read_letters<'a>(
    reading: &mut Reading<'a>,
    word: &'a str,
    letters: &'a str,
) -> Result<(), BadWord<'a>> {
    let mut left = letters;
    for _ in 0..letters.len() {
        let Some((first, rest)) = left.split_at_checked(1) else {
            return Err(BadWord::Unknown(word));
        };
        let letter = match first.as_bytes() {
            [c] => short(*c),
            _ => None,
        };
        let Some(letter) = letter else {
            return Err(not_there(word, first));
        };
        if letter.takes_word() && !rest.is_empty() {
            return set(reading, letter, word, rest);
        }
        meet(reading, letter, word)?;
        if rest.is_empty() {
            return Ok(());
        }
        left = rest;
    }
    Ok(())
}

/// An option without a word behind it, so far.
fn meet<'a>(reading: &mut Reading<'a>, letter: Letter, word: &'a str) -> Result<(), BadWord<'a>> {
    match letter {
        Letter::Quiet => reading.options.quiet = reading.options.quiet.saturating_add(1),
        // What a source's words come to is an error with it, too: it lifts what checks find alone.
        Letter::Force => reading.options.force = true,
        Letter::Symbols => reading.options.symbols = true,
        Letter::Sort => reading.options.order = Order::ByName,
        Letter::Help => reading.asks_help = true,
        Letter::Version => reading.asks_version = true,
        _ => reading.open = Some((letter, word)),
    }
    Ok(())
}

/// An option with its word.
fn set<'a>(
    reading: &mut Reading<'a>,
    letter: Letter,
    name: &'a str,
    word: &'a str,
) -> Result<(), BadWord<'a>> {
    let options = &mut reading.options;
    match letter {
        Letter::From => options.from = Some(input_format(name, word)?),
        Letter::To => options.to = Some(output_of(name, word)?),
        Letter::Layout => is_own(name, word, "17", &["1", "2", "3", "16"])?,
        Letter::Phandles => is_own(name, word, "epapr", &["legacy", "both"])?,
        Letter::Output => options.output = word,
        Letter::Dependencies => options.dependencies = Some(word),
        Letter::Include => options.folders.push(word)?,
        Letter::BootCpu => options.boot_cpu = Some(number(name, word)?),
        Letter::Reserve => options.room.reserves = number(name, word)?,
        Letter::Space => options.room.space = number(name, word)?,
        Letter::Pad => options.room.padding = number(name, word)?,
        Letter::Align => options.room.align = power_of_two(name, word)?,
        Letter::Warning => select(options, Kind::Warning, word)?,
        Letter::Mistake => select(options, Kind::Error, word)?,
        _ => {}
    }
    Ok(())
}

fn select<'a>(options: &mut Options<'a>, kind: Kind, word: &'a str) -> Result<(), BadWord<'a>> {
    if options.selection.apply(kind, word)? {
        return Ok(());
    }
    Err(BadWord::NoCheck(word))
}

fn input_format<'a>(name: &'a str, word: &'a str) -> Result<Format, BadWord<'a>> {
    match word {
        "dts" => Ok(Format::Dts),
        "dtb" => Ok(Format::Dtb),
        "fs" => Ok(Format::Folder),
        _ => Err(BadWord::BadArgument(name, word)),
    }
}

fn output_of<'a>(name: &'a str, word: &'a str) -> Result<Output, BadWord<'a>> {
    match word {
        "dts" => Ok(Output::Holds(Format::Dts)),
        "dtb" => Ok(Output::Holds(Format::Dtb)),
        "null" => Ok(Output::Nothing),
        "asm" | "yaml" => Err(BadWord::MissingArgument(name, word)),
        _ => Err(BadWord::BadArgument(name, word)),
    }
}

/// The format that a file's name tells by its ending, in letters of either case.
fn format_named(path: &str) -> Option<Format> {
    let (_, ending) = path.rsplit_once(".")?;
    let is = |kind: &str| ending.eq_ignore_ascii_case(kind);
    if is("dts") {
        return Some(Format::Dts);
    }
    if is("dtb") || is("dtbo") {
        return Some(Format::Dtb);
    }
    None
}

/// What an output is: what its name says, else the other kind than the input. dtc's YAML is refused by name.
pub fn output_named(path: &str, from: Format) -> Result<Output, BadWord<'_>> {
    let ending = path.rsplit_once(".").map_or("", |parts| parts.1);
    if ending.eq_ignore_ascii_case("yaml") {
        return Err(BadWord::MissingArgument("-o", path));
    }
    let other = match from {
        Format::Dts => Format::Dtb,
        Format::Dtb | Format::Folder => Format::Dts,
    };
    Ok(Output::Holds(format_named(path).unwrap_or(other)))
}

/// What an input is: a blob where its bytes begin as one, else what its name says, else a source.
pub fn format_of(path: &str, bytes: &[u8]) -> Format {
    match bytes {
        [0xd0, 0x0d, 0xfe, 0xed, ..] => Format::Dtb,
        _ => format_named(path).unwrap_or(Format::Dts),
    }
}

/// Takes the one word that asks for what is done anyway, and refuses dtc's others by name.
fn is_own<'a>(name: &'a str, word: &'a str, own: &str, others: &[&str]) -> Result<(), BadWord<'a>> {
    if word == own {
        return Ok(());
    }
    for other in others {
        if *other == word {
            return Err(BadWord::MissingArgument(name, word));
        }
    }
    Err(BadWord::BadArgument(name, word))
}

fn power_of_two<'a>(name: &'a str, word: &'a str) -> Result<u32, BadWord<'a>> {
    let number = number(name, word)?;
    if number.is_power_of_two() {
        Ok(number)
    } else {
        Err(BadWord::BadArgument(name, word))
    }
}

/// A number as C writes it: octal behind 0, hex behind 0x, else decimal.
fn number<'a>(name: &'a str, word: &'a str) -> Result<u32, BadWord<'a>> {
    let read = match word.as_bytes() {
        [b'0', b'x' | b'X', hex @ ..] => digits(16, hex),
        [b'0', octal @ ..] if !octal.is_empty() => digits(8, octal),
        decimal => digits(10, decimal),
    };
    read.ok_or(BadWord::BadArgument(name, word))
}

fn digits(base: u32, digits: &[u8]) -> Option<u32> {
    if digits.is_empty() {
        return None;
    }
    let mut number: u32 = 0;
    for c in digits {
        let digit = match *c {
            b'0'..=b'9' => *c - b'0',
            b'a'..=b'f' => *c - b'a' + 10,
            b'A'..=b'F' => *c - b'A' + 10,
            _ => return None,
        };
        if digit as u32 >= base {
            return None;
        }
        number = number.checked_mul(base)?.checked_add(digit as u32)?;
    }
    Some(number)
}
