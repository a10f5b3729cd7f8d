//! `fdtput`: properties and nodes set and removed in a blob.
ghost use Rattle.std.specs.Prelude.{◌≡◌, false};

use crate::finding::{Lookup, find};
use crate::getting::kind_of;
use crate::reports::{Failure, fail, fdt_error, put, read_file};
use crate::words::{Choice, Words, read_words};
use dt_blob::{BlobError, read, write};
use dt_tree::{Bytes, Name, Path, Tree, TreeError};
use dtman_blobs::{Notation, SayError, ValueType, said};
use dtman_engine::Channel;
use dtman_host::{DONE, DTC_VERSION, Host, Surroundings, put_at};
use std::alloc::{AllocError, Global};

const USAGE: &[u8] = b"Usage: set a property of a device tree, or change its nodes
\tfdtput <options> <blob> <node> <property> [<value>...]
\tfdtput -c <options> <blob> [<node>...]
\tfdtput -r <options> <blob> [<node>...]
\tfdtput -d <options> <blob> <node> [<property>...]

All values make one. A type is s (strings), i (int), u (unsigned) or x (hex),
behind hh or b (bytes), h (two bytes) or l (four bytes)

Options: -[crdpt:vhV]
  -c, --create        makes nodes
  -r, --remove        removes nodes with all below them
  -d, --delete        removes properties
  -p, --auto-path     makes the nodes of a path that aren't there
  -t, --type <arg>    the type of the values
  -v, --verbose       tells the size of the value
  -h, --help          this text
  -V, --version       the version\n";

const CHOICES: &[Choice] = &[
    Choice {
        letter: "c",
        long: "create",
        takes: false,
    },
    Choice {
        letter: "r",
        long: "remove",
        takes: false,
    },
    Choice {
        letter: "d",
        long: "delete",
        takes: false,
    },
    Choice {
        letter: "p",
        long: "auto-path",
        takes: false,
    },
    Choice {
        letter: "t",
        long: "type",
        takes: true,
    },
    Choice {
        letter: "v",
        long: "verbose",
        takes: false,
    },
    Choice {
        letter: "h",
        long: "help",
        takes: false,
    },
    Choice {
        letter: "V",
        long: "version",
        takes: false,
    },
];

const NOT_FOUND: &str = "FDT_ERR_NOTFOUND";

const BAD_PATH: &str = "FDT_ERR_BADPATH";

const BAD_VALUE: &str = "FDT_ERR_BADVALUE";

const EXISTS: &str = "FDT_ERR_EXISTS";

const NO_SPACE: &str = "FDT_ERR_NOSPACE";

/// Runs fdtput by the words behind its name. Answers the exit status. The blob is written anew once all is done.
pub fn run_fdtput<S: Surroundings, O: Channel, E: Eprint, T>(
    host: &mut Host<'_, S, E, T>,
    output: &mut O,
    words: &[&str],
) -> u8
    requires { O.has_failed output.old ≡ false }
{
    match done(host, output, words) {
        Ok(()) => DONE,
        Err(failure) => fail(host, USAGE, failure),
    }
}

fn done<'a, S: Surroundings, O: Channel, E: Eprint, T>(
    host: &mut Host<'_, S, E, T>,
    output: &mut O,
    words: &[&'a str],
) -> Result<(), Failure<'a>>
    requires { O.has_failed output.old ≡ false }
{
    let alloc = host.alloc;
    let words = read_words(alloc, CHOICES, words)?;
    if words.has("h") {
        return put(output, USAGE);
    }
    if words.has("V") {
        return put(output, DTC_VERSION);
    }
    let Some((path, others)) = words.others.as_slice().split_first() else {
        return Err(Failure::Usage("missing filename"));
    };
    let blob = read_file(host, *path)?;
    let mut tree = match read(alloc, blob.as_slice()) {
        Ok(tree) => tree,
        Err(error) => return Err(refused(*path, error.kind)),
    };
    change(host, &mut tree, &words, others)?;
    save(host, output, *path, &tree)
}

fn refused(path: &str, error: BlobError) -> Failure<'_> {
    match error {
        BlobError::NoMemory => Failure::NoMemory,
        error => Failure::At(path, fdt_error(error)),
    }
}

fn save<'a, S: Surroundings, O: Channel, E: Eprint, T>(
    host: &mut Host<'_, S, E, T>,
    output: &mut O,
    path: &'a str,
    tree: &Tree,
) -> Result<(), Failure<'a>>
    requires { O.has_failed output.old ≡ false }
{
    let Ok(hasher) = host.seed() else {
        return Err(Failure::Said("no random seed"));
    };
    let bytes = match write(host.alloc, hasher, tree) {
        Ok(bytes) => bytes,
        Err(error) => return Err(refused(path, error)),
    };
    match put_at(host.surroundings, output, path, bytes.as_slice()) {
        Ok(()) => Ok(()),
        Err(_) => Err(Failure::Unwritten(path)),
    }
}

fn change<'a, S: Surroundings, E: Eprint, T>(
    host: &mut Host<'_, S, E, T>,
    tree: &mut Tree,
    words: &Words<'a>,
    others: &[&'a str],
) -> Result<(), Failure<'a>> {
    let alloc = host.alloc;
    let auto = words.has("p");
    if words.has("c") {
        return create_all(alloc, tree, others, auto);
    }
    if words.has("r") {
        return remove_all(alloc, tree, others);
    }
    let Some((node, others)) = others.split_first() else {
        return Err(Failure::Usage("missing node"));
    };
    if words.has("d") {
        return delete_all(alloc, tree, *node, others);
    }
    let Some((property, values)) = others.split_first() else {
        return Err(Failure::Usage("missing property"));
    };
    if auto {
        create_path(alloc, tree, *node)?;
    }
    let kind = kind_of(words.word("t"))?;
    let value = value_of(alloc, kind, values)?;
    if words.has("v") {
        tell_size(host, value.len())?;
    }
    set(alloc, tree, *node, *property, value)
}

// The value that words say.
fn value_of<'a>(
    alloc: Global,
    kind: ValueType,
    values: &[&'a str],
) -> Result<Vec<u8>, Failure<'a>> {
    if kind.notation != Some(Notation::Signed) {
        return plain_value(alloc, kind, values);
    }
    let decimal = all_in_decimal(alloc, values)?;
    let mut words = Vec::with_capacity(alloc, decimal.len())?;
    for word in &decimal {
        words.push(word.as_str()).map_err(AllocError::from)?;
    }
    said_as(alloc, kind, words.as_slice(), values)
}

// The value that words say as they stand.
fn plain_value<'a>(
    alloc: Global,
    kind: ValueType,
    values: &[&'a str],
) -> Result<Vec<u8>, Failure<'a>> {
    match said(alloc, kind, values) {
        Ok(value) => Ok(value),
        Err(SayError::NoMemory) => Err(Failure::NoMemory),
        Err(SayError::NoNumber(word)) => Err(Failure::NoNumber(word)),
    }
}

// The value of words that stand for others, of which one that is no number is told.
fn said_as<'a>(
    alloc: Global,
    kind: ValueType,
    words: &[&str],
    values: &[&'a str],
) -> Result<Vec<u8>, Failure<'a>> {
    let word = match said(alloc, kind, words) {
        Ok(value) => return Ok(value),
        Err(SayError::NoMemory) => return Err(Failure::NoMemory),
        Err(SayError::NoNumber(word)) => word,
    };
    let place = words.iter().position(|other| *other == word);
    match place {
        Some(place) => Err(Failure::NoNumber(values.get(place).copied().unwrap_or(""))),
        None => Err(Failure::NoNumber("")),
    }
}

fn all_in_decimal(alloc: Global, words: &[&str]) -> Result<Vec<String>, AllocError> {
    let mut decimal = Vec::with_capacity(alloc, words.len())?;
    for word in words {
        decimal.push(in_decimal(alloc, *word)?)?;
    }
    Ok(decimal)
}

// A number as `-t i` reads it, octal behind a leading 0 as C's `%i` does, in decimal.
fn in_decimal(alloc: Global, word: &str) -> Result<String, AllocError> {
    let (sign, number) = match word.strip_prefix("-") {
        Some(number) => ("-", number),
        None => ("", word),
    };
    match number.strip_prefix("0") {
        Some(digits) if !digits.is_empty() && !digits.starts_with("x") => {
            match u32::from_str_radix(digits, 8) {
                Ok(number) if !digits.starts_with("+") => format!(in alloc; "{sign}{number}"),
                // what is no octal number is none at all
                _ => format!(in alloc; "{word}?"),
            }
        }
        _ => String::from_str(alloc, word),
    }
}

fn tell_size<S: Surroundings, E: Eprint, T>(
    host: &mut Host<'_, S, E, T>,
    size: usize,
) -> Result<(), Failure<'static>> {
    let line = format!(in host.alloc; "Value size {size}\n")?;
    host.tell(line.as_bytes());
    Ok(())
}

// The path of the node that a word names.
fn path_of<'a>(alloc: Global, tree: &Tree, word: &'a str) -> Result<Path, Failure<'a>> {
    match find(alloc, tree, word.as_bytes())? {
        Lookup::Missing => Err(Failure::At(word, NOT_FOUND)),
        Lookup::BadPath => Err(Failure::At(word, BAD_PATH)),
        Lookup::Node(found) => parsed(alloc, or_root(found.path.as_slice()), word),
    }
}

// The path of names behind slashes, which are none for the root.
fn or_root(names: &[u8]) -> &[u8] {
    if names.is_empty() { b"/" } else { names }
}

fn parsed<'a>(alloc: Global, path: &[u8], word: &'a str) -> Result<Path, Failure<'a>> {
    match Path::parse(alloc, path) {
        Ok(path) => Ok(path),
        Err(TreeError::NoMemory) => Err(Failure::NoMemory),
        Err(_) => Err(Failure::At(word, BAD_PATH)),
    }
}

fn name_of<'a>(alloc: Global, name: &[u8], word: &'a str) -> Result<Name, Failure<'a>> {
    match Name::new(alloc, name) {
        Ok(name) => Ok(name),
        Err(TreeError::NoMemory) => Err(Failure::NoMemory),
        Err(_) => Err(Failure::At(word, BAD_VALUE)),
    }
}

fn unchanged(word: &str, error: TreeError) -> Failure<'_> {
    match error {
        TreeError::NoMemory => Failure::NoMemory,
        TreeError::DuplicateNode => Failure::At(word, EXISTS),
        TreeError::TooDeep => Failure::At(word, NO_SPACE),
        _ => Failure::At(word, NOT_FOUND),
    }
}

fn set<'a>(
    alloc: Global,
    tree: &mut Tree,
    node: &'a str,
    property: &'a str,
    value: Vec<u8>,
) -> Result<(), Failure<'a>> {
    let path = path_of(alloc, tree, node)?;
    let name = name_of(alloc, property.as_bytes(), property)?;
    match tree.set_property(&path, name, Bytes::from_vec(value)) {
        Ok(()) => Ok(()),
        Err(error) => Err(unchanged(node, error)),
    }
}

// The path above a node, and its name.
fn split_last(word: &str) -> Option<(&str, &str)> {
    let (above, name) = word.rsplit_once("/")?;
    Some((if above.is_empty() { "/" } else { above }, name))
}

fn create<'a>(alloc: Global, tree: &mut Tree, word: &'a str) -> Result<(), Failure<'a>> {
    let Some((above, name)) = split_last(word) else {
        return Err(Failure::At(word, BAD_PATH));
    };
    let path = path_of(alloc, tree, above)?;
    let own = name_of(alloc, name.as_bytes(), name)?;
    match tree.add_child(alloc, &path, own) {
        Ok(()) => Ok(()),
        Err(error) => Err(unchanged(name, error)),
    }
}

// A child of a node, made where it isn't there.
fn create_below<'a>(
    alloc: Global,
    tree: &mut Tree,
    above: &[u8],
    name: &[u8],
    word: &'a str,
) -> Result<(), Failure<'a>> {
    let path = parsed(alloc, or_root(above), word)?;
    let own = name_of(alloc, name, word)?;
    match tree.add_child(alloc, &path, own) {
        Ok(()) => Ok(()),
        Err(error) => Err(unchanged(word, error)),
    }
}

// The nodes of a path, those made that aren't there.
fn create_path<'a>(alloc: Global, tree: &mut Tree, word: &'a str) -> Result<(), Failure<'a>> {
    let mut above = Vec::new(alloc);
    for name in word.as_bytes().split(|byte| *byte == b'/') {
        if name.is_empty() {
            continue;
        }
        above = step_down(alloc, tree, above, name, word)?;
    }
    Ok(())
}

// The path of a child, which is made where it isn't there.
fn step_down<'a>(
    alloc: Global,
    tree: &mut Tree,
    above: Vec<u8>,
    name: &[u8],
    word: &'a str,
) -> Result<Vec<u8>, Failure<'a>> {
    let mut below = Vec::from_slice(alloc, above.as_slice())?;
    below.push(b'/').map_err(|_| Failure::NoMemory)?;
    below.extend_from_slice(name)?;
    match find(alloc, tree, below.as_slice())? {
        Lookup::Node(found) => Ok(found.path),
        _ => {
            create_below(alloc, tree, above.as_slice(), name, word)?;
            Ok(below)
        }
    }
}

fn create_all<'a>(
    alloc: Global,
    tree: &mut Tree,
    nodes: &[&'a str],
    auto: bool,
) -> Result<(), Failure<'a>> {
    for node in nodes {
        if auto {
            create_path(alloc, tree, *node)?;
        } else {
            create(alloc, tree, *node)?;
        }
    }
    Ok(())
}

fn remove<'a>(alloc: Global, tree: &mut Tree, word: &'a str) -> Result<(), Failure<'a>> {
    let path = path_of(alloc, tree, word)?;
    let bytes = path.as_bytes();
    let Some(place) = bytes.iter().rposition(|byte| *byte == b'/') else {
        return Err(Failure::At(word, BAD_PATH));
    };
    let (above, name) = bytes.split_at(place);
    let name = name.strip_prefix(b"/".as_slice()).unwrap_or(name);
    if name.is_empty() {
        return Err(Failure::At(word, BAD_PATH));
    }
    let above = parsed(alloc, or_root(above), word)?;
    let name = name_of(alloc, name, word)?;
    match tree.remove_child(&above, &name) {
        Ok(_) => Ok(()),
        Err(error) => Err(unchanged(word, error)),
    }
}

fn remove_all<'a>(alloc: Global, tree: &mut Tree, nodes: &[&'a str]) -> Result<(), Failure<'a>> {
    for node in nodes {
        remove(alloc, tree, *node)?;
    }
    Ok(())
}

fn delete<'a>(
    alloc: Global,
    tree: &mut Tree,
    path: &Path,
    node: &'a str,
    property: &'a str,
) -> Result<(), Failure<'a>> {
    let name = name_of(alloc, property.as_bytes(), property)?;
    match tree.remove_property(path, &name) {
        Ok(true) => Ok(()),
        Ok(false) => Err(Failure::At(node, NOT_FOUND)),
        Err(error) => Err(unchanged(node, error)),
    }
}

fn delete_all<'a>(
    alloc: Global,
    tree: &mut Tree,
    node: &'a str,
    properties: &[&'a str],
) -> Result<(), Failure<'a>> {
    let path = path_of(alloc, tree, node)?;
    for property in properties {
        delete(alloc, tree, &path, node, *property)?;
    }
    Ok(())
}
