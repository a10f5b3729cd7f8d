//! `fdtget`: values, names of properties and names of children.
ghost use Rattle.std.specs.Prelude.{◌≡◌, false};

use crate::finding::{Lookup, find};
use crate::reports::{Failure, fail, fdt_error, put, read_file};
use crate::words::{Choice, Words, read_words};
use dt_blob::{BlobError, read};
use dt_tree::{Node, Tree};
use dtman_blobs::{ShowError, ValueType, shown};
use dtman_engine::Channel;
use dtman_host::{DONE, DTC_VERSION, Host, Surroundings};
use std::alloc::{AllocError, Global};

const USAGE: &[u8] = b"Usage: print values of a device tree, each in a line
\tfdtget <options> <blob> [<node> <property>]...
\tfdtget -p <options> <blob> [<node>]...

A type is s (strings), i (int), u (unsigned) or x (hex), behind
hh or b (bytes), h (two bytes) or l (four bytes)

Options: -[t:pld:hV]
  -t, --type <arg>    the type of the values
  -p, --properties    the names of the properties of each node
  -l, --list          the names of the children of each node
  -d, --default <arg> what is printed for what isn't there
  -h, --help          this text
  -V, --version       the version\n";

const CHOICES: &[Choice] = &[
    Choice {
        letter: "t",
        long: "type",
        takes: true,
    },
    Choice {
        letter: "p",
        long: "properties",
        takes: false,
    },
    Choice {
        letter: "l",
        long: "list",
        takes: false,
    },
    Choice {
        letter: "d",
        long: "default",
        takes: true,
    },
    Choice {
        letter: "h",
        long: "help",
        takes: false,
    },
    Choice {
        letter: "V",
        long: "version",
        takes: false,
    },
];

/// What is printed of a node.
#[derive(Clone, Copy)]
enum Asked<'a> {
    Value(&'a str),
    Properties,
    Children,
}

/// How it is printed.
#[derive(Clone, Copy)]
struct Manner<'a> {
    kind: ValueType,
    default: Option<&'a str>,
}

/// Runs fdtget by the words behind its name. Answers the exit status.
pub fn run_fdtget<S: Surroundings, O: Channel, E: Eprint, T>(
    host: &mut Host<'_, S, E, T>,
    output: &mut O,
    words: &[&str],
) -> u8
    requires { O.has_failed output.old ≡ false }
{
    let mut out = Vec::new(host.alloc);
    let done = print_all(host, words, &mut out);
    if put(output, out.as_slice()).is_err() {
        return fail(host, USAGE, Failure::Unwritten("-"));
    }
    match done {
        Ok(()) => DONE,
        Err(failure) => fail(host, USAGE, failure),
    }
}

fn print_all<'a, S: Surroundings, E: Eprint, T>(
    host: &mut Host<'_, S, E, T>,
    words: &[&'a str],
    out: &mut Vec<u8>,
) -> Result<(), Failure<'a>> {
    let alloc = host.alloc;
    let words = read_words(alloc, CHOICES, words)?;
    if words.has("h") {
        return Ok(out.extend_from_slice(USAGE)?);
    }
    if words.has("V") {
        return Ok(out.extend_from_slice(DTC_VERSION)?);
    }
    let kind = kind_of(words.word("t"))?;
    let manner = Manner {
        kind,
        default: words.word("d"),
    };
    let Some((path, nodes)) = words.others.as_slice().split_first() else {
        return Err(Failure::Usage("missing filename"));
    };
    let blob = read_file(host, *path)?;
    match read(alloc, blob.as_slice()) {
        Ok(tree) => print_nodes(alloc, &tree, &words, manner, nodes, out),
        Err(error) => match error.kind {
            BlobError::NoMemory => Err(Failure::NoMemory),
            kind => Err(Failure::At(*path, fdt_error(kind))),
        },
    }
}

/// The type that a word says.
pub fn kind_of(word: Option<&str>) -> Result<ValueType, Failure<'static>> {
    match word {
        None => Ok(ValueType::unsaid()),
        Some(word) => match ValueType::of(word) {
            Some(kind) => Ok(kind),
            None => Err(Failure::Usage("invalid type string")),
        },
    }
}

fn print_nodes<'a>(
    alloc: Global,
    tree: &Tree,
    words: &Words<'a>,
    manner: Manner<'a>,
    nodes: &[&'a str],
    out: &mut Vec<u8>,
) -> Result<(), Failure<'a>> {
    match listed_of(words) {
        Some(asked) => print_lists(alloc, tree, asked, manner, nodes, out),
        None if nodes.len() % 2 == 0 => print_values(alloc, tree, manner, nodes, out),
        None => Err(Failure::Usage("must have an even number of arguments")),
    }
}

// What is listed in place of values: what the last option asks for.
fn listed_of<'a>(words: &Words<'_>) -> Option<Asked<'a>> {
    let mut listed = None;
    for chosen in &words.options {
        match chosen.letter {
            "p" => listed = Some(Asked::Properties),
            "l" => listed = Some(Asked::Children),
            _ => {}
        }
    }
    listed
}

fn print_lists<'a>(
    alloc: Global,
    tree: &Tree,
    asked: Asked<'a>,
    manner: Manner<'a>,
    nodes: &[&'a str],
    out: &mut Vec<u8>,
) -> Result<(), Failure<'a>> {
    for node in nodes {
        print_node(alloc, tree, *node, asked, manner, out)?;
    }
    Ok(())
}

fn print_values<'a>(
    alloc: Global,
    tree: &Tree,
    manner: Manner<'a>,
    nodes: &[&'a str],
    out: &mut Vec<u8>,
) -> Result<(), Failure<'a>> {
    for pair in nodes.chunks(2) {
        if let [node, property] = pair {
            print_node(alloc, tree, *node, Asked::Value(*property), manner, out)?;
        }
    }
    Ok(())
}

fn print_default<'a>(
    out: &mut Vec<u8>,
    manner: Manner<'a>,
    failure: Failure<'a>,
) -> Result<(), Failure<'a>> {
    match manner.default {
        Some(text) => Ok(add_line(out, text.as_bytes())?),
        None => Err(failure),
    }
}

fn add_line(out: &mut Vec<u8>, text: &[u8]) -> Result<(), AllocError> {
    out.extend_from_slice(text)?;
    out.extend_from_slice(b"\n")
}

fn print_node<'a>(
    alloc: Global,
    tree: &Tree,
    path: &'a str,
    asked: Asked<'a>,
    manner: Manner<'a>,
    out: &mut Vec<u8>,
) -> Result<(), Failure<'a>> {
    match find(alloc, tree, path.as_bytes())? {
        Lookup::Missing => print_default(out, manner, Failure::At(path, "FDT_ERR_NOTFOUND")),
        Lookup::BadPath => print_default(out, manner, Failure::At(path, "FDT_ERR_BADPATH")),
        Lookup::Node(found) => match asked {
            Asked::Properties => Ok(add_properties(out, found.node)?),
            Asked::Children => Ok(add_children(out, found.node)?),
            Asked::Value(name) => print_value(alloc, found.node, name, manner, out),
        },
    }
}

fn add_properties(out: &mut Vec<u8>, node: &Node) -> Result<(), AllocError> {
    for property in node.properties() {
        add_line(out, property.name.as_bytes())?;
    }
    Ok(())
}

fn add_children(out: &mut Vec<u8>, node: &Node) -> Result<(), AllocError> {
    for child in node.children() {
        add_line(out, child.name_bytes())?;
    }
    Ok(())
}

fn print_value<'a>(
    alloc: Global,
    node: &Node,
    name: &'a str,
    manner: Manner<'a>,
    out: &mut Vec<u8>,
) -> Result<(), Failure<'a>> {
    let Some(value) = node.value(name.as_bytes()) else {
        return print_default(out, manner, Failure::At(name, "FDT_ERR_NOTFOUND"));
    };
    match shown(alloc, manner.kind, value.as_slice()) {
        Ok(text) => Ok(add_line(out, text.as_slice())?),
        Err(ShowError::NoMemory) => Err(Failure::NoMemory),
        Err(ShowError::Unterminated) => Err(Failure::Said("Unterminated string")),
        Err(ShowError::Uneven) => Err(Failure::Said(
            "Property length must be a multiple of selected data size",
        )),
    }
}
