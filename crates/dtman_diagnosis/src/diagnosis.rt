//! A diagnosis as data.

use std::alloc::{AllocError, Global};

/// Where a fault is.
#[derive(Drop)]
pub enum Location {
    Nowhere,
    /// A file as a whole.
    File {
        file: Vec<u8>,
    },
    /// Bytes of a text: the file and line that they came from, the line's text, and how many bytes of it are meant from
    /// the column on.
    Text {
        file: Vec<u8>,
        line: usize,
        column: usize,
        text: Vec<u8>,
        marked: usize,
    },
    /// A byte of a blob.
    Offset {
        file: Vec<u8>,
        offset: usize,
    },
}

/// What else there is to say.
#[derive(Drop)]
pub enum Note {
    /// The node in which it stands, and the property.
    In {
        path: Vec<u8>,
        property: Option<Vec<u8>>,
    },
    /// Names that are spelled alike, the nearest first, and what they are.
    Alike {
        what: &'static str,
        names: Vec<Vec<u8>>,
    },
    /// Where that stands which it meets.
    Earlier(Location),
    /// Where it is deleted.
    Deleted(Location),
    /// Where a bracket stands that isn't closed.
    Unclosed(Location),
    /// Where a body begins that by its indentation should end before what stands there.
    Indented {
        opened: Location,
        before: Location,
    },
    /// What is meant by a word.
    Meant(Vec<u8>),
    /// What must stand there, and the word that does.
    Wanted {
        wanted: &'static str,
        found: Option<u32>,
    },
    /// The entry of `__fixups__`.
    Fixup(Vec<u8>),
    /// The offset that an entry of `__local_fixups__` names.
    Site(usize),
    /// A node, and what it is.
    Node {
        words: &'static str,
        path: Vec<u8>,
    },
    /// A node's phandle.
    Phandle(u32),
    /// The phandle that a fragment targets.
    Target(u32),
    /// By how much phandles of the overlay are raised.
    Shift(u32),
    /// How a device stands, as a report's line.
    Stands(Vec<u8>),
    /// A device, and a supplier of it that isn't bound, as a report's line.
    Needs {
        device: Vec<u8>,
        supplier: Vec<u8>,
    },
    /// How many devices there are, and how many a plan may have.
    Count {
        devices: usize,
        most: usize,
    },
    /// An entry of a property, from 1, and its phandle.
    Entry {
        entry: usize,
        phandle: u32,
    },
    /// How many bytes a value has.
    Length(usize),
    /// The node that an entry names, and the property that counts its cells.
    Cells {
        path: Vec<u8>,
        name: &'static [u8],
        count: Option<u32>,
    },
    /// How many cells stand behind an entry's phandle.
    Left(usize),
    /// What is said in words.
    Words(&'static str),
    /// What somebody else says.
    Said(Vec<u8>),
}

/// What is meant.
#[derive(Clone, Copy, PartialEq, Eq)]
pub enum Subject {
    Nothing,
    Label,
    Path,
    Name,
    Literal,
    Escape,
    Punctuation,
    Unclosed,
    /// A string that goes on in the next line.
    LongText,
    /// A property behind a child.
    BehindChild,
    /// What is missing behind a lexeme.
    Missing,
    /// A word that is no value.
    Word,
    /// What dtc's language has, and the profile hasn't.
    DtcLanguage,
    /// A literal with a leading 0, and digits that no octal number has.
    Octal,
    /// The deletion of what the same body defines.
    Deletion,
    /// What was deleted before it was defined.
    Deleted,
    /// Words that take in a file.
    Inclusion,
    /// A node that isn't there.
    Node,
    /// A property that isn't there.
    Property,
    /// A byte or a character that can't stand in a text file of the bus.
    Character,
    End,
}

/// A refusal by its number, where it is, what it is of, and what else there is to say.
#[derive(Drop)]
pub struct Diagnosis {
    pub number: u8,
    pub location: Location,
    pub kind: Subject,
    pub subject: Vec<u8>,
    pub notes: Vec<Note>,
}

/// A copy of bytes.
pub fn copied(alloc: Global, bytes: &[u8]) -> Result<Vec<u8>, AllocError> {
    let mut copy = Vec::with_capacity(alloc, bytes.len())?;
    copy.extend_from_slice(bytes)?;
    Ok(copy)
}
