//! What a source says.
ghost use Rattle.std.specs.Prelude.{◌≡◌, ◌≤◌, map, All};
ghost use Rattle.dt_text.specs.Lexeme.Limits.{text_limit};
ghost use Rattle.dt_source.specs.TreeMeaning.Syntax.{Defines, Undefines, Child, Removes};
ghost use Rattle.dt_source.specs.Tree.{reference_at, labels_view, view, views, part_view, item_view};
ghost use Rattle.dt_source.specs.Lawful.{IsLawfulEdit};
ghost use Rattle.dt_source.specs.Counts.{how_many};
ghost use Rattle.dt_source.specs.LawfulOnce.{edits_once};

use crate::filling::fill_items;
use crate::labels::Labels;
use dt_text::lexeme::{Binary, ReadError};
use std::alloc::Global;

/// What a reference names: a label, or the path of a node.
#[derive(Drop)]
pub enum Reference<'a> {
    Label {
        /// where its `&` stands in the text, in bytes
        at: u32,
        label: &'a [u8],
    },
    Path {
        /// where its `&` stands in the text, in bytes
        at: u32,
        path: &'a [u8],
    },
}

impl Reference<'_> {
    /// Where its `&` stands in the text, in bytes.
    pub fn at(&self) -> u32
        ensures { result ≡ reference_at self.now }
    {
        match self {
            Reference::Label { at, label: _ } => *at,
            Reference::Path { at, path: _ } => *at,
        }
    }
}

/// A part of the file that an `/incbin/` names, which only dtc's language has.
#[derive(Clone, Copy)]
pub struct FilePart {
    /// where the `/incbin/` stands in the text, in bytes
    pub at: u32,
    /// the first of its bytes
    pub offset: u64,
    /// so many bytes of it as there are, or all behind the offset
    pub length: Option<u64>,
}

/// A part of a property's value.
#[derive(Drop)]
pub enum Part<'a> {
    /// these bytes, of which there is at least one
    Bytes(Vec<u8>),
    /// the target's phandle, 4 bytes
    Phandle(Reference<'a>),
    /// the target's full path, and a zero byte
    Path(Reference<'a>),
    /// a part of a file, which has no bytes until it is filled in
    File(FilePart),
}

/// A property's value.
#[derive(Drop)]
pub struct Value<'a> {
    /// where the property's name begins in the text, in bytes
    pub at: u32,
    pub parts: Vec<Part<'a>>,
}

/// One statement of a body, in the order of the text.
#[derive(Drop)]
pub enum Statement<'a> {
    Property {
        name: &'a [u8],
        value: Value<'a>,
    },
    DeleteProperty {
        /// where the name begins in the text, in bytes
        at: u32,
        name: &'a [u8],
    },
    Node {
        /// `/omit-if-no-ref/` stands before it, which only dtc's language has
        omit_if_no_ref: bool,
        /// where the name begins in the text, in bytes
        at: u32,
        labels: Labels<'a>,
        name: &'a [u8],
        body: Vec<Statement<'a>>,
    },
    DeleteNode {
        /// where the name begins in the text, in bytes
        at: u32,
        name: &'a [u8],
    },
}

/// What a source says at its top level, in the order of the text.
#[derive(Drop)]
pub enum Item<'a> {
    /// `/ { .. };`
    Root {
        /// where its slash stands in the text, in bytes
        at: u32,
        body: Vec<Statement<'a>>,
    },
    /// `label: &target { .. };`
    Extend {
        labels: Labels<'a>,
        target: Reference<'a>,
        body: Vec<Statement<'a>>,
    },
    /// `/delete-node/ &target;`
    Delete(Reference<'a>),
    /// `/omit-if-no-ref/ &target;`, which only dtc's language has
    Omit(Reference<'a>),
}

/// A devicetree source: whether it is a plugin, its reserved memory as pairs of address and size, and its items. Names
/// and paths in it are those of trees, labels are labels, and values have as few parts as can be.
#[derive(Drop)]
pub struct Source<'a> {
    pub plugin: bool,
    pub reserves: Vec<(u64, u64)>,
    pub items: Vec<Item<'a>>,
    pub ghost lawful: { All IsLawfulEdit (map item_view items.items) } by { edits_once (map item_view items.items) },
    pub ghost few: { how_many (map item_view items.items) ≤ text_limit },
}

impl<'a> Source<'a> {
    ghost use Rattle.dt_source.specs.Filled.{filled};
    ghost use Rattle.dt_source.specs.Meaning.{meaning_of};
    ghost use Rattle.dt_source.specs.Reading.Several.{Reads};

    /// The source with its parts of files filled in, by the files in the order of the text, each at the place of its `/incbin/`.
    /// Where the next file is of another place, or none is left, that `/incbin/` is refused. Of a whole file nothing is copied.
    pub fn fill(self, alloc: Global, binaries: Vec<Binary>) -> Result<Source<'a>, ReadError>
        ensures { Reads (λ s. meaning_of s) result (filled binaries.items (meaning_of self.entry)) }
    {
        let Source {
            plugin,
            reserves,
            mut items,
        } = self;
        let mut left = binaries.into_iter();
        fill_items(alloc, &mut left, &mut items)?;
        Ok(Source {
            plugin,
            reserves,
            items,
        })
    }
}

impl Source<'_> {
    ghost use Rattle.dt_source.specs.Lawful.{IsLawful};
    ghost use Rattle.dt_source.specs.Meaning.{meaning_of};

    /// Costs nothing: tells a caller's proof that what the source names is lawful, and that rows for its items,
    /// statements and labels can be numbered by 32 bits.
    pub fn check(&self)
        ensures lawful { IsLawful (meaning_of self.now) }
        ensures few { how_many (meaning_of self.now).items ≤ text_limit }
    {
        let _ = &self.items;
    }
}

/// A source before what it names is known to be lawful.
#[derive(Drop)]
pub struct Outline<'a> {
    pub plugin: bool,
    pub reserves: Vec<(u64, u64)>,
    pub items: Vec<Item<'a>>,
}

/// A name of the text, and where it begins, in bytes.
#[derive(Clone, Copy)]
pub struct PlacedName<'a> {
    pub at: u32,
    pub bytes: &'a [u8],
}

pub(crate) fn property<'a>(name: PlacedName<'a>, parts: Vec<Part<'a>>) -> Statement<'a>
    ensures { view result ≡ Defines name.entry.bytes.now (map part_view parts.entry.items) }
{
    let PlacedName { at, bytes: name } = name;
    let value = Value { at, parts };
    Statement::Property { name, value }
}

pub(crate) fn delete_property<'a>(name: PlacedName<'a>) -> Statement<'a>
    ensures { view result ≡ Undefines name.entry.bytes.now }
{
    let PlacedName { at, bytes: name } = name;
    Statement::DeleteProperty { at, name }
}

pub(crate) fn node<'a>(
    omit_if_no_ref: bool,
    labels: Labels<'a>,
    name: PlacedName<'a>,
    body: Vec<Statement<'a>>,
) -> Statement<'a>
    ensures { view result ≡ Child omit_if_no_ref (labels_view labels.entry) name.entry.bytes.now (views body.entry.items) }
{
    let PlacedName { at, bytes: name } = name;
    Statement::Node {
        at,
        omit_if_no_ref,
        labels,
        name,
        body,
    }
}

pub(crate) fn delete_node<'a>(name: PlacedName<'a>) -> Statement<'a>
    ensures { view result ≡ Removes name.entry.bytes.now }
{
    let PlacedName { at, bytes: name } = name;
    Statement::DeleteNode { at, name }
}
