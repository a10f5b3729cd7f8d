//! What a text has.

use crate::lexing::token::Span;
use std::alloc::Global;

/// How a node is written.
#[derive(Clone, Copy, PartialEq, Eq, Debug)]
pub enum NodeKind {
    /// `/ { }`
    Root,
    /// `name { }`
    Child,
    /// `&label { }` or `&{/path} { }`
    Extension,
}

/// A body of a node.
#[derive(Clone, Copy, Debug)]
pub struct Node {
    pub kind: NodeKind,
    /// The name, `/` or the reference as it is written; empty where that is missing.
    pub name: Span,
    /// All of it, with its labels, up to its `}` and the `;` behind that, or to the text's end.
    pub whole: Span,
    /// The node around it, by its number.
    pub parent: Option<usize>,
}

/// A label where it is defined, without its colon.
#[derive(Clone, Copy, Debug)]
pub struct Label {
    pub name: Span,
    /// The node that it names, by its number; none where it stands in a value or before a property.
    pub node: Option<usize>,
}

/// A label where it is referred to, without `&`.
#[derive(Clone, Copy, Debug)]
pub struct Reference {
    pub name: Span,
}

/// The name of a property that a node gives a value.
#[derive(Clone, Copy, Debug)]
pub struct Property {
    pub name: Span,
}

/// A macro that the text defines.
#[derive(Clone, Copy, Debug)]
pub struct Macro {
    pub name: Span,
    /// From its name to the end of its body.
    pub whole: Span,
}

/// A file that the text takes in.
#[derive(Clone, Copy, Debug)]
pub struct Header {
    /// Its name, without quotes.
    pub name: Span,
    /// Whether it is sought beside the text first, as `"F"` is.
    pub is_beside: bool,
}

/// Why bytes can be folded.
#[derive(Clone, Copy, PartialEq, Eq, Debug)]
pub enum FoldKind {
    Node,
    Comment,
    /// `#if` to `#endif`, or a part of that
    Group,
}

/// Bytes that an editor can fold.
#[derive(Clone, Copy, Debug)]
pub struct Fold {
    pub kind: FoldKind,
    pub span: Span,
}

/// What a text has, each in the order of the text; nodes stand before those within them.
#[derive(Drop)]
pub struct Outline {
    pub nodes: Vec<Node>,
    pub labels: Vec<Label>,
    pub references: Vec<Reference>,
    pub properties: Vec<Property>,
    pub macros: Vec<Macro>,
    pub headers: Vec<Header>,
    pub folds: Vec<Fold>,
    /// Whether `/dts-v1/` stands in it.
    pub is_board: bool,
}

impl Outline {
    pub(crate) fn new(alloc: Global) -> Outline {
        Outline {
            nodes: Vec::new(alloc),
            labels: Vec::new(alloc),
            references: Vec::new(alloc),
            properties: Vec::new(alloc),
            macros: Vec::new(alloc),
            headers: Vec::new(alloc),
            folds: Vec::new(alloc),
            is_board: false,
        }
    }

    /// The innermost node that has a place.
    pub fn node_at(&self, place: usize) -> Option<usize> {
        self.nodes
            .as_slice()
            .iter()
            .rposition(|node| node.whole.touches(place))
    }
}
