//! Of which nodes the bodies of a source are: a light walk over its lexemes, which tells no fault and makes no value.

use dt_text::lexeme::{Kind, Lexeme};
use dt_text::place::named;
use dt_tree::MAX_DEPTH;
use dt_tree::written_paths::{Children, Link, Parents, at_path, path_of};
use std::alloc::{AllocError, Global};
use std::collections::BTreeMap;

const OVERLAY: &[u8] = b"__overlay__";

/// A name in a node.
#[derive(Clone, Copy, PartialEq, Eq, PartialOrd, Ord, Drop)]
pub(crate) struct Key<'t> {
    pub node: usize,
    pub name: &'t [u8],
}

/// A body that is open: its node, and its brace.
#[derive(Clone, Copy)]
pub(crate) struct Open {
    pub node: usize,
    pub brace: usize,
}

// A node, whose row stays where it is removed. Lexemes tell what made and what removed it last, and the brace of its first body.
#[derive(Clone, Copy)]
struct Row<'t> {
    parent: usize,
    name: &'t [u8],
    made: usize,
    removed: Option<usize>,
    first_body: Option<usize>,
}

impl Row<'_> {
    fn is_removed_since(&self, lexeme: usize) -> bool {
        match self.removed {
            Some(removed) => removed > lexeme,
            None => false,
        }
    }
}

/// The node with each label, by the label's lexeme.
type Bearers = BTreeMap<usize, usize>;

/// What lexemes of a source name up to some place. Node 0 is the root.
#[derive(Drop)]
pub(crate) struct Bodies<'t> {
    alloc: Global,
    text: &'t [u8],
    nodes: Vec<Row<'t>>,
    children: BTreeMap<Key<'t>, usize>,
    labels: BTreeMap<&'t [u8], Bearers>,
    /// Names of properties that give a phandle, by their nodes.
    pub phandles: BTreeMap<Key<'t>, usize>,
    /// The bodies that are open.
    pub open: Vec<Open>,
    /// The name of the property whose value goes on.
    pub property: Option<usize>,
    plugin: bool,
    fragments: &'t [Vec<u8>],
    /// So many fragments have their names.
    pub taken: usize,
}

impl<'t> Bodies<'t> {
    /// Behind these lexemes of a text. As many names of fragments are lent as it has extensions.
    pub fn behind(
        alloc: Global,
        text: &'t [u8],
        lexemes: &[Lexeme],
        fragments: &'t [Vec<u8>],
    ) -> Result<Self, AllocError> {
        let mut nodes = Vec::with_capacity(alloc, 1)?;
        nodes.push(Row {
            parent: 0,
            name: b"".as_slice(),
            made: 0,
            removed: None,
            first_body: None,
        })?;
        let mut bodies = Bodies {
            alloc,
            text,
            nodes,
            children: BTreeMap::new(alloc),
            labels: BTreeMap::new(alloc),
            phandles: BTreeMap::new(alloc),
            open: Vec::new(alloc),
            property: None,
            plugin: false,
            fragments,
            taken: 0,
        };
        for (i, lexeme) in lexemes.iter().enumerate() {
            bodies.step(lexemes, i, *lexeme)?;
        }
        Ok(bodies)
    }

    /// The node of the innermost body, or the root.
    pub fn node(&self) -> usize {
        match self.open.last() {
            Some(body) => body.node,
            None => 0,
        }
    }

    /// The path of the innermost body's node.
    pub fn path(&self) -> Result<Vec<u8>, AllocError> {
        path_of(self.alloc, self, self.node())
    }

    /// The brace of the body with which a node began first.
    pub fn first_body(&self, node: usize) -> Option<usize> {
        self.nodes.get(node)?.first_body
    }

    /// What made the child of the root that has this name.
    pub fn made_below_root(&self, name: &'t [u8]) -> Option<usize> {
        let row = self.children.get(&Key { node: 0, name })?;
        Some(self.nodes.get(*row)?.made)
    }

    /// The first other node that has a label which this lexeme gives too, by the lexeme that gives it.
    pub fn other_bearer(&self, label: &'t [u8], lexeme: usize) -> Option<usize> {
        let bearers = self.labels.get(&label)?;
        let own = bearers.get(&lexeme).copied()?;
        let other = bearers.iter().find(|bearer| *bearer.1 != own
            && self.stands_since(*bearer.1, *bearer.0))?;
        Some(*other.0)
    }

    /// The labels that nodes have, in their order.
    pub fn standing_labels(&self) -> Result<Vec<&'t [u8]>, AllocError> {
        let mut labels = Vec::new(self.alloc);
        for (label, bearers) in self.labels.iter() {
            if bearers
                .iter()
                .any(|bearer| self.stands_since(*bearer.1, *bearer.0))
            {
                labels.push(*label)?;
            }
        }
        Ok(labels)
    }

    /// Whether neither a node nor one above it was removed behind a lexeme.
    pub fn stands_since(&self, node: usize, lexeme: usize) -> bool {
        let mut below = node;
        for _ in 0..MAX_DEPTH + 2 {
            let Some(row) = self.nodes.get(below) else {
                return false;
            };
            if row.is_removed_since(lexeme) {
                return false;
            }
            if row.parent == below {
                return true;
            }
            below = row.parent;
        }
        false
    }

    // ---- the walk

    fn step(&mut self, lexemes: &[Lexeme], index: usize, lexeme: Lexeme) -> Result<(), AllocError> {
        match (lexeme.kind, kind_before(lexemes, index)) {
            (Kind::Plugin, _) => self.plugin = true,
            (Kind::Name, Some(Kind::DeleteNode)) => {
                let child = self.child(self.node(), named(self.text, lexeme));
                self.remove(child, index);
            }
            (Kind::Reference | Kind::PathReference, Some(Kind::DeleteNode)) => {
                let target = self.target(lexeme);
                self.remove(target, index);
            }
            (Kind::Name, Some(Kind::DeleteProperty)) => {
                let (node, name) = (self.node(), named(self.text, lexeme));
                self.phandles.remove(&Key { node, name });
            }
            (Kind::Equals, Some(Kind::Name)) => self.value_begins(lexemes, index)?,
            (Kind::Brace, _) => self.body_begins(lexemes, index)?,
            (Kind::EndBrace, _) => {
                self.open.pop();
                self.property = None;
            }
            (Kind::Semicolon | Kind::Name, _) => self.property = None,
            _ => {}
        }
        Ok(())
    }

    fn value_begins(&mut self, lexemes: &[Lexeme], index: usize) -> Result<(), AllocError> {
        let name = index.saturating_sub(1);
        self.property = Some(name);
        if let Some(lexeme) = lexemes.get(name) {
            let (node, name_there) = (self.node(), named(self.text, *lexeme));
            if is_phandle_name(name_there) {
                let key = Key {
                    node,
                    name: name_there,
                };
                self.phandles.insert(key, name)?;
            }
        }
        Ok(())
    }

    fn body_begins(&mut self, lexemes: &[Lexeme], brace: usize) -> Result<(), AllocError> {
        let index = brace.saturating_sub(1);
        let Some(lexeme) = lexemes.get(index).copied() else {
            return Ok(());
        };
        let node = match lexeme.kind {
            Kind::Name => self.made_child(self.node(), named(self.text, lexeme), index)?,
            Kind::Reference | Kind::PathReference => self.extended(lexemes, index, lexeme)?,
            _ => 0,
        };
        self.give_labels(lexemes, index, node)?;
        if let Some(row) = self.nodes.get_mut(node) {
            if row.first_body.is_none() {
                row.first_body = Some(brace);
            }
        }
        self.open.push(Open { node, brace })?;
        Ok(())
    }

    // The node whose body follows a reference.
    fn extended(
        &mut self,
        lexemes: &[Lexeme],
        index: usize,
        lexeme: Lexeme,
    ) -> Result<usize, AllocError> {
        let target = self.target(lexeme);
        let has_labels = first_mark(lexemes, index) < index;
        match (target, lexeme.kind) {
            (Some(node), Kind::Reference) => Ok(node),
            (Some(node), _) if !self.plugin || has_labels => Ok(node),
            _ if self.plugin && !has_labels => self.fragment(index),
            _ => self.loose(lexeme, index),
        }
    }

    fn fragment(&mut self, index: usize) -> Result<usize, AllocError> {
        let Some(name) = self.fragments.get(self.taken) else {
            return Ok(0);
        };
        self.taken = self.taken.saturating_add(1);
        let fragment = self.made_child(0, name.as_slice(), index)?;
        self.made_child(fragment, OVERLAY, index)
    }

    // A node in place of that which a reference doesn't name: without a parent, and named as it is written.
    fn loose(&mut self, lexeme: Lexeme, index: usize) -> Result<usize, AllocError> {
        let row = self.nodes.len();
        let (start, end) = (lexeme.start as usize, lexeme.end as usize);
        self.nodes.push(Row {
            parent: row,
            name: self.text.get(start..end).unwrap_or(&[]),
            made: index,
            removed: None,
            first_body: None,
        })?;
        Ok(row)
    }

    // The node that a reference names. Who lost the label is forgotten.
    fn target(&mut self, lexeme: Lexeme) -> Option<usize> {
        let name = named(self.text, lexeme);
        if lexeme.kind == Kind::PathReference {
            return at_path(self, name);
        }
        let count = self.labels.get(&name)?.len();
        for _ in 0..count {
            let (given, node) = first_of(self.labels.get(&name)?)?;
            if self.stands_since(node, given) {
                return Some(node);
            }
            self.labels.get_mut(&name)?.pop_first();
        }
        None
    }

    fn remove(&mut self, node: Option<usize>, index: usize) {
        if let Some(node) = node {
            if let Some(row) = self.nodes.get_mut(node) {
                row.removed = Some(index);
            }
        }
    }

    fn made_child(
        &mut self,
        node: usize,
        name: &'t [u8],
        index: usize,
    ) -> Result<usize, AllocError> {
        if let Some(child) = self.child(node, name) {
            return Ok(child);
        }
        let key = Key { node, name };
        if let Some(row) = self.children.get(&key).copied() {
            if let Some(child) = self.nodes.get_mut(row) {
                child.made = index;
            }
            return Ok(row);
        }
        let row = self.nodes.len();
        self.nodes.push(Row {
            parent: node,
            name,
            made: index,
            removed: None,
            first_body: None,
        })?;
        self.children.insert(key, row)?;
        Ok(row)
    }

    fn give_labels(
        &mut self,
        lexemes: &[Lexeme],
        index: usize,
        node: usize,
    ) -> Result<(), AllocError> {
        for given in first_mark(lexemes, index)..index {
            if let Some(lexeme) = lexemes.get(given).copied() {
                if lexeme.kind == Kind::Label {
                    let label = named(self.text, lexeme);
                    let bearers = self
                        .labels
                        .entry(label)?
                        .or_insert(BTreeMap::new(self.alloc));
                    bearers.insert(given, node)?;
                }
            }
        }
        Ok(())
    }
}

impl<'t> Children<'t> for Bodies<'t> {
    fn child(&self, node: usize, name: &'t [u8]) -> Option<usize> {
        let row = self.children.get(&Key { node, name }).copied()?;
        let child = self.nodes.get(row)?;
        let made = child.made;
        if child.is_removed_since(made) || made < self.nodes.get(node)?.made {
            None
        } else {
            Some(row)
        }
    }
}

impl<'t> Parents<'t> for Bodies<'t> {
    fn link(&self, node: usize) -> Option<Link<'t>> {
        let row = self.nodes.get(node)?;
        Some(Link {
            name: row.name,
            parent: row.parent,
        })
    }
}

fn first_of(bearers: &Bearers) -> Option<(usize, usize)> {
    let (given, node) = bearers.first_key_value()?;
    Some((*given, *node))
}

/// The kind of the lexeme before another.
pub(crate) fn kind_before(lexemes: &[Lexeme], index: usize) -> Option<Kind> {
    Some(lexemes.get(index.checked_sub(1)?)?.kind)
}

/// The first of the labels and marks that stand directly before a name or reference, or that itself.
pub(crate) fn first_mark(lexemes: &[Lexeme], index: usize) -> usize {
    let before = lexemes.get(..index).unwrap_or(&[]);
    match before.iter().rposition(|lexeme| !matches!(
        lexeme.kind,
        Kind::Label | Kind::OmitIfNoRef
    )) {
        Some(last) => last.saturating_add(1),
        None => 0,
    }
}

fn is_phandle_name(name: &[u8]) -> bool {
    name == b"phandle".as_slice() || name == b"linux,phandle".as_slice()
}

/// A name for each fragment that a plugin's extensions can make.
pub(crate) fn fragment_names(
    alloc: Global,
    lexemes: &[Lexeme],
) -> Result<Vec<Vec<u8>>, AllocError> {
    let mut names = Vec::new(alloc);
    let mut depth: usize = 0;
    for lexeme in lexemes {
        match lexeme.kind {
            Kind::Brace => depth = depth.saturating_add(1),
            Kind::EndBrace => depth = depth.saturating_sub(1),
            Kind::Reference | Kind::PathReference if depth == 0 => {
                let number = names.len();
                let name = format!(in alloc; "fragment@{number}")?;
                names.push(name.into_bytes())?;
            }
            _ => {}
        }
    }
    Ok(names)
}
