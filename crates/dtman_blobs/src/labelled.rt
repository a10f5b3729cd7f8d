//! A tree as a source with its labels: before their nodes, and where phandles and aliases name these.
//!
//! dtc's manual (Documentation/dt-object-internal.txt, section 1) says what `__symbols__` has.

use crate::difference::{Naming, Part, Seen};
use crate::source_lines::{add_canonical, add_hex, add_path, add_tabs, has_cells, head_of};
use dt_blob::{BlobError, read};
use dt_tree::{Node, Property, Tree};
use std::alloc::{AllocError, Global};
use std::collections::BTreeMap;
use std::hash::RandomState;

/// The labels of the nodes at paths.
pub type Labels<'t> = BTreeMap<&'t [u8], Vec<&'t [u8]>>;

fn add_label<'t>(
    alloc: Global,
    labels: &mut Labels<'t>,
    property: &'t Property,
) -> Result<(), AllocError> {
    let value = property.value.as_slice();
    let path = value.strip_suffix(b"\0").unwrap_or(value);
    let label = property.name.as_bytes();
    if let Some(known) = labels.get_mut(path) {
        return Ok(known.push(label)?);
    }
    let mut first = Vec::new(alloc);
    first.push(label)?;
    labels.insert(path, first)?;
    Ok(())
}

/// The labels that a tree's `__symbols__` gives to paths.
pub fn labels_of<'t>(alloc: Global, tree: &'t Tree) -> Result<Labels<'t>, AllocError> {
    let mut labels = BTreeMap::new(alloc);
    for child in tree.root().children() {
        if child.name_bytes() == b"__symbols__".as_slice() {
            for property in child.properties() {
                add_label(alloc, &mut labels, property)?;
            }
        }
    }
    Ok(labels)
}

/// The text so far.
#[derive(Drop)]
struct Printing<'n, 't, 'l> {
    alloc: Global,
    text: Vec<u8>,
    naming: &'n Naming<'t>,
    labels: &'l Labels<'t>,
}

impl Printing<'_, '_, '_> {
    fn put(&mut self, bytes: &[u8]) -> Result<(), AllocError> {
        self.text.extend_from_slice(bytes)
    }

    // The node at a path by its first label, or else by the path.
    fn put_reference(&mut self, path: &[u8]) -> Result<(), AllocError> {
        match self.labels.get(path) {
            Some(labels) if !labels.is_empty() => {
                let label = labels[0];
                self.put(b"&")?;
                self.put(label)
            }
            _ => add_path(&mut self.text, path),
        }
    }

    fn put_cells(&mut self, property: &Property) -> Result<(), AllocError> {
        let name = property.name.as_bytes();
        let mut seen = Seen::of(self.naming, name, property.value.as_slice());
        self.put(name)?;
        let mut between = b" = <".as_slice();
        while let Some(part) = seen.next_part() {
            self.put(between)?;
            match part {
                Part::Number(bytes) => add_hex(self.alloc, &mut self.text, bytes)?,
                Part::Node(path) => self.put_reference(path)?,
            }
            between = b" ";
        }
        self.put(b">;\n")
    }

    // An alias by the label of the node that it names, where that has one.
    fn put_alias(&mut self, property: &Property) -> Result<(), BlobError> {
        let value = property.value.as_slice();
        let path = value.strip_suffix(b"\0").unwrap_or(b"");
        match self.labels.get(path) {
            // a root has no label in a source
            Some(labels) if !labels.is_empty() && path != b"/".as_slice() => {
                let label = labels[0];
                self.put(property.name.as_bytes())?;
                self.put(b" = &")?;
                self.put(label)?;
                self.put(b";\n")?;
                Ok(())
            }
            _ => add_canonical(self.alloc, &mut self.text, property),
        }
    }

    fn put_property(&mut self, path: &[u8], property: &Property) -> Result<(), BlobError> {
        if path == b"/aliases".as_slice() {
            return self.put_alias(property);
        }
        if has_cells(property) {
            self.put_cells(property)?;
            return Ok(());
        }
        add_canonical(self.alloc, &mut self.text, property)
    }

    fn put_labels(&mut self, path: &[u8]) -> Result<(), AllocError> {
        let Some(labels) = self.labels.get(path) else {
            return Ok(());
        };
        for label in labels {
            self.put(*label)?;
            self.put(b": ")?;
        }
        Ok(())
    }

    // A node at a path, of which the root's is empty.
    fn put_node(
        &mut self,
        path: &[u8],
        name: &[u8],
        node: &Node,
        depth: usize,
    ) -> Result<(), BlobError> {
        add_tabs(&mut self.text, depth)?;
        self.put_labels(path)?;
        self.put(name)?;
        self.put(b" {\n")?;
        for property in node.properties() {
            add_tabs(&mut self.text, depth.saturating_add(1))?;
            self.put_property(path, property)?;
        }
        for child in node.children() {
            let mut below = Vec::from_slice(self.alloc, path)?;
            below.push(b'/').map_err(AllocError::from)?;
            below.extend_from_slice(child.name_bytes())?;
            self.put(b"\n")?;
            self.put_node(
                below.as_slice(),
                child.name_bytes(),
                child,
                depth.saturating_add(1),
            )?;
        }
        add_tabs(&mut self.text, depth)?;
        self.put(b"};\n")?;
        Ok(())
    }
}

/// The source of the tree that a blob holds, with the labels that its `__symbols__` has. No more is said of it than that: that it means
/// this tree is for its caller to see.
pub fn labelled_text(
    alloc: Global,
    hasher: RandomState,
    blob: &[u8],
) -> Result<Vec<u8>, BlobError> {
    let tree = read(alloc, blob)?;
    let naming = Naming::of(alloc, hasher, &tree)?;
    let labels = labels_of(alloc, &tree)?;
    let mut printing = Printing {
        alloc,
        text: head_of(alloc, tree.reserves())?,
        naming: &naming,
        labels: &labels,
    };
    printing.put_node(b"", b"/", tree.root(), 0)?;
    let Printing { text, .. } = printing;
    Ok(text)
}
