//! A tree as dtc prints a source (`-O dts`): with the labels of its nodes and properties, and its values as they were written.
//!
//! dtc's manual (Documentation/manual.txt, section '4.1 Overview') says what stands in a source.

use crate::layout::{Form, Layout, Texts, form_of};
use crate::marked_value::put_marked;
use crate::markers::{Mark, Marker, Written, markers_of};
use dt_blob::{BlobError, read};
use dt_live::making::Places;
use dt_source::MAX_SOURCE_LEN;
use dt_text::lexeme::{Kind, Language, Lexeme, scan_front};
use dt_tree::{Node, Property, Tree};
use dtman_blobs::{Labels, labels_of};
use std::alloc::{AllocError, Global};
use std::collections::BTreeMap;

/// What is known of a source.
#[derive(Drop)]
struct Sketch<'t> {
    text: &'t [u8],
    lexemes: &'t [Lexeme],
    places: &'t Places,
    /// The nodes of its tree, each before those below it, and their numbers by their paths.
    nodes: Vec<&'t Node>,
    numbers: BTreeMap<&'t [u8], usize>,
    /// The paths of the nodes that are printed, each before those below it.
    paths: &'t [Vec<u8>],
}

/// What a source's tree has in a node: the node's number, and its properties by their names.
#[derive(Drop)]
struct Known<'t> {
    node: usize,
    properties: BTreeMap<&'t [u8], usize>,
}

fn add_paths(
    alloc: Global,
    paths: &mut Vec<Vec<u8>>,
    above: &[u8],
    node: &Node,
) -> Result<(), AllocError> {
    for child in node.children() {
        let name = child.name_bytes();
        let mut path = Vec::from_slice(alloc, above)?;
        path.push(b'/')?;
        path.extend_from_slice(name)?;
        let here = Vec::from_slice(alloc, path.as_slice())?;
        paths.push(here)?;
        add_paths(alloc, paths, path.as_slice(), child)?;
    }
    Ok(())
}

fn paths_of(alloc: Global, root: &Node) -> Result<Vec<Vec<u8>>, AllocError> {
    let mut paths = Vec::new(alloc);
    paths.push(Vec::from_slice(alloc, b"/")?)?;
    add_paths(alloc, &mut paths, b"", root)?;
    Ok(paths)
}

fn add_nodes<'t>(nodes: &mut Vec<&'t Node>, node: &'t Node) -> Result<(), AllocError> {
    nodes.push(node)?;
    for child in node.children() {
        add_nodes(nodes, child)?;
    }
    Ok(())
}

// The nodes' numbers by their paths.
fn numbers_of<'t>(
    alloc: Global,
    paths: &'t [Vec<u8>],
) -> Result<BTreeMap<&'t [u8], usize>, AllocError> {
    let mut numbers = BTreeMap::new(alloc);
    for (number, path) in paths.iter().enumerate() {
        numbers.insert(path.as_slice(), number)?;
    }
    Ok(numbers)
}

fn labels_in<'t>(alloc: Global, tree: Option<&'t Tree>) -> Result<Labels<'t>, AllocError> {
    match tree {
        Some(tree) => labels_of(alloc, tree),
        None => Ok(BTreeMap::new(alloc)),
    }
}

// How a value looks that nothing is known of.
fn written_as(value: &[u8]) -> Written {
    match form_of(value) {
        Form::Texts => Written::Text,
        Form::Cells => Written::Cells,
        Form::Bytes => Written::Bytes,
    }
}

// A value of which the source says nothing, as dtc keeps what it makes itself.
fn unsaid<'t>(
    alloc: Global,
    path: &[u8],
    property: &Property,
) -> Result<Vec<Marker<'t>>, AllocError> {
    let value = property.value.as_slice();
    let written = match written_as(value) {
        // a number that the compiler gave
        Written::Text if property.name.as_bytes() == b"phandle".as_slice() => Written::Cells,
        written => written,
    };
    let mut markers = Vec::new(alloc);
    for at in 0..value.len() {
        if at == 0 || begins_at(path, written, value, at) {
            let mark = Mark::Part(written);
            markers.push(Marker { at, mark })?;
        }
    }
    Ok(markers)
}

// Whether a part begins inside of a value: texts stand each for itself, and so do the places of references in a plugin.
fn begins_at(path: &[u8], written: Written, value: &[u8], at: usize) -> bool {
    match written {
        Written::Text => at > 0 && value.get(at - 1) == Some(&0),
        Written::Cells => path.starts_with(b"/__local_fixups__/") && at % 4 == 0,
        _ => false,
    }
}

// A value without a part that tells how it is written is taken as one of a blob.
fn with_part<'t>(
    alloc: Global,
    markers: Vec<Marker<'t>>,
    value: &[u8],
) -> Result<Vec<Marker<'t>>, AllocError> {
    if markers.iter().any(|marker| marker.mark.is_part()) {
        return Ok(markers);
    }
    let written = written_as(value);
    let mut all = Vec::with_capacity(alloc, markers.len())?;
    all.push(Marker {
        at: 0,
        mark: Mark::Part(written),
    })?;
    all.extend_from_slice(markers.as_slice())?;
    Ok(all)
}

impl<'t> Sketch<'t> {
    fn path(&self, node: usize) -> &'t [u8] {
        match self.paths.get(node) {
            Some(path) => path.as_slice(),
            None => b"",
        }
    }

    // The lexemes from the one behind this on.
    fn behind(&self, lexeme: usize) -> &'t [Lexeme] {
        let lexemes = self.lexemes;
        lexemes.get(lexeme.saturating_add(1)..).unwrap_or(&[])
    }

    // What the source's tree has at a path.
    fn known(&self, alloc: Global, path: &'t [u8]) -> Result<Option<Known<'t>>, AllocError> {
        let Some(number) = self.numbers.get(&path).copied() else {
            return Ok(None);
        };
        let Some(node) = self.nodes.get(number).copied() else {
            return Ok(None);
        };
        let mut properties = BTreeMap::new(alloc);
        for (i, property) in node.properties().iter().enumerate() {
            properties.insert(property.name.as_bytes(), i)?;
        }
        Ok(Some(Known {
            node: number,
            properties,
        }))
    }

    // The name of a property where it is defined last.
    fn definition(&self, known: Option<&Known<'t>>, name: &[u8]) -> Option<usize> {
        let known = known?;
        let property = known.properties.get(name)?;
        let offset = self.places.property(known.node, *property)?;
        Some(self.lexemes.partition_point(|lexeme| lexeme.end <= offset))
    }

    fn markers(
        &self,
        alloc: Global,
        path: &'t [u8],
        name: Option<usize>,
        property: &Property,
    ) -> Result<Vec<Marker<'t>>, AllocError> {
        let value = property.value.as_slice();
        let Some(name) = name else {
            return unsaid(alloc, path, property);
        };
        match markers_of(alloc, self.text, self.behind(name), value)? {
            Some(markers) => with_part(alloc, markers, value),
            None => unsaid(alloc, path, property),
        }
    }

    // Puts the labels that stand before a lexeme.
    fn put_labels_before(&self, layout: &mut Layout, lexeme: usize) -> Result<(), AllocError> {
        let front = self.lexemes.get(..lexeme).unwrap_or(&[]);
        let labels = front
            .iter()
            .rev()
            .take_while(|lexeme| lexeme.kind == Kind::Label)
            .count();
        for label in front
            .get(front.len().saturating_sub(labels)..)
            .unwrap_or(&[])
        {
            let words = self.text.get(label.start as usize..label.end as usize);
            layout.put(words.unwrap_or(b""))?;
            layout.put(b" ")?;
        }
        Ok(())
    }

    fn put_property(
        &self,
        alloc: Global,
        layout: &mut Layout,
        path: &'t [u8],
        known: Option<&Known<'t>>,
        property: &Property,
    ) -> Result<(), AllocError> {
        let name = property.name.as_bytes();
        let definition = self.definition(known, name);
        if let Some(lexeme) = definition {
            self.put_labels_before(layout, lexeme)?;
        }
        layout.put(name)?;
        let value = property.value.as_slice();
        if !value.is_empty() {
            let markers = self.markers(alloc, path, definition, property)?;
            layout.put(b" =")?;
            put_marked(alloc, layout, value, markers.as_slice())?;
        }
        layout.put(b";\n")
    }
}

/// The text so far, and the place in the list of nodes.
#[derive(Drop)]
struct Printing<'s, 't, 'b, 'l> {
    alloc: Global,
    layout: Layout,
    sketch: &'s Sketch<'t>,
    labels: &'b Labels<'l>,
    next: usize,
}

impl<'t> Printing<'_, 't, '_, '_> {
    fn put_labels(&mut self, path: &[u8]) -> Result<(), AllocError> {
        let Some(labels) = self.labels.get(path) else {
            return Ok(());
        };
        for label in labels.iter() {
            self.layout.put(*label)?;
            self.layout.put(b": ")?;
        }
        Ok(())
    }

    fn put_properties(
        &mut self,
        path: &'t [u8],
        node: &Node,
        depth: usize,
    ) -> Result<(), AllocError> {
        let known = self.sketch.known(self.alloc, path)?;
        for property in node.properties() {
            self.layout.indent(depth)?;
            self.sketch.put_property(self.alloc, &mut self.layout, path, known.as_ref(), property)?;
        }
        Ok(())
    }

    // The next node of the list, with all below it.
    fn put_node(&mut self, name: &[u8], node: &Node, depth: usize) -> Result<(), AllocError> {
        let path = self.sketch.path(self.next);
        self.next = self.next.saturating_add(1);
        self.layout.indent(depth)?;
        self.put_labels(path)?;
        self.layout.put(name)?;
        self.layout.put(b" {\n")?;
        self.put_properties(path, node, depth.saturating_add(1))?;
        for child in node.children() {
            self.layout.put(b"\n")?;
            self.put_node(child.name_bytes(), child, depth.saturating_add(1))?;
        }
        self.layout.indent(depth)?;
        self.layout.put(b"};\n")
    }
}

fn sketched(
    alloc: Global,
    tree: &Tree,
    sketch: &Sketch<'_>,
    labels: &Labels<'_>,
) -> Result<Vec<u8>, AllocError> {
    let mut layout = Layout::new(alloc, Texts::Joined);
    layout.put_head(tree)?;
    let mut printing = Printing {
        alloc,
        layout,
        sketch,
        labels,
        next: 0,
    };
    printing.put_node(b"/", tree.root(), 0)?;
    let Printing { layout, .. } = printing;
    Ok(layout.into_text())
}

fn lexemes_of(alloc: Global, text: &[u8]) -> Result<Vec<Lexeme>, AllocError> {
    if text.len() > MAX_SOURCE_LEN {
        return Ok(Vec::new(alloc));
    }
    let (lexemes, _) = scan_front(alloc, text, Language::Dtc)?;
    Ok(lexemes)
}

// None where there is no such blob.
fn tree_of(alloc: Global, blob: &[u8]) -> Result<Option<Tree>, BlobError> {
    match read(alloc, blob) {
        Ok(tree) => Ok(Some(tree)),
        Err(error) => match error.kind {
            BlobError::NoMemory => Err(BlobError::NoMemory),
            _ => Ok(None),
        },
    }
}

// What is known of a source: the paths are those of its own tree, and of the one that is printed.
fn sketch_of<'t>(
    alloc: Global,
    text: &'t [u8],
    lexemes: &'t [Lexeme],
    places: &'t Places,
    root: &'t Node,
    known: &'t [Vec<u8>],
    paths: &'t [Vec<u8>],
) -> Result<Sketch<'t>, AllocError> {
    let mut nodes = Vec::new(alloc);
    add_nodes(&mut nodes, root)?;
    Ok(Sketch {
        text,
        lexemes,
        places,
        nodes,
        numbers: numbers_of(alloc, known)?,
        paths,
    })
}

/// A source that was compiled: its text, its tree, and where that stands in the text.
#[derive(Clone, Copy)]
pub struct Compiled<'s> {
    pub text: &'s [u8],
    pub tree: &'s Tree,
    pub places: &'s Places,
}

/// The text of the tree that a blob holds, as dtc prints the source that it was made of. The labelled blob has the paths of all labelled
/// nodes.
pub fn source_text(
    alloc: Global,
    blob: &[u8],
    source: Compiled<'_>,
    labelled: &[u8],
) -> Result<Vec<u8>, BlobError> {
    let tree = read(alloc, blob)?;
    let labelled = tree_of(alloc, labelled)?;
    let lexemes = lexemes_of(alloc, source.text)?;
    let root = source.tree.root();
    let known = paths_of(alloc, root)?;
    let paths = paths_of(alloc, tree.root())?;
    let sketch = sketch_of(
        alloc,
        source.text,
        lexemes.as_slice(),
        source.places,
        root,
        known.as_slice(),
        paths.as_slice(),
    )?;
    let labels = labels_in(alloc, labelled.as_ref())?;
    Ok(sketched(alloc, &tree, &sketch, &labels)?)
}
