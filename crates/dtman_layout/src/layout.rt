//! A tree as a source in the layout that dtc prints (`-O dts`).
//!
//! The Devicetree Specification v0.4, chapter 6, says what each form means; which form dtc takes for a value was tried by hand.

use dt_blob::{BlobError, read};
use dt_tree::{Node, Property, Tree};
use dtman_check::repeats_name;
use std::alloc::{AllocError, Global};

/// How the texts of one value are told apart.
#[derive(Clone, Copy, Debug, PartialEq, Eq)]
pub enum Texts {
    /// Each is a string for itself, as sources have them.
    Apart,
    /// They are one string with `\0` between them, as dtc prints a blob's.
    Joined,
}

/// The form of a value.
#[derive(Clone, Copy, Debug, PartialEq, Eq)]
pub(crate) enum Form {
    Texts,
    Cells,
    Bytes,
}

// What may stand in a string: what prints, what has an escape of one letter, and zero bytes.
fn is_in_text(byte: u8) -> bool {
    matches!(byte, 0 | 7..=13 | b' '..=b'~')
}

// Texts end in a zero byte, and not more than every second of their bytes is one.
fn are_texts(value: &[u8]) -> bool {
    let zeros = value.iter().filter(|byte| **byte == 0).count();
    value.last() == Some(&0)
        && value.iter().all(|byte| is_in_text(*byte))
        && zeros <= value.len().saturating_sub(zeros)
}

/// The form that a value is taken for.
pub(crate) fn form_of(value: &[u8]) -> Form {
    if are_texts(value) {
        return Form::Texts;
    }
    if value.len() % 4 == 0 {
        return Form::Cells;
    }
    Form::Bytes
}

// The letter behind the backslash of a byte that isn't put as it is.
fn escape_of(byte: u8) -> Option<u8> {
    match byte {
        7 => Some(b'a'),
        8 => Some(b'b'),
        9 => Some(b't'),
        10 => Some(b'n'),
        11 => Some(b'v'),
        12 => Some(b'f'),
        13 => Some(b'r'),
        b'\\' | b'"' => Some(byte),
        _ => None,
    }
}

/// The text so far.
#[derive(Drop)]
pub(crate) struct Layout {
    alloc: Global,
    text: Vec<u8>,
    texts: Texts,
}

impl Layout {
    pub(crate) fn new(alloc: Global, texts: Texts) -> Layout {
        Layout {
            alloc,
            text: Vec::new(alloc),
            texts,
        }
    }

    pub(crate) fn into_text(self) -> Vec<u8> {
        let Layout { text, .. } = self;
        text
    }

    pub(crate) fn put(&mut self, bytes: &[u8]) -> Result<(), AllocError> {
        self.text.extend_from_slice(bytes)
    }

    pub(crate) fn indent(&mut self, depth: usize) -> Result<(), AllocError> {
        for _level in 0..depth {
            self.text.push(b'\t')?;
        }
        Ok(())
    }

    fn put_letter(&mut self, byte: u8) -> Result<(), AllocError> {
        if let Some(letter) = escape_of(byte) {
            self.text.push(b'\\')?;
            return Ok(self.text.push(letter)?);
        }
        Ok(self.text.push(byte)?)
    }

    // A zero byte within a text. Before an octal digit it has three digits, since `\0` and the digit are another number.
    fn put_zero(&mut self, next: Option<u8>) -> Result<(), AllocError> {
        match (self.texts, next) {
            (Texts::Apart, _) => self.put(b"\", \""),
            (Texts::Joined, Some(b'0'..=b'7')) => self.put(b"\\000"),
            (Texts::Joined, _) => self.put(b"\\0"),
        }
    }

    // What is no letter is put by its number, as dtc takes a byte: with a sign.
    fn put_byte(&mut self, byte: u8, next: Option<u8>) -> Result<(), AllocError> {
        if byte == 0 {
            return self.put_zero(next);
        }
        if is_in_text(byte) {
            return self.put_letter(byte);
        }
        let front = if byte < 128 { "" } else { "ffffff" };
        let digits = format!(in self.alloc; "\\x{front}{byte:02x}")?;
        self.put(digits.as_bytes())
    }

    /// Puts a text of any bytes, which the last ends.
    pub(crate) fn put_text(&mut self, value: &[u8]) -> Result<(), AllocError> {
        let (_, text) = value.split_last().unwrap_or((&0, b""));
        self.put(b"\"")?;
        for (i, byte) in text.iter().enumerate() {
            self.put_byte(*byte, text.get(i.saturating_add(1)).copied())?;
        }
        self.put(b"\"")
    }

    // The last zero byte ends the string.
    fn put_texts(&mut self, value: &[u8]) -> Result<(), AllocError> {
        let text = value.strip_suffix(b"\0").unwrap_or(value);
        self.put(b"\"")?;
        for (i, byte) in text.iter().enumerate() {
            self.put_byte(*byte, text.get(i.saturating_add(1)).copied())?;
        }
        self.put(b"\"")
    }

    fn put_cells(&mut self, value: &[u8]) -> Result<(), AllocError> {
        let mut between = b"<".as_slice();
        for cell in value.chunks(4) {
            let mut number: u32 = 0;
            for byte in cell {
                number = number.wrapping_shl(8) | u32::from(*byte);
            }
            let digits = format!(in self.alloc; "0x{number:02x}")?;
            self.put(between)?;
            self.put(digits.as_bytes())?;
            between = b" ";
        }
        self.put(b">")
    }

    fn put_bytes(&mut self, value: &[u8]) -> Result<(), AllocError> {
        let mut between = b"[".as_slice();
        for byte in value {
            let digits = format!(in self.alloc; "{byte:02x}")?;
            self.put(between)?;
            self.put(digits.as_bytes())?;
            between = b" ";
        }
        self.put(b"]")
    }

    fn put_value(&mut self, value: &[u8]) -> Result<(), AllocError> {
        self.put(b" = ")?;
        match form_of(value) {
            Form::Texts => self.put_texts(value),
            Form::Cells => self.put_cells(value),
            Form::Bytes => self.put_bytes(value),
        }
    }

    /// A property by its name and its value.
    pub(crate) fn put_named(
        &mut self,
        name: &[u8],
        value: &[u8],
        depth: usize,
    ) -> Result<(), AllocError> {
        self.indent(depth)?;
        self.put(name)?;
        if !value.is_empty() {
            self.put_value(value)?;
        }
        self.put(b";\n")
    }

    fn put_property(&mut self, property: &Property, depth: usize) -> Result<(), AllocError> {
        self.put_named(property.name.as_bytes(), property.value.as_slice(), depth)
    }

    fn put_properties(&mut self, node: &Node, depth: usize) -> Result<(), AllocError> {
        for property in node.properties() {
            if !repeats_name(node.name_bytes(), property) {
                self.put_property(property, depth)?;
            }
        }
        Ok(())
    }

    // A node whose first line is begun already.
    fn put_node(&mut self, name: &[u8], node: &Node, depth: usize) -> Result<(), AllocError> {
        self.indent(depth)?;
        self.put(name)?;
        self.put(b" {\n")?;
        self.put_properties(node, depth.saturating_add(1))?;
        for child in node.children() {
            self.put(b"\n")?;
            self.put_node(child.name_bytes(), child, depth.saturating_add(1))?;
        }
        self.indent(depth)?;
        self.put(b"};\n")
    }

    /// What stands before the root.
    pub(crate) fn put_head(&mut self, tree: &Tree) -> Result<(), AllocError> {
        self.put_top(tree.reserves())
    }

    /// The same by the reservations.
    pub(crate) fn put_top(&mut self, reserves: &[(u64, u64)]) -> Result<(), AllocError> {
        self.put(b"/dts-v1/;\n\n")?;
        self.put_reserves(reserves)
    }

    /// How many bytes the text has.
    pub(crate) fn len(&self) -> usize {
        self.text.len()
    }

    fn put_reserves(&mut self, reserves: &[(u64, u64)]) -> Result<(), AllocError> {
        for (address, size) in reserves {
            let line = format!(in self.alloc; "/memreserve/\t0x{address:016x} 0x{size:016x};\n")?;
            self.put(line.as_bytes())?;
        }
        Ok(())
    }
}

/// The source of the tree that a blob holds, in dtc's layout, with each node's name told once.
pub fn layout_bytes(alloc: Global, blob: &[u8], texts: Texts) -> Result<Vec<u8>, BlobError> {
    let tree = read(alloc, blob)?;
    Ok(laid_out(alloc, &tree, texts)?)
}

fn laid_out(alloc: Global, tree: &Tree, texts: Texts) -> Result<Vec<u8>, AllocError> {
    let mut layout = Layout::new(alloc, texts);
    layout.put_head(tree)?;
    layout.put_node(b"/", tree.root(), 0)?;
    Ok(layout.into_text())
}
