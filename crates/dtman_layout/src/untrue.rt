//! The nodes of a blob that make no tree, as dtc prints them all the same (`-f -O dts`): a name stands twice or isn't lawful, the root has one,
//! or a property stands behind a child.

use crate::layout::{Layout, Texts};
use crate::tokens::{Found, Token, token_at, word_at};
use dt_blob::MAX_SIZE;
use dt_tree::MAX_DEPTH;
use std::alloc::{AllocError, Global};

/// A property as it stands in the blob.
#[derive(Clone, Copy, Debug)]
struct Held<'b> {
    name: &'b [u8],
    value: &'b [u8],
}

/// A node, and which of the others are its children.
#[derive(Drop)]
struct HeldNode<'b> {
    name: &'b [u8],
    properties: Vec<Held<'b>>,
    children: Vec<usize>,
}

/// The nodes so far, of which the root is the first, and those that are open.
#[derive(Drop)]
struct Reading<'b> {
    alloc: Global,
    nodes: Vec<HeldNode<'b>>,
    open: Vec<usize>,
}

/// What a token comes to.
#[derive(Clone, Copy, Debug, PartialEq, Eq)]
enum Step {
    Further,
    /// The root is closed.
    Done,
    /// It can't stand there.
    Wrong,
}

impl<'b> Reading<'b> {
    fn begin(&mut self, name: &'b [u8]) -> Result<Step, AllocError> {
        let number = self.nodes.len();
        match self.open.last() {
            Some(above) => {
                if let Some(node) = self.nodes.get_mut(*above) {
                    node.children.push(number)?;
                }
            }
            None if number > 0 => return Ok(Step::Wrong),
            None => {}
        }
        if self.open.len() > MAX_DEPTH {
            return Ok(Step::Wrong);
        }
        self.open.push(number)?;
        let alloc = self.alloc;
        self.nodes.push(HeldNode {
            name,
            properties: Vec::new(alloc),
            children: Vec::new(alloc),
        })?;
        Ok(Step::Further)
    }

    fn add(&mut self, held: Held<'b>) -> Result<Step, AllocError> {
        let Some(last) = self.open.last() else {
            return Ok(Step::Wrong);
        };
        if let Some(node) = self.nodes.get_mut(*last) {
            node.properties.push(held)?;
        }
        Ok(Step::Further)
    }

    fn take(&mut self, token: Token<'b>) -> Result<Step, AllocError> {
        match token {
            Token::Begin(name) => self.begin(name),
            Token::Property { name, value } => self.add(Held { name, value }),
            Token::End if self.open.pop().is_none() => Ok(Step::Wrong),
            Token::End | Token::Nop => Ok(Step::Further),
            Token::Finish if self.open.is_empty() && !self.nodes.is_empty() => Ok(Step::Done),
            Token::Finish => Ok(Step::Wrong),
        }
    }
}

/// Where the structure block and the strings of a blob begin.
#[derive(Clone, Copy, Debug)]
struct Blocks {
    structure: usize,
    strings: usize,
}

fn blocks_of(blob: &[u8]) -> Option<Blocks> {
    Some(Blocks {
        structure: word_at(blob, 8)? as usize,
        strings: word_at(blob, 12)? as usize,
    })
}

// The nodes of a blob; none where its tokens nest none, or over 64 deep.
fn nodes_of(alloc: Global, blob: &[u8]) -> Result<Option<Vec<HeldNode<'_>>>, AllocError> {
    let Some(blocks) = blocks_of(blob) else {
        return Ok(None);
    };
    let mut reading = Reading {
        alloc,
        nodes: Vec::new(alloc),
        open: Vec::new(alloc),
    };
    let mut at = blocks.structure;
    for _token in 0..blob.len() {
        let Some(Found { token, next }) = token_at(blob, blocks.strings, at) else {
            return Ok(None);
        };
        match reading.take(token)? {
            Step::Further => at = next,
            Step::Wrong => return Ok(None),
            Step::Done => {
                let Reading { nodes, .. } = reading;
                return Ok(Some(nodes));
            }
        }
    }
    Ok(None)
}

/// The name of the node or property whose token a place of a blob is in.
pub fn name_around(blob: &[u8], place: usize) -> Option<&[u8]> {
    let blocks = blocks_of(blob)?;
    let mut at = blocks.structure;
    for _token in 0..blob.len() {
        let Found { token, next } = token_at(blob, blocks.strings, at)?;
        if place < next {
            return match token {
                Token::Begin(name) | Token::Property { name, .. } => Some(name),
                _ => None,
            };
        }
        at = next;
    }
    None
}

// A reservation of no bytes ends them, as in dtc.
fn reserves_of(alloc: Global, blob: &[u8]) -> Result<Vec<(u64, u64)>, AllocError> {
    let mut reserves = Vec::new(alloc);
    let mut at = word_at(blob, 16).unwrap_or(0) as usize;
    for _pair in 0..blob.len() {
        let words = [0, 4, 8, 12].map(|place| {
            u64::from(word_at(blob, at.saturating_add(place)).unwrap_or(0))
        });
        let (address, size) = (words[0] << 32 | words[1], words[2] << 32 | words[3]);
        if size == 0 {
            return Ok(reserves);
        }
        reserves.push((address, size))?;
        at = at.saturating_add(16);
    }
    Ok(reserves)
}

/// A node that is begun, and how many of its children are printed.
#[derive(Clone, Copy, Debug)]
struct Begun {
    node: usize,
    printed: usize,
}

// Whether a property is `name`, and says what its node is called up to the unit address: dtc leaves it out.
fn says_name(node: &[u8], held: Held<'_>) -> bool {
    let called = node.split(|byte| *byte == b'@').next().unwrap_or(node);
    held.name == b"name".as_slice() && held.value.strip_suffix(b"\0".as_slice()) == Some(called)
}

// Prints a node up to its first child. Of names that lie over each other, no text gets longer than a blob may be.
fn begin_node(layout: &mut Layout, node: &HeldNode<'_>, depth: usize) -> Result<bool, AllocError> {
    layout.indent(depth)?;
    layout.put(if node.name.is_empty() {
        b"/"
    } else {
        node.name
    })?;
    layout.put(b" {\n")?;
    for held in &node.properties {
        if !says_name(node.name, *held) {
            layout.put_named(held.name, held.value, depth.saturating_add(1))?;
        }
        if layout.len() > MAX_SIZE {
            return Ok(false);
        }
    }
    Ok(true)
}

// Prints the nodes, the root first. False where they make a text that is too long.
fn put_nodes(
    alloc: Global,
    layout: &mut Layout,
    nodes: &[HeldNode<'_>],
) -> Result<bool, AllocError> {
    let mut begun = Vec::new(alloc);
    let mut next = Some(0);
    for _line in 0..nodes.len().saturating_mul(2) {
        if let Some(number) = next {
            let Some(node) = nodes.get(number) else {
                return Ok(false);
            };
            if !begin_node(layout, node, begun.len())? {
                return Ok(false);
            }
            begun.push(Begun {
                node: number,
                printed: 0,
            })?;
        }
        next = next_child(nodes, begun.as_mut_slice());
        match next {
            Some(_) => layout.put(b"\n")?,
            None => {
                let _ = begun.pop();
                layout.indent(begun.len())?;
                layout.put(b"};\n")?;
                if begun.is_empty() {
                    return Ok(true);
                }
            }
        }
    }
    Ok(false)
}

// The next child of the node that was begun last.
fn next_child(nodes: &[HeldNode<'_>], begun: &mut [Begun]) -> Option<usize> {
    let last = begun.last_mut()?;
    let child = nodes.get(last.node)?.children.get(last.printed)?;
    last.printed = last.printed.saturating_add(1);
    Some(*child)
}

/// The nodes of a blob that make no tree as a source in dtc's layout. None where its tokens nest none or over 64 deep, or the text would have
/// over 256 MiB.
pub fn untrue_text(
    alloc: Global,
    blob: &[u8],
    texts: Texts,
) -> Result<Option<Vec<u8>>, AllocError> {
    let Some(nodes) = nodes_of(alloc, blob)? else {
        return Ok(None);
    };
    let mut layout = Layout::new(alloc, texts);
    let reserves = reserves_of(alloc, blob)?;
    layout.put_top(reserves.as_slice())?;
    if put_nodes(alloc, &mut layout, nodes.as_slice())? {
        return Ok(Some(layout.into_text()));
    }
    Ok(None)
}
