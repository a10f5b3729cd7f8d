//! Where a text has the nodes and the properties of a tree.
ghost use Rattle.std.specs.Prelude.{◌≡◌, slice_index_or};
ghost use Rattle.dt_live.specs.Making.Places.{between, bounded, number_in, number_of, property_place, references_in, told};

use dt_tree::behind;

/// Where a text has the nodes of a tree, in the order of its preorder, and each one's properties, in their order: the offset in bytes
/// at which a node's name begins, the slash of the first `/ {` for the root, or a property's name, 0 where no text has it. Of a
/// property's value also which cells are references, by the bytes of the value before each. What a compiler adds of its own stands
/// behind all others, and has no place.
#[derive(Drop)]
pub struct Places {
    /// of each node
    pub nodes: Vec<u32>,
    /// how many properties the nodes before each have, and how many all have
    pub starts: Vec<u32>,
    /// of each property
    pub properties: Vec<u32>,
    /// how many references the properties before each have, and how many all have
    pub reference_starts: Vec<u32>,
    /// of each reference
    pub references: Vec<u32>,
}

// An offset, none where no text has it.
fn told(at: u32) -> Option<u32>
    ensures { result ≡ told at }
{
    if at == 0 {
        return None;
    }
    Some(at)
}

// The number of one of those that begin at the first of some starts and end before the second.
fn number_in(starts: &[u32], index: usize) -> Option<usize>
    ensures { result ≡ number_in starts.now index }
{
    match starts {
        [start, end, ..] => {
            let start = *start as usize;
            if index < (*end as usize).saturating_sub(start) {
                return Some(start + index);
            }
            None
        }
        _ => None,
    }
}

// Those from a start on, so many as there are up to an end.
fn between(items: &[u32], start: usize, end: usize) -> &[u32]
    ensures { result.now ≡ between items.now start end }
{
    let rest = behind(items, start);
    let count = end.saturating_sub(start);
    if count < rest.len() {
        return &rest[..count];
    }
    rest
}

// Those that begin at the first of some starts and end before the second.
fn bounded<'a>(starts: &[u32], items: &'a [u32]) -> &'a [u32]
    ensures { result.now ≡ bounded starts.now items.now }
{
    match starts {
        [start, end, ..] => between(items, *start as usize, *end as usize),
        _ => &[],
    }
}

impl Places {
    /// Where the text has a node, by its number in preorder: 0 is the root. None of a node that no text has.
    pub fn node(&self, node: usize) -> Option<u32>
        ensures { result ≡ told (slice_index_or self.now.nodes.items node 0) }
    {
        told(*self.nodes.get(node)?)
    }

    // The number of a property among those of all nodes.
    fn number(&self, node: usize, property: usize) -> Option<usize>
        ensures { result ≡ number_of self.now node property }
    {
        number_in(behind(self.starts.as_slice(), node), property)
    }

    /// Where the text has a property, by its node's number in preorder and its own in the node. None of a property that no text has.
    pub fn property(&self, node: usize, property: usize) -> Option<u32>
        ensures { result ≡ property_place self.now node property }
    {
        let number = self.number(node, property)?;
        told(*self.properties.get(number)?)
    }

    /// Which cells of a property's value are references: of each how many bytes of the value stand before it.
    pub fn references(&self, node: usize, property: usize) -> &[u32]
        ensures { result.now ≡ references_in self.now node property }
    {
        match self.number(node, property) {
            Some(number) => bounded(
                behind(self.reference_starts.as_slice(), number),
                self.references.as_slice(),
            ),
            None => &[],
        }
    }
}
