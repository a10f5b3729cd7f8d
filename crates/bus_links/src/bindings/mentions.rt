//! Which nodes a device's properties name, entry by entry.
ghost use Rattle.std.specs.Prelude.{◌≡◌, ◌*◌, IfOk, OnOk, length, take};
ghost use Rattle.bus_links.specs.Bindings.LinkNodes.{place_with};
ghost use Rattle.bus_links.specs.Bindings.BindingView.{is_strict, listing_data};
ghost use Rattle.bus_links.specs.Bindings.Mentions.{and_then, mentioned, fault, nothing, cells_behind, meant, cells_before, goes_on, entry_at, found_in, lines_within, lines_at, found_lines, found_listed, is_passed_over, found_by, found_among, found_at};

use crate::bindings::binding::{Binding, Listing, Strictness};
use crate::bindings::interrupts::{controller_of, interrupt_parent};
use crate::bindings::naming::{has, number};
use crate::bindings::nexus::before;
use crate::bindings::nodes::Nodes;
use dt_tree::{Property, behind, cell_in};
use std::alloc::{AllocError, Global};
use std::marker::Model;

/// An entry of a property that names the node at this place.
#[derive(Drop)]
pub struct Mention<'t> {
    pub property: &'t [u8],
    pub entry: usize,
    pub node: usize,
}

impl<'t> Model for Mention<'t> {
    ghost use Rattle.bus_links.specs.Bindings.Mentions.{MentionData};

    ghost Value = { MentionData };

    ghost view = { λ m. record { property = m.property.now; entry = m.entry; node = m.node } };
}

/// An entry of a property that is malformed or leads nowhere.
#[derive(Drop)]
pub struct Fault<'t> {
    pub property: &'t [u8],
    pub entry: usize,
}

impl<'t> Model for Fault<'t> {
    ghost use Rattle.bus_links.specs.Bindings.Mentions.{FaultData};

    ghost Value = { FaultData };

    ghost view = { λ f. record { property = f.property.now; entry = f.entry } };
}

/// What properties name, so far.
#[derive(Drop)]
pub struct Found<'t> {
    mentions: Vec<Mention<'t>>,
    faults: Vec<Fault<'t>>,
}

impl<'t> Model for Found<'t> {
    ghost use Rattle.bus_links.specs.Bindings.Mentions.{FoundData};

    ghost Value = { FoundData };

    ghost view = { λ f. record { mentions = f.mentions.items; faults = f.faults.items } };
}

fn cells_behind(nodes: &Nodes<'_>, listing: Listing, node: usize) -> Option<u32>
    ensures { result ≡ cells_behind (listing_data listing) nodes.now node }
{
    let name = match listing {
        Listing::Counted(name) | Listing::Sparse(name) => name,
        Listing::Controllers => b"#interrupt-cells",
        Listing::Mapped => return Some(2),
        Listing::Bare | Listing::Lines => return Some(0),
    };
    number(nodes, node, name)
}

fn cells_before(listing: Listing) -> usize
    ensures { result ≡ cells_before (listing_data listing) }
{
    match listing {
        Listing::Mapped => 1,
        _ => 0,
    }
}

// Whether an entry that is left empty is passed over.
fn goes_on(listing: Listing) -> bool
    ensures { result ≡ goes_on (listing_data listing) }
{
    match listing {
        Listing::Sparse(_) => true,
        _ => false,
    }
}

// The node that an entry of a node means, with these bytes behind its phandle.
fn meant(
    alloc: Global,
    nodes: &Nodes<'_>,
    listing: Listing,
    own: usize,
    node: usize,
    bytes: &[u8],
) -> Result<Option<usize>, AllocError>
    ensures { IfOk result (λ meant_node. meant_node ≡ meant (listing_data listing) nodes.now own node bytes.now) }
{
    match listing {
        Listing::Controllers => controller_of(alloc, nodes, own, node, bytes),
        _ => Ok(Some(node)),
    }
}

impl<'t> Found<'t> {
    /// Nothing yet.
    pub fn new(alloc: Global) -> Self
        ensures { result ≡ nothing }
    {
        Self {
            mentions: Vec::new(alloc),
            faults: Vec::new(alloc),
        }
    }

    /// The entries that name a node.
    pub fn mentions(&self) -> &[Mention<'t>]
        ensures { result.now ≡ self.now.mentions }
    {
        self.mentions.as_slice()
    }

    /// The entries that end their lists.
    pub fn faults(&self) -> &[Fault<'t>]
        ensures { result.now ≡ self.now.faults }
    {
        self.faults.as_slice()
    }

    pub(super) fn add(
        &mut self,
        property: &'t [u8],
        entry: usize,
        node: usize,
    ) -> Result<(), AllocError>
        ensures { OnOk result (self.new ≡ and_then self.old (mentioned property.now entry node)) }
    {
        self.mentions.push(Mention {
            property,
            entry,
            node,
        })?;
        Ok(())
    }

    pub(super) fn add_fault(&mut self, property: &'t [u8], entry: usize) -> Result<(), AllocError>
        ensures { OnOk result (self.new ≡ and_then self.old (fault property.now entry)) }
    {
        self.faults.push(Fault { property, entry })?;
        Ok(())
    }
}

/// An entry: the node that it means, and how many cells behind its phandle are its own.
#[derive(Clone, Copy)]
struct Entry {
    node: usize,
    cells: u32,
}

impl Model for Entry {
    ghost use Rattle.bus_links.specs.Bindings.Mentions.{EntryData};

    ghost Value = { EntryData };

    ghost view = { λ e. record { node = e.node; cells = e.cells } };

    ghost inverse = { λ e. record { node = e.node; cells = e.cells } };
}

// The entry of a node that begins with this phandle, with these bytes behind it.
fn entry_of(
    alloc: Global,
    nodes: &Nodes<'_>,
    listing: Listing,
    own: usize,
    phandle: u32,
    behind: &[u8],
) -> Result<Option<Entry>, AllocError>
    ensures { IfOk result (λ entry. entry
        ≡ entry_at (listing_data listing) nodes.now own behind.now (place_with nodes.now phandle)) }
{
    let Some(node) = nodes.with_phandle(phandle) else {
        return Ok(None);
    };
    let Some(cells) = cells_behind(nodes, listing, node) else {
        return Ok(None);
    };
    let bytes = 4 * (cells as usize);
    if bytes > behind.len() {
        return Ok(None);
    }
    match meant(alloc, nodes, listing, own, node, before(behind, bytes))? {
        None => Ok(None),
        Some(node) => Ok(Some(Entry { node, cells })),
    }
}

// Whether a property of the node is passed over: `interrupts` beside `interrupts-extended`.
fn is_passed_over(nodes: &Nodes<'_>, own: usize, name: &[u8]) -> bool
    ensures { result ≡ is_passed_over nodes.now own name.now }
{
    name == b"interrupts".as_slice() && has(nodes, own, b"interrupts-extended")
}

impl<'t> Found<'t> {
    // Adds what a list of a node names, with so many cells before its first phandle.
    fn add_entries(
        &mut self,
        alloc: Global,
        nodes: &Nodes<'_>,
        own: usize,
        listing: Listing,
        property: &'t [u8],
        value: &[u8],
        first: usize,
    ) -> Result<(), AllocError>
        ensures { OnOk result (self.new
            ≡ and_then self.old (found_in nodes.now own (listing_data listing) property.now first value.now)) }
    {
        let mut rest = value;
        let mut skipped = first;
        let mut entry = 0;
        let mut left = value.len();
        while left > 0 {
            left -= 1;
            let Some(phandle) = cell_in(before(rest, 4)) else {
                return Ok(());
            };
            rest = behind(rest, 4);
            if skipped > 0 {
                skipped -= 1;
                continue;
            }
            if phandle == 0 {
                if !goes_on(listing) {
                    return Ok(());
                }
                entry += 1;
                continue;
            }
            let Some(named) = entry_of(alloc, nodes, listing, own, phandle, rest)? else {
                return self.add_fault(property, entry);
            };
            self.add(property, entry, named.node)?;
            entry += 1;
            skipped = named.cells as usize + cells_before(listing);
        }
        Ok(())
    }

    // Adds the controllers of a node's interrupts, of so many specifiers at most, each of so many bytes at their parent.
    fn add_specifiers(
        &mut self,
        alloc: Global,
        nodes: &Nodes<'_>,
        own: usize,
        parent: usize,
        width: usize,
        property: &'t [u8],
        value: &[u8],
    ) -> Result<(), AllocError>
        ensures { OnOk result (self.new
            ≡ and_then self.old (lines_within nodes.now property.now own parent width 0 (length value.now) value.now)) }
    {
        let mut rest = value;
        let mut left = value.len();
        let mut entry = 0;
        while left > 0 {
            left -= 1;
            if rest.is_empty() {
                return Ok(());
            }
            if width > rest.len() {
                return self.add_fault(property, entry);
            }
            let specifier = before(rest, width);
            let Some(controller) = controller_of(alloc, nodes, own, parent, specifier)? else {
                return self.add_fault(property, entry);
            };
            self.add(property, entry, controller)?;
            entry += 1;
            rest = behind(rest, width);
        }
        Ok(())
    }

    // Adds the controllers of a node's interrupts, which this node takes, each specifier with so many cells.
    fn add_lines_at(
        &mut self,
        alloc: Global,
        nodes: &Nodes<'_>,
        own: usize,
        parent: usize,
        cells: u32,
        property: &'t Property,
    ) -> Result<(), AllocError>
        ensures { OnOk result (self.new
            ≡ and_then self.old (lines_at nodes.now property.now.name own property.now.value parent cells)) }
    {
        let name = property.name.as_bytes();
        if cells == 0 {
            return self.add_fault(name, 0);
        }
        let width = 4 * (cells as usize);
        self.add_specifiers(
            alloc,
            nodes,
            own,
            parent,
            width,
            name,
            property.value.as_slice(),
        )
    }

    // Adds the controllers of a node's interrupts.
    fn add_lines(
        &mut self,
        alloc: Global,
        nodes: &Nodes<'_>,
        own: usize,
        property: &'t Property,
    ) -> Result<(), AllocError>
        ensures { OnOk result (self.new
            ≡ and_then self.old (found_lines nodes.now property.now.name own property.now.value)) }
    {
        let Some(parent) = interrupt_parent(nodes, own) else {
            return self.add_fault(property.name.as_bytes(), 0);
        };
        let Some(cells) = number(nodes, parent, b"#interrupt-cells") else {
            return self.add_fault(property.name.as_bytes(), 0);
        };
        self.add_lines_at(alloc, nodes, own, parent, cells, property)
    }

    fn add_listed(
        &mut self,
        alloc: Global,
        nodes: &Nodes<'_>,
        own: usize,
        listing: Listing,
        property: &'t Property,
    ) -> Result<(), AllocError>
        ensures { OnOk result (self.new
            ≡ and_then self.old (found_listed nodes.now own (listing_data listing) property.now)) }
    {
        let name = property.name.as_bytes();
        let value = property.value.as_slice();
        match listing {
            Listing::Lines => self.add_lines(alloc, nodes, own, property),
            Listing::Mapped => self.add_entries(alloc, nodes, own, listing, name, value, 1),
            Listing::Counted(_) => self.add_entries(alloc, nodes, own, listing, name, value, 0),
            Listing::Sparse(_) => self.add_entries(alloc, nodes, own, listing, name, value, 0),
            Listing::Bare => self.add_entries(alloc, nodes, own, listing, name, value, 0),
            Listing::Controllers => self.add_entries(alloc, nodes, own, listing, name, value, 0),
        }
    }

    // Adds what a property of the node names: nothing, where it has no binding that counts.
    fn add_property(
        &mut self,
        alloc: Global,
        nodes: &Nodes<'_>,
        strictness: Strictness,
        own: usize,
        property: &'t Property,
    ) -> Result<(), AllocError>
        ensures { OnOk result (self.new
            ≡ and_then self.old (found_by nodes.now (is_strict strictness) own property.now)) }
    {
        if is_passed_over(nodes, own, property.name.as_bytes()) {
            return Ok(());
        }
        let Some(binding) = Binding::of(property.name.as_bytes()) else {
            return Ok(());
        };
        if !binding.counts(strictness) || (nodes.is_power() && binding.is_interrupt()) {
            return Ok(());
        }
        self.add_listed(alloc, nodes, own, binding.listing(), property)
    }

    fn add_properties(
        &mut self,
        alloc: Global,
        nodes: &Nodes<'_>,
        strictness: Strictness,
        own: usize,
        properties: &'t [Property],
    ) -> Result<(), AllocError>
        ensures { OnOk result (self.new
            ≡ and_then self.old (found_among nodes.now (is_strict strictness) own properties.now)) }
    {
        for property in properties {
            self.add_property(alloc, nodes, strictness, own, property)?;
        }
        Ok(())
    }

    /// What the properties of the node at this place name.
    pub fn at(
        alloc: Global,
        nodes: &Nodes<'t>,
        strictness: Strictness,
        own: usize,
    ) -> Result<Self, AllocError>
        ensures { IfOk result (λ found. found ≡ found_at nodes.now (is_strict strictness) own) }
    {
        let mut found = Found::new(alloc);
        found.add_properties(alloc, nodes, strictness, own, nodes.properties(own))?;
        Ok(found)
    }
}
