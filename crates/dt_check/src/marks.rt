//! A quick look at the names that a node's properties may have, before they are searched.
ghost use Rattle.std.specs.Prelude.{◌≡◌, ◌<◌, false, slice_index_or};
ghost use Rattle.std.specs.Option.{option_copied};
ghost use Rattle.dt_tree.specs.PathMap.{value_of};
ghost use Rattle.dt_check.specs.Cells.{address_cells, has, number_of, size_cells};
ghost use Rattle.dt_check.specs.Private.Marks.{AreMarked, class_of};

use crate::here::value_of;
use dt_tree::{Bytes, Node, Property, cell_in};

/// How many classes of names are told apart.
const CLASSES: usize = 128;

/// The classes of names that a node's properties have: what has the class of none isn't there.
#[derive(Clone, Copy)]
pub(crate) struct Marks {
    classes: [bool; CLASSES],
}

/// The class of a name, by its length, its ends and a byte between them: a quick look goes by it (`Placed::may_have`).
pub fn class_of(name: &[u8]) -> usize
    ensures value { result ≡ class_of name.now }
    ensures within { result < CLASSES }
{
    if name.is_empty() {
        return 0;
    }
    let length = name.len();
    let ends = name[0] as usize + 5 * name[length - 1] as usize;
    (length % CLASSES + ends + 3 * name[length / 3] as usize) % CLASSES
}

impl Marks {
    /// Of these properties.
    pub(crate) fn of(properties: &[Property]) -> Self
        ensures { AreMarked properties.now result.classes }
    {
        let mut classes = [false; CLASSES];
        for property in properties {
            classes[class_of(property.name.as_bytes())] = true;
        }
        Self { classes }
    }

    /// Whether one of them has a class.
    #[inline(always)]
    pub(crate) fn may_have(&self, class: usize) -> bool
        ensures { result ≡ slice_index_or self.now.classes class false }
    {
        match self.classes.get(class) {
            Some(is_there) => *is_there,
            None => false,
        }
    }

    /// The value of the property of this name, of the node that these are of.
    pub(crate) fn value<'t>(&self, node: &'t Node, name: &[u8]) -> Option<&'t Bytes>
        requires { AreMarked node.now.properties self.now.classes }
        ensures { option_copied result ≡ value_of node.now.properties name.now }
    {
        if !self.may_have(class_of(name)) {
            return None;
        }
        value_of(node, name)
    }

    /// Whether that node has a property of this name.
    pub(crate) fn has(&self, node: &Node, name: &[u8]) -> bool
        requires { AreMarked node.now.properties self.now.classes }
        ensures { result ≡ has node.now.properties name.now }
    {
        self.value(node, name).is_some()
    }

    /// The number in its property of this name, or else this one.
    fn number_of(&self, node: &Node, name: &[u8], otherwise: u32) -> u32
        requires { AreMarked node.now.properties self.now.classes }
        ensures { result ≡ number_of node.now.properties name.now otherwise }
    {
        match self.value(node, name) {
            None => otherwise,
            Some(value) => match cell_in(value.as_slice()) {
                None => otherwise,
                Some(number) => number,
            },
        }
    }

    /// How many cells an address of that node's children has.
    pub(crate) fn address_cells(&self, node: &Node) -> u32
        requires { AreMarked node.now.properties self.now.classes }
        ensures { result ≡ address_cells node.now.properties }
    {
        self.number_of(node, b"#address-cells", 2)
    }

    /// How many cells a size has.
    pub(crate) fn size_cells(&self, node: &Node) -> u32
        requires { AreMarked node.now.properties self.now.classes }
        ensures { result ≡ size_cells node.now.properties }
    {
        self.number_of(node, b"#size-cells", 1)
    }
}
