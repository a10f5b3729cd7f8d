//! The rows of a live tree, for those who put its tree into preorder.
ghost use Rattle.std.specs.Prelude.{◌≡◌};

use crate::live_tree::{LabelRow, LiveTree, NodeRow, PropertyRow};

impl<'d, V: Copy> LiveTree<'d, V> {
    /// The rows of the nodes below the root: node n has row n - 1.
    pub fn nodes(&self) -> &[NodeRow<'d>]
        ensures { result.now ≡ self.now.nodes.items }
    {
        self.nodes.as_slice()
    }

    /// The rows of the properties.
    pub fn properties(&self) -> &[PropertyRow<'d, V>]
        ensures { result.now ≡ self.now.properties.items }
    {
        self.properties.as_slice()
    }

    /// The rows of the labels.
    pub fn labels(&self) -> &[LabelRow<'d>]
        ensures { result.now ≡ self.now.labels.items }
    {
        self.labels.as_slice()
    }
}
