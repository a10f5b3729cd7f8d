//! Nodes in the order of the blob, and what is looked for in it.
ghost use Rattle.std.specs.Prelude.{◌≡◌, ◌==◌, ◌<◌, ◌≤◌, ◌++◌, List, IfOk, IfSome, IsOkAnd, false, find, length};
ghost use Rattle.std.specs.Option.{option_map_or};
ghost use Rattle.dt_tree.specs.NodeData.{NodeData, Siblings};
ghost use Rattle.dt_tree.specs.Phandle.{phandle_of};
ghost use Rattle.dt_tree.specs.TreeData.{TreeData};
ghost use Rattle.dt_tree.specs.declared.property.Property.{Property};
ghost use Rattle.dt_blob.specs.Token.{property_tokens};
ghost use Rattle.dt_patch.specs.View.Order.{StandsIn, from_first, has_phandle, in_order, is_compatible, lists, nodes_left, upward, TellsNext};
ghost use Rattle.dt_patch.specs.View.Places.{TellsPlace};
ghost use Rattle.dt_patch.specs.View.Shows.{Views};
ghost use Rattle.dt_patch.specs.View.Standing.{Ahead, HasNoNode, StandsAt};

use crate::view::error::ViewError;
use crate::view::nodes::NodeOffset;
use crate::view::view::View;
use dt_blob::BlobToken;
use dt_tree::phandle_in;

fn is_phandle(own: Option<u32>, phandle: u32) -> bool
    ensures { result ≡ option_map_or (λ g. g == phandle) own false }
{
    match own {
        None => false,
        Some(own) => own == phandle,
    }
}

fn lists(value: &[u8], text: &[u8]) -> bool
    ensures { result ≡ lists text.now value.now }
{
    value.split(|byte| *byte == 0).any(|string| string == text)
}

impl<'a> View<'a> {
    // The first node from behind a node's beginning on; none where the block ends.
    fn node_behind(&self, from: usize) -> Result<Option<NodeOffset>, ViewError>
        ensures left { (ps : List Property) (fs : List Siblings)
            → Ahead self.now from (property_tokens ps ++ upward fs)
            → TellsNext self.now result (nodes_left fs) }
        ensures further { IfOk result (λ next. IfSome next (λ n. (from ≤ n.at)
            × (n.at < length self.now.structure.now))) }
    {
        let mut at = from;
        'tokens: loop {
            let found = self.token_from(at)?;
            match found.token {
                BlobToken::BeginNode(_) => return Ok(Some(NodeOffset { at: found.at })),
                BlobToken::Property(_, _) => at = found.next,
                BlobToken::EndNode => at = found.next,
                BlobToken::End => return Ok(None),
                BlobToken::Nop => return Err(ViewError::BadOffset),
            }
        }
    }

    /// The next node in the order of the blob: the first child, or else the next sibling of the node or of the nearest one round it
    /// that has one. From the root on this comes to each node, and then to none.
    pub fn next_node(&self, node: NodeOffset) -> Result<Option<NodeOffset>, ViewError>
        ensures stands { (d : NodeData) (later : List NodeData) → StandsIn self.now node.at d later
            → TellsNext self.now result later }
        ensures refused { HasNoNode self.now node.at → result ≡ Err ViewError.BadOffset }
        ensures further { IfOk result (λ next. IfSome next (λ n. (node.at < n.at)
            × (n.at < length self.now.structure.now))) }
    {
        let begun = self.begin(node.at)?;
        self.node_behind(begun.next)
    }

    /// The phandle in a node's property `phandle`.
    pub fn phandle(&self, node: NodeOffset) -> Result<Option<u32>, ViewError>
        ensures stands { (d : NodeData) → StandsAt self.now node.at d
            → IsOkAnd result (λ phandle. phandle ≡ phandle_of d.properties) }
        ensures refused { HasNoNode self.now node.at → result ≡ Err ViewError.BadOffset }
    {
        match self.value(node, b"phandle")? {
            None => Ok(None),
            Some(value) => Ok(phandle_in(value)),
        }
    }

    /// The first node in the order of the blob with this phandle. As libfdt does, it looks at `__symbols__` and the fixups too.
    pub fn by_phandle(&self, phandle: u32) -> Result<Option<NodeOffset>, ViewError>
        ensures { (tree : TreeData) → Views self.now tree
            → TellsPlace self.now result (find (has_phandle phandle) (in_order tree.root)) }
    {
        let mut node = self.root()?;
        'nodes: loop {
            let own = self.phandle(node)?;
            if is_phandle(own, phandle) {
                return Ok(Some(node));
            }
            match self.next_node(node)? {
                None => return Ok(None),
                Some(next) => node = next,
            }
        }
    }

    /// Whether the property `compatible` of a node lists this text.
    pub fn is_compatible(&self, node: NodeOffset, text: &[u8]) -> Result<bool, ViewError>
        ensures stands { (d : NodeData) → StandsAt self.now node.at d
            → IsOkAnd result (λ is. is ≡ is_compatible text.now d) }
        ensures refused { HasNoNode self.now node.at → result ≡ Err ViewError.BadOffset }
    {
        match self.value(node, b"compatible")? {
            None => Ok(false),
            Some(value) => Ok(lists(value, text)),
        }
    }

    /// The next node behind this one, in the order of the blob, whose property `compatible` lists a text.
    pub fn next_compatible(
        &self,
        node: NodeOffset,
        text: &[u8],
    ) -> Result<Option<NodeOffset>, ViewError>
        ensures { (d : NodeData) (later : List NodeData) → StandsIn self.now node.at d later
            → TellsNext self.now result (from_first (is_compatible text.now) later) }
    {
        let mut at = node;
        'nodes: loop {
            match self.next_node(at)? {
                None => return Ok(None),
                Some(next) => {
                    let is = self.is_compatible(next, text)?;
                    if is {
                        return Ok(Some(next));
                    }
                    at = next;
                }
            }
        }
    }
}
