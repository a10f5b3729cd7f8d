//! Walks from node to node.
ghost use Rattle.std.specs.Prelude.{◌≡◌, ◌≤◌, ◌∷◌, ◌++◌, [], List, IfOk, IsOkAnd, OnErr, Some, length, true, ℕ};
ghost use Rattle.dt_tree.specs.NodeData.{NodeData, Siblings, more};
ghost use Rattle.dt_tree.specs.TreeData.{TreeData};
ghost use Rattle.dt_tree.specs.declared.property.Property.{Property};
ghost use Rattle.dt_blob.specs.Token.{Token, end_node, property_tokens, sibling_tokens};
ghost use Rattle.dt_patch.specs.View.Ending.{closed};
ghost use Rattle.dt_patch.specs.View.Order.{StandsIn, all_of};
ghost use Rattle.dt_patch.specs.View.Private.Reading.{Ends, inside_tokens};
ghost use Rattle.dt_patch.specs.View.Reaching.{Reached};
ghost use Rattle.dt_patch.specs.View.Shows.{Views};
ghost use Rattle.dt_patch.specs.View.Standing.{Ahead, HasNoNode, StandFrom, StandsAt, ends};
ghost use Rattle.dt_patch.specs.View.Places.{TellsNodes};

use crate::view::error::ViewError;
use crate::view::view::View;
use dt_blob::BlobToken;

/// Where a node begins: an offset in the structure block, as libfdt counts them.
#[derive(Clone, Copy, Debug, Drop, PartialEq, Eq)]
pub struct NodeOffset {
    pub at: usize,
}

impl<'a> View<'a> {
    // The first node from inside a node on, or behind one; none where its parent ends there.
    fn node_from(&self, from: usize) -> Result<Option<NodeOffset>, ViewError>
        ensures { (ps : List Property) (nodes : Siblings) (last : Token) → ends last ≡ true
            → Ahead self.now from (inside_tokens ps nodes last) → TellsNodes self.now result nodes }
    {
        let mut at = from;
        'tokens: loop {
            let found = self.token_from(at)?;
            match found.token {
                BlobToken::BeginNode(_) => return Ok(Some(NodeOffset { at: found.at })),
                BlobToken::Property(_, _) => at = found.next,
                BlobToken::EndNode => return Ok(None),
                BlobToken::End => return Ok(None),
                BlobToken::Nop => return Err(ViewError::BadOffset),
            }
        }
    }

    /// The offset behind the end of the node that one is inside of.
    pub(crate) fn node_end(&self, from: usize) -> Result<usize, ViewError>
        ensures inside { (ps : List Property) (nodes : Siblings) (ts : List Token)
            → Ahead self.now from (property_tokens ps ++ (sibling_tokens nodes ++ end_node ∷ ts))
            → IsOkAnd result (λ next. Ahead self.now next ts) }
        ensures reached { (ps : List Property) (nodes : Siblings) (ts before : List Token)
            → Ahead self.now from (property_tokens ps ++ (sibling_tokens nodes ++ end_node ∷ ts)) → Reached self.now from before
            → IsOkAnd result (λ next. Reached self.now next (before ++ (property_tokens ps ++ (sibling_tokens nodes ++ end_node ∷ [])))) }
        ensures further { IfOk result (λ next. from ≤ next) }
        ensures within { IfOk result (λ next. next ≤ length self.now.structure.now) }
        ensures ended { IfOk result (λ next. Ends self.now from next) }
        ensures endless { OnErr result ((ts : List Token) → Ahead self.now from ts → closed 0 ts ≡ Some [] → ⊥) }
    {
        let mut at = from;
        let mut levels = 0usize;
        'tokens: loop {
            let found = self.token_from(at)?;
            at = found.next;
            match found.token {
                BlobToken::BeginNode(_) => levels += 1,
                BlobToken::Property(_, _) => {}
                BlobToken::EndNode => {
                    if levels == 0 {
                        return Ok(at);
                    }
                    levels -= 1;
                }
                BlobToken::End => return Err(ViewError::BadOffset),
                BlobToken::Nop => return Err(ViewError::BadOffset),
            }
        }
    }

    /// The root.
    pub fn root(&self) -> Result<NodeOffset, ViewError>
        ensures stands { (tree : TreeData) → Views self.now tree
            → IsOkAnd result (λ root. StandsAt self.now root.at tree.root) }
        ensures first { (tree : TreeData) → Views self.now tree
            → IsOkAnd result (λ root. StandsIn self.now root.at tree.root (all_of tree.root.children)) }
        ensures reached { (tree : TreeData) → Views self.now tree → IsOkAnd result (λ root. Reached self.now root.at []) }
    {
        let begun = self.begin(0)?;
        Ok(NodeOffset { at: begun.at })
    }

    /// The name of a node, with its unit address; the root's is empty.
    pub fn name(&self, node: NodeOffset) -> Result<&'a [u8], ViewError>
        ensures stands { (d : NodeData) → StandsAt self.now node.at d → IsOkAnd result (λ name. name.now ≡ d.name) }
        ensures refused { HasNoNode self.now node.at → result ≡ Err ViewError.BadOffset }
    {
        let begun = self.begin(node.at)?;
        Ok(begun.name)
    }

    /// The first child of a node.
    pub fn first_child(&self, node: NodeOffset) -> Result<Option<NodeOffset>, ViewError>
        ensures stands { (d : NodeData) → StandsAt self.now node.at d → TellsNodes self.now result d.children }
        ensures refused { HasNoNode self.now node.at → result ≡ Err ViewError.BadOffset }
    {
        let begun = self.begin(node.at)?;
        self.node_from(begun.next)
    }

    /// The next child of the same parent.
    pub fn next_sibling(&self, node: NodeOffset) -> Result<Option<NodeOffset>, ViewError>
        ensures stands { (name : List ℕ) (ps : List Property) (children rest : Siblings)
            → StandFrom self.now node.at (more name ps children rest) → TellsNodes self.now result rest }
        ensures refused { HasNoNode self.now node.at → result ≡ Err ViewError.BadOffset }
    {
        let begun = self.begin(node.at)?;
        let end = self.node_end(begun.next)?;
        self.node_from(end)
    }
}
