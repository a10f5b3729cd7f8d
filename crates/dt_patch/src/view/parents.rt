//! The nodes round a node.
ghost use Rattle.std.specs.Prelude.{◌≡◌, ◌++◌, ◌∷◌, [], ◌==◌, if◌then◌else◌, IsOkAnd, List, length, None, Ok, Some, ℕ};
ghost use Rattle.dt_tree.specs.TreeData.{TreeData};
ghost use Rattle.dt_blob.specs.Token.{Token};
ghost use Rattle.dt_patch.specs.View.Parents.{IsAt, TellsAt};
ghost use Rattle.dt_patch.specs.View.Private.Levels.{Lies, last_open, levels_after};
ghost use Rattle.dt_patch.specs.View.Reaching.{Reached};
ghost use Rattle.dt_patch.specs.View.Shows.{Views};
ghost use Rattle.dt_patch.specs.View.Standing.{Ahead, HasNoNode};

use crate::view::error::ViewError;
use crate::view::nodes::NodeOffset;
use crate::view::view::View;
use dt_blob::BlobToken;

// The place of the node at a depth: this one, where it has that depth, or else the one before.
fn last_at(depth: usize, levels: usize, at: usize, before: usize) -> usize
    ensures { result ≡ (if levels == depth then at else before) }
{
    if levels == depth { at } else { before }
}

impl<'a> View<'a> {
    // How many nodes are open where a token stands.
    fn levels_at(&self, place: usize) -> Result<usize, ViewError>
        ensures { (before : List Token) (t : Token) (ts : List Token) (n : ℕ) → Lies self.now place before t ts
            → levels_after 0 before ≡ Some n → result ≡ Ok n }
    {
        let mut at = 0;
        let mut levels = 0usize;
        'tokens: loop {
            let found = self.token_from(at)?;
            if found.at == place {
                return Ok(levels);
            }
            at = found.next;
            match found.token {
                BlobToken::BeginNode(_) => levels += 1,
                BlobToken::Property(_, _) => {}
                BlobToken::EndNode => {
                    if levels == 0 {
                        return Err(ViewError::BadOffset);
                    }
                    levels -= 1;
                }
                BlobToken::End => return Err(ViewError::BadOffset),
                BlobToken::Nop => return Err(ViewError::BadOffset),
            }
        }
    }

    // The last node of a depth that begins before a token.
    fn last_before(&self, place: usize, depth: usize) -> Result<NodeOffset, ViewError>
        ensures { (before within : List Token) (t : Token) (ts : List Token) (n : ℕ)
            → Lies self.now place (before ++ within) t ts → levels_after 0 (before ++ within) ≡ Some n
            → last_open depth 0 (before ++ within) ≡ Some before
            → IsOkAnd result (λ p. Reached self.now p.at before × Ahead self.now p.at (within ++ t ∷ ts)) }
    {
        let mut at = 0;
        let mut levels = 0usize;
        let mut last = 0;
        'tokens: loop {
            let found = self.token_from(at)?;
            if found.at == place {
                return Ok(NodeOffset { at: last });
            }
            at = found.next;
            match found.token {
                BlobToken::BeginNode(_) => {
                    levels += 1;
                    last = last_at(depth, levels, found.at, last);
                }
                BlobToken::Property(_, _) => {}
                BlobToken::EndNode => {
                    if levels == 0 {
                        return Err(ViewError::BadOffset);
                    }
                    levels -= 1;
                }
                BlobToken::End => return Err(ViewError::BadOffset),
                BlobToken::Nop => return Err(ViewError::BadOffset),
            }
        }
    }

    /// How many nodes are round a node, each in the next: none round the root.
    pub fn depth(&self, node: NodeOffset) -> Result<usize, ViewError>
        ensures stands { (tree : TreeData) (path : List (List ℕ)) → Views self.now tree
            → IsAt self.now tree.root path node.at → result ≡ Ok (length path) }
        ensures refused { HasNoNode self.now node.at → result ≡ Err ViewError.BadOffset }
    {
        let begun = self.begin(node.at)?;
        self.levels_at(begun.at)
    }

    /// The parent of a node: none of the root. As in libfdt the structure block is read from its beginning up to the node.
    pub fn parent(&self, node: NodeOffset) -> Result<Option<NodeOffset>, ViewError>
        ensures root { (tree : TreeData) → Views self.now tree → IsAt self.now tree.root [] node.at → result ≡ Ok None }
        ensures below { (tree : TreeData) (path : List (List ℕ)) (name : List ℕ) → Views self.now tree
            → IsAt self.now tree.root (path ++ name ∷ []) node.at → TellsAt self.now tree.root path result }
        ensures refused { HasNoNode self.now node.at → result ≡ Err ViewError.BadOffset }
    {
        let begun = self.begin(node.at)?;
        let depth = self.levels_at(begun.at)?;
        if depth == 0 {
            return Ok(None);
        }
        let parent = self.last_before(begun.at, depth)?;
        Ok(Some(parent))
    }
}
