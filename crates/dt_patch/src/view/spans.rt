//! Where what stands in a node ends: places at which a blob can be changed.
ghost use Rattle.std.specs.Prelude.{◌≡◌, ◌≤◌, ◌<◌, ◌∷◌, ◌++◌, [], List, IfOk, IsOkAnd, MatchResult, length, true, ℕ};
ghost use Rattle.dt_tree.specs.NodeData.{NodeData, Siblings};
ghost use Rattle.dt_tree.specs.declared.property.Property.{Property};
ghost use Rattle.dt_blob.specs.Token.{Token, begin_node, end_node, property_tokens, sibling_tokens, tokens_of};
ghost use Rattle.dt_patch.specs.Nopping.{HasBeginning, HasProperty};
ghost use Rattle.dt_patch.specs.View.Private.Reading.{Finds};
ghost use Rattle.dt_patch.specs.View.Reaching.{Reached};
ghost use Rattle.dt_patch.specs.View.Standing.{Ahead, HasNoNode, StandsAt, ends_properties};

use crate::view::error::ViewError;
use crate::view::nodes::NodeOffset;
use crate::view::view::View;
use dt_blob::BlobToken;

impl<'a> View<'a> {
    // The offset of what stands behind the last property, from inside a node on.
    fn properties_end_from(&self, from: usize) -> Result<usize, ViewError>
        ensures reached { (ps : List Property) (t : Token) (before : List Token) → ends_properties t ≡ true
            → Ahead self.now from (property_tokens ps ++ t ∷ []) → Reached self.now from before
            → IsOkAnd result (λ at. Reached self.now at (before ++ property_tokens ps)) }
        ensures inside { IfOk result (λ at. at ≤ length self.now.structure.now) }
    {
        let mut at = from;
        'properties: loop {
            let found = self.token_from(at)?;
            match found.token {
                BlobToken::Property(_, _) => at = found.next,
                BlobToken::BeginNode(_) => return Ok(found.at),
                BlobToken::EndNode => return Ok(found.at),
                BlobToken::Nop => return Ok(found.at),
                BlobToken::End => return Ok(found.at),
            }
        }
    }

    /// The offset behind the properties of a node, where one more of them can stand.
    pub fn properties_end(&self, node: NodeOffset) -> Result<usize, ViewError>
        ensures reached { (d : NodeData) (before : List Token) → StandsAt self.now node.at d → Reached self.now node.at before
            → IsOkAnd result (λ at. Reached self.now at (before ++ begin_node d.name ∷ property_tokens d.properties)) }
        ensures inside { IfOk result (λ at. at ≤ length self.now.structure.now) }
        ensures refused { HasNoNode self.now node.at → result ≡ Err ViewError.BadOffset }
    {
        let begun = self.begin(node.at)?;
        self.properties_end_from(begun.next)
    }

    /// The offset behind the property that begins right at one.
    pub(crate) fn property_end(&self, at: usize) -> Result<usize, ViewError>
        ensures { MatchResult result (λ next. HasProperty self.now.strings.now self.now.structure.now at next)
            (λ e. (next : ℕ) → HasProperty self.now.strings.now self.now.structure.now at next → ⊥) }
    {
        let (token, next) = self.token(at)?;
        match token {
            BlobToken::Property(_, _) => Ok(next),
            BlobToken::BeginNode(_) => Err(ViewError::BadOffset),
            BlobToken::EndNode => Err(ViewError::BadOffset),
            BlobToken::Nop => Err(ViewError::BadOffset),
            BlobToken::End => Err(ViewError::BadOffset),
        }
    }

    /// The offset behind the beginning of a node that stands right at one.
    pub(crate) fn beginning_end(&self, at: usize) -> Result<usize, ViewError>
        ensures { MatchResult result (λ next. HasBeginning self.now.strings.now self.now.structure.now at next)
            (λ e. (next : ℕ) → HasBeginning self.now.strings.now self.now.structure.now at next → ⊥) }
    {
        let (token, next) = self.token(at)?;
        match token {
            BlobToken::BeginNode(_) => Ok(next),
            BlobToken::EndNode => Err(ViewError::BadOffset),
            BlobToken::Property(_, _) => Err(ViewError::BadOffset),
            BlobToken::Nop => Err(ViewError::BadOffset),
            BlobToken::End => Err(ViewError::BadOffset),
        }
    }

    /// The offset behind the end of a node, with all below it.
    pub fn behind(&self, node: NodeOffset) -> Result<usize, ViewError>
        ensures reached { (d : NodeData) (before : List Token) → StandsAt self.now node.at d → Reached self.now node.at before
            → IsOkAnd result (λ at. Reached self.now at (before ++ tokens_of d)) }
        ensures further { IfOk result (λ at. node.at < at) }
        ensures inside { IfOk result (λ at. at ≤ length self.now.structure.now) }
        ensures refused { HasNoNode self.now node.at → result ≡ Err ViewError.BadOffset }
    {
        let begun = self.begin(node.at)?;
        match self.node_end(begun.next) {
            Ok(at) => Ok(at),
            Err(_) => Err(ViewError::BadOffset),
        }
    }
}
