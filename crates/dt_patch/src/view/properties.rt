//! The properties of a node.
ghost use Rattle.std.specs.Prelude.{◌≡◌, ◌∷◌, ◌++◌, [], List, IsOkAnd, MatchResult, true};
ghost use Rattle.std.specs.Option.{option_copied, option_map};
ghost use Rattle.dt_tree.specs.NodeData.{NodeData};
ghost use Rattle.dt_tree.specs.PathMap.{value_of};
ghost use Rattle.dt_tree.specs.declared.property.Property.{Property};
ghost use Rattle.dt_blob.specs.Token.{Token, begin_node, property_tokens};
ghost use Rattle.dt_patch.specs.View.Placing.{AreSpelled, TellsPlaced};
ghost use Rattle.dt_patch.specs.View.Private.Reading.{Has};
ghost use Rattle.dt_patch.specs.View.Reaching.{Reached, before_property};
ghost use Rattle.dt_patch.specs.View.Standing.{Ahead, HasNoNode, HasNoProperty, PropertiesFrom, StandsAt, ends_properties};
ghost use Rattle.dt_patch.specs.View.Places.{TellsProperties};

use crate::view::error::ViewError;
use crate::view::nodes::NodeOffset;
use crate::view::view::View;
use dt_blob::BlobToken;

/// Where a property begins: an offset in the structure block, as libfdt counts them.
#[derive(Clone, Copy, Debug, Drop, PartialEq, Eq)]
pub struct PropertyOffset {
    pub at: usize,
}

/// A property, over the blob's bytes.
#[repr(C)]
#[derive(Clone, Copy)]
pub struct ViewProperty<'a> {
    pub name: &'a [u8],
    pub value: &'a [u8],
}

/// The value of a property, and the offsets of the structure block from which and up to which the property stands.
#[derive(Clone, Copy)]
pub struct PlacedProperty<'a> {
    pub value: &'a [u8],
    pub at: usize,
    pub next: usize,
}

/// A property, and where it ends.
#[derive(Clone, Copy)]
pub(crate) struct Held<'a> {
    pub(crate) name: &'a [u8],
    pub(crate) value: &'a [u8],
    pub(crate) next: usize,
}

impl<'a> View<'a> {
    // The first property from an offset on; none where another token stands there.
    fn property_from(&self, from: usize) -> Result<Option<PropertyOffset>, ViewError>
        ensures { (ps : List Property) (t : Token) → ends_properties t ≡ true
            → Ahead self.now from (property_tokens ps ++ t ∷ []) → TellsProperties self.now result ps }
    {
        let found = self.token_from(from)?;
        match found.token {
            BlobToken::Property(_, _) => Ok(Some(PropertyOffset { at: found.at })),
            BlobToken::BeginNode(_) => Ok(None),
            BlobToken::EndNode => Ok(None),
            BlobToken::Nop => Ok(None),
            BlobToken::End => Ok(None),
        }
    }

    // The property at an offset, behind NOPs.
    fn held(&self, from: usize) -> Result<Held<'a>, ViewError>
        ensures { MatchResult result (λ h. Has self.now from h.name.now h.value.now h.next)
            (λ e. HasNoProperty self.now from × (e ≡ ViewError.BadOffset)) }
    {
        let found = self.token_from(from)?;
        match found.token {
            BlobToken::Property(name, value) => Ok(Held {
                name,
                value,
                next: found.next,
            }),
            BlobToken::BeginNode(_) => Err(ViewError::BadOffset),
            BlobToken::EndNode => Err(ViewError::BadOffset),
            BlobToken::Nop => Err(ViewError::BadOffset),
            BlobToken::End => Err(ViewError::BadOffset),
        }
    }

    // The first property of this name, from inside a node on.
    fn placed_from(&self, from: usize, name: &[u8]) -> Result<Option<PlacedProperty<'a>>, ViewError>
        ensures found { (ps : List Property) (t : Token) → ends_properties t ≡ true
            → Ahead self.now from (property_tokens ps ++ t ∷ [])
            → IsOkAnd result (λ place. option_map (λ p. p.value.now) place ≡ value_of ps name.now) }
        ensures reached { (ps : List Property) (t : Token) (before : List Token) → ends_properties t ≡ true
            → Ahead self.now from (property_tokens ps ++ t ∷ []) → Reached self.now from before
            → TellsPlaced self.now result (before ++ before_property ps name.now) }
        ensures spelled { AreSpelled self.now result name.now }
    {
        let mut at = from;
        'properties: loop {
            let found = self.token_from(at)?;
            match found.token {
                BlobToken::Property(own, value) => {
                    if own == name {
                        return Ok(Some(PlacedProperty {
                            value,
                            at: found.at,
                            next: found.next,
                        }));
                    }
                    at = found.next;
                }
                BlobToken::BeginNode(_) => return Ok(None),
                BlobToken::EndNode => return Ok(None),
                BlobToken::Nop => return Ok(None),
                BlobToken::End => return Ok(None),
            }
        }
    }

    /// The first property of a node.
    pub fn first_property(&self, node: NodeOffset) -> Result<Option<PropertyOffset>, ViewError>
        ensures stands { (d : NodeData) → StandsAt self.now node.at d
            → TellsProperties self.now result d.properties }
        ensures refused { HasNoNode self.now node.at → result ≡ Err ViewError.BadOffset }
    {
        let begun = self.begin(node.at)?;
        self.property_from(begun.next)
    }

    /// The next property of the same node.
    pub fn next_property(
        &self,
        property: PropertyOffset,
    ) -> Result<Option<PropertyOffset>, ViewError>
        ensures stands { (p : Property) (ps : List Property) → PropertiesFrom self.now property.at (p ∷ ps)
            → TellsProperties self.now result ps }
        ensures refused { HasNoProperty self.now property.at → result ≡ Err ViewError.BadOffset }
    {
        let held = self.held(property.at)?;
        self.property_from(held.next)
    }

    /// A property's name and value.
    pub fn property(&self, property: PropertyOffset) -> Result<ViewProperty<'a>, ViewError>
        ensures stands { (p : Property) (ps : List Property) → PropertiesFrom self.now property.at (p ∷ ps)
            → IsOkAnd result (λ x. (x.name.now ≡ p.name) × (x.value.now ≡ p.value)) }
        ensures refused { HasNoProperty self.now property.at → result ≡ Err ViewError.BadOffset }
    {
        let held = self.held(property.at)?;
        Ok(ViewProperty {
            name: held.name,
            value: held.value,
        })
    }

    /// The value of a node's property of this name and where the property stands: none where it has no such property.
    pub fn placed(
        &self,
        node: NodeOffset,
        name: &[u8],
    ) -> Result<Option<PlacedProperty<'a>>, ViewError>
        ensures stands { (d : NodeData) → StandsAt self.now node.at d
            → IsOkAnd result (λ place. option_map (λ p. p.value.now) place ≡ value_of d.properties name.now) }
        ensures reached { (d : NodeData) (before : List Token) → StandsAt self.now node.at d → Reached self.now node.at before
            → TellsPlaced self.now result (before ++ begin_node d.name ∷ before_property d.properties name.now) }
        ensures spelled { AreSpelled self.now result name.now }
        ensures refused { HasNoNode self.now node.at → result ≡ Err ViewError.BadOffset }
    {
        let begun = self.begin(node.at)?;
        self.placed_from(begun.next, name)
    }

    /// The value of a node's property of this name: none where it has no such property.
    pub fn value(&self, node: NodeOffset, name: &[u8]) -> Result<Option<&'a [u8]>, ViewError>
        ensures stands { (d : NodeData) → StandsAt self.now node.at d
            → IsOkAnd result (λ value. option_copied value ≡ value_of d.properties name.now) }
        ensures refused { HasNoNode self.now node.at → result ≡ Err ViewError.BadOffset }
    {
        match self.placed(node, name)? {
            None => Ok(None),
            Some(place) => Ok(Some(place.value)),
        }
    }
}
