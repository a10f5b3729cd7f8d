//! What a fault of edits or references meets: another node's label, name or phandle.

use crate::bodies::{Bodies, Key, Open, first_mark, kind_before};
use crate::phandles::phandle_of;
use dt_text::lexeme::{Kind, Language, Lexeme};
use dt_text::place::named;
use std::alloc::{AllocError, Global};

/// What is told of, and what it meets, where there is that: lexemes by their indices.
#[derive(Clone, Copy)]
pub(crate) struct Meeting {
    pub lexeme: usize,
    pub other: Option<usize>,
}

/// A source with its lexemes, and a name for each of its extensions.
#[derive(Clone, Copy)]
pub(crate) struct Reading<'t> {
    pub language: Language,
    pub text: &'t [u8],
    pub lexemes: &'t [Lexeme],
    pub fragments: &'t [Vec<u8>],
}

/// What a name in a body says.
#[derive(Clone, Copy, PartialEq, Eq)]
enum Says {
    Property,
    Child,
    NoProperty,
    NoChild,
}

impl<'t> Reading<'t> {
    /// The bodies that the lexemes before this one leave open.
    pub fn before(&self, alloc: Global, index: usize) -> Result<Bodies<'t>, AllocError> {
        let lexemes = self.lexemes.get(..index).unwrap_or(self.lexemes);
        Bodies::behind(alloc, self.text, lexemes, self.fragments)
    }

    /// The same of all lexemes.
    pub fn whole(&self, alloc: Global) -> Result<Bodies<'t>, AllocError> {
        Bodies::behind(alloc, self.text, self.lexemes, self.fragments)
    }

    /// What a refusal by this number at a lexeme is of, and what it meets.
    pub fn met(&self, alloc: Global, number: u8, index: usize) -> Result<Meeting, AllocError> {
        let other = match number {
            21 => return self.label_met(alloc, index),
            23 => self.phandle_of_node(alloc, index)?,
            24 => self.phandle_of_other(alloc, index)?,
            25 | 27 => self.name_met(alloc, number, index)?,
            _ => None,
        };
        Ok(Meeting {
            lexeme: index,
            other,
        })
    }

    /// Whether dtc's language takes a name that the profile refuses by 25: its body extends a node that names it otherwise.
    pub fn is_dtc(&self, alloc: Global, index: usize) -> Result<bool, AllocError> {
        let bodies = self.before(alloc, index)?;
        let Some(open) = bodies.open.last().copied() else {
            return Ok(false);
        };
        Ok(!is_first(&bodies, open) && self.removed_first(&bodies, open, index).is_none())
    }

    // The first label before this name or reference that another node has too: in the profile so far, in dtc's language when all is
    // read.
    fn label_met(&self, alloc: Global, index: usize) -> Result<Meeting, AllocError> {
        let bodies = match self.language {
            Language::Profile => self.before(alloc, index.saturating_add(2))?,
            Language::Dtc => self.whole(alloc)?,
        };
        for given in first_mark(self.lexemes, index)..index {
            if let Some(lexeme) = self.lexemes.get(given) {
                let other = bodies.other_bearer(named(self.text, *lexeme), given);
                if other.is_some() {
                    return Ok(Meeting {
                        lexeme: given,
                        other,
                    });
                }
            }
        }
        Ok(Meeting {
            lexeme: index,
            other: None,
        })
    }

    // ---- phandles

    // The other property of a node that gives it another phandle, where this one gives one.
    fn phandle_of_node(&self, alloc: Global, index: usize) -> Result<Option<usize>, AllocError> {
        let bodies = self.whole(alloc)?;
        let number = phandle_of(self.text, self.lexemes, index);
        let (Some(own), Some(number)) = (owner(&bodies, index), number) else {
            return Ok(None);
        };
        let other = bodies.phandles.iter().find(|given| {
            let (key, name) = *given;
            key.node == own.node
                && *name != index
                && phandle_of(self.text, self.lexemes, *name) != Some(number)
        });
        Ok(lexeme_of(other))
    }

    // The first property that gives another node the phandle that this one gives.
    fn phandle_of_other(&self, alloc: Global, index: usize) -> Result<Option<usize>, AllocError> {
        let bodies = self.whole(alloc)?;
        let number = phandle_of(self.text, self.lexemes, index);
        let (Some(own), Some(_)) = (owner(&bodies, index), number) else {
            return Ok(None);
        };
        let mut first: Option<usize> = None;
        for (key, name) in bodies.phandles.iter() {
            if key.node != own.node
                && bodies.stands_since(key.node, *name)
                && phandle_of(self.text, self.lexemes, *name) == number
                && first.is_none_or(|before| *name < before)
            {
                first = Some(*name);
            }
        }
        Ok(first)
    }

    // ---- names

    fn name_met(
        &self,
        alloc: Global,
        number: u8,
        index: usize,
    ) -> Result<Option<usize>, AllocError> {
        let bodies = self.before(alloc, index)?;
        match (self.kind(index), bodies.open.last().copied()) {
            (Some(Kind::Name), Some(open)) if number == 25 => Ok(self.doubled(
                &bodies, open, index,
            )),
            (Some(Kind::Reference | Kind::PathReference), None) => {
                Ok(self.fragment_met(&bodies, index))
            }
            _ => Ok(None),
        }
    }

    // The child of the root that has the name of the fragment which an extension makes.
    fn fragment_met(&self, bodies: &Bodies<'t>, index: usize) -> Option<usize> {
        if kind_before(self.lexemes, index) == Some(Kind::DeleteNode) {
            return None;
        }
        bodies.made_below_root(self.fragments.get(bodies.taken)?.as_slice())
    }

    // Where the same body defines what this name defines or removes; in dtc's language in a body that extends a node where that was
    // removed in the first one.
    fn doubled(&self, bodies: &Bodies<'t>, open: Open, index: usize) -> Option<usize> {
        if self.language == Language::Dtc && !is_first(bodies, open) {
            return self.removed_first(bodies, open, index);
        }
        let wanted = match self.says(index) {
            Says::Property | Says::NoProperty => Says::Property,
            Says::Child | Says::NoChild => Says::Child,
        };
        let first = self.first_in(open.brace, index, wanted)?;
        if first < index { Some(first) } else { None }
    }

    // Where the body with which a node began first removes what this name defines.
    fn removed_first(&self, bodies: &Bodies<'t>, open: Open, index: usize) -> Option<usize> {
        let wanted = match self.says(index) {
            Says::Property | Says::NoProperty => Says::NoProperty,
            Says::Child | Says::NoChild => Says::NoChild,
        };
        self.first_in(bodies.first_body(open.node)?, index, wanted)
    }

    // The first lexeme behind a brace that in its body says this of the same name.
    fn first_in(&self, brace: usize, index: usize, wanted: Says) -> Option<usize> {
        let name = named(self.text, *self.lexemes.get(index)?);
        let start = brace.saturating_add(1);
        let mut depth: usize = 0;
        for (i, lexeme) in self.lexemes.get(start..)?.iter().enumerate() {
            let found = start.saturating_add(i);
            match lexeme.kind {
                Kind::Brace => depth = depth.saturating_add(1),
                Kind::EndBrace if depth == 0 => return None,
                Kind::EndBrace => depth = depth.saturating_sub(1),
                Kind::Name if depth == 0 => {
                    if named(self.text, *lexeme) == name && self.says(found) == wanted {
                        return Some(found);
                    }
                }
                _ => {}
            }
        }
        None
    }

    fn kind(&self, index: usize) -> Option<Kind> {
        Some(self.lexemes.get(index)?.kind)
    }

    fn says(&self, index: usize) -> Says {
        match (
            kind_before(self.lexemes, index),
            self.kind(index.saturating_add(1)),
        ) {
            (Some(Kind::DeleteNode), _) => Says::NoChild,
            (Some(Kind::DeleteProperty), _) => Says::NoProperty,
            (_, Some(Kind::Brace)) => Says::Child,
            _ => Says::Property,
        }
    }

    /// Whether this is the name of a property that is defined.
    pub fn is_property(&self, index: usize) -> bool {
        self.kind(index) == Some(Kind::Name) && self.says(index) == Says::Property
    }
}

// Whether a body is the one with which its node began first.
fn is_first(bodies: &Bodies<'_>, open: Open) -> bool {
    bodies.first_body(open.node) == Some(open.brace)
}

// The node and name of the phandle that a lexeme names.
fn owner<'t>(bodies: &Bodies<'t>, index: usize) -> Option<Key<'t>> {
    let found = bodies.phandles.iter().find(|given| *given.1 == index)?;
    Some(*found.0)
}

fn lexeme_of(found: Option<(&Key<'_>, &usize)>) -> Option<usize> {
    let (_, name) = found?;
    Some(*name)
}
