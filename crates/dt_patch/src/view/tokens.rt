//! The tokens from an offset on.
ghost use Rattle.std.specs.Prelude.{◌≡◌, MatchResult};
ghost use Rattle.dt_blob.specs.Holds.{is_nop};
ghost use Rattle.dt_blob.specs.Steps.Reading.{token_of};
ghost use Rattle.dt_patch.specs.View.Private.Reading.{Finds, Opens, Reads, StandsNothing};
ghost use Rattle.dt_patch.specs.View.Standing.{HasNoNode};

use crate::view::error::ViewError;
use crate::view::view::View;
use dt_blob::{BlobToken, token};
use dt_tree::behind;

/// A token that is no NOP, where it begins, and where it ends.
#[derive(Clone, Copy)]
pub(crate) struct Found<'a> {
    pub(crate) token: BlobToken<'a>,
    pub(crate) at: usize,
    pub(crate) next: usize,
}

/// The beginning of a node: its name, where its token begins, and where that ends.
#[derive(Clone, Copy)]
pub(crate) struct Begun<'a> {
    pub(crate) name: &'a [u8],
    pub(crate) at: usize,
    pub(crate) next: usize,
}

fn is_nop(token: BlobToken<'_>) -> bool
    ensures { result ≡ is_nop (token_of token.entry) }
{
    matches!(token, BlobToken::Nop)
}

impl<'a> View<'a> {
    /// The token at an offset, and the offset behind it.
    pub(crate) fn token(&self, from: usize) -> Result<(BlobToken<'a>, usize), ViewError>
        ensures { MatchResult result (λ x. Reads self.now from (token_of x.0) x.1)
            (λ e. StandsNothing self.now from × (e ≡ ViewError.BadOffset)) }
    {
        let rest = behind(self.structure, from);
        match token(self.strings, rest) {
            Ok((token, tail)) => Ok((token, self.structure.len() - tail.len())),
            Err(_) => Err(ViewError::BadOffset),
        }
    }

    /// The first token from an offset on that is no NOP.
    pub(crate) fn token_from(&self, from: usize) -> Result<Found<'a>, ViewError>
        ensures { MatchResult result (λ f. Finds self.now from (token_of f.token) f.at f.next)
            (λ e. StandsNothing self.now from × (e ≡ ViewError.BadOffset)) }
    {
        let mut at = from;
        'nops: loop {
            let (token, next) = self.token(at)?;
            if !is_nop(token) {
                return Ok(Found { token, at, next });
            }
            at = next;
        }
    }

    /// The beginning of the node at an offset, behind NOPs.
    pub(crate) fn begin(&self, from: usize) -> Result<Begun<'a>, ViewError>
        ensures { MatchResult result (λ b. Opens self.now from b.name.now b.at b.next)
            (λ e. HasNoNode self.now from × (e ≡ ViewError.BadOffset)) }
    {
        let found = self.token_from(from)?;
        match found.token {
            BlobToken::BeginNode(name) => Ok(Begun {
                name,
                at: found.at,
                next: found.next,
            }),
            BlobToken::EndNode => Err(ViewError::BadOffset),
            BlobToken::Property(_, _) => Err(ViewError::BadOffset),
            BlobToken::Nop => Err(ViewError::BadOffset),
            BlobToken::End => Err(ViewError::BadOffset),
        }
    }
}
