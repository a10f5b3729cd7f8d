//! The tests of a blob's blocks, without memory.
ghost use Rattle.std.specs.Prelude.{◌≡◌, ◌∷◌, List, ℕ, Some, MatchResult, true, false};
ghost use Rattle.dt_blob.specs.Steps.NodeBuilders.{is_end};
ghost use Rattle.dt_blob.specs.Steps.Reading.{HasNoEnd, left, reserves_at, tokens_at, token_of};
ghost use Rattle.dt_blob.specs.Token.{end};
ghost use Rattle.dt_patch.specs.View.Private.Stages.{accepts, IsStructureFault};

use crate::view::stages::{Stage, advance};
use dt_blob::{BlobError, BlobToken, long, token};
use dt_tree::behind;

/// The bytes of an address and a size.
pub(crate) const RESERVATION_SIZE: usize = 16;

/// Refuses reserved memory whose list has no end, by `BadLayout`.
pub(crate) fn check_reserves(bytes: &[u8]) -> Result<(), BlobError>
    ensures { MatchResult result (λ _. (rs : List (ℕ × ℕ))
        × (reserves_at bytes.now ≡ Some rs)) (λ e. HasNoEnd e (reserves_at bytes.now)) }
{
    let mut rest = bytes;
    'pairs: loop {
        if rest.len() < RESERVATION_SIZE {
            return Err(BlobError::BadLayout);
        }
        let address = long(rest);
        let size = long(behind(rest, 8));
        if address == 0 && size == 0 {
            return Ok(());
        }
        rest = behind(rest, RESERVATION_SIZE);
    }
}

fn is_end(token: BlobToken<'_>) -> bool
    ensures { result ≡ is_end (token_of token.entry) }
{
    matches!(token, BlobToken::End)
}

// The block ends behind its root, and with its END where its size is told.
fn finish(stage: Stage, rest: &[u8], is_sized: bool) -> Result<(), BlobError>
    ensures { MatchResult result (λ _. accepts stage (end ∷ left is_sized rest.now) ≡ true)
        (λ e. (accepts stage (end ∷ left is_sized rest.now) ≡ false) × IsStructureFault e) }
{
    if is_sized && !rest.is_empty() {
        return Err(BlobError::BadToken);
    }
    match stage {
        Stage::Before => Err(BlobError::BadToken),
        Stage::Inside(_, _) => Err(BlobError::BadToken),
        Stage::Behind => Ok(()),
    }
}

/// Whether the structure block spells one root, its nodes within the limits and with lawful names, and its END.
pub(crate) fn check_structure(
    strings: &[u8],
    structure: &[u8],
    is_sized: bool,
) -> Result<(), BlobError>
    ensures { MatchResult result (λ _. accepts Stage.Before (tokens_at is_sized strings.now structure.now) ≡ true)
        (λ e. (accepts Stage.Before (tokens_at is_sized strings.now structure.now) ≡ false) × IsStructureFault e) }
{
    let mut stage = Stage::Before;
    let mut rest = structure;
    'tokens: loop {
        let (next, behind) = token(strings, rest)?;
        rest = behind;
        if is_end(next) {
            return finish(stage, rest, is_sized);
        }
        stage = advance(stage, next)?;
    }
}
