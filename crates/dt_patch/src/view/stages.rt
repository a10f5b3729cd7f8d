//! How far the tokens of a structure block have come.
ghost use Rattle.std.specs.Prelude.{◌≡◌, Some, None, MatchResult};
ghost use Rattle.dt_blob.specs.Steps.Reading.{token_of};
ghost use Rattle.dt_patch.specs.View.Private.Stages.{begin_in, property_in, end_in, stage_after, IsStructureFault};

use dt_blob::{BlobError, BlobToken};
use dt_tree::{MAX_DEPTH, is_name};

/// Before the root, in a node, or behind the root. Of a node: how many are round it, and whether it has a child already.
#[derive(Clone, Copy)]
pub(crate) enum Stage {
    Before,
    Inside(usize, bool),
    Behind,
}

fn begin(stage: Stage, name: &[u8]) -> Result<Stage, BlobError>
    ensures { MatchResult result (λ s. begin_in stage name.now ≡ Some s)
        (λ e. (begin_in stage name.now ≡ None) × IsStructureFault e) }
{
    match stage {
        Stage::Before => {
            if !name.is_empty() {
                return Err(BlobError::BadTree);
            }
            Ok(Stage::Inside(0, false))
        }
        Stage::Inside(outer, _) => {
            if outer >= MAX_DEPTH {
                return Err(BlobError::BadTree);
            }
            if !is_name(name) {
                return Err(BlobError::BadTree);
            }
            Ok(Stage::Inside(outer + 1, false))
        }
        Stage::Behind => Err(BlobError::BadToken),
    }
}

fn property(stage: Stage, name: &[u8]) -> Result<Stage, BlobError>
    ensures { MatchResult result (λ s. property_in stage name.now ≡ Some s)
        (λ e. (property_in stage name.now ≡ None) × IsStructureFault e) }
{
    match stage {
        Stage::Before => Err(BlobError::BadToken),
        Stage::Inside(outer, has_child) => {
            if has_child {
                return Err(BlobError::PropertyAfterNode);
            }
            if !is_name(name) {
                return Err(BlobError::BadTree);
            }
            Ok(Stage::Inside(outer, has_child))
        }
        Stage::Behind => Err(BlobError::BadToken),
    }
}

fn end(stage: Stage) -> Result<Stage, BlobError>
    ensures { MatchResult result (λ s. end_in stage ≡ Some s) (λ e. (end_in stage ≡ None) × IsStructureFault e) }
{
    match stage {
        Stage::Before => Err(BlobError::BadToken),
        Stage::Inside(outer, _) => {
            if outer == 0 {
                return Ok(Stage::Behind);
            }
            Ok(Stage::Inside(outer - 1, true))
        }
        Stage::Behind => Err(BlobError::BadToken),
    }
}

/// One token more, before the END; a NOP changes nothing.
pub(crate) fn advance(stage: Stage, token: BlobToken<'_>) -> Result<Stage, BlobError>
    ensures { MatchResult result (λ s. stage_after stage (token_of token.entry) ≡ Some s)
        (λ e. (stage_after stage (token_of token.entry) ≡ None) × IsStructureFault e) }
{
    match token {
        BlobToken::BeginNode(name) => begin(stage, name),
        BlobToken::Property(name, _) => property(stage, name),
        BlobToken::EndNode => end(stage),
        BlobToken::Nop => Ok(stage),
        BlobToken::End => Err(BlobError::BadToken),
    }
}
