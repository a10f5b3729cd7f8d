//! Places of a view's blocks, whatever stands there.
ghost use Rattle.std.specs.Prelude.{◌≡◌, ◌⊎◌, drop};
ghost use Rattle.dt_tree.specs.TreeData.{TreeData};
ghost use Rattle.dt_blob.specs.Steps.Reading.{token_of};
ghost use Rattle.dt_patch.specs.View.Cells.{text_in};
ghost use Rattle.dt_patch.specs.View.Reserved.{reserved_size};
ghost use Rattle.dt_patch.specs.View.Shows.{Views};
ghost use Rattle.dtman_view_c.specs.Parts.{IsPart};
ghost use Rattle.dtman_view_c.specs.Raw.{IsToldToken, StandsNoToken, part_of, token_number};
ghost use Rattle.dtman_view_c.specs.Told.{bad_offset, done};

use crate::parts::ViewPart;
use crate::told::{ViewTold, done, failed, nothing, numbered};
use dt_blob::{BlobToken, token};
use dt_patch::view::{View, ViewError, text};
use dt_tree::behind;

fn token_number(token: BlobToken<'_>) -> u32
    ensures { result ≡ token_number (token_of token.entry) }
{
    match token {
        BlobToken::BeginNode(_) => 1,
        BlobToken::EndNode => 2,
        BlobToken::Property(_, _) => 3,
        BlobToken::Nop => 4,
        BlobToken::End => 9,
    }
}

/// The number of the token at an offset of the structure block, a NOP too, and the offset behind it.
#[unsafe(no_mangle)]
pub extern "C" fn dtman_view_token(view: &View<'_>, at: usize) -> ViewTold
    ensures { IsToldToken view.now at result ⊎ (StandsNoToken view.now at × (result ≡ bad_offset)) }
{
    let rest = behind(view.structure, at);
    match token(view.strings, rest) {
        Ok((token, tail)) => numbered(token_number(token), view.structure.len() - tail.len()),
        Err(_) => failed(ViewError::BadOffset),
    }
}

/// So many bytes of the structure block from an offset on.
#[unsafe(no_mangle)]
pub extern "C" fn dtman_view_raw<'a>(
    view: &View<'a>,
    at: usize,
    count: usize,
    part: &mut ViewPart<'a>,
) -> ViewTold
    ensures { IsPart (part_of view.now.structure.now at count) part.new result }
{
    if at > view.structure.len() {
        return nothing();
    }
    let rest = behind(view.structure, at);
    if count > rest.len() {
        return nothing();
    }
    part.bytes = &rest[..count];
    done(0)
}

/// The text at an offset of the strings.
#[unsafe(no_mangle)]
pub extern "C" fn dtman_view_text_at<'a>(
    view: &View<'a>,
    at: usize,
    part: &mut ViewPart<'a>,
) -> ViewTold
    ensures { IsPart (text_in (drop at view.now.strings.now)) part.new result }
{
    let rest = behind(view.strings, at);
    match text(rest) {
        Some(text) => {
            part.bytes = text;
            done(0)
        }
        None => nothing(),
    }
}

/// How many bytes the reserved memory has, with the pair of zeros at its end.
#[unsafe(no_mangle)]
pub extern "C" fn dtman_view_reserved_size(view: &View<'_>) -> ViewTold
    ensures { (tree : TreeData) → Views view.now tree → result ≡ done (reserved_size tree.reserves) }
{
    match view.reserved_size() {
        Some(size) => done(size),
        None => nothing(),
    }
}
