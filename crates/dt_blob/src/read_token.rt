//! The tokens of the structure block, one by one.
ghost use Rattle.std.specs.Prelude.{◌≡◌, ◌≤◌, ◌<◌, ◌^◌, length, IfOk, IfSome, OnErr, None};
ghost use Rattle.dt_blob.specs.Steps.Reading.{Gives, token_of, zero_in, padded, begin_at, string_at, value_at, property_at, token_at};

use crate::error::BlobError;
use crate::parts::{first, word};
use crate::read_error::{ReadError, Wanted, refused};
use crate::token_words::{BEGIN_NODE_WORD, END_NODE_WORD, END_WORD, NOP_WORD, PROPERTY_WORD};
use bstr::ByteSlice;
use dt_tree::behind;

/// A token whose texts the blob lends.
#[derive(Clone, Copy)]
pub enum BlobToken<'a> {
    BeginNode(&'a [u8]),
    EndNode,
    Property(&'a [u8], &'a [u8]),
    Nop,
    End,
}

// The bytes of a word.
const WORD: usize = 4;

// A length with the padding up to a multiple of four.
fn padded(length: usize) -> usize
    requires { length < 2 ^ 63 }
    ensures value { result ≡ padded length }
    ensures enough { length ≤ result }
{
    length.div_ceil(4) * 4
}

fn zero_place(bytes: &[u8]) -> Option<usize>
    ensures place { result ≡ zero_in bytes.now }
    ensures inside { IfSome result (λ k. k < length bytes.now) }
{
    bytes.find_byte(0)
}

fn begin(bytes: &[u8]) -> Result<(BlobToken<'_>, &[u8]), ReadError>
    ensures gives { Gives (λ x. (token_of x.0, x.1.now)) result (begin_at bytes.now) }
    ensures shorter { IfOk result (λ x. length x.1.now ≤ length bytes.now) }
    ensures none { OnErr result (begin_at bytes.now ≡ None) }
{
    let Some(end) = zero_place(bytes) else {
        return Err(refused(BlobError::BadString, WORD, Wanted::NodeNameEnd));
    };
    let size = padded(end + 1);
    if bytes.len() < size {
        return Err(refused(BlobError::BadToken, WORD, Wanted::NodeNameInBlock));
    }
    Ok((BlobToken::BeginNode(first(bytes, end)), behind(bytes, size)))
}

fn string(strings: &[u8], place: usize) -> Result<&[u8], ReadError>
    ensures gives { Gives (λ s. s.now) result (string_at strings.now place) }
    ensures none { OnErr result (string_at strings.now place ≡ None) }
{
    if strings.len() < place {
        return Err(refused(BlobError::BadString, 2 * WORD, Wanted::NamePlace));
    }
    let rest = behind(strings, place);
    match zero_place(rest) {
        None => Err(refused(BlobError::BadString, 2 * WORD, Wanted::NameEnd)),
        Some(end) => Ok(first(rest, end)),
    }
}

fn value<'a>(
    strings: &'a [u8],
    size: usize,
    place: usize,
    bytes: &'a [u8],
) -> Result<(BlobToken<'a>, &'a [u8]), ReadError>
    requires { size < 2 ^ 32 }
    ensures gives { Gives (λ x. (token_of x.0, x.1.now)) result (value_at strings.now size place bytes.now) }
    ensures shorter { IfOk result (λ x. length x.1.now ≤ length bytes.now) }
    ensures none { OnErr result (value_at strings.now size place bytes.now ≡ None) }
{
    let end = padded(size);
    if bytes.len() < end {
        return Err(refused(BlobError::BadToken, WORD, Wanted::ValueInBlock));
    }
    let name = string(strings, place)?;
    Ok((
        BlobToken::Property(name, first(bytes, size)),
        behind(bytes, end),
    ))
}

fn property<'a>(strings: &'a [u8], bytes: &'a [u8]) -> Result<(BlobToken<'a>, &'a [u8]), ReadError>
    ensures gives { Gives (λ x. (token_of x.0, x.1.now)) result (property_at strings.now bytes.now) }
    ensures shorter { IfOk result (λ x. length x.1.now ≤ length bytes.now) }
    ensures none { OnErr result (property_at strings.now bytes.now ≡ None) }
{
    if bytes.len() < 8 {
        return Err(refused(BlobError::BadToken, WORD, Wanted::PropertyWords));
    }
    let size = word(bytes) as usize;
    let place = word(behind(bytes, 4)) as usize;
    value(strings, size, place, behind(bytes, 8))
}

/// The token at the front of the block, and what follows it.
///
/// A cut token is `BadToken`, a name without its zero byte `BadString`; the place is counted from the token's first byte.
#[tactic(auto, unfolding(crate::specs::Steps::Reading::token_at))]
pub fn token<'a>(strings: &'a [u8], bytes: &'a [u8]) -> Result<(BlobToken<'a>, &'a [u8]), ReadError>
    ensures gives { Gives (λ x. (token_of x.0, x.1.now)) result (token_at strings.now bytes.now) }
    ensures shorter { IfOk result (λ x. length x.1.now < length bytes.now) }
    ensures none { OnErr result (token_at strings.now bytes.now ≡ None) }
{
    if bytes.len() < 4 {
        return Err(refused(BlobError::BadToken, 0, Wanted::TokenInBlock));
    }
    let rest = behind(bytes, 4);
    match word(bytes) {
        BEGIN_NODE_WORD => begin(rest),
        END_NODE_WORD => Ok((BlobToken::EndNode, rest)),
        PROPERTY_WORD => property(strings, rest),
        NOP_WORD => Ok((BlobToken::Nop, rest)),
        END_WORD => Ok((BlobToken::End, rest)),
        _ => Err(refused(BlobError::BadToken, 0, Wanted::TokenWord)),
    }
}
