//! The texts of fixups and symbols.
ghost use Rattle.std.specs.Prelude.{◌≡◌, ◌∷◌, ◌++◌, ◌==◌, [], Some, None, IfSome, MatchOption};
ghost use Rattle.std.specs.List.{position};
ghost use Rattle.dt_tree.specs.Path.{is_path};
ghost use Rattle.dt_source.specs.OverlayMeaning.Texts.{ended_path, offset_in, unended};
ghost use Rattle.dt_overlay.specs.Fixup.Private.Fixing.{IsFirstPart, IsSiteText};
ghost use Rattle.dt_overlay.specs.Fixup.Texts.{IsPathText};

use dt_tree::{is_name, is_path};

/// A fixup site as a text names it: the path of a node, the name of a property, an offset in its value.
#[derive(Clone, Copy)]
pub(crate) struct SiteText<'t> {
    pub path: &'t [u8],
    pub name: &'t [u8],
    pub offset: usize,
}

/// The bytes before a zero byte that is the last.
pub(crate) fn unended(value: &[u8]) -> Option<&[u8]>
    ensures { MatchOption result (unended value.now ≡ None) (λ texts. unended value.now ≡ Some texts.now) }
{
    match value.split_last() {
        None => None,
        Some((last, texts)) => { if *last == 0 { Some(texts) } else { None } }
    }
}

/// The path in a zero-ended string.
pub fn ended_path(value: &[u8]) -> Option<&[u8]>
    ensures path { IsPathText (ended_path value.now) result }
    // its text is the value without the zero byte, so `/` for the root
    ensures text { IfSome result (λ path. value.now ≡ path.now ++ 0 ∷ []) }
{
    match unended(value) {
        None => None,
        Some(text) => { if is_path(text) { Some(text) } else { None } }
    }
}

/// The number that 1 to 10 decimal digits spell.
fn offset_in(digits: &[u8]) -> Option<usize>
    ensures { result ≡ offset_in digits.now }
{
    if digits.is_empty() {
        return None;
    }
    if digits.len() > 10 {
        return None;
    }
    let mut number = 0;
    for digit in digits {
        if !digit.is_ascii_digit() {
            return None;
        }
        number = number * 10 + (*digit - b'0') as usize;
    }
    Some(number)
}

fn colon_place(text: &[u8]) -> Option<usize>
    ensures { result ≡ position (λ b. b == 58) text.now }
{
    text.iter().position(|byte| *byte == b':')
}

/// What stands before the first colon, and what behind it.
fn first_part(text: &[u8]) -> Option<(&[u8], &[u8])>
    ensures { IsFirstPart text.now result }
{
    let Some(end) = colon_place(text) else {
        return None;
    };
    Some((&text[..end], &text[end + 1..]))
}

/// The fixup site that a text `path:property:offset` names.
pub(crate) fn site_in<'t>(text: &'t [u8]) -> Option<SiteText<'t>>
    ensures { IsSiteText text.now result }
{
    let Some((path, behind)) = first_part(text) else {
        return None;
    };
    let Some((name, digits)) = first_part(behind) else {
        return None;
    };
    if let Some(_) = first_part(digits) {
        return None;
    }
    let Some(offset) = offset_in(digits) else {
        return None;
    };
    if !is_path(path) {
        return None;
    }
    if !is_name(name) {
        return None;
    }
    Some(SiteText { path, name, offset })
}
