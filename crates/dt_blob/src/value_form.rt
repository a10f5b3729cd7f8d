//! The form in which a property's value is printed.
ghost use Rattle.std.specs.Prelude.{◌≡◌, false};
ghost use Rattle.std.specs.List.{list_all};
ghost use Rattle.dt_blob.specs.SourceText.{is_printable, are_strings};
ghost use Rattle.dt_blob.specs.Steps.Printed.{form_of};

use crate::parts::first;
use dt_tree::behind;
use memchr::memchr;

/// Strings, cells of four bytes, or single bytes: the first that fits.
#[derive(Clone, Copy)]
pub(crate) enum ValueForm {
    Strings,
    Cells,
    Pairs,
}

fn is_printable(byte: u8) -> bool
    ensures { result ≡ is_printable byte }
{
    32 <= byte && byte <= 126
}

/// Looks at all bytes, so that several are looked at in one step.
fn are_printable(bytes: &[u8]) -> bool
    ensures { result ≡ list_all is_printable bytes.now }
{
    let mut are_so = true;
    for byte in bytes {
        are_so &= is_printable(*byte);
    }
    are_so
}

fn are_strings(value: &[u8]) -> bool
    ensures { result ≡ are_strings false value.now }
{
    let mut rest = value;
    while let Some(end) = memchr(0, rest) {
        if end == 0 {
            return false;
        }
        if !are_printable(first(rest, end)) {
            return false;
        }
        rest = behind(rest, end + 1);
    }
    rest.is_empty()
}

pub(crate) fn form_of(value: &[u8]) -> ValueForm
    ensures { result ≡ form_of value.now }
{
    if are_strings(value) {
        return ValueForm::Strings;
    }
    if value.len() % 4 == 0 {
        return ValueForm::Cells;
    }
    ValueForm::Pairs
}
