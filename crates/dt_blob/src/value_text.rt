//! A property's value as it stands in a source.
ghost use Rattle.std.specs.Prelude.{◌≡◌, ◌==◌, ◌+◌, ◌*◌, ◌≤◌, ◌++◌, ◌∷◌, [], true, false, length, OnOk, IfSome, MatchOption};
ghost use Rattle.dt_blob.specs.Blob.{limit};
ghost use Rattle.dt_blob.specs.SourceText.{hex_digit, hex_of, space, strings_text, cells_text, pairs_text, value_text};
ghost use Rattle.dt_blob.specs.Steps.Printed.{form_of, is_mark, mark_text};

use crate::parts::first;
use crate::value_form::ValueForm;
use dt_tree::behind;
use memchr::memchr3;
use std::alloc::AllocError;

fn hex_digit(number: u8) -> u8
    requires { number ≤ 15 }
    ensures { result ≡ hex_digit number }
{
    if number < 10 {
        b'0' + number
    } else {
        b'a' - 10 + number
    }
}

/// Two lower-case digits a byte.
pub(crate) fn put_hex(out: &mut Vec<u8>, bytes: &[u8]) -> Result<(), AllocError>
    ensures { OnOk result (out.new.items ≡ out.old.items ++ hex_of bytes.now) }
{
    for byte in bytes {
        out.push(hex_digit(*byte / 16))?;
        out.push(hex_digit(*byte % 16))?;
    }
    Ok(())
}

/// The bytes that are printed as they are, the mark that ends them, and what is behind it.
fn split_mark(text: &[u8]) -> Option<(&[u8], u8, &[u8])>
    ensures text { MatchOption result (strings_text false text.now ≡ text.now) (λ x. strings_text false text.now
        ≡ x.0.now ++ (mark_text x.1 (length x.2.now == 0) ++ strings_text false x.2.now)) }
    ensures mark { IfSome result (λ x. is_mark x.1 ≡ true) }
    ensures len { IfSome result (λ x. length text.now ≡ length x.0.now + 1 + length x.2.now) }
{
    let Some(place) = memchr3(0, b'"', b'\\', text) else {
        return None;
    };
    Some((first(text, place), text[place], behind(text, place + 1)))
}

fn put_mark(out: &mut Vec<u8>, mark: u8, is_last: bool) -> Result<(), AllocError>
    requires { is_mark mark ≡ true }
    ensures { OnOk result (out.new.items ≡ out.old.items ++ mark_text mark is_last) }
{
    if mark != 0 {
        return out.extend_from_slice(&[b'\\', mark]);
    }
    if is_last {
        return out.extend_from_slice(b"\"");
    }
    out.extend_from_slice(b"\", \"")
}

fn put_strings(out: &mut Vec<u8>, value: &[u8]) -> Result<(), AllocError>
    ensures { OnOk result (out.new.items ≡ out.old.items ++ 34 ∷ strings_text false value.now) }
{
    out.push(b'"')?;
    let mut rest = value;
    while let Some((plain, mark, behind)) = split_mark(rest) {
        out.extend_from_slice(plain)?;
        put_mark(out, mark, behind.is_empty())?;
        rest = behind;
    }
    out.extend_from_slice(rest)
}

fn put_space(out: &mut Vec<u8>, later: bool) -> Result<(), AllocError>
    ensures { OnOk result (out.new.items ≡ out.old.items ++ space later) }
{
    if later {
        out.push(b' ')?;
    }
    Ok(())
}

fn put_cells(out: &mut Vec<u8>, value: &[u8]) -> Result<(), AllocError>
    ensures { OnOk result (out.new.items ≡ out.old.items ++ 60 ∷ (cells_text false value.now ++ 62 ∷ [])) }
{
    out.push(b'<')?;
    let mut later = false;
    for cell in 0..value.len() / 4 {
        put_space(out, later)?;
        out.extend_from_slice(b"0x")?;
        put_hex(out, &value[4 * cell..4 * cell + 4])?;
        later = true;
    }
    out.push(b'>')?;
    Ok(())
}

fn put_pairs(out: &mut Vec<u8>, value: &[u8]) -> Result<(), AllocError>
    ensures { OnOk result (out.new.items ≡ out.old.items ++ 91 ∷ (pairs_text false value.now ++ 93 ∷ [])) }
{
    out.push(b'[')?;
    let mut later = false;
    for byte in value {
        put_space(out, later)?;
        put_hex(out, &[*byte])?;
        later = true;
    }
    out.push(b']')?;
    Ok(())
}

/// A value in its form.
pub(crate) fn put_value(out: &mut Vec<u8>, form: ValueForm, value: &[u8]) -> Result<(), AllocError>
    requires { form ≡ form_of value.now }
    ensures { OnOk result (out.new.items ≡ out.old.items ++ value_text value.now) }
{
    match form {
        ValueForm::Strings => put_strings(out, value),
        ValueForm::Cells => put_cells(out, value),
        ValueForm::Pairs => put_pairs(out, value),
    }
}

fn mark_len(mark: u8, is_last: bool) -> usize
    requires { is_mark mark ≡ true }
    ensures value { result ≡ length (mark_text mark is_last) }
    ensures bound { result ≤ 4 }
{
    if mark != 0 {
        return 2;
    }
    if is_last {
        return 1;
    }
    4
}

fn strings_len(value: &[u8]) -> usize
    requires { length value.now ≤ limit }
    ensures value { result ≡ length (strings_text false value.now) }
    ensures bound { result ≤ 5 * length value.now }
{
    let mut len = 0;
    let mut rest = value;
    while let Some((plain, mark, behind)) = split_mark(rest) {
        len += plain.len() + mark_len(mark, behind.is_empty());
        rest = behind;
    }
    len + rest.len()
}

/// The length of the text of a value in its form.
pub(crate) fn value_len(form: ValueForm, value: &[u8]) -> usize
    requires form { form ≡ form_of value.now }
    requires fits { length value.now ≤ limit }
    ensures value { result ≡ length (value_text value.now) }
    ensures bound { result ≤ 5 * length value.now + 1 }
{
    match form {
        ValueForm::Strings => 1 + strings_len(value),
        ValueForm::Cells => value.len() / 4 * 11 + 1,
        ValueForm::Pairs => value.len() * 3 + 1,
    }
}
