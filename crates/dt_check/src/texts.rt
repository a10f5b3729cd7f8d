//! Properties that are strings, lists of strings or one cell.
ghost use Rattle.std.specs.Prelude.{◌≡◌, ◌<◌, ◌==◌, length, position, IfSome};
ghost use Rattle.std.specs.Str.{bytes_eq};
ghost use Rattle.dt_check.specs.Texts.{is_string, is_string_list, has_string, string_fault, string_list_fault, cell_fault, not_string, not_string_list, not_cell};

use crate::fault::Fault;
use crate::here::Here;
use crate::message::Message;

// Where the first zero is.
fn zero_in(value: &[u8]) -> Option<usize>
    ensures place { result ≡ position (λ b. b == 0) value.now }
    ensures within { IfSome result (λ end. end < length value.now) }
{
    value.iter().position(|byte| *byte == 0)
}

/// Whether bytes are one string.
pub fn is_string(value: &[u8]) -> bool
    ensures { result ≡ is_string value.now }
{
    match zero_in(value) {
        None => false,
        Some(end) => end == value.len() - 1,
    }
}

/// Whether bytes are strings, one after the other.
pub fn is_string_list(value: &[u8]) -> bool
    ensures { result ≡ is_string_list value.now }
{
    match value.last() {
        None => true,
        Some(byte) => *byte == 0,
    }
}

/// Whether two texts have the same bytes: of two lengths no byte is looked at.
pub fn is_same(one: &[u8], other: &[u8]) -> bool
    ensures { result ≡ bytes_eq one.now other.now }
{
    if one.len() != other.len() {
        return false;
    }
    one == other
}

/// Whether a list of strings has one.
pub fn has_string(value: &[u8], wanted: &[u8]) -> bool
    ensures { result ≡ has_string wanted.now value.now }
{
    value
        .split(|byte| *byte == 0)
        .any(|string| is_same(string, wanted))
}

fn not_string<'t>(name: &'t [u8], value: &[u8]) -> Option<Fault<'t>>
    ensures { result ≡ not_string name.now value.now }
{
    if is_string(value) {
        return None;
    }
    Some(Fault::of_property(name, Message::NotAString))
}

/// What is wrong with a property of lists of strings.
pub fn not_string_list<'t>(name: &'t [u8], value: &[u8]) -> Option<Fault<'t>>
    ensures { result ≡ not_string_list name.now value.now }
{
    if is_string_list(value) {
        return None;
    }
    Some(Fault::of_property(name, Message::NotAStringList))
}

fn not_cell<'t>(name: &'t [u8], value: &[u8]) -> Option<Fault<'t>>
    ensures { result ≡ not_cell name.now value.now }
{
    if value.len() == 4 {
        return None;
    }
    Some(Fault::of_property(name, Message::NotACell))
}

/// The property of this name isn't a string.
pub fn string_fault<'t>(here: &Here<'_>, name: &'t [u8]) -> Option<Fault<'t>>
    ensures { result ≡ string_fault name.now here.now }
{
    match here.value(name) {
        None => None,
        Some(value) => not_string(name, value.as_slice()),
    }
}

/// The property of this name isn't a list of strings.
pub fn string_list_fault<'t>(here: &Here<'_>, name: &'t [u8]) -> Option<Fault<'t>>
    ensures { result ≡ string_list_fault name.now here.now }
{
    match here.value(name) {
        None => None,
        Some(value) => not_string_list(name, value.as_slice()),
    }
}

/// The property of this name isn't one cell.
pub fn cell_fault<'t>(here: &Here<'_>, name: &'t [u8]) -> Option<Fault<'t>>
    ensures { result ≡ cell_fault name.now here.now }
{
    match here.value(name) {
        None => None,
        Some(value) => not_cell(name, value.as_slice()),
    }
}
