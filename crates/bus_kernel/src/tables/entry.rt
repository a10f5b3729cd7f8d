//! Entries of tables: `struct of_device_id` (Linux: `include/linux/mod_devicetable.h`).
ghost use Rattle.std.specs.Prelude.{◌≡◌, ◌≤◌, length, is_some, MatchOption};
ghost use Rattle.bus_kernel.specs.Tables.Entry.{are_zero, entry_string, is_empty_entry, is_printable, is_text, string_before, string_in};

fn is_printable(byte: u8) -> bool
    ensures { result ≡ is_printable byte }
{
    b'!' <= byte && byte <= b'~'
}

fn is_text(bytes: &[u8]) -> bool
    ensures { result ≡ is_text bytes.now }
{
    bytes.iter().all(|byte| is_printable(*byte))
}

fn are_zero(bytes: &[u8]) -> bool
    ensures { result ≡ are_zero bytes.now }
{
    bytes.iter().all(|byte| *byte == 0)
}

// What stands before a field's first zero byte.
fn string_before<'a>(field: &'a [u8], end: usize) -> Option<&'a [u8]>
    requires { end ≤ length field.now }
    ensures { MatchOption result
        (string_before field.now (Some end) ≡ None)
        (λ string. string_before field.now (Some end) ≡ Some string.now) }
{
    let (string, fill) = field.split_at(end);
    if end > 0 && is_text(string) && are_zero(fill) {
        Some(string)
    } else {
        None
    }
}

// The string that an array of characters holds.
fn string_in<'a>(field: &'a [u8]) -> Option<&'a [u8]>
    ensures { MatchOption result (string_in field.now ≡ None) (λ string. string_in field.now ≡ Some string.now) }
{
    match field.iter().position(|byte| *byte == 0) {
        Some(end) => string_before(field, end),
        None => None,
    }
}

/// The string of the entry that stands in front, where one stands there.
pub(crate) fn entry_string<'a>(bytes: &'a [u8]) -> Option<&'a [u8]>
    ensures { MatchOption result (entry_string bytes.now ≡ None) (λ string. entry_string bytes.now ≡ Some string.now) }
{
    if bytes.len() < 192 {
        return None;
    }
    let (names, rest) = bytes.split_at(64);
    if !are_zero(names) {
        return None;
    }
    let (compatible, _) = rest.split_at(128);
    string_in(compatible)
}

/// Whether an entry stands in front.
pub(crate) fn has_entry(bytes: &[u8]) -> bool
    ensures { result ≡ is_some (entry_string bytes.now) }
{
    match entry_string(bytes) {
        Some(_) => true,
        None => false,
    }
}

/// Whether the entry that stands in front is the empty one that ends a table.
pub(crate) fn is_empty_entry(bytes: &[u8]) -> bool
    ensures { result ≡ is_empty_entry bytes.now }
{
    if bytes.len() < 192 {
        return false;
    }
    let (strings, _) = bytes.split_at(192);
    are_zero(strings)
}
