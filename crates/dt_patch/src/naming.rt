//! Where a name stands in the strings.
ghost use Rattle.std.specs.Prelude.{◌≡◌};
ghost use Rattle.dt_blob.specs.Strings.{begins, ended, lowest_place};

use dt_tree::behind;

/// Whether a text begins with a name and a zero byte.
fn begins_with(text: &[u8], name: &[u8]) -> bool
    ensures { result ≡ begins (ended name.now) text.now }
{
    if text.len() <= name.len() {
        return false;
    }
    for at in 0..name.len() {
        if name[at] != text[at] {
            return false;
        }
    }
    text[name.len()] == 0
}

/// The lowest place at which a name stands with a zero byte behind it.
pub(crate) fn string_place(strings: &[u8], name: &[u8]) -> Option<usize>
    ensures { result ≡ lowest_place (ended name.now) strings.now }
{
    for at in 0..strings.len() {
        if begins_with(behind(strings, at), name) {
            return Some(at);
        }
    }
    None
}
