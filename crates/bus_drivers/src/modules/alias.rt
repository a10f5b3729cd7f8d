//! What an alias of a module says.

ghost use Rattle.std.specs.Prelude.{◌≡◌, true, false};
ghost use Rattle.std.specs.List.{list_any};
ghost use Rattle.bus_drivers.specs.Modules.Alias.{is_plain, is_wild, string_in};
ghost use Rattle.bus_drivers.specs.Modules.Said.{IsSaid};

use bus_plan::is_compatible;

/// What an alias says of the devices that its module matches.
#[derive(Clone, Copy, Debug)]
pub enum Said<'a> {
    /// It speaks of no devicetree.
    Nothing,
    /// Those with this `compatible` string.
    Matches(&'a [u8]),
    /// Something that a driver file can't say: a name or a type besides, or a wildcard in the string.
    More,
}

fn has_wildcard(string: &[u8]) -> bool
    ensures { result ≡ list_any is_wild string.now }
{
    string
        .iter()
        .any(|byte| *byte == b'*' || *byte == b'?' || *byte == b'[')
}

fn is_plain(string: &[u8]) -> bool
    ensures { result ≡ is_plain string.now }
{
    is_compatible(string) && !has_wildcard(string)
}

// The pattern without the end by which it matches further strings of the device.
fn string_in<'a>(pattern: &'a [u8]) -> &'a [u8]
    ensures { result.now ≡ string_in pattern.now }
{
    if let Some(string) = pattern.strip_suffix(b"C*") {
        return string;
    }
    match pattern.strip_suffix(b"*") {
        Some(string) => string,
        None => pattern,
    }
}

/// What an alias says.
pub fn said_of<'a>(alias: &'a [u8]) -> Said<'a>
    ensures { IsSaid alias.now result }
{
    if alias.strip_prefix(b"of:").is_none() {
        return Said::Nothing;
    }
    let Some(pattern) = alias.strip_prefix(b"of:N*T*C") else {
        return Said::More;
    };
    let string = string_in(pattern);
    if is_plain(string) {
        return Said::Matches(string);
    }
    Said::More
}
