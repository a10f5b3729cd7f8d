//! Names of drivers and devices by their words.

use bstr::ByteSlice;

fn is_joint(byte: u8) -> bool {
    matches!(byte, b'-' | b'_' | b'.')
}

/// Whether two names are the same but for `-` and `_`, which a module writes in the place of its driver's `-`.
pub fn is_same_name(one: &[u8], other: &[u8]) -> bool {
    one.len() == other.len()
        && one
            .iter()
            .zip(other.iter())
            .all(|(a, b)| *a == *b || (is_joint(*a) && is_joint(*b)))
}

fn is_number(digits: &[u8]) -> bool {
    !digits.is_empty() && digits.iter().all(|c| c.is_ascii_digit())
}

/// A device's name without the number that is given to it: `gpio` of `gpio.1` and `gpio.1.auto`.
pub fn stem<'n>(name: &'n [u8]) -> &'n [u8] {
    let name = match name.strip_suffix(b".auto") {
        Some(front) => front,
        None => name,
    };
    match name.rsplit_once_str(b".") {
        Some((front, number)) if is_number(number) => front,
        _ => name,
    }
}

/// Whether some words of a name are these: `gpio` in `basic-mmio-gpio`.
pub fn has_words(name: &[u8], words: &[u8]) -> bool {
    let Some(start) = name.find(words) else {
        return false;
    };
    let (Some(front), Some(rest)) = (name.get(..start), name.get(start..)) else {
        return false;
    };
    let Some(behind) = rest.strip_prefix(words) else {
        return false;
    };
    let is_begun = front.last().is_none_or(|byte| is_joint(*byte));
    is_begun && behind.first().is_none_or(|byte| is_joint(*byte))
}
