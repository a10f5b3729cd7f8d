//! Paths, and the URIs of files (RFC 8089; RFC 3986, section 2.1).

use std::alloc::{AllocError, Global};

const SCHEME: &[u8] = b"file://";

fn digit_of(c: u8) -> Option<u8> {
    match c {
        b'0'..=b'9' => Some(c.saturating_sub(b'0')),
        b'a'..=b'f' => Some(c.saturating_sub(b'a').saturating_add(10)),
        b'A'..=b'F' => Some(c.saturating_sub(b'A').saturating_add(10)),
        _ => None,
    }
}

/// The byte that `%` and two digits stand for.
fn escaped(s: &[u8]) -> Option<u8> {
    match s {
        [b'%', high, low, ..] => {
            let (high, low) = (digit_of(*high)?, digit_of(*low)?);
            Some((high & 15) << 4 | (low & 15))
        }
        _ => None,
    }
}

/// Bytes with their escapes replaced.
fn unescaped(alloc: Global, s: &[u8]) -> Result<Vec<u8>, AllocError> {
    let mut out = Vec::with_capacity(alloc, s.len())?;
    let mut passed: usize = 0;
    for (i, c) in s.iter().enumerate() {
        if passed > 0 {
            passed = passed.saturating_sub(1);
            continue;
        }
        match escaped(s.get(i..).unwrap_or(b"")) {
            Some(byte) => {
                out.push(byte)?;
                passed = 2;
            }
            None => out.push(*c)?,
        }
    }
    Ok(out)
}

/// The path of a URI: of `file://HOST/PATH` the path, of any other all of it.
pub(crate) fn path_of(alloc: Global, uri: &str) -> Result<Vec<u8>, AllocError> {
    let bytes = uri.as_bytes();
    if !bytes.starts_with(SCHEME) {
        return Vec::from_slice(alloc, bytes);
    }
    let rest = bytes.get(SCHEME.len()..).unwrap_or(b"");
    let start = rest.iter().position(|c| *c == b'/').unwrap_or(0);
    let path = unescaped(alloc, rest.get(start..).unwrap_or(b""))?;
    normal(alloc, path.as_slice())
}

fn is_plain(c: u8) -> bool {
    c.is_ascii_alphanumeric() || matches!(c, b'/' | b'-' | b'.' | b'_' | b'~')
}

const DIGITS: [u8; 16] = *b"0123456789ABCDEF";

/// The URI of a path.
pub(crate) fn uri_of(alloc: Global, path: &[u8]) -> Result<String, AllocError> {
    let mut uri = String::from_str(alloc, "file://")?;
    for c in path {
        if is_plain(*c) {
            uri.push(*c as char)?;
        } else {
            uri.push('%')?;
            uri.push(DIGITS[(*c >> 4) as usize] as char)?;
            uri.push(DIGITS[(*c & 15) as usize] as char)?;
        }
    }
    Ok(uri)
}

/// The folder of a path, with its last slash.
pub(crate) fn folder_of(path: &[u8]) -> &[u8] {
    match path.iter().rposition(|c| *c == b'/') {
        Some(at) => path.get(..=at).unwrap_or(b""),
        None => b"",
    }
}

/// A name in a folder.
pub(crate) fn joined(alloc: Global, folder: &[u8], name: &[u8]) -> Result<Vec<u8>, AllocError> {
    if name.first() == Some(&b'/') {
        return Vec::from_slice(alloc, name);
    }
    let mut path = Vec::from_slice(alloc, folder)?;
    if !folder.is_empty() && !folder.ends_with(b"/") {
        path.push(b'/')?;
    }
    path.extend_from_slice(name)?;
    Ok(path)
}

/// The parts of a path that count: none are `.`, and `..` takes back the one before it.
fn parts_of<'p>(alloc: Global, path: &'p [u8]) -> Result<Vec<&'p [u8]>, AllocError> {
    let mut parts: Vec<&'p [u8]> = Vec::new(alloc);
    for part in path.split(|c| *c == b'/') {
        if part.is_empty() || part == b".".as_slice() {
            continue;
        }
        let goes_up = part == b"..".as_slice();
        if goes_up && parts.last().is_some_and(|last| *last != b"..".as_slice()) {
            let _ = parts.pop();
        } else {
            parts.push(part)?;
        }
    }
    Ok(parts)
}

/// A path without `.`, `..` and doubled slashes, by its words alone.
pub(crate) fn normal(alloc: Global, path: &[u8]) -> Result<Vec<u8>, AllocError> {
    let parts = parts_of(alloc, path)?;
    let mut out = Vec::with_capacity(alloc, path.len())?;
    for (i, part) in parts.iter().enumerate() {
        if i > 0 || path.first() == Some(&b'/') {
            out.push(b'/')?;
        }
        out.extend_from_slice(*part)?;
    }
    Ok(out)
}
