//! What a file is, by its first bytes.

/// How much of a text is looked at.
const FRONT: usize = 65536;

/// What a file is that is no blob, where its bytes say so.
pub(crate) fn nature_of_no_blob(bytes: &[u8]) -> Option<&'static str> {
    if bytes.is_empty() {
        return Some("the file is empty");
    }
    if let Some(words) = packed(bytes) {
        return Some(words);
    }
    let front = bytes.get(..FRONT).unwrap_or(bytes);
    if front.split(|b| *b == b'\n').any(|line| is_version(line)) {
        return Some("it is a source: `dtman compile` makes a blob of it");
    }
    if front.iter().all(|b| is_of_text(*b)) {
        return Some("it is text");
    }
    None
}

/// What a file is that is no text, where its bytes say so.
pub(crate) fn nature_of_no_text(bytes: &[u8]) -> Option<&'static str> {
    match bytes {
        [0xd0, 0x0d, 0xfe, 0xed, ..] => Some("it is a blob: `dtman dump` makes a source of it"),
        _ => packed(bytes),
    }
}

// Files that are neither, by the magic numbers of their formats.
fn packed(bytes: &[u8]) -> Option<&'static str> {
    match bytes {
        [0x7f, b'E', b'L', b'F', ..] => Some("it is an ELF file"),
        [0x1f, 0x8b, ..] => Some("it is packed by gzip"),
        [0xfd, b'7', b'z', b'X', b'Z', 0, ..] => Some("it is packed by xz"),
        [0x28, 0xb5, 0x2f, 0xfd, ..] => Some("it is packed by zstd"),
        [b'B', b'Z', b'h', ..] => Some("it is packed by bzip2"),
        [0x27, 0x05, 0x19, 0x56, ..] => Some("it is an image of U-Boot (uImage)"),
        [0xd7, 0xb7, 0xab, 0x1e, ..] => Some("it is an image of many blobs (DTBO of Android)"),
        [0xed, 0xfe, 0x0d, 0xd0, ..] => Some("the bytes of its words stand the other way round"),
        _ => None,
    }
}

// Whether a line begins with the version of a source.
fn is_version(line: &[u8]) -> bool {
    let begin = line
        .iter()
        .position(|b| *b != b' ' && *b != b'\t')
        .unwrap_or(0);
    line.get(begin..)
        .unwrap_or(line)
        .starts_with(b"/dts-v1/".as_slice())
}

fn is_of_text(byte: u8) -> bool {
    matches!(byte, b' '..=b'~' | b'\t' | b'\n' | b'\r')
}
