//! The words of a blob that may be broken, as they stand there (Devicetree Specification v0.4, chapter 5).
use dt_tree::{behind, cell_at};

/// The word at an offset.
pub fn word_at(bytes: &[u8], offset: usize) -> Option<u32> {
    if bytes.len() < 4 {
        return None;
    }
    if offset > bytes.len() - 4 {
        return None;
    }
    Some(cell_at(bytes, offset))
}

/// The bytes at an offset up to the next zero byte, or to the end.
pub fn text_at(bytes: &[u8], offset: usize) -> &[u8] {
    let text = behind(bytes, offset);
    match text.iter().position(|byte| *byte == 0) {
        Some(end) => text.split_at(end).0,
        None => text,
    }
}

/// So many bytes at an offset, where they are there.
pub fn bytes_at(bytes: &[u8], offset: usize, len: usize) -> Option<&[u8]> {
    let rest = behind(bytes, offset);
    if len > rest.len() {
        return None;
    }
    Some(rest.split_at(len).0)
}

/// Where the words behind so many bytes begin.
pub fn aligned(offset: usize) -> usize {
    let over = offset % 4;
    if over == 0 {
        return offset;
    }
    offset.saturating_add(4 - over)
}

/// A token of the structure block (section 5.4.1).
#[derive(Clone, Copy, Debug)]
pub(crate) enum Token<'b> {
    /// A node of this name.
    Begin(&'b [u8]),
    End,
    Property { name: &'b [u8], value: &'b [u8] },
    Nop,
    /// The end of the block.
    Finish,
}

/// A token, and where the next one begins.
#[derive(Clone, Copy, Debug)]
pub(crate) struct Found<'b> {
    pub(crate) token: Token<'b>,
    pub(crate) next: usize,
}

/// The token at an offset of a blob, whose strings begin at another; none where it is cut, or no token.
pub(crate) fn token_at(blob: &[u8], strings_at: usize, at: usize) -> Option<Found<'_>> {
    let behind = at.saturating_add(4);
    let (token, next) = match word_at(blob, at)? {
        1 => {
            let name = text_at(blob, behind);
            let end = behind.saturating_add(name.len()).saturating_add(1);
            (Token::Begin(name), aligned(end))
        }
        2 => (Token::End, behind),
        3 => {
            let len = word_at(blob, behind)? as usize;
            let name_at = word_at(blob, at.saturating_add(8))? as usize;
            let value_at = at.saturating_add(12);
            let value = bytes_at(blob, value_at, len)?;
            let name = text_at(blob, strings_at.saturating_add(name_at));
            let end = value_at.saturating_add(len);
            (Token::Property { name, value }, aligned(end))
        }
        4 => (Token::Nop, behind),
        9 => (Token::Finish, behind),
        _ => return None,
    };
    Some(Found { token, next })
}
