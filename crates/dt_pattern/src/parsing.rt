//! Patterns out of their texts.
use crate::byte_set::ByteSet;
use crate::counting::count_at;
use crate::piece::{Pattern, Piece};
use std::alloc::{AllocError, AllocFailed, Global};

// A pattern that comes to more is refused.
const MAX_PIECES: usize = 100_000;

/// Why a text is no pattern.
#[derive(Clone, Copy, Debug, PartialEq, Eq)]
pub enum PatternError {
    NoMemory,
    Unknown,
}

impl From<AllocError> for PatternError {
    fn from(_error: AllocError) -> Self {
        PatternError::NoMemory
    }
}

impl<T: Drop> From<AllocFailed<T>> for PatternError {
    fn from(_error: AllocFailed<T>) -> Self {
        PatternError::NoMemory
    }
}

// A piece with the place of the first that it is made of: all between belong to it.
#[derive(Clone, Copy)]
struct Item {
    from: usize,
    piece: usize,
}

// What stands between brackets so far: the alternatives before, the items of this one, the last item apart, since a count may follow.
#[derive(Clone, Copy)]
struct Group {
    from: usize,
    either: Option<usize>,
    both: Option<usize>,
    last: Option<Item>,
}

impl Group {
    fn at(from: usize) -> Self {
        Self {
            from,
            either: None,
            both: None,
            last: None,
        }
    }
}

#[derive(Drop)]
struct Parser<'p> {
    source: &'p [u8],
    at: usize,
    pieces: Vec<Piece>,
    open: Vec<Group>,
    group: Group,
    // whether there are alternatives outside of all brackets
    has_choice: bool,
}

fn class_of(byte: u8) -> Option<ByteSet> {
    let mut set = ByteSet::NONE;
    match byte.to_ascii_lowercase() {
        b'd' => set.insert_range(b'0', b'9'),
        b'w' => {
            set.insert_range(b'a', b'z');
            set.insert_range(b'A', b'Z');
            set.insert_range(b'0', b'9');
            set.insert(b'_');
        }
        b's' => {
            set.insert(b' ');
            set.insert_range(9, 13);
        }
        _ => return None,
    }
    if byte.is_ascii_uppercase() {
        return Some(set.others());
    }
    Some(set)
}

// What a byte behind a backslash stands for.
fn escaped(byte: u8) -> Result<ByteSet, PatternError> {
    if let Some(class) = class_of(byte) {
        return Ok(class);
    }
    match byte {
        b'n' => Ok(ByteSet::of(b'\n')),
        b't' => Ok(ByteSet::of(b'\t')),
        b'r' => Ok(ByteSet::of(b'\r')),
        _ if byte.is_ascii_alphanumeric() => Err(PatternError::Unknown),
        _ => Ok(ByteSet::of(byte)),
    }
}

impl<'p> Parser<'p> {
    fn peek(&self, ahead: usize) -> Option<u8> {
        match self.at.checked_add(ahead) {
            None => None,
            Some(at) => self.source.get(at).copied(),
        }
    }

    fn skip(&mut self, count: usize) {
        self.at = self.at.saturating_add(count);
    }

    fn add(&mut self, piece: Piece) -> Result<usize, PatternError> {
        let place = self.pieces.len();
        if place >= MAX_PIECES {
            return Err(PatternError::Unknown);
        }
        self.pieces.push(piece)?;
        Ok(place)
    }

    // Puts the last item behind those before it.
    fn settle(&mut self) -> Result<(), PatternError> {
        let Some(last) = self.group.last else {
            return Ok(());
        };
        let both = match self.group.both {
            None => last.piece,
            Some(before) => self.add(Piece::Both(before, last.piece))?,
        };
        self.group.both = Some(both);
        self.group.last = None;
        Ok(())
    }

    fn put(&mut self, item: Item) -> Result<(), PatternError> {
        self.settle()?;
        self.group.last = Some(item);
        Ok(())
    }

    fn put_piece(&mut self, piece: Piece) -> Result<(), PatternError> {
        self.settle()?;
        let piece = self.add(piece)?;
        self.group.last = Some(Item { from: piece, piece });
        Ok(())
    }

    // Ends an alternative.
    fn end_choice(&mut self) -> Result<usize, PatternError> {
        self.settle()?;
        let sequence = match self.group.both {
            None => self.add(Piece::Empty)?,
            Some(both) => both,
        };
        let either = match self.group.either {
            None => sequence,
            Some(before) => self.add(Piece::Either(before, sequence))?,
        };
        self.group.either = Some(either);
        self.group.both = None;
        Ok(either)
    }

    // An equal item.
    fn copy(&mut self, item: Item) -> Result<usize, PatternError> {
        let start = self.pieces.len();
        let shift = start.saturating_sub(item.from);
        let mut place = start;
        for index in item.from..item.piece.saturating_add(1) {
            let Some(piece) = self.pieces.get(index).copied() else {
                return Err(PatternError::Unknown);
            };
            place = self.add(shifted(piece, shift))?;
        }
        Ok(place)
    }

    fn repeat(&mut self, least: usize, most: Option<usize>) -> Result<(), PatternError> {
        let Some(item) = self.group.last else {
            return Err(PatternError::Unknown);
        };
        let times = most.unwrap_or(least.saturating_add(1));
        let mut whole = None;
        for time in 0..times {
            let copy = if time == 0 {
                item.piece
            } else {
                self.copy(item)?
            };
            let piece = if time < least {
                copy
            } else if most.is_none() {
                self.add(Piece::Star(copy))?
            } else {
                self.add(Piece::Maybe(copy))?
            };
            whole = match whole {
                None => Some(piece),
                Some(before) => Some(self.add(Piece::Both(before, piece))?),
            };
        }
        let piece = match whole {
            None => self.add(Piece::Empty)?,
            Some(piece) => piece,
        };
        let from = item.from;
        self.group.last = Some(Item { from, piece });
        // a `?` behind a count asks for the shortest, which makes no difference here
        if self.peek(0) == Some(b'?') {
            self.skip(1);
        }
        Ok(())
    }

    fn open(&mut self) -> Result<(), PatternError> {
        if self.peek(0) == Some(b'?') {
            if self.peek(1) != Some(b':') {
                return self.look_behind();
            }
            self.skip(2);
        }
        self.settle()?;
        let group = self.group;
        self.open.push(group)?;
        self.group = Group::at(self.pieces.len());
        Ok(())
    }

    // `(?<!TEXT)`: the text is plain.
    fn look_behind(&mut self) -> Result<(), PatternError> {
        if self.peek(1) != Some(b'<') || self.peek(2) != Some(b'!') {
            return Err(PatternError::Unknown);
        }
        self.skip(3);
        let from = self.at;
        for _ in 0..self.source.len() {
            match self.peek(0) {
                Some(b')') => {
                    let to = self.at;
                    self.skip(1);
                    return self.put_piece(Piece::NotBehind { from, to });
                }
                Some(byte) if byte.is_ascii_alphanumeric() || byte == b',' || byte == b'-' => {
                    self.skip(1);
                }
                _ => return Err(PatternError::Unknown),
            }
        }
        Err(PatternError::Unknown)
    }

    fn close(&mut self) -> Result<(), PatternError> {
        let from = self.group.from;
        let piece = self.end_choice()?;
        match self.open.pop() {
            None => Err(PatternError::Unknown),
            Some(group) => {
                self.group = group;
                self.put(Item { from, piece })
            }
        }
    }

    // The bytes that an item of a class stands for; of a plain byte that byte alone.
    fn class_item(&mut self) -> Result<ByteSet, PatternError> {
        let Some(byte) = self.peek(0) else {
            return Err(PatternError::Unknown);
        };
        self.skip(1);
        if byte == b'\\' {
            let Some(behind) = self.peek(0) else {
                return Err(PatternError::Unknown);
            };
            self.skip(1);
            return escaped(behind);
        }
        let last = match self.peek(1) {
            Some(b'\\') => self.peek(2),
            last => last,
        };
        let is_range = self.peek(0) == Some(b'-') && last.is_some() && last != Some(b']');
        let mut set = ByteSet::of(byte);
        if is_range {
            self.skip(if self.peek(1) == Some(b'\\') { 3 } else { 2 });
            set.insert_range(byte, last.unwrap_or(byte));
        }
        Ok(set)
    }

    fn class(&mut self) -> Result<(), PatternError> {
        let is_negated = self.peek(0) == Some(b'^');
        if is_negated {
            self.skip(1);
        }
        let mut set = ByteSet::NONE;
        for index in 0..self.source.len() {
            if index > 0 && self.peek(0) == Some(b']') {
                self.skip(1);
                let set = if is_negated { set.others() } else { set };
                return self.put_piece(Piece::Set(set));
            }
            let more = self.class_item()?;
            set.insert_all(&more);
        }
        Err(PatternError::Unknown)
    }

    fn counted(&mut self) -> Result<(), PatternError> {
        let start = self.at.saturating_sub(1);
        match count_at(self.source, start)? {
            None => self.put_piece(Piece::Set(ByteSet::of(b'{'))),
            Some(count) => {
                self.at = count.end;
                self.repeat(count.least, count.most)
            }
        }
    }

    fn escape(&mut self) -> Result<(), PatternError> {
        let Some(byte) = self.peek(0) else {
            return Err(PatternError::Unknown);
        };
        self.skip(1);
        self.put_piece(Piece::Set(escaped(byte)?))
    }

    // Takes what begins with this byte.
    fn step(&mut self, byte: u8) -> Result<(), PatternError> {
        match byte {
            b'(' => self.open(),
            b')' => self.close(),
            b'|' => {
                if self.open.is_empty() {
                    self.has_choice = true;
                }
                self.end_choice()?;
                Ok(())
            }
            b'^' => self.put_piece(Piece::Start),
            b'$' => self.put_piece(Piece::End),
            b'.' => self.put_piece(Piece::Set(ByteSet::of(b'\n').others())),
            b'[' => self.class(),
            b'\\' => self.escape(),
            b'*' => self.repeat(0, None),
            b'+' => self.repeat(1, None),
            b'?' => self.repeat(0, Some(1)),
            b'{' => self.counted(),
            _ => self.put_piece(Piece::Set(ByteSet::of(byte))),
        }
    }
}

fn shifted(piece: Piece, shift: usize) -> Piece {
    match piece {
        Piece::Both(a, b) => Piece::Both(a.saturating_add(shift), b.saturating_add(shift)),
        Piece::Either(a, b) => Piece::Either(a.saturating_add(shift), b.saturating_add(shift)),
        Piece::Star(a) => Piece::Star(a.saturating_add(shift)),
        Piece::Maybe(a) => Piece::Maybe(a.saturating_add(shift)),
        _ => piece,
    }
}

// The byte behind a `^` where that one must stand.
fn first_of(source: &[u8]) -> Option<u8> {
    let byte = source.get(1).copied()?;
    if !byte.is_ascii_alphanumeric() {
        return None;
    }
    match source.get(2) {
        Some(b'*') | Some(b'?') | Some(b'{') => None,
        _ => Some(byte),
    }
}

fn set_next(next: &mut Vec<usize>, piece: usize, follower: usize) {
    if let Some(place) = next.get_mut(piece) {
        *place = follower;
    }
}

// The piece behind each, from the last one down: what is made of pieces stands behind them.
fn followers(alloc: Global, pieces: &[Piece]) -> Result<Vec<usize>, AllocError> {
    let count = pieces.len();
    let mut next = vec![in alloc; count; count]?;
    for back in 0..count {
        let place = count - 1 - back;
        let follower = next.get(place).copied().unwrap_or(count);
        match pieces[place] {
            Piece::Both(a, b) => {
                set_next(&mut next, a, b);
                set_next(&mut next, b, follower);
            }
            Piece::Either(a, b) => {
                set_next(&mut next, a, follower);
                set_next(&mut next, b, follower);
            }
            Piece::Star(a) => set_next(&mut next, a, place),
            Piece::Maybe(a) => set_next(&mut next, a, follower),
            _ => {}
        }
    }
    Ok(next)
}

impl<'p> Pattern<'p> {
    /// The pattern of a text.
    pub fn new(alloc: Global, source: &'p [u8]) -> Result<Self, PatternError> {
        let mut parser = Parser {
            source,
            at: 0,
            pieces: Vec::new(alloc),
            open: Vec::new(alloc),
            group: Group::at(0),
            has_choice: false,
        };
        for _ in 0..source.len() {
            let Some(byte) = parser.peek(0) else {
                break;
            };
            parser.skip(1);
            parser.step(byte)?;
        }
        let root = parser.end_choice()?;
        if !parser.open.is_empty() {
            return Err(PatternError::Unknown);
        }
        let next = followers(alloc, parser.pieces.as_slice())?;
        let is_anchored = source.first() == Some(&b'^') && !parser.has_choice;
        Ok(Self {
            source,
            pieces: parser.pieces,
            next,
            root,
            is_anchored,
            first: if is_anchored { first_of(source) } else { None },
        })
    }
}
