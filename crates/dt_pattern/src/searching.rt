//! Texts by patterns.
use crate::piece::{Pattern, Piece};
use std::alloc::{AllocError, Global};

/// The memory that searches need. One is kept, and lent to each.
#[derive(Drop)]
pub struct Search {
    // the pieces at which the search stands before the next byte, and those behind it
    live: Vec<usize>,
    coming: Vec<usize>,
    // pieces that are still to be entered
    entered: Vec<usize>,
    // the place at which each piece was entered last
    marks: Vec<usize>,
    mark: usize,
}

impl Search {
    /// None so far.
    pub fn new(alloc: Global) -> Self {
        Self {
            live: Vec::new(alloc),
            coming: Vec::new(alloc),
            entered: Vec::new(alloc),
            marks: Vec::new(alloc),
            mark: 0,
        }
    }

    fn make_room(&mut self, count: usize) -> Result<(), AllocError> {
        self.live.clear();
        self.coming.clear();
        if self.marks.len() < count {
            self.marks.resize(count, 0)?;
        }
        Ok(())
    }

    // What comes is live from now on.
    fn turn(&mut self) {
        std::mem::swap(&mut self.live, &mut self.coming);
        self.coming.clear();
        self.mark = self.mark.wrapping_add(1);
    }

    // Has a piece entered, once at each place of the text.
    fn enter(&mut self, piece: usize) -> Result<(), AllocError> {
        let mark = self.mark;
        if let Some(place) = self.marks.get_mut(piece) {
            if *place == mark {
                return Ok(());
            }
            *place = mark;
        }
        self.entered.push(piece)?;
        Ok(())
    }
}

impl<'p> Pattern<'p> {
    fn is_behind(&self, text: &[u8], at: usize, from: usize, to: usize) -> bool {
        if from > to || to > self.source.len() || at > text.len() {
            return false;
        }
        text[..at].ends_with(&self.source[from..to])
    }

    // Enters the pieces that one leads to without a byte.
    fn pass(
        &self,
        search: &mut Search,
        piece: usize,
        text: &[u8],
        at: usize,
    ) -> Result<(), AllocError> {
        let next = self.next.get(piece).copied().unwrap_or(self.pieces.len());
        match self.pieces.get(piece).copied() {
            None => Ok(()),
            Some(Piece::Set(_)) => {
                search.coming.push(piece)?;
                Ok(())
            }
            Some(Piece::Empty) => search.enter(next),
            Some(Piece::Start) if at == 0 => search.enter(next),
            Some(Piece::Start) => Ok(()),
            Some(Piece::End) if text.len() <= at || &text[at..] == b"\n".as_slice() => {
                search.enter(next)
            }
            Some(Piece::End) => Ok(()),
            Some(Piece::NotBehind { from, to }) if self.is_behind(text, at, from, to) => Ok(()),
            Some(Piece::NotBehind { .. }) => search.enter(next),
            Some(Piece::Both(a, _)) => search.enter(a),
            Some(Piece::Either(a, b)) => {
                search.enter(a)?;
                search.enter(b)
            }
            Some(Piece::Star(a)) | Some(Piece::Maybe(a)) => {
                search.enter(a)?;
                search.enter(next)
            }
        }
    }

    // Enters a piece with all that it leads to; whether the pattern ends there.
    fn reach(
        &self,
        search: &mut Search,
        piece: usize,
        text: &[u8],
        at: usize,
    ) -> Result<bool, AllocError> {
        search.enter(piece)?;
        for _ in 0..self.pieces.len().saturating_add(2) {
            let Some(piece) = search.entered.pop() else {
                return Ok(false);
            };
            if piece >= self.pieces.len() {
                search.entered.clear();
                return Ok(true);
            }
            self.pass(search, piece, text, at)?;
        }
        Ok(false)
    }

    // Takes a byte at each live piece.
    fn advance(
        &self,
        search: &mut Search,
        byte: u8,
        text: &[u8],
        at: usize,
    ) -> Result<bool, AllocError> {
        for index in 0..search.live.len() {
            let piece = search.live.get(index).copied().unwrap_or(0);
            let next = self.next.get(piece).copied().unwrap_or(self.pieces.len());
            if let Some(Piece::Set(set)) = self.pieces.get(piece) {
                if set.contains(byte) && self.reach(search, next, text, at)? {
                    return Ok(true);
                }
            }
        }
        Ok(false)
    }

    /// Whether a part of the text fits the pattern.
    pub fn is_match(&self, search: &mut Search, text: &[u8]) -> Result<bool, AllocError> {
        if self.first.is_some() && self.first != text.first().copied() {
            return Ok(false);
        }
        search.make_room(self.pieces.len())?;
        search.turn();
        if self.reach(search, self.root, text, 0)? {
            return Ok(true);
        }
        for index in 0..text.len() {
            search.turn();
            if self.advance(search, text[index], text, index + 1)? {
                return Ok(true);
            }
            if !self.is_anchored && self.reach(search, self.root, text, index + 1)? {
                return Ok(true);
            }
            if self.is_anchored && search.coming.is_empty() {
                return Ok(false);
            }
        }
        Ok(false)
    }
}
