//! A statement's lines behind its first.
use crate::layout::gap::Sign;

/// A token's column in the text, and in what is made.
#[derive(Clone, Copy)]
pub(crate) struct Moved {
    pub old: usize,
    pub new: usize,
}

/// What a statement's further lines are aligned with.
#[derive(Clone, Copy)]
pub(crate) struct Statement {
    first: Moved,
    /// its first value, behind the equals sign
    value: Option<Moved>,
    /// the bracket that was opened last
    bracket: Moved,
    /// so many brackets are open
    brackets: usize,
    last: Sign,
}

impl Statement {
    pub(crate) fn new(first: Moved) -> Statement {
        Statement {
            first,
            value: None,
            bracket: first,
            brackets: 0,
            last: Sign::Other,
        }
    }

    pub(crate) fn is_in_cells(&self) -> bool {
        self.brackets > 0
    }

    /// The column of a line that begins with a token of this column: a value behind a comma stands below the first one, cells that
    /// stood right of their bracket still do, and all else moves as the statement does.
    pub(crate) fn column(&self, old: usize) -> usize {
        if let Some(value) = self.value
            && self.last == Sign::Comma
            && self.brackets == 0
        {
            return value.new;
        }
        if self.brackets > 0 && old == self.bracket.old.saturating_add(1) {
            return self.bracket.new.saturating_add(1);
        }
        old.saturating_add(self.first.new)
            .saturating_sub(self.first.old)
    }

    /// Goes on by a token.
    pub(crate) fn take(&mut self, sign: Sign, token: Moved) {
        if self.last == Sign::Equals && self.value.is_none() {
            self.value = Some(token);
        }
        if sign == Sign::CellsOpen {
            self.bracket = token;
            self.brackets = self.brackets.saturating_add(1);
        } else if sign == Sign::CellsClose {
            self.brackets = self.brackets.saturating_sub(1);
        }
        self.last = sign;
    }
}
