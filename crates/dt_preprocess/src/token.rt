//! Tokens.

use crate::refusal::Place;
use crate::words::Kind;

/// What stands before a token: white space; an edge of an expansion, where a space is put if both sides would be read as another
/// token; white space where the token is spelled.
#[derive(Clone, Copy)]
pub(crate) struct Space {
    pub white: bool,
    pub edge: bool,
    pub own: bool,
}

impl Space {
    pub(crate) const NONE: Space = Space {
        white: false,
        edge: false,
        own: false,
    };

    pub(crate) const EDGE: Space = Space {
        white: false,
        edge: true,
        own: false,
    };

    pub(crate) const WHITE: Space = Space {
        white: true,
        edge: false,
        own: true,
    };

    /// Both.
    pub(crate) fn and(self, other: Space) -> Space {
        Space {
            white: self.white || other.white,
            edge: self.edge || other.edge,
            own: self.own || other.own,
        }
    }

    /// The white space that a place hands to the first token there, which keeps its own.
    pub(crate) fn handed(self, own: bool) -> Space {
        Space {
            white: self.white,
            edge: true,
            own,
        }
    }

    /// White space only where the token is spelled so.
    pub(crate) fn spelled(self) -> Space {
        Space {
            white: self.own,
            edge: true,
            own: self.own,
        }
    }
}

/// A token: its word and kind, what stands before it, where it is spelled, and the macros as which it isn't read.
#[derive(Clone, Copy)]
pub(crate) struct Token {
    pub word: usize,
    pub kind: Kind,
    pub space: Space,
    pub place: Place,
    pub hide: usize,
}

impl Token {
    /// The token with other white space.
    pub(crate) fn after(self, space: Space) -> Token {
        Token { space, ..self }
    }
}
