//! Where in a token a byte stands, and where in a text a token.

/// Where a comment stands.
#[derive(Clone, Copy, PartialEq, Eq, Debug)]
pub(crate) enum Within {
    Text,
    /// a directive's line
    Line,
}

/// What the bytes of a token up to some place leave to come.
#[derive(Clone, Copy, PartialEq, Eq, Debug)]
pub(crate) enum State {
    /// behind the slash of `/*`
    CommentMark(Within),
    InComment(Within),
    /// behind the asterisk of `*/`
    CommentEnd(Within),
    /// in `// ..`; the flag says that a backslash stands before, or blanks behind one
    InRemark(bool),
    /// in a directive; the flag as above
    InDirective(bool),
    /// behind this quote
    InQuotes(u8),
    /// the same, behind a backslash
    Escaped(u8),
    /// behind `&`, in the path between braces
    InPath,
    /// behind a mark
    AtMark,
    /// behind the first byte of a mark of two
    InPair,
    /// in a word, with so many parentheses open
    InWord(usize),
}

/// What a byte does to a token.
#[derive(Clone, Copy, PartialEq, Eq, Debug)]
pub(crate) enum Step {
    /// It belongs to the token, which goes on.
    Go(State),
    /// It doesn't belong to the token.
    Stop,
    /// It is the token's last byte.
    Last,
}

/// How long a token is, and what was left to come at its end.
#[derive(Clone, Copy, PartialEq, Eq, Debug)]
pub(crate) struct Reached {
    pub len: usize,
    pub state: State,
}

/// Where in a text a token stands.
#[derive(Clone, Copy, PartialEq, Eq, Debug)]
pub(crate) struct Place {
    /// Only white space stands before it on its line.
    pub starts: bool,
    /// so many parentheses are open
    pub parens: usize,
}
