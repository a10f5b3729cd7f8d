//! What a token is.

/// What a token is.
#[derive(Clone, Copy, PartialEq, Eq, Debug)]
pub(crate) enum Kind {
    /// `/* .. */`
    Comment,
    /// `// ..`
    Remark,
    /// a line of the preprocessor's
    Directive,
    /// a string or a character literal
    Quoted,
    /// a name, a number, a label, a reference, operators, what stands in parentheses
    Word,
    /// a brace, a bracket, a semicolon, an equals sign
    Mark,
}
