//! Places in the user's files, and bytes of a text.
ghost use Rattle.std.specs.Prelude.{◌≡◌, None};
ghost use Rattle.dt_text.specs.Include.UserLines.{given_place};

/// Bytes of a text: the first, and the one behind the last.
#[derive(Clone, Copy, Debug)]
pub struct Span {
    pub start: usize,
    pub end: usize,
}

/// A line of a file.
#[derive(Clone, Copy, Debug)]
pub struct Place<'t> {
    /// The file's name, as it stands in the line marker.
    pub file: &'t [u8],
    /// From 1.
    pub line: usize,
    /// The bytes of the text that are meant, where they are known.
    pub span: Option<Span>,
}

impl<'t> Place<'t> {
    /// The first line of a file.
    pub fn first(file: &'t [u8]) -> Place<'t>
        ensures place { given_place result ≡ record { file = file.now; line = 1 } }
        ensures span { result.span ≡ None }
    {
        Place {
            file,
            line: 1,
            span: None,
        }
    }
}
