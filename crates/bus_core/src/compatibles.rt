ghost use Rattle.std.specs.Prelude.{◌≡◌};

use dt_tree::Bytes;
use std::marker::Model;

/// The `compatible` strings that a driver matches.
#[derive(Debug, Drop)]
pub struct Compatibles {
    strings: Vec<Bytes>,
}

impl Model for Compatibles {
    ghost use Rattle.std.specs.Prelude.{List, ℕ};

    ghost Value = { List (List ℕ) };

    ghost view = { λ c. c.strings.items };
}

impl Compatibles {
    /// These strings, in their order.
    pub fn new(strings: Vec<Bytes>) -> Self
        ensures { result ≡ strings.items }
    {
        Self { strings }
    }

    /// The strings, in their order.
    pub fn as_slice(&self) -> &[Bytes]
        ensures { result.now ≡ self.now }
    {
        self.strings.as_slice()
    }
}
