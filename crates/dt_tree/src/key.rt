//! Names as keys of maps.
ghost use Rattle.std.specs.Prelude.{◌∷◌, []};
ghost use Rattle.dt_tree.specs.Key.Writes.{same_writes};

use std::hash::{Hash, Hasher};

/// A name that the hasher takes in one piece. A slice is hashed byte by byte, with a call for each, which takes three times as long.
#[derive(Clone, Copy, PartialEq, Eq)]
pub struct KeyName<'t> {
    pub bytes: &'t [u8],
}

impl Hash for KeyName<'_> {
    ghost hash_input = { λ name. name.bytes.now ∷ [] };

    ghost respects_eq = { λ x y same. same_writes x.bytes.now y.bytes.now same };

    fn hash<H: Hasher>(&self, state: &mut H) {
        state.write(self.bytes);
    }
}
