ghost use Rattle.std.specs.Prelude.{◌≡◌, IfOk};

use crate::bytes::Bytes;
use crate::name::Name;
use std::alloc::{AllocError, Global};

/// A name and its value.
#[derive(Debug, Drop)]
pub struct Property {
    pub name: Name,
    pub value: Bytes,
}

impl Property {
    /// An equal property.
    pub fn copy(&self, alloc: Global) -> Result<Self, AllocError>
        ensures { IfOk result (λ property. property ≡ self.now) }
    {
        Ok(Self {
            name: self.name.copy(alloc)?,
            value: self.value.copy(alloc)?,
        })
    }
}
