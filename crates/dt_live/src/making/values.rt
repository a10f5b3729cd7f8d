//! What the values of a tree are made of.
ghost use Rattle.std.specs.Prelude.{◌≡◌, List, ℕ, IfOk, OnOk};
ghost use Rattle.dt_live.specs.Making.Made.{Made, IsNext};

use dt_tree::Bytes;
use std::alloc::{AllocError, Global};

/// Makes the bytes of a live tree's values, in the order of the walk, and says which nodes get a phandle.
pub trait Values<V> {
    // the tree that is made
    ghost made: { Self → Made };

    // what calls ask
    ghost is_ready: { Self → Type 0 };

    // the bytes of the values that come next
    ghost bytes_of: { Self → List V → List (List ℕ) };

    /// The bytes of the next value.
    fn next(&mut self, alloc: Global, value: V) -> Result<Bytes, AllocError>
        requires { is_ready self.old }
        ensures ready { OnOk result (is_ready self.new) }
        ensures made { OnOk result (made self.new ≡ made self.old) }
        ensures bytes { IfOk result (λ bytes. IsNext (bytes_of self.old) (bytes_of self.new) value bytes) };

    /// The phandle that a node gets behind its other properties.
    fn new_phandle(&self, node: usize) -> Option<u32>
        requires { is_ready self.now }
        ensures { result ≡ (made self.now).new_phandle node };
}
