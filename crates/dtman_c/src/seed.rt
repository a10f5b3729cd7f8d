//! The caller's number as a source of chance.
ghost use Rattle.std.specs.Prelude.{◌≡◌, IfErr};
ghost use Rattle.dtman_engine.specs.Fault.{fault_value, no_memory};

use dtman_engine::Fault;
use std::hash::RandomState;
use std::io;
use std::random::RandomSource;

/// A source of the same eight bytes, again and again.
#[derive(Drop)]
struct Seed {
    bytes: [u8; 8],
}

impl RandomSource for Seed {
    fn fill_bytes(&self, buffer: &mut [u8]) -> io::Result<()> {
        for (at, byte) in buffer.iter_mut().enumerate() {
            *byte = self.bytes[at % 8];
        }
        Ok(())
    }
}

/// What hashes, made with that source. `RandomState` promises nothing of its source, so no clause says that the number is
/// the seed, nor that none is refused.
pub(crate) fn hasher_of(seed: u64) -> Result<RandomState, Fault>
    ensures { IfErr result (λ fault. fault_value fault ≡ no_memory) }
{
    let bytes = seed.to_le_bytes();
    RandomState::new(&Seed { bytes }).map_err(|_| Fault::no_memory())
}
