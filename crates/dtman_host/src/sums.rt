//! How many bytes the files come to that a source takes in: each is kept as often as it is named.

use dtman_engine::MAX_BLOB_LEN;
use std::alloc::{AllocError, Global};
use std::collections::HashSet;
use std::hash::RandomState;

/// How often the bytes of its files a source may take in, where that is more than a blob may have.
const MAX_TIMES: u64 = 40;

/// Bytes of files so far.
#[derive(Drop)]
pub(crate) struct Sums {
    paths: HashSet<Vec<u8>, RandomState>,
    /// Each file once.
    distinct: u64,
    /// Each as often as it was named.
    taken: u64,
}

impl Sums {
    pub(crate) fn new(alloc: Global, hasher: RandomState) -> Sums {
        Sums {
            paths: HashSet::with_hasher(alloc, hasher),
            distinct: 0,
            taken: 0,
        }
    }

    /// Counts a file of so many bytes, and answers whether it may be kept beside the others.
    pub(crate) fn add(&mut self, path: Vec<u8>, len: usize) -> Result<bool, AllocError> {
        let len = len as u64;
        if self.paths.insert(path)? {
            self.distinct = self.distinct.saturating_add(len);
        }
        self.taken = self.taken.saturating_add(len);
        let most = self.distinct.saturating_mul(MAX_TIMES);
        Ok(self.taken <= most.max(MAX_BLOB_LEN as u64))
    }
}
