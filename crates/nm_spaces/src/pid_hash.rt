//! The hash function of pids.

use std::hash::{BuildHasher, FoldHasher, Hasher};

/// The hash function by which the process table finds a pid. A seed went into it once, so it costs no look-up anything,
/// and whoever does not know the seed cannot choose pids that collide.
#[derive(Clone, Copy)]
pub(crate) struct PidHash {
    seeded: FoldHasher,
}

impl PidHash {
    /// The hash function of a seed.
    pub(crate) fn new(seed: u64) -> Self {
        let mut seeded = FoldHasher::default();
        seeded.write_u64(seed);
        PidHash { seeded }
    }
}

impl BuildHasher for PidHash {
    type Hasher = FoldHasher;

    ghost build_hasher = { λ hash. hash.seeded };

    fn build_hasher(&self) -> FoldHasher {
        self.seeded
    }
}
