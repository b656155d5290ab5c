//! Numbers that look random, the same ones in each run.

/// A linear generator, of whose states the upper bits count.
#[derive(Drop)]
pub struct Numbers {
    pub state: u64,
}

impl Numbers {
    /// One of the numbers below this one; 0 where there is none.
    pub fn below(&mut self, limit: u64) -> u64 {
        self.state = self
            .state
            .wrapping_mul(6_364_136_223_846_793_005)
            .wrapping_add(1_442_695_040_888_963_407);
        if limit == 0 {
            return 0;
        }
        (self.state >> 33) % limit
    }

    /// A size in bytes: of a small piece mostly, of one that needs a block of its own sometimes, and 0 now and then.
    pub fn size(&mut self) -> u64 {
        match self.below(16) {
            0 => 0,
            1 => 300_000_000,
            2 => self.below(100_000_000),
            _ => self.below(1_000_000),
        }
    }

    /// An alignment in bytes, now and then one that is no power of two.
    pub fn alignment(&mut self) -> u64 {
        match self.below(8) {
            0 => 3,
            1 => 65536,
            2 => 4096,
            _ => 256,
        }
    }
}
