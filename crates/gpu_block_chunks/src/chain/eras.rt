//! The eras of chunk ids: the chains are doubled as slots grow, and an id keeps the chain that it got when it was new.

ghost use Rattle.std.specs.Prelude.{◌≡◌, ℕ, ◌+◌, ◌%◌, ◌^◌, ◌<◌, ◌≤◌, max, OnOk, OnErr};
ghost use Rattle.gpu_block_chunks.specs.Eras.{newest, own_chain};

use std::alloc::{AllocError, Global};

/// When the chains were doubled: era 0 has one chain, and each era twice as many as the one before.
#[derive(Drop)]
pub struct Eras {
    /// The greatest id that was ever put into a chain.
    latest: u64,
    /// The greatest id from before each era behind era 0.
    since: Vec<u64>,
}

impl Eras {
    /// One chain, and no id yet. No memory is taken.
    pub fn first(alloc: Global) -> Eras
        ensures newest { newest result ≡ 0 }
        ensures latest { result.latest ≡ 0 }
    {
        Eras {
            latest: 0,
            since: Vec::new(alloc),
        }
    }

    /// How many chains there are.
    pub fn chains(&self) -> usize
        requires { newest self.now < 33 }
        ensures { result ≡ 2 ^ newest self.now }
    {
        1 << self.since.len()
    }

    /// The chain of a chunk id: by as many chains as there were when it was new.
    #[inline]
    pub fn chain_of(&self, chunk_id: u64) -> usize
        requires { newest self.now < 33 }
        ensures value { result ≡ own_chain self.now chunk_id }
        ensures within { result < 2 ^ newest self.now }
    {
        let mut era = self.since.len();
        while era > 0 && chunk_id <= self.since[era - 1] {
            era -= 1;
        }
        (chunk_id & ((1 << era) - 1)) as usize
    }

    /// Remembers that a chunk id was put into its chain.
    #[inline(always)]
    pub fn raise(&mut self, chunk_id: u64)
        ensures { self.new ≡ record self.old { latest = max self.old.latest chunk_id } }
    {
        self.latest = self.latest.max(chunk_id);
    }

    /// Begins an era of twice as many chains: each id up to the latest keeps its chain. A refusal begins none.
    pub fn begin(&mut self) -> Result<(), AllocError>
        requires { newest self.old < 32 }
        ensures newest { OnOk result (newest self.new ≡ newest self.old + 1) }
        ensures latest { self.new.latest ≡ self.old.latest }
        ensures kept { (k : ℕ) → k ≤ self.old.latest
            → own_chain self.new k ≡ own_chain self.old k }
        ensures new { OnOk result ((k : ℕ) → self.old.latest < k
            → own_chain self.new k ≡ k % 2 ^ newest self.new) }
        ensures refused { OnErr result (self.new.since.items ≡ self.old.since.items) }
    {
        self.since.reserve(1)?;
        self.since.push_reserved(self.latest);
        Ok(())
    }
}
