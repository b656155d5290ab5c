//! Chunks one after another, in the order of their starts.

ghost use Rattle.std.specs.Prelude.{is_some, if◌then◌else◌, ◌≡◌, ◌∷◌, ◌++◌, [], Some, None, MatchOption};
ghost use Rattle.gpu_block_chunks.specs.Chain.{walked};
ghost use Rattle.gpu_block_chunks.specs.ChunkList.{chunk_of};
ghost use Rattle.gpu_cost.specs.Cost.{LooksUpBetween};

use crate::chain::Chain;
use crate::chunk::{Chunk, ChunkView};
use gpu_cost::Cost;
use std::marker::Model;

/// The chunks that are still to come, of a list or of a chain. It takes no memory.
#[derive(Drop)]
pub struct Walk<'a> {
    listed: &'a [Chunk],
    chain: Option<&'a Chain>,
    at: Option<u64>,
}

impl<'a> Model for Walk<'a> {
    ghost use Rattle.std.specs.Prelude.{List, ◌++◌};
    ghost use Rattle.gpu_block_chunks.specs.declared.chunk.Chunk.{Chunk};
    ghost use Rattle.gpu_block_chunks.specs.Chain.{walked};

    ghost Value = { List Chunk };

    ghost view = { λ w. w.listed.now ++ walked w.chain w.at };
}

impl<'a> Walk<'a> {
    /// Those of a list.
    pub fn of_list(chunks: &'a [Chunk]) -> Walk<'a>
        ensures { result ≡ chunks.now }
    {
        Walk {
            listed: chunks,
            chain: None,
            at: None,
        }
    }

    /// Those of a whole chain.
    pub fn of_chain(chain: &'a Chain) -> Walk<'a>
        ensures { result ≡ chain.now.chunks }
    {
        Walk {
            listed: &[],
            chain: Some(chain),
            at: Some(chain.first()),
        }
    }

    /// The next chunk. It counts as looked up, also where it stands in a list.
    #[tactic(auto, using(crate::proofs::Listing::from_none))]
    pub fn next(&mut self, cost: &mut Cost) -> Option<ChunkView<'a>>
        ensures chunk { MatchOption result ((self.old ≡ []) × (self.new ≡ []))
            (λ c. self.old ≡ chunk_of c ∷ self.new) }
        ensures counted { LooksUpBetween (if is_some result then 1 else 0) 1 cost.old cost.new }
    {
        if let Some((chunk, rest)) = self.listed.split_first() {
            cost.look_up();
            self.listed = rest;
            return Some(chunk.view());
        }
        let chain = self.chain?;
        let at = self.at?;
        match chain.chunk(at, cost) {
            Some((chunk, next)) => {
                self.at = next;
                Some(chunk)
            }
            None => None,
        }
    }
}
