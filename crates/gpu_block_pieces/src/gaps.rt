//! The gaps of a block in order of start.

ghost use Rattle.std.specs.Iterator.{YieldsFirst, item_count};

use crate::Pieces;
use std::marker::Model;

/// The gaps of a block in order of start: each with its start and its end, in bytes from the block's start. It takes no
/// memory.
#[derive(Drop)]
pub struct Gaps<'a> {
    pieces: Pieces<'a>,
    end: u64,
    size: u64,
}

impl<'a> Model for Gaps<'a> {
    ghost use Rattle.std.specs.Prelude.{List, ℕ};
    ghost use Rattle.gpu_block_pieces.specs.Pieces.{gaps_between};

    ghost Value = { List (ℕ × ℕ) };

    ghost view = { λ g. gaps_between g.end g.pieces g.size };
}

impl<'a> Gaps<'a> {
    ghost use Rattle.std.specs.Prelude.{◌≡◌};
    ghost use Rattle.gpu_block_pieces.specs.Pieces.{gaps_between};

    /// The gaps before, between and behind those pieces of a block of `size` bytes.
    pub fn new(pieces: Pieces<'a>, size: u64) -> Gaps<'a>
        ensures { result ≡ gaps_between 0 pieces.entry size }
    {
        Gaps {
            pieces,
            end: 0,
            size,
        }
    }
}

impl<'a> Iterator for Gaps<'a> {
    type Item = (u64, u64);

    ghost next_gives = { YieldsFirst (λ s. s) };

    ghost remaining = { item_count (λ s. s) };

    fn next(&mut self) -> Option<(u64, u64)> {
        while let Some(piece) = self.pieces.next() {
            let start = self.end;
            self.end = piece.end();
            if start < piece.start() {
                return Some((start, piece.start()));
            }
        }
        let start = self.end;
        self.end = self.size;
        (start < self.size).then_some((start, self.size))
    }
}
