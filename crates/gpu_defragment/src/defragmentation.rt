//! Moves of a frame, and those that are open.

ghost use Rattle.std.specs.Prelude.{◌≡◌, ◌↔◌, [], OnOk, OnErr, IsTrue};
ghost use Rattle.gpu_defragment.specs.Defragmentation.{IsWithin, Takes, opened};

use crate::Move;
use std::alloc::{AllocError, Global};
use std::marker::Model;

/// Moves of an API's allocations, bounded by bytes and by number a frame. A move stays open over any number of frames, until the caller
/// takes it out and finishes or abandons it.
#[derive(Drop)]
pub struct Defragmentation<A: Drop> {
    moves: Vec<Move<A>>,
    bytes_left: u64,
    moves_left: usize,
}

impl<A: Drop> Model for Defragmentation<A> {
    ghost use Rattle.std.specs.Prelude.{◌+◌, ◌≤◌, length, vec_capacity};
    ghost use Rattle.gpu_defragment.specs.Defragmentation.{DefragmentationState};

    ghost Value = { DefragmentationState A };

    ghost view = { λ d. record {
      moves = d.moves.items;
      bytes_left = d.bytes_left;
      moves_left = d.moves_left;
    } };

    ghost invariant = { λ d. length d.moves.items + d.moves_left ≤ vec_capacity d.moves };
}

impl<A: Drop> Defragmentation<A> {
    /// No move is open, and none may be proposed before a frame begins. It takes no memory.
    pub fn new(alloc: Global) -> Defragmentation<A>
        ensures { result ≡ record { moves = []; bytes_left = 0; moves_left = 0 } }
    {
        Defragmentation {
            moves: Vec::new(alloc),
            bytes_left: 0,
            moves_left: 0,
        }
    }

    /// Begins a frame, in which at most so many bytes move, in so many moves; it makes room for these. Where the host refuses the
    /// memory, nothing changes.
    pub fn begin_frame(&mut self, bytes: u64, moves: usize) -> Result<(), AllocError>
        ensures begins { OnOk result (self.new
            ≡ record self.old { bytes_left = bytes; moves_left = moves }) }
        ensures refused { OnErr result (self.new ≡ self.old) }
    {
        self.moves.reserve(moves)?;
        self.bytes_left = bytes;
        self.moves_left = moves;
        Ok(())
    }

    /// Whether the frame has room for a move of so many bytes.
    pub fn has_room(&self, size: u64) -> bool
        ensures { IsTrue result ↔ IsWithin self.now size }
    {
        self.moves_left > 0 && size <= self.bytes_left
    }

    /// Opens a move of so many bytes, for which the frame has room.
    pub(crate) fn open_move(&mut self, size: u64, from: A, to: A)
        requires within { IsWithin self.old size }
        ensures { self.new ≡ opened self.old size (record { from = from; to = to }) }
    {
        self.bytes_left -= size;
        self.moves_left -= 1;
        self.moves.push_reserved(Move { from, to });
    }

    /// The moves that are open, in the order in which they were proposed.
    pub fn open(&self) -> &[Move<A>]
        ensures { result.now ≡ self.now.moves }
    {
        &self.moves
    }

    /// Takes an open move out, by its place in `open`, to be finished or abandoned; `None` where there is none, and then nothing
    /// changes.
    pub fn take(&mut self, index: usize) -> Option<Move<A>>
        ensures { Takes index self.old result self.new }
    {
        if index < self.moves.len() {
            Some(self.moves.remove(index))
        } else {
            None
        }
    }
}
