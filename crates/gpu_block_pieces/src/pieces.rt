//! The live pieces of a block in order of offset, and what is counted of them and of the gaps between them.

ghost use Rattle.std.specs.Prelude.{◌≡◌, ℕ, ◌-◌, ◌+◌, ◌<◌, ◌≤◌, ◌^◌, ◌∷◌, [], MatchOption, IfSome, length, map, max, string_bytes};
ghost use Rattle.std.specs.Iterator.{YieldsFirst, item_count};
ghost use Rattle.gpu_block_chunks.specs.ChunkList.{chunk_of};
ghost use Rattle.gpu_block_pieces.specs.Chunks.{extent, extents_of};
ghost use Rattle.gpu_block_pieces.specs.FreeList.{extent_bytes};
ghost use Rattle.gpu_block_pieces.specs.Pieces.{LieBetween, gap_between, gaps_between, longest, IsPlaced, IsRun};

use gpu_block_chunks::{ChunkView, Walk, is_free};
use gpu_cost::Cost;
use gpu_values::AllocationType;
use std::marker::Model;

/// A live piece of a block. Its places are in bytes from the block's start.
#[derive(Drop)]
pub struct LivePiece<'a> {
    chunk: ChunkView<'a>,
}

impl<'a> Model for LivePiece<'a> {
    ghost use Rattle.gpu_block_pieces.specs.FreeList.{Extent};
    ghost use Rattle.gpu_block_chunks.specs.ChunkList.{chunk_of};
    ghost use Rattle.gpu_block_pieces.specs.Chunks.{extent};
    ghost use Rattle.gpu_block_pieces.specs.Pieces.{IsPlaced};

    ghost Value = { Extent };

    ghost view = { λ p. extent (chunk_of p.chunk) };

    ghost invariant = { λ p. IsPlaced (chunk_of p.chunk) };
}

impl<'a> LivePiece<'a> {
    /// Its number in the block.
    pub fn chunk_id(&self) -> u64
        ensures { result ≡ self.now.chunk_id }
    {
        self.chunk.chunk_id
    }

    /// Where its padding begins, or its own bytes where it has none.
    pub fn start(&self) -> u64
        ensures { result ≡ self.now.start }
    {
        self.chunk.start
    }

    /// Where its own bytes begin.
    pub fn offset(&self) -> u64
        ensures { result ≡ self.now.offset }
    {
        self.chunk.offset
    }

    /// Where it ends.
    pub fn end(&self) -> u64
        ensures { result ≡ self.now.end }
    {
        let chunk = &self.chunk;
        chunk.size + chunk.start
    }

    /// Its own bytes, without padding.
    pub fn size(&self) -> u64
        ensures { result ≡ self.now.end - self.now.offset }
    {
        let chunk = &self.chunk;
        chunk.start + chunk.size - chunk.offset
    }

    /// The bytes before its own that its alignment took.
    pub fn padding(&self) -> u64
        ensures { result ≡ self.now.offset - self.now.start }
    {
        let chunk = &self.chunk;
        chunk.offset - chunk.start
    }

    /// Linear or not.
    pub fn kind(&self) -> AllocationType
        ensures { result ≡ self.now.kind }
    {
        self.chunk.kind
    }

    /// What reports and leaks show.
    pub fn name(&self) -> &str
        ensures { result.now ≡ self.now.name }
    {
        self.chunk.label.name.as_str()
    }

    /// The word that its caller keeps with it, 0 before one is set.
    pub fn word(&self) -> u64
        ensures { result ≡ self.now.word }
    {
        self.chunk.label.word
    }
}

/// The live pieces of a block in order of offset. It takes no memory.
#[derive(Drop)]
pub struct Pieces<'a> {
    rest: Walk<'a>,
    cost: Cost,
}

impl<'a> Model for Pieces<'a> {
    ghost use Rattle.std.specs.Prelude.{List};
    ghost use Rattle.gpu_block_pieces.specs.FreeList.{Extent};
    ghost use Rattle.gpu_block_pieces.specs.Chunks.{extents_of};
    ghost use Rattle.gpu_block_pieces.specs.Pieces.{IsRun};

    ghost Value = { List Extent };

    ghost view = { λ p. extents_of p.rest };

    ghost invariant = { λ p. IsRun p.rest };
}

impl<'a> Pieces<'a> {
    /// The live pieces along that walk, which count in their own counter.
    pub fn new(rest: Walk<'a>, cost: Cost) -> Pieces<'a>
        requires run { IsRun rest }
        ensures { result ≡ extents_of rest.entry }
    {
        Pieces { rest, cost }
    }
}

/// The first chunk that isn't free; those behind it are left.
pub(crate) fn first_piece<'a>(chunks: &mut Walk<'a>, cost: &mut Cost) -> Option<ChunkView<'a>>
    ensures piece { MatchOption result
        ((extents_of chunks.old ≡ []) × (extents_of chunks.new ≡ []))
        (λ c. extents_of chunks.old ≡ extent (chunk_of c) ∷ extents_of chunks.new) }
    ensures run { IsRun chunks.old → IsRun chunks.new }
    ensures placed { IsRun chunks.old → IfSome result (λ c. IsPlaced (chunk_of c)) }
{
    while let Some(chunk) = chunks.next(cost) {
        if !is_free(chunk.kind) {
            return Some(chunk);
        }
    }
    None
}

impl<'a> Iterator for Pieces<'a> {
    type Item = LivePiece<'a>;

    ghost next_gives = { YieldsFirst (λ s. s) };

    ghost remaining = { item_count (λ s. s) };

    fn next(&mut self) -> Option<LivePiece<'a>> {
        let chunk = first_piece(&mut self.rest, &mut self.cost)?;
        Some(LivePiece { chunk })
    }
}

/// What is counted of a block: its live pieces and the bytes that they take, padding included, its gaps and the bytes of
/// the longest one, 0 where there is none.
#[derive(Clone, Copy, Debug, PartialEq, Eq)]
pub struct BlockStatistics {
    pub pieces: usize,
    pub piece_bytes: u64,
    pub gaps: usize,
    pub longest_gap: u64,
}

impl BlockStatistics {
    ghost use Rattle.gpu_block_pieces.specs.Statistics.{together};

    /// What is counted of two blocks together: the sums, which stay at the top of 64 bits, and the longest gap of either.
    pub fn together(self, other: BlockStatistics) -> BlockStatistics
        ensures { result ≡ together self other }
    {
        BlockStatistics {
            pieces: self.pieces.saturating_add(other.pieces),
            piece_bytes: self.piece_bytes.saturating_add(other.piece_bytes),
            gaps: self.gaps.saturating_add(other.gaps),
            longest_gap: self.longest_gap.max(other.longest_gap),
        }
    }
}

/// The counts with the gap from `start` to `end`, where it isn't empty.
fn with_gap(counted: BlockStatistics, start: u64, end: u64) -> BlockStatistics
    requires { counted.gaps ≤ start }
    ensures gaps { result.gaps ≡ counted.gaps + length (gap_between start end) }
    ensures longest { result.longest_gap
        ≡ max counted.longest_gap (longest (gap_between start end)) }
    ensures pieces { (result.pieces ≡ counted.pieces) × (result.piece_bytes ≡ counted.piece_bytes) }
{
    if start >= end {
        return counted;
    }
    BlockStatistics {
        gaps: counted.gaps + 1,
        longest_gap: counted.longest_gap.max(end - start),
        ..counted
    }
}

/// Counts the pieces of a block of `size` bytes, and its gaps.
pub fn count_pieces(pieces: Pieces<'_>, size: u64) -> BlockStatistics
    requires { LieBetween 0 pieces size }
    ensures pieces { (result.pieces ≡ length pieces.entry)
        × (result.piece_bytes ≡ extent_bytes pieces.entry) }
    ensures gaps { result.gaps ≡ length (gaps_between 0 pieces.entry size) }
    ensures longest { result.longest_gap ≡ longest (gaps_between 0 pieces.entry size) }
{
    let mut counted = BlockStatistics {
        pieces: 0,
        piece_bytes: 0,
        gaps: 0,
        longest_gap: 0,
    };
    let mut end = 0;
    for piece in pieces {
        counted = with_gap(counted, end, piece.start());
        counted.pieces += 1;
        counted.piece_bytes += piece.end() - piece.start();
        end = piece.end();
    }
    with_gap(counted, end, size)
}
