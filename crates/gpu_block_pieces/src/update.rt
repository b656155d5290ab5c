//! The changes of the chunks of a block: each is one of the chain, and beside it one of the index.

ghost use Rattle.std.specs.Prelude.{◌≡◌, ◌≢◌, ◌+◌, ◌-◌, ◌<◌, ◌≤◌, length, List, IfSome, MatchOption, IsTrue, ◌↔◌};
ghost use Rattle.gpu_cost.specs.Cost.{LooksUp, LooksUpBetween};
ghost use Rattle.gpu_block_pieces.specs.Chunks.{extents_of};
ghost use Rattle.gpu_block_chunks.specs.Chain.{HasNoChunkId, HasNoPiece, IsSplit, IsFilled};
ghost use Rattle.gpu_block_pieces.specs.Indexed.{IsListed, IsGapOf, Forgets, beside_kind, IsGapBeside, MayForget, IsPut, IsJoined, IsFreed};
ghost use Rattle.gpu_block_gaps.specs.declared.index.Gap.{Gap};
ghost use Rattle.gpu_block_gaps.specs.Index.{HasNoKey};

use crate::search::Found;
use gpu_block_chunks::{Chain, Neighbour, Neighbours, NewLabel, is_free};
use gpu_block_gaps::{Gap, GapIndex};
use gpu_cost::Cost;
use gpu_values::AllocationType;

/// Puts a piece into the front of the found gap. There is room for it, so no memory is taken.
pub fn allocate_front(
    chain: &mut Chain,
    index: &mut GapIndex,
    found: Found,
    taken: u64,
    kind: AllocationType,
    chunk_id: u64,
    label: NewLabel<'_>,
    cost: &mut Cost,
)
    requires listed { IsListed chain.old.chunks index.old.gaps }
    requires gap { IsGapOf chain.old.chunks found.gap }
    requires some { 0 < taken }
    requires shorter { taken < found.gap.length }
    requires piece { kind ≢ AllocationType.Free }
    requires fresh { HasNoChunkId chain.old.chunks chunk_id }
    requires room { (0 < chain.old.room) × (length index.old.gaps ≤ index.old.room) }
    ensures chunks { IsSplit chain.old.chunks found.gap.chunk_id taken chunk_id found.offset kind
        label.entry chain.new.chunks }
    ensures listed { IsListed chain.new.chunks index.new.gaps }
    ensures live { length (extents_of chain.new.chunks) ≡ length (extents_of chain.old.chunks) + 1 }
    ensures size { (chain.new.size ≡ chain.old.size) × (index.new.room ≡ index.old.room) }
    ensures counted { LooksUpBetween 3 4 cost.old cost.new }
{
    chain.laid_out();
    let gap = found.gap;
    chain.split_front(
        gap.chunk_id,
        chunk_id,
        taken,
        found.offset,
        kind,
        label,
        cost,
    );
    index.in_order();
    let rest = Gap {
        length: gap.length - taken,
        start: gap.start + taken,
        chunk_id: gap.chunk_id,
        before: kind,
        after: gap.after,
    };
    index.replace(gap.length, gap.start, rest);
}

/// Puts a piece into the whole found gap. It takes no memory.
pub fn allocate_whole(
    chain: &mut Chain,
    index: &mut GapIndex,
    found: Found,
    kind: AllocationType,
    label: NewLabel<'_>,
    cost: &mut Cost,
)
    requires listed { IsListed chain.old.chunks index.old.gaps }
    requires gap { IsGapOf chain.old.chunks found.gap }
    requires piece { kind ≢ AllocationType.Free }
    ensures chunks { IsFilled chain.old.chunks found.gap.chunk_id found.offset kind label.entry
        chain.new.chunks }
    ensures listed { IsListed chain.new.chunks index.new.gaps }
    ensures live { length (extents_of chain.new.chunks) ≡ length (extents_of chain.old.chunks) + 1 }
    ensures size { (chain.new.size ≡ chain.old.size) × (index.new.room ≡ index.old.room) }
    ensures counted { LooksUp 1 cost.old cost.new }
{
    chain.laid_out();
    let gap = found.gap;
    index.remove(gap.length, gap.start);
    chain.fill(gap.chunk_id, found.offset, kind, label, cost);
}

/// Takes the gap beside a chunk out of the index, if what stands there is one.
fn forget(index: &mut GapIndex, beside: Option<Neighbour>)
    requires there { MayForget beside index.old.gaps }
    ensures gaps { Forgets beside index.old.gaps index.new.gaps }
    ensures room { index.new.room ≡ index.old.room }
{
    if let Some(beside) = beside {
        if is_free(beside.kind) {
            index.remove(beside.size, beside.start);
        }
    }
}

/// Whether what stands there is a gap.
fn is_gap(beside: Option<Neighbour>) -> bool
    ensures { IsTrue result ↔ IsGapBeside beside }
{
    match beside {
        Some(beside) => is_free(beside.kind),
        None => false,
    }
}

/// Puts a gap into the index, in the place of what stands beside it if that is one.
fn put(index: &mut GapIndex, beside: Option<Neighbour>, gap: Gap)
    requires there { MayForget beside index.old.gaps }
    requires fresh { (rest : List Gap) → Forgets beside index.old.gaps rest
        → HasNoKey rest gap.length gap.start }
    requires room { (rest : List Gap) → Forgets beside index.old.gaps rest
        → length rest < index.old.room }
    ensures gaps { IsPut beside gap index.old.gaps index.new.gaps }
    ensures room { index.new.room ≡ index.old.room }
{
    match beside {
        Some(beside) => {
            if is_free(beside.kind) {
                index.replace(beside.size, beside.start, gap);
            } else {
                index.insert(gap);
            }
        }
        None => index.insert(gap),
    }
}

/// Puts a gap into the index, in the place of the gaps on both sides of it.
fn put_joined(index: &mut GapIndex, around: Neighbours, gap: Gap)
    requires before { MayForget around.before index.old.gaps }
    requires after { (one : List Gap) → Forgets around.before index.old.gaps one
        → MayForget around.after one }
    requires fresh { (one two : List Gap) → Forgets around.before index.old.gaps one
        → Forgets around.after one two → HasNoKey two gap.length gap.start }
    requires room { (one two : List Gap) → Forgets around.before index.old.gaps one
        → Forgets around.after one two → length two < index.old.room }
    ensures gaps { IsJoined around.before around.after gap index.old.gaps index.new.gaps }
    ensures room { index.new.room ≡ index.old.room }
{
    if is_gap(around.after) {
        forget(index, around.before);
        put(index, around.after, gap);
    } else {
        put(index, around.before, gap);
    }
}

/// The kind of what stands there, and `Free` at an end of the block.
fn kind_of(beside: Option<Neighbour>) -> AllocationType
    ensures { result ≡ beside_kind beside }
{
    match beside {
        Some(beside) => beside.kind,
        None => AllocationType::Free,
    }
}

/// Frees the piece of that number, and joins it with the gaps beside it: its bytes, padding included. Where the number is no piece's
/// nothing changes. It takes no memory.
pub fn release(
    chain: &mut Chain,
    index: &mut GapIndex,
    chunk_id: u64,
    cost: &mut Cost,
) -> Option<u64>
    requires listed { IsListed chain.old.chunks index.old.gaps }
    requires room { length (extents_of chain.old.chunks) + 1 ≤ index.old.room }
    ensures freed { MatchOption result
        (HasNoPiece chain.old.chunks chunk_id × (chain.new ≡ chain.old) × (index.new ≡ index.old))
        (λ bytes. IsFreed chain.old.chunks chunk_id bytes chain.new.chunks) }
    ensures listed { IsListed chain.new.chunks index.new.gaps }
    ensures live { IfSome result (λ bytes. length (extents_of chain.new.chunks) + 1
        ≡ length (extents_of chain.old.chunks)) }
    ensures size { (chain.new.size ≡ chain.old.size) × (index.new.room ≡ index.old.room) }
    ensures counted { MatchOption result (LooksUpBetween 1 4 cost.old cost.new)
        (λ bytes. LooksUpBetween 6 18 cost.old cost.new) }
{
    chain.laid_out();
    let (around, joined) = chain.release_piece(chunk_id, cost)?;
    chain.laid_out();
    index.in_order();
    let gap = Gap {
        length: joined.here.size,
        start: joined.here.start,
        chunk_id: joined.here.chunk_id,
        before: kind_of(joined.before),
        after: kind_of(joined.after),
    };
    put_joined(index, around, gap);
    Some(around.here.size)
}
