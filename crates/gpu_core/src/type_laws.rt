//! Laws of memory types, each the contract of a function that does nothing.

ghost use Rattle.std.specs.Prelude.{◌≡◌, ◌≢◌, ℕ, ◌+◌, ◌-◌, ◌^◌, ◌<◌, ◌≤◌, Bool, List, [], Option, Some, IsTrue, true, false};
ghost use Rattle.std.specs.Int.{IsPowerOfTwo};
ghost use Rattle.gpu_block_pieces.specs.FreeList.{FreeList, IsGap, fresh_free_list};
ghost use Rattle.gpu_block_pieces.specs.Laws.{IsLongEnough};
ghost use Rattle.gpu_block_pieces.specs.Request.{Request};
ghost use Rattle.gpu_block_pieces.specs.Place.{IsBestFit, HasNoPlace};
ghost use Rattle.gpu_block.specs.Block.{Block, free_list, extents_of, is_shared, TakesIn, ReleasesIn, IsSoundBlock};
ghost use Rattle.gpu_core.specs.TypeTake.{fresh_block, has_dedicated_block, PreparesPiece, Pending, NeedsBlock, Installs};
ghost use Rattle.gpu_core.specs.TypeState.{IsOneGap, Slot, TypeState, slot_at};
ghost use Rattle.gpu_core.specs.Moves.{ProposesMove, NoneAhead, slots_above, moves_left};
ghost use Rattle.gpu_core.specs.TypeRelease.{IsFreeRefusal, IsNameRefusal, ReleasesPiece, RenamesPiece};
ghost use Rattle.gpu_values.specs.Refusal.{Refusal, host_out_of_memory};
ghost use Rattle.gpu_core.specs.Slots.{AreSound, SlotIsSound};
ghost use Rattle.gpu_values.specs.Sizes.{Sizes};
ghost use Rattle.gpu_core.specs.declared.piece.Piece.{Piece};

/// A fresh shared block has a place for every request up to its size, and it begins at 0.
pub fn fresh_block_has_place()
    ensures place { (size granularity : ℕ) (r : Request) → 0 < r.size → r.size ≤ size
        → IsBestFit (fresh_free_list size granularity 2) r 0 size 0 }
    ensures served { (size granularity : ℕ) (r : Request) → 0 < r.size → r.size ≤ size
        → HasNoPlace (fresh_free_list size granularity 2) r → ⊥ }
    ensures begins { (size granularity : ℕ) (r : Request) (o n : ℕ) (new : Block) → 0 < r.size
        → r.size ≤ size → TakesIn (fresh_block false size granularity) r o n new → o ≡ 0 }
{}

/// A shared block whose last piece is given back is one gap of its whole size.
pub fn emptied_block_is_one_gap()
    ensures { (old : Block) (n : ℕ) (new : Block) → IsSoundBlock old → is_shared old ≡ true
        → ReleasesIn old n new → extents_of new ≡ [] → IsOneGap new }
{}

// ---- one outcome

/// A shared block that serves a request has one outcome, and then no block is needed.
pub fn one_piece_prepared<H: Copy + Eq>()
    ensures once { (g : ℕ) (old : List (Option (Slot H))) (r : Request) (p q : Piece H)
        (new next : List (Option (Slot H))) → AreSound g old → PreparesPiece old r p new
        → PreparesPiece old r q next → (p ≡ q) × (new ≡ next) }
    ensures serves_or_needs { (t : TypeState H) (sizes : Sizes) (own : Bool) (r : Request)
        (p : Piece H) (new : List (Option (Slot H))) (size : ℕ) (is_dedicated : Bool)
        (ready : Pending) → has_dedicated_block t sizes own r.size ≡ false
        → PreparesPiece t.slots r p new → NeedsBlock t sizes own r size is_dedicated ready → ⊥ }
{}

/// A request that needs a block needs one of one size and kind, with the piece at one place in it; and a block goes to one slot.
pub fn one_block_needed<H: Copy + Eq>()
    ensures needs { (t : TypeState H) (sizes : Sizes) (own : Bool) (r : Request) (size other : ℕ)
        (is_dedicated kind : Bool) (ready next : Pending)
        → NeedsBlock t sizes own r size is_dedicated ready
        → NeedsBlock t sizes own r other kind next
        → (size ≡ other) × (is_dedicated ≡ kind) × (ready ≡ next) }
    ensures installs { (old : List (Option (Slot H))) (is_dedicated : Bool) (ready : Pending)
        (chunk_id : H) (p q : Piece H) (new next : List (Option (Slot H)))
        → Installs old is_dedicated ready chunk_id p new
        → Installs old is_dedicated ready chunk_id q next → (p ≡ q) × (new ≡ next) }
{}

/// A release of a piece has one outcome, and so have a new name, and each refusal of one but lack of host memory.
pub fn one_piece_released<H: Copy + Eq>()
    ensures releases { (g : ℕ) (several : Bool) (old : List (Option (Slot H))) (p : Piece H)
        (went gone : Option H) (new next : List (Option (Slot H))) → AreSound g old
        → ReleasesPiece (IsTrue several) old p went new
        → ReleasesPiece (IsTrue several) old p gone next → (went ≡ gone) × (new ≡ next) }
    ensures refuses { (eq : H → H → Bool) (g : ℕ) (p : Piece H) (old : Option (Slot H))
        (r s : Refusal) → SlotIsSound g old → IsFreeRefusal eq p old r → IsFreeRefusal eq p old s
        → r ≡ s }
    ensures refuses_names { (eq : H → H → Bool) (g : ℕ) (p : Piece H) (old : Option (Slot H))
        (r s : Refusal) → SlotIsSound g old → r ≢ host_out_of_memory → s ≢ host_out_of_memory
        → IsNameRefusal eq p old r → IsNameRefusal eq p old s → r ≡ s }
    ensures renames { (old : List (Option (Slot H))) (p : Piece H) (name : List ℕ)
        (new next : List (Option (Slot H))) → RenamesPiece old p name new
        → RenamesPiece old p name next → new ≡ next }
{}

// ---- moves

/// Moves end: a second place adds the slots above it to the moves that are left, a place that is freed takes those above it
/// away, and the second place lies above the first.
pub fn moves_end<H: Copy + Eq>()
    ensures proposed { (old new : List (Option (Slot H))) (r : Request) (from to : Piece H)
        → ProposesMove old r from to new
        → moves_left new ≡ moves_left old + slots_above old to.slot }
    ensures freed { (several : Bool) (old new : List (Option (Slot H))) (p : Piece H)
        (went : Option H) → ReleasesPiece (IsTrue several) old p went new
        → moves_left new + slots_above old p.slot ≤ moves_left old }
    ensures fewer { (several : Bool) (old mid new : List (Option (Slot H))) (r : Request)
        (from to : Piece H) (went : Option H) → ProposesMove old r from to mid
        → ReleasesPiece (IsTrue several) mid from went new → moves_left new < moves_left old }
{}

/// A proposal has one outcome, and excludes that no block ahead has a place.
pub fn one_move_proposed<H: Copy + Eq>()
    ensures once { (g : ℕ) (old new next : List (Option (Slot H))) (r : Request)
        (from to other : Piece H) → AreSound g old → ProposesMove old r from to new
        → ProposesMove old r from other next → (to ≡ other) × (new ≡ next) }
    ensures or_none { (old new : List (Option (Slot H))) (r : Request) (from to : Piece H)
        → ProposesMove old r from to new → NoneAhead old r from.slot → ⊥ }
{}

/// A piece that has no second place stays for lack of gaps: no gap of a block ahead is as long as the piece with what its
/// alignment and its pages may cost, or that block's chunk ids are used up.
pub fn piece_stays_for_lack_of_gaps<H: Copy + Eq>()
    ensures { (g : ℕ) (slots : List (Option (Slot H))) (r : Request) (slot i : ℕ) (s : Slot H)
        (b : FreeList) (start end : ℕ) → AreSound g slots → IsPowerOfTwo g
        → IsPowerOfTwo r.alignment → 0 < r.size → NoneAhead slots r slot → slot < i
        → slot_at slots i ≡ Some s → s.block ≡ free_list b → IsGap b start end
        → IsLongEnough b r start end → b.counter ≡ 2 ^ 64 - 1 }
{}
