//! Tests of what a search costs, as contracts over blocks that are written out.

ghost use Rattle.std.specs.Prelude.{◌≡◌, ◌+◌, ◌≤◌, [], ◌∷◌};
ghost use Rattle.gpu_block_pieces.specs.FreeList.{Extent, FreeList};
ghost use Rattle.gpu_block_pieces.specs.Request.{Request};
ghost use Rattle.gpu_block_pieces.specs.Place.{IsBestFit};
ghost use Rattle.gpu_cost.specs.Cost.{Counts, digits};
ghost use Rattle.gpu_block_pieces.specs.Search.{IsSearch};

use gpu_cost::Cost;

/// With pieces of 100, 10, 50 and 10 bytes in a block, of which the first and the third were given back, the best of
/// three gaps is the first that is tested.
fn three_gaps()
    ensures { (x y : Extent) (r : Request) (old new : Counts) → x.start ≡ 100 → y.start ≡ 160
        → r.size ≡ 40 → let b : FreeList = record {
          size = 4194304;
          granularity = 1;
          counter = 6;
          extents = x ∷ y ∷ [];
          gap_chunk_ids = (0, 2)
              ∷ (110, 4) ∷ (170, 1) ∷ [];
        } in IsBestFit b r 110 160 110 → IsSearch b r old new
        → (old.comparisons ≤ new.comparisons) × (new.comparisons ≤ old.comparisons + 2)
        × (new.tests ≡ old.tests + 1) }
{}

/// With linear, other and linear pieces on pages of 1024 bytes, of which the first was given back, the gap of 16 bytes
/// is tested and doesn't fit, and the one behind all pieces is tested next.
fn two_gaps_on_pages()
    ensures { (x y : Extent) (r : Request) (old new : Counts) → x.start ≡ 16 → y.start ≡ 1088
        → r.size ≡ 16 → let b : FreeList = record {
          size = 4194304;
          granularity = 1024;
          counter = 5;
          extents = x ∷ y
              ∷ [];
          gap_chunk_ids = (0, 2) ∷ (2064, 1) ∷ [];
        } in IsBestFit b r 2064 4194304 2064
        → IsSearch b r old new → (old.comparisons ≤ new.comparisons)
        × (new.comparisons ≤ old.comparisons + 2) × (new.tests ≡ old.tests + 2) }
{}

/// How many comparisons a count of gaps allows.
fn digits_of_counts()
    ensures { (digits 0 ≡ 0) × (digits 1 ≡ 1) × (digits 3 ≡ 2) × (digits 4 ≡ 3)
        × (digits 1000 ≡ 10) }
{}

#[test]
fn searches_cost_no_more_than_their_rows_say() {
    three_gaps();
    two_gaps_on_pages();
    digits_of_counts();
}

#[test]
fn a_counter_has_no_bytes() {
    prove!(size_of::<Cost>() == 0);
}
