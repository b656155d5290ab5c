//! Laws of a block that is cut into pieces, each the contract of a function that does nothing.

ghost use Rattle.std.specs.Prelude.{◌≡◌, ◌≢◌, ℕ, ◌-◌, ◌^◌, ◌<◌, ◌≤◌, [], Contains};
ghost use Rattle.std.specs.Int.{IsPowerOfTwo};
ghost use Rattle.gpu_block_pieces.specs.FreeList.{Extent, FreeList, SomeExtent, IsGap};
ghost use Rattle.gpu_block_pieces.specs.Request.{Request};
ghost use Rattle.gpu_block_pieces.specs.Changes.{Takes, Releases};
ghost use Rattle.gpu_block_pieces.specs.Place.{RequestFits, HasNoPlace, page};
ghost use Rattle.gpu_block_pieces.specs.Laws.{IsSound, IsPageSeparated, IsLongEnough, IsCovered};

/// A take has one outcome.
pub fn one_allocate()
    ensures { (old : FreeList) (r : Request) (o p n m : ℕ) (new next : FreeList) → IsSound old
        → Takes old r o n new → Takes old r p m next → (o ≡ p) × (n ≡ m) × (new ≡ next) }
{}

/// A take and a refusal for lack of a place exclude each other.
pub fn allocates_or_refuses()
    ensures { (old : FreeList) (r : Request) (o n : ℕ) (new : FreeList) → Takes old r o n new
        → HasNoPlace old r → ⊥ }
{}

/// A release has one outcome.
pub fn one_release()
    ensures { (old : FreeList) (n : ℕ) (new next : FreeList) → IsSound old → Releases old n new
        → Releases old n next → new ≡ next }
{}

/// A block without pieces has a place for every request up to its size, while it has numbers.
pub fn empty_block_has_place()
    ensures { (b : FreeList) (r : Request) → b.extents ≡ [] → 0 < b.size → r.size ≤ b.size
        → HasNoPlace b r → (r.size < b.size) × (b.counter ≡ 2 ^ 64 - 1) }
{}

/// A gap that is long enough fits.
pub fn long_gap_fits()
    ensures { (b : FreeList) (r : Request) (s e : ℕ) → IsSound b → IsPowerOfTwo b.granularity
        → IsPowerOfTwo r.alignment → 0 < r.size → IsGap b s e → IsLongEnough b r s e
        → (o : ℕ) × RequestFits b r s e o }
{}

/// A take keeps every live piece, and adds one under a number that no live piece has.
pub fn allocate_adds_one_piece()
    ensures keeps { (old : FreeList) (r : Request) (o n : ℕ) (new : FreeList) → Takes old r o n new
        → (x : Extent) → Contains old.extents x → Contains new.extents x }
    ensures adds { (old : FreeList) (r : Request) (o n : ℕ) (new : FreeList) → Takes old r o n new
        → SomeExtent new (λ x. x.chunk_id ≡ n) }
    ensures chunk_id { (old : FreeList) (r : Request) (o n : ℕ) (new : FreeList) → IsSound old
        → IsSound new → Takes old r o n new → SomeExtent old (λ x. x.chunk_id ≡ n) → ⊥ }
{}

/// A release keeps every live piece but the one of its number.
pub fn release_keeps_the_others()
    ensures { (old : FreeList) (n : ℕ) (new : FreeList) → IsSound old → Releases old n new
        → (x : Extent) → Contains old.extents x → x.chunk_id ≢ n → Contains new.extents x }
{}

/// The extents and gaps of a sound block cover it exactly, and no two gaps touch.
pub fn extents_and_gaps_cover()
    ensures { (b : FreeList) → IsSound b → IsCovered b }
{}

/// Two live pieces of different kinds share no page, wherever in them one looks.
pub fn kinds_share_no_page()
    ensures { (b : FreeList) → 0 < b.granularity → IsPageSeparated b → IsSound b → (x y : Extent)
        → Contains b.extents x → Contains b.extents y → x.kind ≢ y.kind → (p q : ℕ) → x.offset ≤ p
        → p < x.end → y.offset ≤ q → q < y.end → page b.granularity p ≢ page b.granularity q }
{}
