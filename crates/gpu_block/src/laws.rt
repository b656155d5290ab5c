//! Laws of blocks of either form, each the contract of a function that does nothing, and those of their parts.

ghost use Rattle.std.specs.Prelude.{◌≡◌, ℕ, List};
ghost use Rattle.gpu_values.specs.declared.error.AllocationError.TheVariants.{OutOfMemory};
ghost use Rattle.gpu_block.specs.Block.{Block, TakesIn, ReleasesIn, RenamesIn, SetsWordIn, IsAllocateRefusalIn, IsSoundBlock};
ghost use Rattle.gpu_block_pieces.specs.Request.{Request};

pub use gpu_block_pieces::laws::{
    allocate_adds_one_piece, allocates_or_refuses, empty_block_has_place, extents_and_gaps_cover,
    kinds_share_no_page, long_gap_fits, one_allocate, one_release, release_keeps_the_others,
};
pub use gpu_values::laws::one_bytes_text;

/// A take in a block has one outcome.
pub fn one_allocate_in()
    ensures { (old : Block) (r : Request) (o p n m : ℕ) (new next : Block) → IsSoundBlock old
        → TakesIn old r o n new → TakesIn old r p m next → (o ≡ p) × (n ≡ m) × (new ≡ next) }
{}

/// A take in a block and a refusal for lack of a place exclude each other.
pub fn allocates_or_refuses_in()
    ensures { (old : Block) (r : Request) (o n : ℕ) (new : Block) → TakesIn old r o n new
        → IsAllocateRefusalIn old r OutOfMemory → ⊥ }
{}

/// A release in a block has one outcome.
pub fn one_release_in()
    ensures { (old : Block) (n : ℕ) (new next : Block) → IsSoundBlock old
        → ReleasesIn old n new → ReleasesIn old n next → new ≡ next }
{}

/// A new name in a block has one outcome, and so has a new word.
pub fn one_rename_in()
    ensures renamed { (old : Block) (n : ℕ) (name : List ℕ) (new next : Block)
        → RenamesIn old n name new → RenamesIn old n name next → new ≡ next }
    ensures word { (old : Block) (n word : ℕ) (new next : Block) → SetsWordIn old n word new
        → SetsWordIn old n word next → new ≡ next }
{}
