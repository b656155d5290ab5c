//! Where a request begins in a gap.

ghost use Rattle.std.specs.Prelude.{◌≡◌, ℕ, ◌+◌, ◌%◌, ◌^◌, ◌<◌, ◌≤◌, IsTrue, ◌↔◌, MatchOption};
ghost use Rattle.std.specs.Option.{SomeIff};
ghost use Rattle.std.specs.Int.{is_power_of_two, next_multiple_of};
ghost use Rattle.gpu_block_pieces.specs.Place.{page, MayBegin, IsOffsetIn, FitsBetween};
ghost use Rattle.gpu_block_pieces.specs.Chunks.{Differ};

use gpu_values::AllocationType;

/// What is asked of a gap.
#[derive(Clone, Copy)]
pub struct Wanted {
    pub size: u64,
    pub alignment: u64,
    pub kind: AllocationType,
    pub granularity: u64,
}

/// Whether pieces of the two kinds may not share a page.
pub fn differ(left: AllocationType, right: AllocationType) -> bool
    ensures { IsTrue result ↔ Differ left right }
{
    // The request's kind comes last and is the same for each gap, so it is looked at first.
    match right {
        AllocationType::Linear => left == AllocationType::NonLinear,
        AllocationType::NonLinear => left == AllocationType::Linear,
        AllocationType::Free => false,
    }
}

/// How far a place is past the last multiple of `step`, a power of two: by a mask, without a division.
fn remainder(place: u64, step: u64) -> u64
    requires { IsTrue (is_power_of_two step) }
    ensures { result ≡ place % step }
{
    place & (step - 1)
}

/// The least multiple of `step` from a place on, if it isn't behind `last`.
fn round_up(place: u64, last: u64, step: u64) -> Option<u64>
    requires order { place ≤ last }
    requires power { IsTrue (is_power_of_two step) }
    ensures { SomeIff result (next_multiple_of place step ≤ last) (next_multiple_of place step) }
{
    // Then the greatest multiple up to `last` lies before the place. Most gaps that don't fit end here, and no sum can overflow.
    if last - place < remainder(last, step) {
        return None;
    }
    // How far the next multiple is, told without a branch.
    let over = remainder(step - remainder(place, step), step);
    Some(place + over)
}

/// The least place for a piece from `start` on behind a piece of that kind, if it isn't behind `last`.
fn offset_from(start: u64, last: u64, left: AllocationType, wanted: &Wanted) -> Option<u64>
    requires order { start ≤ last }
    requires aligned { IsTrue (is_power_of_two wanted.now.alignment) }
    requires paged { IsTrue (is_power_of_two wanted.now.granularity) }
    requires behind { Differ left wanted.now.kind → 0 < start }
    ensures { MatchOption result
        ((o : ℕ) → MayBegin wanted.now.granularity wanted.now.alignment (Differ left wanted.now.kind) start o
        → last < o)
        (λ o. IsOffsetIn wanted.now.granularity wanted.now.alignment (Differ left wanted.now.kind) start o
        × (o ≤ last)) }
{
    // Most gaps that don't fit end here, whatever lies before them.
    let offset = round_up(start, last, wanted.alignment)?;
    // Where the gap begins with a page, nothing before it is on that one. A granularity of 1 ends here, whatever the kinds are.
    if remainder(start, wanted.granularity) == 0 {
        return Some(offset);
    }
    if !differ(left, wanted.kind) {
        return Some(offset);
    }
    let first = round_up(start, last, wanted.granularity)?;
    round_up(first, last, wanted.alignment)
}

/// Whether two places lie on one page.
fn share_page(place: u64, end: u64, granularity: u64) -> bool
    requires order { place ≤ end }
    requires paged { IsTrue (is_power_of_two granularity) }
    ensures { IsTrue result ↔ page granularity place ≡ page granularity end }
{
    end - place <= remainder(end, granularity)
}

/// The place of a request from `start` on in so many bytes between two neighbours, if it fits there.
pub fn place_between(
    start: u64,
    length: u64,
    left: AllocationType,
    right: AllocationType,
    wanted: &Wanted,
) -> Option<u64>
    requires bounded { start + length < 2 ^ 64 }
    requires sized { 0 < wanted.now.size }
    requires aligned { IsTrue (is_power_of_two wanted.now.alignment) }
    requires paged { IsTrue (is_power_of_two wanted.now.granularity) }
    requires behind { Differ left wanted.now.kind → 0 < start }
    ensures { MatchOption result ((o : ℕ)
        → FitsBetween wanted.now.granularity wanted.now.alignment wanted.now.size
        (Differ left wanted.now.kind) (Differ right wanted.now.kind) start (start + length) o → ⊥)
        (λ o. FitsBetween wanted.now.granularity wanted.now.alignment wanted.now.size
        (Differ left wanted.now.kind) (Differ right wanted.now.kind) start (start + length) o) }
{
    let spare = length.checked_sub(wanted.size)?;
    let offset = offset_from(start, start + spare, left, wanted)?;
    let last = offset + (wanted.size - 1);
    if share_page(last, start + length, wanted.granularity) && differ(right, wanted.kind) {
        return None;
    }
    Some(offset)
}
