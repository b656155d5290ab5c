//! The search for the chosen gap: the first that is long enough is found by its length's class and bits, and from there gaps are tested in
//! the index's order up to the first that fits.

ghost use Rattle.std.specs.Prelude.{◌≡◌, ℕ, ◌+◌, ◌-◌, ◌<◌, ◌≤◌, length, take, MatchOption, IsTrue};
ghost use Rattle.std.specs.Int.{is_power_of_two};
ghost use Rattle.std.specs.List.{AllPairs, count_by};
ghost use Rattle.gpu_cost.specs.Cost.{digits};
ghost use Rattle.gpu_block_gaps.specs.Index.{Before};
ghost use Rattle.gpu_block_pieces.specs.Indexed.{FitsGap, NoGapFits, IsFirstFit, NoneFitsAt, IsFoundAt, IsPlaced, ArePlaced, is_long};

use crate::place::{Wanted, place_between};
use gpu_block_gaps::{Gap, GapIndex, Scan};
use gpu_cost::Cost;

/// A gap that serves, and the piece's offset in it.
#[derive(Clone, Copy)]
pub struct Found {
    pub gap: Gap,
    pub offset: u64,
}

/// The place of the request in the gap, if it fits.
fn place_in(gap: Gap, wanted: &Wanted) -> Option<u64>
    requires placed { IsPlaced gap }
    requires sized { 0 < wanted.now.size }
    requires aligned { IsTrue (is_power_of_two wanted.now.alignment) }
    requires paged { IsTrue (is_power_of_two wanted.now.granularity) }
    ensures { MatchOption result ((o : ℕ) → FitsGap wanted.now gap o → ⊥)
        (λ o. FitsGap wanted.now gap o) }
{
    place_between(gap.start, gap.length, gap.before, gap.after, wanted)
}

/// The one gap that may be left, if the request fits there.
fn find_last(scan: &mut Scan<'_>, wanted: &Wanted, cost: &mut Cost) -> Option<Found>
    requires left { length scan.old.gaps ≤ scan.old.place + 1 }
    requires placed { ArePlaced scan.old.gaps }
    requires sized { 0 < wanted.now.size }
    requires aligned { IsTrue (is_power_of_two wanted.now.alignment) }
    requires paged { IsTrue (is_power_of_two wanted.now.granularity) }
    ensures found { MatchOption result
        (NoneFitsAt scan.old.gaps wanted.now scan.old.place)
        (IsFoundAt scan.old.gaps wanted.now scan.old.place) }
    ensures tests { cost.new.tests ≡ cost.old.tests + (length scan.old.gaps - scan.old.place) }
    ensures others { (cost.new.comparisons ≡ cost.old.comparisons)
        × (cost.new.lookups ≡ cost.old.lookups) }
{
    let gap = scan.next(cost)?;
    let offset = place_in(gap, wanted)?;
    Some(Found { gap, offset })
}

/// The best fit: the first gap of the index, which is in order of length and then of start, in which the request fits.
pub fn find(index: &GapIndex, wanted: &Wanted, cost: &mut Cost) -> Option<Found>
    requires placed { ArePlaced index.now.gaps }
    requires sized { 0 < wanted.now.size }
    requires aligned { IsTrue (is_power_of_two wanted.now.alignment) }
    requires paged { IsTrue (is_power_of_two wanted.now.granularity) }
    ensures found { MatchOption result (NoGapFits index.now.gaps wanted.now
        × (cost.new.tests ≡ cost.old.tests + count_by (is_long wanted.now.size) index.now.gaps))
        (λ f. (place : ℕ) × IsFirstFit index.now.gaps wanted.now f place
        × (cost.new.tests ≡ cost.old.tests + count_by (is_long wanted.now.size)
        (take (place + 1) index.now.gaps))) }
    ensures ordered { AllPairs Before index.now.gaps }
    ensures comparisons { (cost.old.comparisons ≤ cost.new.comparisons)
        × (cost.new.comparisons ≤ cost.old.comparisons + digits (length index.now.gaps)) }
    ensures lookups { cost.new.lookups ≡ cost.old.lookups }
{
    let mut scan = index.first_at_least(wanted.size, cost);
    while let Some(gap) = scan.next_in_class(cost) {
        if let Some(offset) = place_in(gap, wanted) {
            return Some(Found { gap, offset });
        }
    }
    find_last(&mut scan, wanted, cost)
}
