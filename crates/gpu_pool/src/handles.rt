//! The handles of the live blocks, one after another.

ghost use Rattle.std.specs.Prelude.{◌≡◌, ◌<◌, [], ◌∷◌, drop, MatchOption};
ghost use Rattle.std.specs.Iterator.{YieldsFirst, item_count};
ghost use Rattle.gpu_core.specs.Blocks.{slots_at};
ghost use Rattle.gpu_core.specs.Types.{slots_of};
ghost use Rattle.gpu_pool.specs.Handles.{handles_in, all_handles, handles_from};

use gpu_core::MemoryTypes;
use std::marker::Model;

/// The handles of the live blocks by memory type, then by slot. It takes no memory.
#[derive(Drop)]
pub struct Handles<'a, H: Copy + Eq> {
    types: &'a MemoryTypes<H>,
    /// The memory type that comes next.
    index: usize,
    /// The slot of it that comes next.
    slot: usize,
}

impl<'a, H: Copy + Eq> Model for Handles<'a, H> {
    ghost use Rattle.std.specs.Prelude.{List};
    ghost use Rattle.gpu_core.specs.Types.{slots_of};
    ghost use Rattle.gpu_pool.specs.Handles.{handles_from};

    ghost Value = { List H };

    ghost view = { λ h. handles_from h.index h.slot (slots_of h.types.now) };
}

/// The handles of all live blocks.
#[tactic(auto, using(crate::proofs::Listing::from_first))]
pub fn all_handles<H: Copy + Eq>(types: &MemoryTypes<H>) -> Handles<'_, H>
    ensures { result ≡ all_handles (slots_of types.now) }
{
    Handles {
        types,
        index: 0,
        slot: 0,
    }
}

/// The first handle from a slot of the memory type at `index` on, and the slot behind it.
#[tactic(auto, using(crate::proofs::Listing::handles_go_on))]
fn next_in<H: Copy + Eq>(types: &MemoryTypes<H>, index: usize, slot: usize) -> Option<(H, usize)>
    ensures { MatchOption result
        (handles_in (drop slot (slots_at (slots_of types.now) index)) ≡ [])
        (λ p. handles_in (drop slot (slots_at (slots_of types.now) index))
        ≡ p.0 ∷ handles_in (drop p.1 (slots_at (slots_of types.now) index))) }
{
    let mut next = slot;
    while next < types.slots(index) {
        if let Some(handle) = types.block(index, next) {
            return Some((handle, next + 1));
        }
        next += 1;
    }
    None
}

/// The first handle from a slot of the memory type at `index` on, and the memory type and the slot where the next is looked
/// for.
#[tactic(auto, using(crate::proofs::Listing::handles_go_on))]
fn next_from<H: Copy + Eq>(
    types: &MemoryTypes<H>,
    index: usize,
    slot: usize,
) -> Option<(H, usize, usize)>
    ensures { MatchOption result (handles_from index slot (slots_of types.now) ≡ [])
        (λ p. handles_from index slot (slots_of types.now)
        ≡ p.0 ∷ handles_from p.1 p.2 (slots_of types.now)) }
{
    let mut at = index;
    let mut first = slot;
    while at < types.count() {
        if let Some((handle, next)) = next_in(types, at, first) {
            return Some((handle, at, next));
        }
        at += 1;
        first = 0;
    }
    None
}

impl<'a, H: Copy + Eq> Iterator for Handles<'a, H> {
    type Item = H;

    ghost next_gives = { YieldsFirst (λ s. s) };

    ghost remaining = { item_count (λ s. s) };

    fn next(&mut self) -> Option<H> {
        let (handle, index, slot) = next_from(self.types, self.index, self.slot)?;
        self.index = index;
        self.slot = slot;
        Some(handle)
    }
}
