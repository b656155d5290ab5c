//! The pieces of a memory type that are still live.

ghost use Rattle.std.specs.Prelude.{◌≡◌, ◌++◌, [], ◌∷◌, drop, MatchOption};
ghost use Rattle.std.specs.Option.{unwrap_or};
ghost use Rattle.std.specs.Iterator.{YieldsFirst, item_count};
ghost use Rattle.gpu_core.specs.TypeReport.{leaks_from};
ghost use Rattle.gpu_core.specs.Slots.{slots_of};

use crate::slot::LiveBlock;
use gpu_block_pieces::{Leak, Leaks};
use std::marker::Model;

/// The live pieces of a memory type by slot, then in order of offset. It takes no memory.
#[derive(Drop)]
pub struct TypeLeaks<'a, H> {
    memory_type: usize,
    /// What is left of the block before the next slot.
    block: Option<Leaks<'a>>,
    next: usize,
    slots: &'a [Option<LiveBlock<H>>],
}

impl<'a, H> Model for TypeLeaks<'a, H> {
    ghost use Rattle.std.specs.Prelude.{List, [], ◌++◌, drop};
    ghost use Rattle.std.specs.Option.{unwrap_or};
    ghost use Rattle.gpu_block_pieces.specs.Leak.{LeakOf};
    ghost use Rattle.gpu_core.specs.TypeReport.{leaks_from};
    ghost use Rattle.gpu_core.specs.Slots.{slots_of};

    ghost Value = { List LeakOf };

    ghost view = { λ l. unwrap_or l.block []
        ++ leaks_from l.memory_type l.next (slots_of (drop l.next l.slots.now)) };
}

impl<'a, H> TypeLeaks<'a, H> {
    ghost use Rattle.gpu_core.specs.TypeReport.{type_leaks};

    /// The live pieces of the blocks in those slots, as leaks of type `memory_type`. It takes no memory.
    pub fn new(memory_type: usize, slots: &'a [Option<LiveBlock<H>>]) -> TypeLeaks<'a, H>
        ensures { result ≡ type_leaks memory_type (slots_of slots.now) }
    {
        TypeLeaks {
            memory_type,
            block: None,
            next: 0,
            slots,
        }
    }
}

/// The first piece of what is left of a block.
fn next_in<'a>(block: &mut Option<Leaks<'a>>) -> Option<Leak<'a>>
    ensures { MatchOption result
        ((unwrap_or block.old [] ≡ []) × (unwrap_or block.new [] ≡ []))
        (λ leak. unwrap_or block.old [] ≡ leak ∷ unwrap_or block.new []) }
{
    match block {
        None => None,
        Some(leaks) => leaks.next(),
    }
}

/// The first piece of the slots from `next` on, what is left of its block, and the slot behind it.
fn next_from<'a, H>(
    slots: &'a [Option<LiveBlock<H>>],
    memory_type: usize,
    next: usize,
) -> Option<(Leak<'a>, Leaks<'a>, usize)>
    ensures { MatchOption result
        (leaks_from memory_type next (slots_of (drop next slots.now)) ≡ [])
        (λ p. leaks_from memory_type next (slots_of (drop next slots.now))
        ≡ p.0 ∷ (p.1 ++ leaks_from memory_type p.2 (slots_of (drop p.2 slots.now)))) }
{
    let mut slot = next;
    while slot < slots.len() {
        if let Some(block) = &slots[slot] {
            let mut leaks = block.sub.leaks(memory_type, slot);
            if let Some(leak) = leaks.next() {
                return Some((leak, leaks, slot + 1));
            }
        }
        slot += 1;
    }
    None
}

impl<'a, H> Iterator for TypeLeaks<'a, H> {
    type Item = Leak<'a>;

    ghost next_gives = { YieldsFirst (λ s. s) };

    ghost remaining = { item_count (λ s. s) };

    fn next(&mut self) -> Option<Leak<'a>> {
        if let Some(leak) = next_in(&mut self.block) {
            return Some(leak);
        }
        let (leak, block, next) = next_from(self.slots, self.memory_type, self.next)?;
        self.block = Some(block);
        self.next = next;
        Some(leak)
    }
}
