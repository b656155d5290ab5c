//! The pieces of all memory types that are still live.

ghost use Rattle.std.specs.Prelude.{◌≡◌, ◌++◌, [], ◌∷◌, drop, map, string_bytes, MatchOption, IfOk, IfErr};
ghost use Rattle.std.specs.Option.{unwrap_or};
ghost use Rattle.std.specs.Iterator.{YieldsFirst, item_count};
ghost use Rattle.gpu_values.specs.declared.error.AllocationError.TheVariants.{HostOutOfMemory};
ghost use Rattle.gpu_block_pieces.specs.Leak.{leak_text};
ghost use Rattle.gpu_core.specs.Leaks.{leaks_beginning, all_leaks};
ghost use Rattle.gpu_core.specs.Types.{slots_of};

use crate::{MemoryType, TypeLeaks};
use gpu_block_pieces::Leak;
use gpu_values::Result;
use std::alloc::Global;
use std::marker::Model;

/// The live pieces by memory type, then by slot, then in order of offset. It takes no memory.
#[derive(Drop)]
pub struct AllLeaks<'a, H: Copy + Eq> {
    /// What is left of the memory type before the next one.
    rest: Option<TypeLeaks<'a, H>>,
    next: usize,
    types: &'a [MemoryType<H>],
}

impl<'a, H: Copy + Eq> Model for AllLeaks<'a, H> {
    ghost use Rattle.std.specs.Prelude.{List, [], ◌++◌, drop};
    ghost use Rattle.std.specs.Option.{unwrap_or};
    ghost use Rattle.gpu_block_pieces.specs.Leak.{LeakOf};
    ghost use Rattle.gpu_core.specs.Leaks.{leaks_beginning};
    ghost use Rattle.gpu_core.specs.Types.{slots_of};

    ghost Value = { List LeakOf };

    ghost view = { λ l. unwrap_or l.rest []
        ++ leaks_beginning l.next (slots_of (drop l.next l.types.now)) };
}

/// The live pieces of all memory types.
pub fn all_leaks<H: Copy + Eq>(types: &[MemoryType<H>]) -> AllLeaks<'_, H>
    ensures { result ≡ all_leaks (slots_of types.now) }
{
    AllLeaks {
        rest: None,
        next: 0,
        types,
    }
}

/// The first piece of what is left of a memory type.
fn next_in<'a, H: Copy + Eq>(rest: &mut Option<TypeLeaks<'a, H>>) -> Option<Leak<'a>>
    ensures { MatchOption result
        ((unwrap_or rest.old [] ≡ []) × (unwrap_or rest.new [] ≡ []))
        (λ leak. unwrap_or rest.old [] ≡ leak ∷ unwrap_or rest.new []) }
{
    match rest {
        None => None,
        Some(leaks) => leaks.next(),
    }
}

/// The first piece of the memory types from `next` on, what is left of its type, and the index behind that.
fn next_from<H: Copy + Eq>(
    types: &[MemoryType<H>],
    next: usize,
) -> Option<(Leak<'_>, TypeLeaks<'_, H>, usize)>
    ensures { MatchOption result
        (leaks_beginning next (slots_of (drop next types.now)) ≡ [])
        (λ p. leaks_beginning next (slots_of (drop next types.now))
        ≡ p.0 ∷ (p.1 ++ leaks_beginning p.2 (slots_of (drop p.2 types.now)))) }
{
    let mut index = next;
    while index < types.len() {
        let mut leaks = types[index].all_leaks(index);
        if let Some(leak) = leaks.next() {
            return Some((leak, leaks, index + 1));
        }
        index += 1;
    }
    None
}

impl<'a, H: Copy + Eq> Iterator for AllLeaks<'a, H> {
    type Item = Leak<'a>;

    ghost next_gives = { YieldsFirst (λ s. s) };

    ghost remaining = { item_count (λ s. s) };

    fn next(&mut self) -> Option<Leak<'a>> {
        if let Some(leak) = next_in(&mut self.rest) {
            return Some(leak);
        }
        let (leak, rest, next) = next_from(self.types, self.next)?;
        self.rest = Some(rest);
        self.next = next;
        Some(leak)
    }
}

/// The texts of the pieces, in order. The only refusal is `HostOutOfMemory`.
pub fn texts_of<H: Copy + Eq>(alloc: Global, leaks: AllLeaks<H>) -> Result<Vec<String>>
    ensures texts { IfOk result (λ v. map string_bytes v.items ≡ map leak_text leaks.entry) }
    ensures cause { IfErr result (λ e. e ≡ HostOutOfMemory) }
{
    let mut texts = Vec::new(alloc);
    for leak in leaks {
        texts.push(leak.to_string(alloc)?)?;
    }
    Ok(texts)
}
