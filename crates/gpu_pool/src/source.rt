//! What blocks come from.

ghost use Rattle.std.specs.Prelude.{◌≡◌, ℕ, ◌<◌, Bool, true, List, length, Option, Result, IsSome};
ghost use Rattle.gpu_values.specs.Refusal.{Refusal};
ghost use Rattle.gpu_pool.specs.Source.{HeldBlock, HoldsAfter, Removes, result_of};

use gpu_values::Result;

/// What blocks come from: a device, as an allocator asks it for memory. Every caller may rest on this:
/// - which memory types there are never changes;
/// - a question that is granted adds one block, under a number that was free; one that is refused changes nothing that is held;
/// - a block that goes back is never refused, and no other goes.
pub trait BlockSource {
    /// The driver's object behind a block.
    type Handle: Copy + Eq;
    /// What a question for a block says beside its memory type and size.
    type Extra: Copy;

    // The number under which a handle's block is held.
    ghost number: { Self.Handle → ℕ };

    // Of each memory type, whether its blocks are of the host's sizes, and its page size.
    ghost kinds: { Self → List (Bool × ℕ) };

    // The blocks that it holds, by number.
    ghost held: { Self → ℕ → Option HeldBlock };

    // A question for a block of a memory type and size, and its answer, in the words of the source's own API.
    ghost asks: { Self → ℕ → ℕ → Self.Extra → Result Self.Handle Refusal → Self → Type 0 };

    // A block that goes back, in the words of the source's own API.
    ghost gives_back: { Self → Self.Handle → Self → Type 0 };

    /// Asks for a block of a memory type, of `size` bytes.
    fn ask(&mut self, memory_type: usize, size: u64, extra: Self::Extra) -> Result<Self::Handle>
        requires { memory_type < length (kinds self.old) }
        ensures asked { asks self.old memory_type size extra (result_of result) self.new }
        ensures held { HoldsAfter number (held self.old)
            (record { memory_type = memory_type; size = size }) (result_of result) (held self.new) }
        ensures constant { kinds self.new ≡ kinds self.old };

    /// Gives a block back. Never refused.
    fn give_back(&mut self, handle: Self::Handle)
        requires { IsSome (held self.old (number handle)) }
        ensures given { gives_back self.old handle self.new }
        ensures removed { Removes (held self.old) (number handle) (held self.new) }
        ensures constant { kinds self.new ≡ kinds self.old };

    // Handles that compare alike have one number.
    ghost same: { (a b : Self.Handle) → Self.Handle.eq a b ≡ true → number a ≡ number b };
}
