//! Slots in 4 bytes, with a kind beside each.

ghost use Rattle.std.specs.Prelude.{◌≡◌, ◌<◌, ◌^◌};
ghost use Rattle.gpu_block_gaps.specs.TaggedSlot.{kind_number, kind_numbered};

use gpu_values::AllocationType;
use std::marker::Model;

/// For how many tags there is room below a slot's number.
const TAGS: u32 = 4;

/// A slot and a kind as one number.
#[derive(Clone, Copy)]
pub struct TaggedSlot {
    number: u32,
}

impl Model for TaggedSlot {
    ghost use Rattle.std.specs.Prelude.{ℕ, ◌≡◌, ◌<◌, ◌^◌};
    ghost use Rattle.gpu_values.specs.declared.allocation_type.AllocationType.{AllocationType};
    ghost use Rattle.gpu_block_gaps.specs.TaggedSlot.{tagged, untagged};

    ghost Value = { ℕ × AllocationType };

    ghost view = { λ s. untagged s.number };

    ghost invariant = { λ s. (s.number < 2 ^ 32) × (tagged (untagged s.number) ≡ s.number) };

    ghost inverse = { λ t. record { number = tagged t } };

    ghost inverse_ok = { λ s h i. record { number = h.1 i } };
}

/// The tag of a kind.
#[inline(always)]
fn tag_of(kind: AllocationType) -> u32
    ensures { result ≡ kind_number kind }
{
    match kind {
        AllocationType::Free => 0,
        AllocationType::Linear => 1,
        AllocationType::NonLinear => 2,
    }
}

/// The kinds of the tags, of which the last is no slot's: a look at a table is quicker than tests of the tag.
static KINDS: [AllocationType; 4] = [
    AllocationType::Free,
    AllocationType::Linear,
    AllocationType::NonLinear,
    AllocationType::NonLinear,
];

/// The kind of a tag.
#[inline(always)]
fn kind_of(tag: u32) -> AllocationType
    requires { tag < 4 }
    ensures { result ≡ kind_numbered tag }
{
    KINDS[tag as usize]
}

impl TaggedSlot {
    /// A slot with a kind.
    #[inline(always)]
    pub fn new(slot: u32, kind: AllocationType) -> TaggedSlot
        requires { slot < 2 ^ 30 }
        ensures { result ≡ (slot, kind) }
    {
        TaggedSlot {
            number: slot * TAGS + tag_of(kind),
        }
    }

    /// The same kind with another slot.
    #[inline(always)]
    pub fn with_slot(self, slot: u32) -> TaggedSlot
        requires { slot < 2 ^ 30 }
        ensures { result ≡ (slot, self.1) }
    {
        TaggedSlot {
            number: slot * TAGS + self.number % TAGS,
        }
    }

    /// The slot.
    #[inline(always)]
    pub fn slot(self) -> u32
        ensures is { result ≡ self.0 }
        ensures small { result < 2 ^ 30 }
    {
        self.number / TAGS
    }

    /// The kind.
    #[inline(always)]
    pub fn kind(self) -> AllocationType
        ensures { result ≡ self.1 }
    {
        kind_of(self.number % TAGS)
    }
}
