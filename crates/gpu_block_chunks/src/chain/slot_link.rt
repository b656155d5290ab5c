//! The slots that chunks are linked to, in 4 bytes each.

ghost use Rattle.std.specs.Prelude.{◌≡◌, None, IfSome};
ghost use Rattle.gpu_block_chunks.specs.SlotLink.{IsLinkable};

use std::marker::Model;

/// The number that is no slot's.
const NO_SLOT: u32 = u32::MAX;

/// A slot, if there is one: its number, or the number of none.
#[derive(Clone, Copy)]
pub struct SlotLink {
    number: u32,
}

impl Model for SlotLink {
    ghost use Rattle.std.specs.Prelude.{Option, ℕ, ◌<◌, ◌^◌};

    ghost Value = { Option ℕ };

    ghost use Rattle.gpu_block_chunks.specs.SlotLink.{slot_if, number_if, number_if_again};

    ghost view = { λ l. slot_if l.number };

    ghost invariant = { λ l. l.number < 2 ^ 32 };

    ghost inverse = { λ o. record { number = number_if o } };

    ghost inverse_ok = { λ l h i. record { number = number_if_again l.number i } };
}

impl SlotLink {
    /// No slot.
    #[inline(always)]
    pub fn none() -> SlotLink
        ensures { result ≡ None }
    {
        SlotLink { number: NO_SLOT }
    }

    /// That slot, if there is one.
    #[inline(always)]
    pub fn new(slot: Option<u32>) -> SlotLink
        requires { IfSome slot IsLinkable }
        ensures { result ≡ slot }
    {
        match slot {
            Some(number) => SlotLink { number },
            None => SlotLink::none(),
        }
    }

    /// The slot, if there is one.
    #[inline(always)]
    pub fn slot(self) -> Option<u32>
        ensures { result ≡ self }
    {
        if self.number == NO_SLOT {
            return None;
        }
        Some(self.number)
    }
}
