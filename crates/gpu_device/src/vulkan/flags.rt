//! The properties of a memory type, as a set of bits.

ghost use Rattle.std.specs.Prelude.{⊤, ◌≡◌, ◌==◌, [], ◌∷◌, codes};
ghost use Rattle.std.specs.Int.RustNames.{bit_and, bit_or};

use bitflags::{Flag, Flags};
use std::ops::{BitAnd, BitOr};

/// The properties of a memory type (`VkMemoryPropertyFlags`). Bits without a name here are kept.
#[derive(Clone, Copy, Debug, PartialEq, Eq)]
pub struct MemoryPropertyFlags(pub u32);

impl MemoryPropertyFlags {
    /// Fast to reach for the device.
    pub const DEVICE_LOCAL: MemoryPropertyFlags = MemoryPropertyFlags(1);

    /// The host can map it.
    pub const HOST_VISIBLE: MemoryPropertyFlags = MemoryPropertyFlags(2);

    /// Host and device see each other's writes without a flush.
    pub const HOST_COHERENT: MemoryPropertyFlags = MemoryPropertyFlags(4);

    /// The host's reads are cached.
    pub const HOST_CACHED: MemoryPropertyFlags = MemoryPropertyFlags(8);

    /// The bits that have a name, in order.
    const FLAGS: &'static [Flag<MemoryPropertyFlags>] = &[
        Flag {
            name: "DEVICE_LOCAL",
            value: MemoryPropertyFlags::DEVICE_LOCAL,
        },
        Flag {
            name: "HOST_VISIBLE",
            value: MemoryPropertyFlags::HOST_VISIBLE,
        },
        Flag {
            name: "HOST_COHERENT",
            value: MemoryPropertyFlags::HOST_COHERENT,
        },
        Flag {
            name: "HOST_CACHED",
            value: MemoryPropertyFlags::HOST_CACHED,
        },
    ];

    /// Whether every bit of `other` is among these.
    pub fn contains(self, other: MemoryPropertyFlags) -> bool
        ensures { result ≡ (bit_and self.0 other.0 == other.0) }
    {
        self.0 & other.0 == other.0
    }
}

impl Flags for MemoryPropertyFlags {
    type Bits = u32;

    ghost exact = { ⊤ };

    ghost table = { (codes "DEVICE_LOCAL", 1) ∷ (codes "HOST_VISIBLE", 2)
        ∷ (codes "HOST_COHERENT", 4) ∷ (codes "HOST_CACHED", 8) ∷ [] };

    ghost set_of = { λ flags. flags.0 };

    fn flags<'a>() -> &'a [Flag<MemoryPropertyFlags>] {
        MemoryPropertyFlags::FLAGS
    }

    fn bits(&self) -> u32 {
        self.0
    }

    fn from_bits_retain(bits: u32) -> MemoryPropertyFlags {
        MemoryPropertyFlags(bits)
    }
}

/// The bits of either.
impl BitOr for MemoryPropertyFlags {
    type Output = MemoryPropertyFlags;

    ghost bitor_gives = { λ a b r. r.0 ≡ bit_or a.0 b.0 };

    fn bitor(self, other: MemoryPropertyFlags) -> MemoryPropertyFlags {
        MemoryPropertyFlags(self.0 | other.0)
    }
}

/// The bits of both.
impl BitAnd for MemoryPropertyFlags {
    type Output = MemoryPropertyFlags;

    ghost bitand_gives = { λ a b r. r.0 ≡ bit_and a.0 b.0 };

    fn bitand(self, other: MemoryPropertyFlags) -> MemoryPropertyFlags {
        MemoryPropertyFlags(self.0 & other.0)
    }
}
