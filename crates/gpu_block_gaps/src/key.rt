//! Keys of two numbers, of which the first counts more, and their 128 bits.

ghost use Rattle.std.specs.Prelude.{◌≡◌, ◌≢◌, ◌<◌, ◌^◌, ◌/◌, ◌+◌, MatchOption};
ghost use Rattle.gpu_block_gaps.specs.Key.{code_of, bit_of};

/// The length and the start of a gap. Keys are in the order of the lengths, those of one length in the order of the starts.
#[derive(Clone, Copy)]
pub struct Key {
    pub length: u64,
    pub start: u64,
}

/// The bits of the start are those below it.
pub const START_BITS: u32 = 64;

impl Key {
    /// Whether a bit of the key is set.
    pub fn is_set(self, bit: u32) -> bool
        requires { bit < 128 }
        ensures { result ≡ bit_of (code_of self) bit }
    {
        let word = if bit < START_BITS {
            self.start
        } else {
            self.length
        };
        word >> (bit % START_BITS) & 1 == 1
    }

    /// The highest bit in which two keys differ.
    pub fn split(self, other: Key) -> Option<u32>
        ensures { MatchOption result (self ≡ other)
            (λ bit. (bit < 128) × (code_of self / 2 ^ (bit + 1) ≡ code_of other / 2 ^ (bit + 1))
            × (code_of self / 2 ^ bit ≢ code_of other / 2 ^ bit)) }
    {
        if self.length != other.length {
            Some(127 - (self.length ^ other.length).leading_zeros())
        } else if self.start != other.start {
            Some(63 - (self.start ^ other.start).leading_zeros())
        } else {
            None
        }
    }
}
