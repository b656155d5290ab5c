//! A list of operations in segments, and the generator that draws it. The same lists time other allocators, so each has a checksum.

ghost use Rattle.std.specs.Prelude.{◌<◌, ◌≤◌, ℕ};

use std::alloc::{AllocError, Global};

const MB: u64 = 1_048_576;

/// xorshift, 64 bits.
#[derive(Drop)]
pub struct Generator {
    state: u64,
}

impl Generator {
    /// The generator of that seed.
    pub fn new(seed: u64) -> Generator {
        Generator {
            state: seed.wrapping_mul(0x9E37_79B9_7F4A_7C15),
        }
    }

    fn next(&mut self) -> u64 {
        self.state ^= self.state << 13;
        self.state ^= self.state >> 7;
        self.state ^= self.state << 17;
        self.state
    }

    /// A number below `n`.
    pub fn below(&mut self, n: u64) -> u64
        requires { 0 < n }
        ensures { result < n }
    {
        (self.next() >> 33) % n
    }

    /// A power of two, 1 to 256.
    pub fn alignment(&mut self) -> u64 {
        1u64 << self.below(9)
    }
}

/// An operation of a list: what is allocated stands under a slot of the list until it is freed.
#[derive(Clone, Copy)]
pub enum Operation {
    Allocate {
        slot: usize,
        size: u64,
        alignment: u64,
        non_linear: bool,
    },
    Free {
        slot: usize,
    },
}

/// What a segment's time counts for.
#[derive(Clone, Copy, PartialEq, Eq)]
pub enum Class {
    Untimed,
    Whole,
    Fill,
    Punch,
    Alloc,
    Free,
}

impl Class {
    /// Those that are printed.
    pub const TIMED: [Class; 5] = [
        Class::Whole,
        Class::Fill,
        Class::Punch,
        Class::Alloc,
        Class::Free,
    ];

    /// What is written behind a list's name.
    pub fn suffix(self) -> &'static str {
        match self {
            Class::Untimed => ".untimed",
            Class::Whole => "",
            Class::Fill => ".fill",
            Class::Punch => ".punch",
            Class::Alloc => ".alloc",
            Class::Free => ".free",
        }
    }
}

/// The operations from the segment before to `end`.
#[derive(Clone, Copy)]
pub struct Segment {
    pub class: Class,
    pub end: usize,
}

/// A list of operations on a block of `block` bytes.
#[derive(Drop)]
pub struct Work {
    pub name: &'static str,
    pub block: u64,
    pub granularity: u64,
    pub slots: usize,
    pub operations: Vec<Operation>,
    pub segments: Vec<Segment>,
}

fn mix(hash: u64, word: u64) -> u64 {
    (hash ^ word).wrapping_mul(0x0000_0100_0000_01b3)
}

impl Work {
    /// An empty list.
    pub fn new(alloc: Global, name: &'static str, granularity: u64, slots: usize) -> Work {
        Work {
            name,
            block: 256 * MB,
            granularity,
            slots,
            operations: Vec::new(alloc),
            segments: Vec::new(alloc),
        }
    }

    /// A piece under a slot.
    pub fn allocate(
        &mut self,
        slot: u64,
        size: u64,
        alignment: u64,
        non_linear: bool,
    ) -> Result<(), AllocError> {
        let slot = slot as usize;
        self.operations.push(Operation::Allocate {
            slot,
            size,
            alignment,
            non_linear,
        })?;
        Ok(())
    }

    /// A linear piece.
    pub fn linear(&mut self, slot: u64, size: u64, alignment: u64) -> Result<(), AllocError> {
        self.allocate(slot, size, alignment, false)
    }

    /// Frees the piece under a slot, if there is one.
    pub fn free(&mut self, slot: u64) -> Result<(), AllocError> {
        let slot = slot as usize;
        self.operations.push(Operation::Free { slot })?;
        Ok(())
    }

    /// A piece of any size from 64 to 65,535, of any alignment to 256, of either kind.
    pub fn mixed(&mut self, draw: &mut Generator, slot: u64) -> Result<(), AllocError> {
        // never 0: 64 to 32,768
        let base = (64u64 << draw.below(10)).max(1);
        let size = base.wrapping_add(draw.below(base));
        let alignment = draw.alignment();
        let non_linear = draw.below(2) == 1;
        self.allocate(slot, size, alignment, non_linear)
    }

    /// The operations since the last cut are of that class.
    pub fn cut(&mut self, class: Class) -> Result<(), AllocError> {
        let end = self.operations.len();
        self.segments.push(Segment { class, end })?;
        Ok(())
    }

    /// The sum of all sizes asked for.
    pub fn asked(&self) -> u64 {
        let mut sum = 0u64;
        for operation in &self.operations {
            if let Operation::Allocate { size, .. } = *operation {
                sum = sum.wrapping_add(size);
            }
        }
        sum
    }

    /// The checksum of all operations, by which two programs know that they do the same.
    pub fn checksum(&self) -> u64 {
        let mut hash = 0xcbf2_9ce4_8422_2325u64;
        for operation in &self.operations {
            match *operation {
                Operation::Free { slot } => {
                    hash = mix(mix(hash, 2), slot as u64);
                }
                Operation::Allocate {
                    slot,
                    size,
                    alignment,
                    non_linear,
                } => {
                    hash = mix(mix(mix(hash, 1), slot as u64), size);
                    hash = mix(mix(hash, alignment), u64::from(non_linear));
                }
            }
        }
        hash
    }
}
