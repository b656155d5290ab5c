//! One memory of a simulated device.

ghost use Rattle.std.specs.Prelude.{◌≡◌, ◌+◌, Some, option_copied};
ghost use Rattle.std.specs.Borrow.{sem};
ghost use Rattle.gpu_device.specs.Held.{HasRange, range_in};
ghost use Rattle.gpu_sim.specs.Memory.{contents_size, contents_bytes, slot_size, slot_bytes, lends_contents, lends_memory, lends_slot, mapped_slot, unmapped_slot, is_held};

/// What a memory holds: its bytes while it is mapped, and otherwise how many it would have.
#[derive(Drop)]
pub(crate) enum Contents {
    Unmapped(u64),
    Mapped(Vec<u8>),
}

impl Contents {
    fn size(&self) -> u64
        ensures { result ≡ contents_size self.now }
    {
        match self {
            Contents::Unmapped(size) => *size,
            Contents::Mapped(bytes) => bytes.len() as u64,
        }
    }

    fn part(&self, start: u64, len: u64) -> Option<&[u8]>
        ensures { option_copied result ≡ range_in start len (contents_bytes self.now) }
    {
        match self {
            Contents::Mapped(bytes) => {
                let count = bytes.len() as u64;
                if start > count || len > count - start {
                    return None;
                }
                Some(&bytes.as_slice()[start as usize..(start + len) as usize])
            }
            Contents::Unmapped(_) => None,
        }
    }

    fn part_mut(&mut self, start: usize, len: usize) -> &mut [u8]
        requires { HasRange (contents_bytes self.old) start len }
        ensures* lends { sem 𝓛 (lends_contents self.entry start result) }
        ensures value { range_in start len (contents_bytes self.old) ≡ Some result.now }
    {
        match self {
            Contents::Mapped(bytes) => bytes.slice_mut(start..start + len),
            Contents::Unmapped(_) => unreachable!(),
        }
    }
}

/// A memory: its type, and what it holds.
#[derive(Drop)]
pub(crate) struct Memory {
    pub(crate) memory_type_index: u32,
    pub(crate) contents: Contents,
}

impl Memory {
    fn part_mut(&mut self, start: usize, len: usize) -> &mut [u8]
        requires { HasRange (contents_bytes self.old.contents) start len }
        ensures* lends { sem 𝓛 (lends_memory self.entry start result) }
        ensures value { range_in start len (contents_bytes self.old.contents) ≡ Some result.now }
    {
        self.contents.part_mut(start, len)
    }
}

/// The place of a number that was given out: free once its memory was given back.
#[derive(Drop)]
pub(crate) enum Slot {
    Free,
    Held(Memory),
}

impl Slot {
    /// Whether a memory is held here.
    pub(crate) fn is_held(&self) -> bool
        ensures { result ≡ is_held self.now }
    {
        matches!(self, Slot::Held(_))
    }

    /// In bytes; 0 where no memory is held.
    pub(crate) fn size(&self) -> u64
        ensures { result ≡ slot_size self.now }
    {
        match self {
            Slot::Held(memory) => memory.contents.size(),
            Slot::Free => 0,
        }
    }

    /// The bytes of a range, where they are there.
    pub(crate) fn part(&self, start: u64, len: u64) -> Option<&[u8]>
        ensures { option_copied result ≡ range_in start len (slot_bytes self.now) }
    {
        match self {
            Slot::Held(memory) => memory.contents.part(start, len),
            Slot::Free => None,
        }
    }

    /// The bytes of a range, lent.
    pub(crate) fn part_mut(&mut self, start: usize, len: usize) -> &mut [u8]
        requires { HasRange (slot_bytes self.old) start len }
        ensures* lends { sem 𝓛 (lends_slot self.entry start result) }
        ensures value { range_in start len (slot_bytes self.old) ≡ Some result.now }
    {
        match self {
            Slot::Held(memory) => memory.part_mut(start, len),
            Slot::Free => unreachable!(),
        }
    }

    /// Takes the bytes away.
    pub(crate) fn unmap(&mut self)
        ensures { self.new ≡ unmapped_slot self.old }
    {
        match self {
            Slot::Held(memory) => memory.contents = Contents::Unmapped(memory.contents.size()),
            Slot::Free => {}
        }
    }

    /// Gives the memory these bytes.
    pub(crate) fn map(&mut self, bytes: Vec<u8>)
        ensures { self.new ≡ mapped_slot self.old bytes }
    {
        match self {
            Slot::Held(memory) => memory.contents = Contents::Mapped(bytes),
            Slot::Free => {}
        }
    }
}
