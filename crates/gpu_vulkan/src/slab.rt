//! The bytes of a mapped allocation, lent.

ghost use Rattle.std.specs.Prelude.{◌≡◌, length};
ghost use Rattle.std.specs.Borrow.{sem};

/// The bytes of a mapped allocation, lent to be read and written. Offsets in it begin at the allocation's.
#[derive(Drop)]
pub struct MappedAllocationSlab<'a> {
    pub(super) bytes: &'a mut [u8],
}

impl<'a> MappedAllocationSlab<'a> {
    ghost use Rattle.gpu_vulkan.specs.SlabLends.{lends_slab};

    /// How many bytes there are: the allocation's size.
    pub fn size(&self) -> usize
        ensures { result ≡ length self.now.bytes.now }
    {
        self.bytes.len()
    }

    /// The bytes, to be read.
    pub fn as_slice(&self) -> &[u8]
        ensures { result.now ≡ self.now.bytes.now }
    {
        &*self.bytes
    }

    /// The bytes, to be written.
    pub fn as_mut_slice(&mut self) -> &mut [u8]
        // once the slice has ended, what it then holds is what the slab's bytes are
        ensures* lends { sem 𝓛 (lends_slab self.entry result) }
        ensures value { result.now ≡ self.old.bytes.now }
    {
        &mut *self.bytes
    }
}
