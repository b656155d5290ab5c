//! What a simulated device holds.

ghost use Rattle.std.specs.Prelude.{◌≡◌, ◌+◌, [], length, count_by, is_some};
ghost use Rattle.gpu_device.specs.D3D12.{without_heap, without_resource};
ghost use Rattle.gpu_device.specs.Granted.{IsNew, with_granted};
ghost use Rattle.gpu_sim_base.specs.Numbers.{item_at};
ghost use Rattle.gpu_sim_d3d12.specs.Objects.{entry_of, is_heap, held_in_objects, issued, granted, IsAnswer, asked};

use gpu_device::d3d12::{HeapDesc, ID3D12Heap};
use gpu_sim_base::{Numbers, Refusal};
use std::alloc::Global;

/// The host refused memory, or no number is left (`E_OUTOFMEMORY`, 0x8007000e).
pub(crate) const OUT_OF_MEMORY: i32 = -2147024882;

/// A heap or a resource; a resource's size is in bytes, as the device tells it.
#[derive(Clone, Copy)]
pub(crate) enum Object {
    Heap(HeapDesc),
    Committed {
        size: u64,
    },
    Placed {
        heap: ID3D12Heap,
        offset: u64,
        size: u64,
    },
}

/// Heaps and resources by number.
#[derive(Drop)]
pub(crate) struct Objects {
    numbers: Numbers<Object>,
}

impl Objects {
    /// Nothing is held.
    pub(crate) fn new(alloc: Global) -> Self
        ensures { result.numbers.slots.items ≡ [] }
    {
        Objects {
            numbers: Numbers::new(alloc),
        }
    }

    /// How many are held.
    pub(crate) fn count(&self) -> usize
        ensures { result ≡ count_by is_some self.now.numbers.slots.items }
    {
        self.numbers.count()
    }

    /// Answers a question for an object: with the refusal, where there is one, with its new number, or with the host's refusal.
    pub(crate) fn hold(
        &mut self,
        object: Object,
        refusal: Option<Refusal>,
    ) -> Result<Option<u64>, i32>
        ensures answer { IsAnswer (λ number. number) refusal (issued self.old + 1) result }
        ensures number { IsNew (held_in_objects self.old) (granted result) }
        ensures holds { held_in_objects self.new
            ≡ with_granted (held_in_objects self.old) (granted result) (entry_of object) }
        ensures issues { issued self.new ≡ asked (issued self.old) (granted result) }
    {
        match refusal {
            Some(Refusal::Code(code)) => Err(code),
            Some(Refusal::Null) => Ok(None),
            None => match self.numbers.add(object) {
                Ok(number) => Ok(Some(number)),
                Err(_) => Err(OUT_OF_MEMORY),
            },
        }
    }

    /// Takes a heap away; nothing where the number is no heap's.
    pub(crate) fn release_heap(&mut self, number: u64)
        ensures held { held_in_objects self.new ≡ without_heap (held_in_objects self.old) number }
        ensures issues { issued self.new ≡ issued self.old }
    {
        if self.is_heap(number) {
            self.numbers.remove(number);
        }
    }

    /// Takes a resource away; nothing where the number is no resource's.
    pub(crate) fn release_resource(&mut self, number: u64)
        ensures held { held_in_objects self.new
            ≡ without_resource (held_in_objects self.old) number }
        ensures issues { issued self.new ≡ issued self.old }
    {
        if !self.is_heap(number) {
            self.numbers.remove(number);
        }
    }

    /// Whether the number is a heap's.
    fn is_heap(&self, number: u64) -> bool
        ensures { result ≡ is_heap (item_at self.now.numbers.slots.items number) }
    {
        matches!(self.numbers.get(number), Some(Object::Heap(_)))
    }
}
