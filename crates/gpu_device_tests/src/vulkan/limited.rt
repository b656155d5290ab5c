//! A device of a user's own: it keeps a budget for each memory over another device. It needs no proof by hand.

ghost use Rattle.std.specs.Prelude.{refl};
ghost use Rattle.gpu_device.specs.VulkanHistory.{refused_in, latest_in};

use super::{counts, device, memory};
use crate::steps::check;
use gpu_device::vulkan::{
    DeviceMemory, Journal, MemoryAllocateInfo, MemoryHeap, MemoryTypeInfo, VulkanDevice,
};
use gpu_sim::SimVulkan;
use std::test::Fail;

/// A device that refuses memory above a limit, without asking the device behind it.
#[derive(Drop)]
pub struct Limited<D> {
    inner: D,
    limit: u64,
    journal: Journal,
}

impl<D: VulkanDevice> VulkanDevice for Limited<D> {
    ghost properties = { λ d. D.properties d.inner };

    ghost held = { λ d. D.held d.inner };

    ghost history = { λ d. d.journal.history };

    ghost refused = { λ d. refused_in d.journal.history };

    ghost latest = { λ d. latest_in d.journal.history };

    ghost written = { λ d number start ws. record d { inner = D.written d.inner number start ws } };

    ghost no_null = { λ d. D.no_null d.inner };

    ghost whole = { λ d. D.whole d.inner };

    ghost write_leaves_others = { λ d. D.write_leaves_others d.inner };

    ghost write_counts_nothing = { λ d number start ws. refl };

    ghost write_names_no_question = { λ d number start ws. refl };

    ghost write_records_nothing = { λ d number start ws. refl };

    ghost refused_is = { λ d. refl };

    ghost latest_is = { λ d. refl };

    ghost write_constant = { λ d. D.write_constant d.inner };

    fn memory_type_count(&self) -> usize {
        self.inner.memory_type_count()
    }

    fn memory_type(&self, index: usize) -> MemoryTypeInfo {
        self.inner.memory_type(index)
    }

    fn heap_count(&self) -> usize {
        self.inner.heap_count()
    }

    fn heap(&self, index: usize) -> MemoryHeap {
        self.inner.heap(index)
    }

    fn buffer_image_granularity(&self) -> u64 {
        self.inner.buffer_image_granularity()
    }

    fn refusals(&self) -> u64 {
        self.journal.refusals()
    }

    fn allocate_memory(&mut self, info: &MemoryAllocateInfo) -> Result<DeviceMemory, i32> {
        let answer = if info.size > self.limit {
            Err(-2)
        } else {
            self.inner.allocate_memory(info)
        };
        self.journal.asked_memory(info, answer);
        answer
    }

    fn map_memory(&mut self, memory: DeviceMemory) -> Result<bool, i32> {
        let answer = self.inner.map_memory(memory);
        self.journal.asked_mapping(memory, answer);
        answer
    }

    fn unmap_memory(&mut self, memory: DeviceMemory) {
        self.inner.unmap_memory(memory);
        self.journal.unmapped(memory);
    }

    fn free_memory(&mut self, memory: DeviceMemory) {
        self.inner.free_memory(memory);
        self.journal.freed(memory);
    }

    fn bytes(&self, memory: DeviceMemory, start: u64, len: u64) -> Option<&[u8]> {
        self.inner.bytes(memory, start, len)
    }

    fn range_mut(&mut self, memory: DeviceMemory, start: u64, len: u64) -> &mut [u8] {
        self.inner.range_mut(memory, start, len)
    }
}

/// Asks for too much, which the device behind isn't asked for, and for as much as is allowed.
fn ask(limited: &mut Limited<SimVulkan>) -> bool {
    let asked = memory(limited, 65, Err(-2))
        && counts(&limited.inner, (0, 0, 0))
        && memory(limited, 64, Ok(DeviceMemory(1)))
        && limited.bytes_mut(DeviceMemory(1), 0, 1).is_none();
    limited.free_memory(DeviceMemory(1));
    asked && counts(&limited.inner, (0, 1, 0)) && limited.refusals() == 1
}

#[test]
fn keeps_the_budget(rt: HostRuntime) -> Result<(), Fail> {
    let mut limited = Limited {
        inner: device(rt.alloc(), u64::MAX, &[])?,
        limit: 64,
        journal: Journal::new(),
    };
    check(&rt, &[ask(&mut limited)]);
    Ok(())
}
