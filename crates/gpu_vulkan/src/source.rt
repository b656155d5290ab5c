//! A Vulkan device as a source of blocks: memory, mapped where its memory type is.

ghost use Rattle.std.specs.Prelude.{◌≡◌, ℕ, List, IsSome, Some, None};
ghost use Rattle.std.specs.Borrow.{sem};
ghost use Rattle.gpu_device.specs.Held.{range_of};
ghost use Rattle.gpu_vulkan.specs.Setup.{IsValid};
ghost use Rattle.gpu_vulkan.specs.Types.{kinds_of_device};
ghost use Rattle.gpu_vulkan.specs.Source.{AsksBlock, GivesMemoryBack, HoldsFirst, blocks_of, one_number};

use crate::Setup;
use crate::block::{allocate_block_memory, free_block_memory};
use gpu_device::vulkan::{AllocationScheme, DeviceMemory, MemoryAllocateInfo, VulkanDevice};
use gpu_pool::BlockSource;
use gpu_values::Result;
use std::marker::Model;
use std::snapshot::Snapshot;

/// A Vulkan device, and what it told when it was handed in. It holds what it held then, and beside that just blocks.
pub struct VulkanBlocks<D: VulkanDevice> {
    device: D,
    first: Snapshot<D>,
    setup: Setup,
}

impl<D: VulkanDevice> Model for VulkanBlocks<D> {
    ghost use Rattle.std.specs.Prelude.{◌≡◌};
    ghost use Rattle.gpu_vulkan.specs.Setup.{IsValid};
    ghost use Rattle.gpu_vulkan.specs.Source.{SourceState, HoldsFirst};

    ghost Value = { SourceState D };

    ghost view = { λ s. record { device = s.device; first = s.first.value; setup = s.setup } };

    ghost invariant = { λ s. (D.properties s.device ≡ s.setup.properties)
        × (D.properties s.first.value ≡ s.setup.properties)
        × IsValid s.setup.properties
        × HoldsFirst s.setup.properties (D.held s.first.value) (D.held s.device) };
}

impl<D: VulkanDevice> BlockSource for VulkanBlocks<D> {
    type Handle = DeviceMemory;

    type Extra = AllocationScheme;

    ghost number = { λ memory. memory.0 };

    ghost kinds = { λ s. kinds_of_device s.setup.properties };

    ghost held = { λ s. blocks_of (D.held s.first) (D.held s.device) };

    ghost asks = { AsksBlock D.VulkanDevice };

    ghost gives_back = { GivesMemoryBack D.VulkanDevice };

    fn ask(
        &mut self,
        memory_type: usize,
        size: u64,
        extra: AllocationScheme,
    ) -> Result<DeviceMemory> {
        let mapped = self.setup.is_mapped(memory_type);
        let info = MemoryAllocateInfo {
            size,
            memory_type_index: memory_type as u32,
            device_address: self.setup.buffer_device_address(),
            scheme: extra,
        };
        allocate_block_memory(&mut self.device, &info, mapped)
    }

    fn give_back(&mut self, handle: DeviceMemory) {
        free_block_memory(&mut self.device, handle);
    }

    ghost same = { one_number };
}

impl<D: VulkanDevice> VulkanBlocks<D> {
    ghost use Rattle.gpu_vulkan.specs.RangeLends.{lends_range};
    ghost use Rattle.gpu_vulkan.specs.Source.{with_written};

    /// A source without blocks, over a device that told this when it was asked.
    pub fn new(device: D, setup: Setup) -> Self
        requires told { setup.properties ≡ D.properties device }
        requires valid { IsValid setup.properties }
        ensures state { result ≡ record { device = device; first = device; setup = setup } }
        ensures none { (n : ℕ) → blocks_of (D.held result.first) (D.held result.device) n ≡ None }
    {
        let first = Snapshot::of(&device);
        VulkanBlocks {
            device,
            first,
            setup,
        }
    }

    /// The device, lent.
    pub fn device(&self) -> &D
        ensures lent { result.now ≡ self.now.device }
        ensures holds { HoldsFirst self.now.setup.properties (D.held self.now.first)
            (D.held self.now.device) }
        ensures constant { D.properties self.now.device ≡ self.now.setup.properties }
    {
        &self.device
    }

    /// What the allocator is made with, lent.
    pub fn setup(&self) -> &Setup
        ensures lent { result.now ≡ self.now.setup }
        ensures valid { IsValid self.now.setup.properties }
    {
        &self.setup
    }

    /// Lends the bytes of a range of a block to be written. A write leaves which blocks there are.
    pub fn range_mut(&mut self, memory: DeviceMemory, start: u64, len: u64) -> &mut [u8]
        requires range { IsSome (range_of (D.held self.old.device) memory.0 start len) }
        requires block { IsSome (blocks_of (D.held self.old.first) (D.held self.old.device)
            memory.0) }
        ensures value { range_of (D.held self.old.device) memory.0 start len ≡ Some result.now }
        ensures* lends { sem 𝓛 (lends_range D.row D.VulkanDevice self.entry memory.0 start result) }
        ensures blocks { (ws : List ℕ) (n : ℕ)
            → let now = with_written D.VulkanDevice self.old memory.0 start ws
            in blocks_of (D.held now.first) (D.held now.device) n
            ≡ blocks_of (D.held self.old.first) (D.held self.old.device) n }
    {
        self.device.range_mut(memory, start, len)
    }

    /// The device, once no block is left: it holds what it held at first.
    pub fn into_device(self) -> D
        requires { (n : ℕ) → blocks_of (D.held self.first) (D.held self.device) n ≡ None }
        ensures same { result ≡ self.device }
        ensures held { D.held result ≡ D.held self.first }
        ensures constant { D.properties result ≡ D.properties self.first }
    {
        let VulkanBlocks {
            device,
            first: _,
            setup: _,
        } = self;
        device
    }
}
