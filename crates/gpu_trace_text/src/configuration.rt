//! The configuration of a device trace.

use crate::device::setting::{Setting, sizes_of};
use gpu_device::vulkan::{MemoryHeap, MemoryPropertyFlags, MemoryTypeInfo};
use gpu_sim::SimVulkan;
use gpu_sim_base::Refusal;
use gpu_values::AllocationSizes;
use std::alloc::{AllocError, Global};
use std::marker::Model;

/// The simulated device and the block sizes that the configuration lines of a device trace describe.
#[derive(Drop)]
pub struct Configuration {
    heaps: Vec<MemoryHeap>,
    types: Vec<MemoryTypeInfo>,
    granularity: Option<u64>,
    sizes: Option<AllocationSizes>,
    refusals: Vec<(u64, Refusal)>,
}

impl Model for Configuration {
    ghost use Rattle.gpu_trace_text.specs.Configuration.{Configured};

    ghost Value = { Configured };

    ghost view = { λ c. record {
      heaps = c.heaps.items;
      types = c.types.items;
      granularity = c.granularity;
      sizes = c.sizes;
      refusals = c.refusals.items;
    } };
}

impl Configuration {
    ghost use Rattle.std.specs.Prelude.{◌≡◌, ◌-◌, ◌^◌, [], ◌∷◌, IfOk, OnErr, Some, None, true, false};
    ghost use Rattle.std.specs.FinMap.{empty};
    ghost use Rattle.gpu_device.specs.VulkanHistory.{scripted};
    ghost use Rattle.gpu_device.specs.declared.vulkan.event.Event.TheVariants.{Limited};
    ghost use Rattle.gpu_sim.specs.Simulation.{held_of, plan_of, history_of, refused_of, latest_of};
    ghost use Rattle.gpu_trace_text.specs.Configuration.{nothing_configured, configured_by, plan_by, sizes_by};

    /// Nothing is configured.
    pub fn new(alloc: Global) -> Configuration
        ensures { result ≡ nothing_configured }
    {
        Configuration {
            heaps: Vec::new(alloc),
            types: Vec::new(alloc),
            granularity: None,
            sizes: None,
            refusals: Vec::new(alloc),
        }
    }

    /// Sets what a line says. Answers whether it could: a page size and block sizes are set once. A refusal changes nothing.
    pub fn set(&mut self, setting: &Setting) -> Result<bool, AllocError>
        ensures set { IfOk result (λ set. set ≡ true
            → configured_by self.old setting.now ≡ Some self.new) }
        ensures not_set { IfOk result (λ set. set ≡ false
            → (configured_by self.old setting.now ≡ None) × (self.new ≡ self.old)) }
        ensures refused { OnErr result (self.new ≡ self.old) }
    {
        match *setting {
            Setting::Heap { size } => self.heaps.push(MemoryHeap { size, flags: 0 })?,
            Setting::MemoryType { flags, heap } => self.types.push(MemoryTypeInfo {
                property_flags: MemoryPropertyFlags(flags),
                heap_index: heap,
            })?,
            Setting::Granularity { bytes } => match self.granularity {
                Some(_) => return Ok(false),
                None => self.granularity = Some(bytes),
            },
            Setting::Sizes {
                device,
                host,
                max_device,
                max_host,
            } => match self.sizes {
                Some(_) => return Ok(false),
                None => self.sizes = Some(sizes_of(device, host, max_device, max_host)),
            },
            Setting::Refuse { question, refusal } => self.refusals.push((question, refusal))?,
        }
        Ok(true)
    }

    /// The sizes of blocks.
    pub fn sizes(&self) -> AllocationSizes
        ensures { result ≡ sizes_by self.now }
    {
        match self.sizes {
            Some(sizes) => sizes,
            None => AllocationSizes::default(),
        }
    }

    /// The device.
    pub fn device(self, alloc: Global) -> SimVulkan
        ensures plan { plan_of result ≡ plan_by self }
        ensures held { held_of result ≡ empty }
        ensures refused { refused_of result ≡ 0 }
        ensures latest { latest_of result ≡ None }
        ensures history { history_of result ≡ Limited (2 ^ 64 - 1) ∷ scripted self.refusals }
    {
        let Configuration {
            heaps,
            types,
            granularity,
            sizes: _,
            refusals,
        } = self;
        SimVulkan::new(
            alloc,
            heaps,
            types,
            granularity.unwrap_or(1),
            u64::MAX,
            refusals,
        )
    }
}
