//! Committed resources over a device: each has memory of its own, and a record until it is given back.

ghost use Rattle.std.specs.Prelude.{◌≡◌, ℕ, ◌<◌, length, All, [], IfOk, IfErr, OnOk, OnErr, None};
ghost use Rattle.std.specs.List.{slice_set};
ghost use Rattle.gpu_values.specs.Refusal.{refusal_of};
ghost use Rattle.gpu_device.specs.declared.d3d12.event.ResourcePlace.TheVariants.{Own};
ghost use Rattle.gpu_device.specs.D3D12 as entries;
ghost use Rattle.gpu_d3d12.specs.DeviceVersion.{device_of};
ghost use Rattle.gpu_d3d12.specs.Question.{made_size};
ghost use Rattle.gpu_d3d12.specs.CommittedRequests.{record_of};
ghost use Rattle.gpu_d3d12.specs.Journal.{with_made, with_released, number_in};
ghost use Rattle.gpu_d3d12.specs.Source.{MakesResource, ReleasesResource, source_blocks};

use crate::source::D3D12Blocks;
use crate::{
    Committed, CommittedAllocationStatistics, CommittedRequests, CreateCall, ResourceCreateDesc,
};
use gpu_device::d3d12::{D3D12Device, HeapFlags, HeapProperties, ID3D12Resource};
use gpu_values::Result;
use std::alloc::{AllocError, Global};
use std::marker::Model;

/// The memory of its own that a committed resource is asked for with.
#[derive(Clone, Copy)]
pub struct CommittedMemory<'a> {
    /// Where it lies.
    pub heap_properties: &'a HeapProperties,
    /// What it is for.
    pub heap_flags: HeapFlags,
}

/// The committed resources of each memory type. Between its calls no question is open.
#[derive(Drop)]
pub struct CommittedResources {
    requests: CommittedRequests,
}

impl Model for CommittedResources {
    ghost use Rattle.std.specs.Prelude.{◌≡◌, None};
    ghost use Rattle.gpu_d3d12.specs.Committed as lists;

    ghost Value = { lists.Committed };

    ghost view = { λ c. c.requests.records };

    ghost invariant = { λ c. c.requests.awaited ≡ None };
}

impl CommittedResources {
    ghost use Rattle.gpu_d3d12.specs.Committed.{place_of, freed, records_at, statistics_at, IsCommitted, ReleasesRecord};

    /// None as yet, of this many memory types.
    pub fn new(alloc: Global, count: usize) -> Result<Self, AllocError>
        ensures count { IfOk result (λ c. length c ≡ count) }
        ensures empty { IfOk result (λ c. All (λ records. records ≡ []) c) }
    {
        let requests = CommittedRequests::new(alloc, count)?;
        Ok(CommittedResources { requests })
    }

    /// How many there are of the memory type at `index`, and their sizes' sum; `None` where it isn't there.
    pub fn statistics(&self, index: usize) -> Option<CommittedAllocationStatistics>
        ensures { result ≡ statistics_at self.now index }
    {
        self.requests.statistics(index)
    }

    /// Makes one of the memory type at `index`, with this size in bytes, as the device tells it. `OutOfMemory` where that would
    /// carry the memory type's sum past `u64::MAX`, `HostOutOfMemory` where there is no room for the record; then the
    /// device isn't asked. `Internal` where it refuses. A refusal changes nothing.
    pub fn create<D: D3D12Device>(
        &mut self,
        source: &mut D3D12Blocks<D>,
        index: usize,
        question: CreateCall,
        own: CommittedMemory,
        desc: &ResourceCreateDesc,
        size: u64,
    ) -> Result<ID3D12Resource>
        requires there { index < length self.old }
        ensures committed { IsCommitted
            (λ s answer t. MakesResource D.D3D12Device desc.now s question
            (Own own.entry.heap_properties.now own.entry.heap_flags)
            (entries.Committed (made_size (D.properties (device_of source.old.device)) question
            desc.now.resource_desc.now desc.now.castable_formats.now)) answer t) size
            (records_at self.old index) source.old result (records_at self.new index) source.new }
        ensures blocks { (n : ℕ) → source_blocks D.D3D12Device source.new n
            ≡ source_blocks D.D3D12Device source.old n }
        ensures tier { source.new.tier ≡ source.old.tier }
        ensures journal { source.new.journal ≡ with_made (number_in result) source.old.journal }
        ensures others { self.new ≡ slice_set self.old index (records_at self.new index) }
    {
        self.requests.begin(index, size)?;
        // A question is open from here on, so neither answer to it is refused.
        match source.create_committed(question, own, desc) {
            Err(error) => {
                let _ = self.requests.not_made();
                Err(error)
            }
            Ok(resource) => {
                let _ = self.requests.made(resource);
                Ok(resource)
            }
        }
    }

    /// Releases one. `Internal` where there is no record of this memory type, number and size; then nothing changes. It takes no
    /// memory.
    pub fn release<D: D3D12Device>(
        &mut self,
        source: &mut D3D12Blocks<D>,
        committed: Committed,
    ) -> Result<()>
        ensures gives { OnOk result (ReleasesRecord committed.memory_type (record_of committed)
            self.old self.new
            × ReleasesResource D.D3D12Device source.old committed.resource.0 source.new) }
        ensures dead { OnErr result (place_of (records_at self.old committed.memory_type)
            (record_of committed) ≡ None) }
        ensures cause { IfErr result (λ e. refusal_of e ≡ freed) }
        ensures refused { OnErr result ((self.new ≡ self.old) × (source.new ≡ source.old)) }
        ensures blocks { (n : ℕ) → source_blocks D.D3D12Device source.new n
            ≡ source_blocks D.D3D12Device source.old n }
        ensures tier { source.new.tier ≡ source.old.tier }
        ensures journal { source.new.journal
            ≡ with_released committed.resource result source.old.journal }
    {
        self.requests.forget(committed)?;
        source.release(committed.resource);
        Ok(())
    }
}
