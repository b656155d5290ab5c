//! A DirectX 12 device as a source of blocks: heaps, beside the resources that are made.

ghost use Rattle.std.specs.Prelude.{◌≡◌, ℕ, [], None};
ghost use Rattle.gpu_d3d12.specs.Journal.{HoldsResources, IsFirstAndOut, with_made, number_in};
ghost use Rattle.gpu_device.specs.D3D12.{Committed, Placed};
ghost use Rattle.gpu_device.specs.declared.d3d12.event.ResourcePlace.TheVariants.{Own, InHeap};
ghost use Rattle.gpu_d3d12.specs.DeviceVersion.{device_of, with_device};
ghost use Rattle.gpu_d3d12.specs.Question.{made_size};
ghost use Rattle.gpu_d3d12.specs.ResourceAnswer.{ResourceAnswer, Makes, committed_texts, placed_texts};
ghost use Rattle.gpu_d3d12.specs.Setup.{kinds_of_device};
ghost use Rattle.gpu_d3d12.specs.Source.{AsksBlock, GivesHeapBack, MakesResource, ReleasesResource, held_by, source_blocks, source_beside, HoldsFirst, one_number};

use crate::journal::{Journal, ResourceEvent};
use crate::{
    CommittedMemory, CreateCall, ID3D12DeviceVersion, ResourceCreateDesc, create_block_heap,
    create_committed, create_placed, heap_desc, kind_at, release_block_heap,
};
use gpu_device::d3d12::{D3D12Device, ID3D12Heap, ID3D12Resource, ResourceHeapTier};
use gpu_pool::BlockSource;
use gpu_values::Result;
use std::marker::Model;
use std::snapshot::Snapshot;

/// A DirectX 12 device. It holds what it held when it was handed in, and beside that just heaps of blocks and the resources that
/// are out.
pub struct D3D12Blocks<D: D3D12Device> {
    device: ID3D12DeviceVersion<D>,
    first: Snapshot<ID3D12DeviceVersion<D>>,
    tier: ResourceHeapTier,
    journal: Journal,
}

impl<D: D3D12Device> Model for D3D12Blocks<D> {
    ghost use Rattle.std.specs.Prelude.{◌≡◌};
    ghost use Rattle.gpu_d3d12.specs.DeviceVersion.{device_of, with_device};
    ghost use Rattle.gpu_d3d12.specs.Journal.{events, HoldsResources};
    ghost use Rattle.gpu_d3d12.specs.Source.{SourceState, HoldsFirst};

    ghost Value = { SourceState D };

    ghost view = { λ s. record {
      device = s.device;
      first = s.first.value;
      tier = s.tier;
      journal =
          events s.journal;
    } };

    ghost invariant = { λ s. (D.properties (device_of s.device)
        ≡ D.properties (device_of s.first.value))
        × (s.device ≡ with_device s.first.value (device_of s.device))
        × HoldsFirst s.tier (D.held (device_of s.first.value)) (D.held (device_of s.device))
        × HoldsResources (D.held (device_of s.first.value)) (D.held (device_of s.device))
        (events s.journal) };
}

impl<D: D3D12Device> BlockSource for D3D12Blocks<D> {
    type Handle = ID3D12Heap;

    type Extra = ();

    ghost number = { λ heap. heap.0 };

    ghost kinds = { λ s. kinds_of_device s.tier };

    ghost held = { source_blocks D.D3D12Device };

    ghost asks = { AsksBlock D.D3D12Device };

    ghost gives_back = { GivesHeapBack D.D3D12Device };

    fn ask(&mut self, memory_type: usize, size: u64, _extra: ()) -> Result<ID3D12Heap> {
        let question = heap_desc(kind_at(self.tier, memory_type), size);
        create_block_heap(self.device.device_mut(), &question)
    }

    fn give_back(&mut self, handle: ID3D12Heap) {
        release_block_heap(self.device.device_mut(), handle);
    }

    ghost same = { one_number };
}

impl<D: D3D12Device> D3D12Blocks<D> {
    /// A source without blocks, over a device of this heap tier.
    pub fn new(device: ID3D12DeviceVersion<D>, tier: ResourceHeapTier) -> Self
        ensures made { result ≡ record {
          device = device;
          first = device;
          tier = tier;
          journal = [];
        } }
        ensures none { (n : ℕ) → source_blocks D.D3D12Device result n ≡ None }
        ensures beside { source_beside D.D3D12Device result ≡ D.held (device_of device) }
    {
        let first = Snapshot::of(&device);
        D3D12Blocks {
            device,
            first,
            tier,
            journal: Journal::new(),
        }
    }

    /// The device, lent.
    pub fn device(&self) -> &ID3D12DeviceVersion<D>
        ensures lent { result.now ≡ self.now.device }
        ensures holds { HoldsFirst self.now.tier (D.held (device_of self.now.first))
            (held_by D.D3D12Device self.now) }
        ensures resources { HoldsResources (D.held (device_of self.now.first))
            (held_by D.D3D12Device self.now) self.now.journal }
        ensures constant { D.properties (device_of self.now.device)
            ≡ D.properties (device_of self.now.first) }
    {
        &self.device
    }

    /// The device's heap tier.
    pub fn tier(&self) -> ResourceHeapTier
        ensures { result ≡ self.now.tier }
    {
        self.tier
    }

    /// Asks for a resource in memory of its own, by this question. `Internal` where the device refuses, with the reason
    /// where it was removed, or where it gives null.
    pub fn create_committed(
        &mut self,
        question: CreateCall,
        own: CommittedMemory,
        desc: &ResourceCreateDesc,
    ) -> Result<ID3D12Resource>
        ensures makes { (answer : ResourceAnswer)
            × MakesResource D.D3D12Device desc.now self.old question
            (Own own.entry.heap_properties.now own.entry.heap_flags)
            (Committed (made_size (D.properties (device_of self.old.device)) question
            desc.now.resource_desc.now desc.now.castable_formats.now)) answer self.new
            × Makes committed_texts result answer }
        ensures blocks { (n : ℕ) → source_blocks D.D3D12Device self.new n
            ≡ source_blocks D.D3D12Device self.old n }
        ensures tier { self.new.tier ≡ self.old.tier }
        ensures journal { self.new.journal ≡ with_made (number_in result) self.old.journal }
    {
        let device = self.device.device_mut();
        let answer = create_committed(device, question, desc, own.heap_properties, own.heap_flags);
        self.journal.note(&answer);
        answer
    }

    /// Asks for a resource at an offset in bytes in a heap, by this question. `Internal` where the device refuses, with the
    /// reason where it was removed, or where it gives null.
    pub fn create_placed(
        &mut self,
        question: CreateCall,
        desc: &ResourceCreateDesc,
        heap: ID3D12Heap,
        offset: u64,
    ) -> Result<ID3D12Resource>
        ensures makes { (answer : ResourceAnswer)
            × MakesResource D.D3D12Device desc.now self.old question (InHeap heap offset)
            (Placed heap.0 offset (made_size (D.properties (device_of self.old.device)) question
            desc.now.resource_desc.now desc.now.castable_formats.now)) answer self.new
            × Makes placed_texts result answer }
        ensures blocks { (n : ℕ) → source_blocks D.D3D12Device self.new n
            ≡ source_blocks D.D3D12Device self.old n }
        ensures tier { self.new.tier ≡ self.old.tier }
        ensures journal { self.new.journal ≡ with_made (number_in result) self.old.journal }
    {
        let device = self.device.device_mut();
        let answer = create_placed(device, question, desc, heap, offset);
        self.journal.note(&answer);
        answer
    }

    /// Releases a resource. Never refused.
    pub fn release(&mut self, resource: ID3D12Resource)
        ensures releases { ReleasesResource D.D3D12Device self.old resource.0 self.new }
        ensures blocks { (n : ℕ) → source_blocks D.D3D12Device self.new n
            ≡ source_blocks D.D3D12Device self.old n }
        ensures tier { self.new.tier ≡ self.old.tier }
    {
        self.device.device_mut().release_resource(resource);
        self.journal.push(ResourceEvent::Released(resource));
    }

    /// The device, given back once no block is left: it holds what it held beside the blocks.
    pub fn into_device(self) -> ID3D12DeviceVersion<D>
        requires { (n : ℕ) → source_blocks D.D3D12Device self n ≡ None }
        ensures same { result ≡ self.device }
        ensures held { D.held (device_of result) ≡ source_beside D.D3D12Device self }
        ensures left { IsFirstAndOut (D.held (device_of self.first)) (D.held (device_of result))
            self.journal }
        ensures version { result ≡ with_device self.first (device_of result) }
    {
        let D3D12Blocks {
            device,
            first: _,
            tier: _,
            journal: _,
        } = self;
        device
    }
}
