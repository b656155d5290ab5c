//! A Metal device as a source of blocks: heaps, each a member of the residency set, where there is one.

ghost use Rattle.std.specs.Prelude.{◌≡◌, ℕ, ℤ, true, None, Err, IfOk, IfErr, option_copied};
ghost use Rattle.gpu_values.specs.Refusal.{refusal_of};
ghost use Rattle.gpu_metal.specs.Residency.{MakesSet, AnswersSet, set_refusal};
ghost use Rattle.gpu_metal.specs.Setup.{kinds_of_device};
ghost use Rattle.gpu_metal.specs.Blocks.{residency_of, left_behind};
ghost use Rattle.gpu_metal.specs.Source.{AsksBlock, GivesHeapBack, CommitsSet, blocks_of, HoldsFirst, one_number};

use crate::{commit_set, create_block_heap, create_residency_set, location_at, release_block_heap};
use gpu_device::metal::{MTLHeap, MTLResidencySet, MetalDevice};
use gpu_pool::BlockSource;
use gpu_values::{AllocationError, Result};
use std::marker::Model;
use std::snapshot::Snapshot;

/// A Metal device, and the residency set that it made, where one was wanted. It holds what it held when it was handed in, and
/// beside that just blocks, which are the members of the set.
pub struct MetalBlocks<D: MetalDevice> {
    device: D,
    first: Snapshot<D>,
    set: Option<MTLResidencySet>,
}

impl<D: MetalDevice> Model for MetalBlocks<D> {
    ghost use Rattle.std.specs.Prelude.{◌≡◌};
    ghost use Rattle.gpu_metal.specs.Source.{SourceState, HoldsFirst};

    ghost Value = { SourceState D };

    ghost view = { λ s. record { device = s.device; first = s.first.value; set = s.set } };

    ghost invariant = { λ s. (D.properties s.device ≡ D.properties s.first.value)
        × HoldsFirst s.set (D.held s.first.value) (D.held s.device) };
}

impl<D: MetalDevice> BlockSource for MetalBlocks<D> {
    type Handle = MTLHeap;

    type Extra = ();

    ghost number = { λ heap. heap.0 };

    ghost kinds = { λ s. kinds_of_device };

    ghost held = { λ s. blocks_of (D.held s.first) (D.held s.device) };

    ghost asks = { AsksBlock D.MetalDevice };

    ghost gives_back = { GivesHeapBack D.MetalDevice };

    fn ask(&mut self, memory_type: usize, size: u64, _extra: ()) -> Result<MTLHeap> {
        create_block_heap(&mut self.device, self.set, location_at(memory_type), size)
    }

    fn give_back(&mut self, handle: MTLHeap) {
        release_block_heap(&mut self.device, self.set, handle);
    }

    ghost same = { one_number };
}

impl<D: MetalDevice> MetalBlocks<D> {
    /// A source without blocks. Where a residency set is wanted and refused, the device comes back beside `Internal`.
    pub fn new(device: D, wants_set: bool) -> Result<Self, (AllocationError, D)>
        ensures made { IfOk result (λ s. (s.first ≡ device)
            × MakesSet D.MetalDevice wants_set device s.set s.device) }
        ensures none { IfOk result (λ s. (n : ℕ)
            → blocks_of (D.held s.first) (D.held s.device) n ≡ None) }
        ensures refused { IfErr result (λ e. (refusal_of e.0 ≡ set_refusal) × (wants_set ≡ true)
            × ((code : ℤ) × AnswersSet D.MetalDevice device (Err code) e.1)) }
    {
        let first = Snapshot::of(&device);
        let mut device = device;
        match create_residency_set(&mut device, wants_set) {
            Err(error) => Err((error, device)),
            Ok(set) => Ok(MetalBlocks { device, first, set }),
        }
    }

    /// The device, lent.
    pub fn device(&self) -> &D
        ensures lent { result.now ≡ self.now.device }
        ensures holds { HoldsFirst self.now.set (D.held self.now.first) (D.held self.now.device) }
        ensures constant { D.properties self.now.device ≡ D.properties self.now.first }
    {
        &self.device
    }

    /// The residency set, where there is one.
    pub fn residency_set(&self) -> Option<&MTLResidencySet>
        ensures { option_copied result ≡ self.now.set }
    {
        self.set.as_ref()
    }

    /// Makes the members of the residency set its committed members; without a set it does nothing.
    pub fn commit(&mut self)
        ensures commits { CommitsSet D.MetalDevice self.old self.new }
        ensures blocks { (n : ℕ) → blocks_of (D.held self.new.first) (D.held self.new.device) n
            ≡ blocks_of (D.held self.old.first) (D.held self.old.device) n }
    {
        commit_set(&mut self.device, self.set);
    }

    /// The device, given back once no block is left: it holds what it held at first, and the set, where there is one, without
    /// members.
    pub fn into_device(self) -> D
        requires { (n : ℕ) → blocks_of (D.held self.first) (D.held self.device) n ≡ None }
        ensures same { result ≡ self.device }
        ensures held { D.held result ≡ left_behind (D.held self.first) self.set
            (residency_of (D.held self.device) self.set) }
    {
        let MetalBlocks {
            device,
            first: _,
            set: _,
        } = self;
        device
    }
}
