//! DirectX 12's machine beside the allocator: the same requests of two devices that refuse the same questions.

use super::*;
use crate::numbers::Numbers;
use gpu_d3d12::{Allocation, Allocator, AllocatorCreateDesc, ID3D12DeviceVersion};
use gpu_values::{AllocationError, AllocatorDebugSettings};
use log::sink::Discard;

/// The allocator over its device, and the machine with a device of its own.
struct Pair {
    allocator: Allocator<SimD3D12>,
    machine: Machine,
    device: SimD3D12,
}

/// The questions that both devices refuse.
const REFUSED: [(u64, Refusal); 3] = [
    (2, Refusal::Null),
    (5, Refusal::Code(-2_147_024_882)),
    (6, Refusal::Code(-7)),
];

fn make_pair(alloc: Global, tier: ResourceHeapTier) -> Option<Pair> {
    let sizes = AllocationSizes::default();
    let device = simulated(alloc, tier, &REFUSED)?;
    let desc = AllocatorCreateDesc {
        device: ID3D12DeviceVersion::Device(simulated(alloc, tier, &REFUSED)?),
        debug_settings: AllocatorDebugSettings::default(),
        allocation_sizes: sizes,
    };
    match (
        Allocator::new(alloc, desc),
        Machine::new(alloc, sizes, tier),
    ) {
        (Ok(allocator), Ok(machine)) => Some(Pair {
            allocator,
            machine,
            device,
        }),
        (Ok(allocator), Err(_)) => {
            let _ = allocator.destroy(&Discard);
            None
        }
        (Err(_), _) => None,
    }
}

/// Whether two errors print the same text.
fn same_text(alloc: Global, a: &AllocationError, b: &AllocationError) -> bool {
    match (a.to_string(alloc), b.to_string(alloc)) {
        (Ok(a), Ok(b)) => a == b,
        _ => false,
    }
}

impl Pair {
    /// Whether both answer a request alike; a piece that both gave is kept.
    fn request(
        &mut self,
        alloc: Global,
        numbers: &mut Numbers,
        live: &mut Vec<(Allocation, Allocated)>,
    ) -> bool {
        let locations = [
            MemoryLocation::Unknown,
            MemoryLocation::GpuOnly,
            MemoryLocation::CpuToGpu,
            MemoryLocation::GpuToCpu,
        ];
        let categories = [
            ResourceCategory::Buffer,
            ResourceCategory::RtvDsvTexture,
            ResourceCategory::OtherTexture,
        ];
        let location = locations[(numbers.below(4) % 4) as usize];
        let category = categories[(numbers.below(3) % 3) as usize];
        let mut desc = piece(numbers.size(), location, category);
        desc.alignment = numbers.alignment();
        let of_allocator = self.allocator.allocate(&Discard, &desc);
        let of_machine = allocate(&mut self.machine, &mut self.device, &desc);
        match (of_allocator, of_machine) {
            (Ok(a), Ok(b)) => {
                let same = a.memory_type_index() == b.memory_type && a.piece() == b.piece;
                same && live.push((a, b)).is_ok()
            }
            (Err(a), Err(b)) => same_text(alloc, &a, &b),
            _ => false,
        }
    }

    /// Whether both free a piece, and give a block back or don't.
    fn release(&mut self, allocation: Allocation, allocated: &Allocated) -> bool {
        let before = self.allocator.capacity();
        let freed = self.allocator.free(&Discard, allocation).is_ok();
        match self.machine.free(allocated.memory_type, &allocated.piece) {
            Err(_) => false,
            Ok(back) => freed && back.is_some() == (self.allocator.capacity() < before),
        }
    }

    /// Whether both have the same blocks and pieces.
    fn reports_alike(&self, alloc: Global) -> bool {
        match (self.allocator.generate_report(), self.machine.report()) {
            (Ok(a), Ok(b)) => match (a.text(None), b.text(None)) {
                (Ok(a), Ok(b)) => a == b && self.allocator.capacity() == self.machine.capacity(),
                _ => false,
            },
            _ => false,
        }
    }
}

/// One request, or one piece freed.
fn step(
    alloc: Global,
    pair: &mut Pair,
    numbers: &mut Numbers,
    live: &mut Vec<(Allocation, Allocated)>,
) -> bool {
    if numbers.below(5) < 2 && !live.is_empty() {
        let place = numbers.below(live.len() as u64) as usize;
        if place < live.len() {
            let (allocation, allocated) = live.swap_remove(place);
            return pair.release(allocation, &allocated);
        }
    }
    pair.request(alloc, numbers, live)
}

/// How many of so many steps both take alike.
fn steps_alike(alloc: Global, tier: ResourceHeapTier, count: u64) -> u64 {
    let Some(mut pair) = make_pair(alloc, tier) else {
        return 0;
    };
    let mut numbers = Numbers { state: 77 };
    let mut live = Vec::new(alloc);
    let mut alike: u64 = 0;
    for _ in 0..count {
        if step(alloc, &mut pair, &mut numbers, &mut live) && pair.reports_alike(alloc) {
            alike = alike.saturating_add(1);
        }
    }
    let Pair {
        allocator,
        machine: _,
        device: _,
    } = pair;
    let _ = allocator.destroy(&Discard);
    alike
}

#[test]
fn a_thousand_calls_at_tier_1_are_answered_as_by_the_allocator(rt: HostRuntime) {
    let alike = steps_alike(rt.alloc(), ResourceHeapTier::Tier1, 1000);
    check(&rt, &[alike == 1000]);
}

#[test]
fn a_thousand_calls_at_tier_2_are_answered_as_by_the_allocator(rt: HostRuntime) {
    let alike = steps_alike(rt.alloc(), ResourceHeapTier::Tier2, 1000);
    check(&rt, &[alike == 1000]);
}
