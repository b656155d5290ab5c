//! A few calls of DirectX 12's machine, while the host refuses one request for memory (`tools/check_refused`): one call tells of it, and
//! nothing is lost.

use super::*;
use std::test::Fail;

/// What a run ends with in which one request was refused.
const TOLD: &str = "one call was refused, and nothing was lost";

/// A request with a new block or a piece of one, and a name; how many of these calls were refused.
fn piece_comes(machine: &mut Machine, device: &mut SimD3D12) -> u64 {
    let upload = piece(512, MemoryLocation::GpuToCpu, ResourceCategory::Buffer);
    match allocate(machine, device, &upload) {
        Err(_) => 1,
        Ok(it) => {
            let name = "a name of more than twenty-two bytes, kept apart";
            u64::from(machine.rename(it.memory_type, &it.piece, name).is_err())
        }
    }
}

/// A committed resource; how many of these calls were refused.
fn resource_comes(machine: &mut Machine) -> u64 {
    match machine.begin_committed(1, MemoryLocation::GpuOnly, ResourceCategory::Buffer) {
        Err(_) => 1,
        Ok(()) => {
            if machine.made(ID3D12Resource(1)).is_err() {
                2
            } else {
                0
            }
        }
    }
}

/// Calls that take memory; how many were refused.
fn calls(machine: &mut Machine, device: &mut SimD3D12) -> u64 {
    let told = [
        piece_comes(machine, device),
        piece_comes(machine, device),
        resource_comes(machine),
        u64::from(machine.report().is_err()),
    ];
    let mut refused: u64 = 0;
    for one in told {
        refused = refused.saturating_add(one);
    }
    refused
}

#[test]
fn each_call_of_directx_12s_machine_tells_of_its_refusal(
    rt: HostRuntime,
) -> std::result::Result<(), Fail> {
    let mut device = SimD3D12::new(
        rt.alloc(),
        Ok(ResourceHeapTier::Tier2),
        Vec::new(rt.alloc()),
    );
    let refused = match Machine::new(
        rt.alloc(),
        AllocationSizes::default(),
        ResourceHeapTier::Tier2,
    ) {
        Err(_) => 1,
        Ok(mut machine) => {
            let refused = calls(&mut machine, &mut device);
            if machine.awaits_answer() { 2 } else { refused }
        }
    };
    match refused {
        0 => Ok(()),
        1 => Err(Fail::new(TOLD)),
        _ => Err(Fail::new("more than one call was refused, or a question stays open")),
    }
}
