//! A few calls of Metal's machine, while the host refuses one request for memory (`tools/check_refused`): one call tells of it, and
//! nothing is lost.

use super::*;
use std::test::Fail;

/// What a run ends with in which one request was refused.
const TOLD: &str = "one call was refused, and nothing was lost";

/// A request with a new block or a piece of one, and a name; how many of these calls were refused.
fn piece_comes(machine: &mut Machine, device: &mut SimMetal) -> u64 {
    match allocate(machine, device, &piece(512, MemoryLocation::GpuToCpu)) {
        Err(_) => 1,
        Ok(it) => {
            let name = "a name of more than twenty-two bytes, kept apart";
            u64::from(machine.rename(it.memory_type, &it.piece, name).is_err())
        }
    }
}

/// Calls that take memory; how many were refused.
fn calls(machine: &mut Machine, device: &mut SimMetal) -> u64 {
    let told = [
        piece_comes(machine, device),
        piece_comes(machine, device),
        u64::from(machine.report().is_err()),
    ];
    let mut refused: u64 = 0;
    for one in told {
        refused = refused.saturating_add(one);
    }
    refused
}

#[test]
fn each_call_of_metals_machine_tells_of_its_refusal(
    rt: HostRuntime,
) -> std::result::Result<(), Fail> {
    let mut device = SimMetal::new(rt.alloc(), true, Vec::new(rt.alloc()));
    let refused = match Machine::new(rt.alloc(), AllocationSizes::default(), false) {
        Err(_) => 1,
        Ok(mut machine) => {
            let refused = calls(&mut machine, &mut device);
            if machine.awaits_answer() { 2 } else { refused }
        }
    };
    match refused {
        0 => Ok(()),
        1 => Err(Fail::new(TOLD)),
        _ => Err(Fail::new("more than one call was refused, or a question stays open")),
    }
}
