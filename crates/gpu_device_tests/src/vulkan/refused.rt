//! A memory and its bytes, while the host refuses one request for memory. With ample memory the test passes.

use super::{ask_both, counts, device, has_bytes, info, no_bytes};
use crate::steps::ends;
use gpu_device::vulkan::DeviceMemory;
use gpu_sim::SimVulkan;
use std::test::Fail;

const FIRST: DeviceMemory = DeviceMemory(1);

/// Where the host refuses memory, the answer is code -1, and the counts and the latest question alone tell of it.
fn ask(sim: &mut SimVulkan) -> (bool, bool) {
    let answers = ask_both(sim, 4);
    let named = sim.last_info() == Some(info(4));
    if answers == (Ok(FIRST), Some(Ok(true))) {
        let held = has_bytes(sim, FIRST, 0, &[0; 4]) && counts(sim, (1, 2, 0));
        return (false, named && held);
    }
    let held = if answers == (Err(-1), None) {
        counts(sim, (0, 1, 1))
    } else {
        answers == (Ok(FIRST), Some(Err(-1))) && counts(sim, (1, 2, 1))
    };
    (true, named && held && no_bytes(sim, FIRST, 0, 0))
}

#[test]
fn a_memory_and_its_bytes(rt: HostRuntime) -> Result<(), Fail> {
    let Ok(mut sim) = device(rt.alloc(), u64::MAX, &[]) else {
        return ends(true, true);
    };
    let (refused, held) = ask(&mut sim);
    ends(refused, held)
}
