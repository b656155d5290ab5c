//! A run of commands, while the host refuses one request for memory; what each command makes of a refusal, traces show. With
//! ample memory the test passes. Where one request was refused it fails with a text of its own, after all else held:
//! `tools/check_refused` refuses each in turn, and looks for that text.

use super::*;
use std::test::Fail;

/// How a test ends.
type Outcome = std::result::Result<(), Fail>;

/// What a run ends with in which one request was refused.
const TOLD: &str = "one call was refused, and nothing was lost";

/// How a test ends in which so many calls were refused, if all else held.
fn ends(refused: u64, held: bool) -> Outcome {
    match (refused, held) {
        (0, true) => Ok(()),
        (1, true) => Err(Fail::new(TOLD)),
        (_, true) => Err(Fail::new("more than one call was refused")),
        (_, false) => Err(Fail::new("something was lost")),
    }
}

/// Whether the host refused memory: the allocator, or the device, whose code for it is -1.
fn is_want_of_memory(error: &AllocationError) -> bool {
    match error {
        AllocationError::HostOutOfMemory => true,
        AllocationError::Internal(fault) | AllocationError::FailedToMap(fault) => {
            fault.code == Some(-1)
        }
        _ => false,
    }
}

/// A piece that the host reads: uploads are asked for again where the device lacks host memory.
const DOWNLOAD: Piece<'static> = Piece {
    size: 100,
    alignment: 1,
    location: MemoryLocation::GpuToCpu,
    name: "first",
};

/// A piece comes and goes; the capacity before and after.
const CALLS: &[Call] = &[
    Call::Capacity,
    Call::Take(1, DOWNLOAD),
    Call::Free(1),
    Call::Capacity,
];

/// Runs all commands; where the host refused memory for the replies none has run, and they are run once more.
fn run_again(
    s: &mut Session<SimVulkan>,
    commands: &[Command],
    refused: &mut u64,
) -> Option<Vec<Reply>> {
    match s.run(&Discard, commands) {
        Ok(replies) => return Some(replies),
        Err(AllocationError::HostOutOfMemory) => *refused = refused.saturating_add(1),
        Err(_) => return None,
    }
    s.run(&Discard, commands).ok()
}

/// Whether a piece was given at its place, and came and went; or the host refused memory, to the allocator or to the device.
fn comes_and_goes(given: &Reply, freed: &Reply, left: &Reply, refused: &mut u64) -> bool {
    match given {
        Reply::Error(error) => {
            *refused = refused.saturating_add(1);
            is_want_of_memory(error)
                && matches!(freed, Reply::Unbound)
                && matches!(left, Reply::Capacity(0))
        }
        _ => {
            given_at(given) == Some((0, 100, 2))
                && matches!(freed, Reply::Done)
                && matches!(left, Reply::Capacity(4_194_304))
        }
    }
}

/// Whether the replies are as they should be.
fn served(s: &mut Session<SimVulkan>, commands: &[Command], refused: &mut u64) -> bool {
    let Some(replies) = run_again(s, commands, refused) else {
        return false;
    };
    match replies.as_slice() {
        [Reply::Capacity(0), given, freed, left] => comes_and_goes(given, freed, left, refused),
        _ => false,
    }
}

/// A session of that device; else the host refused memory, and the device came back as it was.
fn told(alloc: Global, device: SimVulkan, commands: &[Command]) -> Outcome {
    match made(alloc, device, AllocationSizes::new(4 * MB, 4 * MB)) {
        Ok(a) => {
            let mut refused = 0;
            let mut s = Session::new(alloc, a);
            let done = served(&mut s, commands, &mut refused);
            let held = s.destroy(&Discard).held();
            ends(refused, done && held == 0)
        }
        Err((error, device)) => ends(1, is_want_of_memory(&error) && device.held() == 0),
    }
}

#[test]
fn a_session_loses_nothing_where_memory_is_refused(rt: HostRuntime) -> Outcome {
    let Ok(commands) = commands_of(rt.alloc(), CALLS) else {
        return ends(1, true);
    };
    match simulated(rt.alloc()) {
        Ok(device) => told(rt.alloc(), device, &commands),
        Err(AllocError) => ends(1, true),
    }
}
