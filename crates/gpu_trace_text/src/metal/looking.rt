//! What is looked up of the device, beside the session.

ghost use Rattle.gpu_sim_metal.specs.Simulation.{held_of};
ghost use Rattle.gpu_trace_text.specs.MetalLook.{Shows, ListsMembers, ListsCommitted, members_in, committed_in};

use crate::metal::line::Look;
use crate::metal::reply::Reply;
use gpu_block_session::ErrorNumber;
use gpu_device::metal::MTLResidencySet;
use gpu_run::metal::Session;
use gpu_sim_metal::SimMetal;
use std::alloc::Global;

/// The members of the set, where there is one.
fn members(alloc: Global, device: &SimMetal, set: Option<MTLResidencySet>) -> Reply
    ensures { ListsMembers (members_in (held_of device.now) set) result }
{
    let Some(set) = set else {
        return Reply::NoSet;
    };
    match device.members(set) {
        None => Reply::NoSet,
        Some(heaps) => match Vec::from_slice(alloc, heaps) {
            Ok(heaps) => Reply::Members(heaps),
            Err(_) => Reply::Refused(ErrorNumber::E10),
        },
    }
}

/// Its committed members, where there is a set.
fn committed(alloc: Global, device: &SimMetal, set: Option<MTLResidencySet>) -> Reply
    ensures { ListsCommitted (committed_in (held_of device.now) set) result }
{
    let Some(set) = set else {
        return Reply::NoSet;
    };
    match device.committed_members(set) {
        None => Reply::NoSet,
        Some(heaps) => match Vec::from_slice(alloc, heaps) {
            Ok(heaps) => Reply::Committed(heaps),
            Err(_) => Reply::Refused(ErrorNumber::E10),
        },
    }
}

/// Answers what is looked up. Nothing changes.
pub(crate) fn look(alloc: Global, session: &Session<SimMetal>, look: Look) -> Reply
    ensures { Shows session.now look result }
{
    let device = session.device();
    let set = session.allocator().residency_set().copied();
    match look {
        Look::Members => members(alloc, device, set),
        Look::Committed => committed(alloc, device, set),
        Look::Asked => Reply::Asked {
            questions: device.questions(),
            heap: device.last_heap(),
        },
    }
}
