//! What is told of the simulated device's questions.

ghost use Rattle.std.specs.Prelude.{◌≡◌, option_copied};
ghost use Rattle.gpu_trace_text.specs.D3D12Asked.{Shows, request_initial};

use crate::d3d12::reply::Reply;
use gpu_d3d12::ResourceStateOrBarrierLayout;
use gpu_device::d3d12::{ResourceRequest, ResourceShape};
use gpu_sim_d3d12::SimD3D12;

/// How a resource is to begin.
fn initial_in(request: Option<&ResourceRequest>) -> Option<ResourceStateOrBarrierLayout>
    ensures { result ≡ request_initial (option_copied request.entry) }
{
    match &request?.shape {
        ResourceShape::InState(_, state) => {
            Some(ResourceStateOrBarrierLayout::ResourceState(*state))
        }
        ResourceShape::InLayout(_, layout, _) => {
            Some(ResourceStateOrBarrierLayout::BarrierLayout(*layout))
        }
    }
}

/// Tells what the device was asked. Nothing changes.
pub(crate) fn asked(device: &SimD3D12) -> Reply
    ensures { Shows device.now result }
{
    Reply::Asked {
        questions: device.questions(),
        heap: device.last_heap(),
        formats: device.last_formats(),
        clear: device.last_clear(),
        initial: initial_in(device.last_resource()),
    }
}
