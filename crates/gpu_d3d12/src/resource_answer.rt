//! Asking the device for a resource.

ghost use Rattle.std.specs.Prelude.{◌≡◌, Some, None};
ghost use Rattle.gpu_values.specs.Refusal.{refusal_of};
ghost use Rattle.gpu_device.specs.D3D12.{Committed, Placed};
ghost use Rattle.gpu_device.specs.declared.d3d12.event.ResourcePlace.TheVariants.{Own, InHeap};
ghost use Rattle.gpu_d3d12.specs.Question.{made_size};
ghost use Rattle.gpu_d3d12.specs.ResourceAnswer.{ResourceAnswer, AsksResource, Makes, answer_of, code_refusal, texts_of, committed_texts, placed_texts};

use crate::question::desc1_of;
use crate::{CreateCall, ResourceCreateDesc};
use gpu_device::d3d12::{D3D12Device, HeapFlags, HeapProperties, ID3D12Heap, ID3D12Resource};
use gpu_values::{AllocationError, Fault, Result, internal_fault};

/// Direct3D's code for a device that was removed (`DXGI_ERROR_DEVICE_REMOVED`, 0x887a0005).
const DEVICE_REMOVED: i32 = -2_005_270_523;

/// The texts of a refused question.
#[derive(Clone, Copy, Debug)]
pub struct ResourceTexts {
    /// Where the device was removed.
    pub removed: &'static str,
    /// Where it refused for another cause.
    pub failed: &'static str,
}

/// The texts of a refused committed resource.
fn committed_texts() -> ResourceTexts
    ensures { texts_of result ≡ committed_texts }
{
    ResourceTexts {
        removed: "ID3D12Device::CreateCommittedResource DEVICE_REMOVED",
        failed: "ID3D12Device::CreateCommittedResource failed",
    }
}

/// The texts of a refused placed resource.
fn placed_texts() -> ResourceTexts
    ensures { texts_of result ≡ placed_texts }
{
    ResourceTexts {
        removed: "ID3D12Device::CreatePlacedResource DEVICE_REMOVED",
        failed: "ID3D12Device::CreatePlacedResource failed",
    }
}

/// Why a resource was refused with a code. Where the device was removed it tells the reason now.
fn refusal_of_resource<D: D3D12Device>(
    device: &D,
    code: i32,
    texts: ResourceTexts,
) -> AllocationError
    ensures { refusal_of result ≡ code_refusal (texts_of texts) code (D.removal_reason device.now) }
{
    if code == DEVICE_REMOVED {
        let reason = device.device_removed_reason();
        return AllocationError::Internal(Fault {
            text: texts.removed,
            code: Some(i64::from(reason)),
        });
    }
    AllocationError::Internal(Fault {
        text: texts.failed,
        code: Some(i64::from(code)),
    })
}

/// What the asker makes of the device's answer.
fn made<D: D3D12Device>(
    device: &D,
    answer: Result<Option<ID3D12Resource>, i32>,
    texts: ResourceTexts,
) -> Result<ID3D12Resource>
    ensures { Makes (texts_of texts) result (answer_of answer (D.removal_reason device.now)) }
{
    match answer {
        Err(code) => Err(refusal_of_resource(device, code, texts)),
        Ok(None) => Err(internal_fault("Allocation succeeded but no resource was returned?")),
        Ok(Some(resource)) => Ok(resource),
    }
}

/// Asks for a resource in memory of its own, by this question. `Internal` where the device refuses, with the reason
/// where it was removed, or where it gives null.
pub fn create_committed<D: D3D12Device>(
    device: &mut D,
    question: CreateCall,
    desc: &ResourceCreateDesc,
    heap_properties: &HeapProperties,
    heap_flags: HeapFlags,
) -> Result<ID3D12Resource>
    ensures { (answer : ResourceAnswer)
        × AsksResource D.D3D12Device device.old question desc.now
        (Own heap_properties.now heap_flags)
        (Committed (made_size (D.properties device.old) question desc.now.resource_desc.now
        desc.now.castable_formats.now)) answer device.new
        × Makes committed_texts result answer }
{
    let clear = desc.clear_value;
    let answer = match question {
        CreateCall::InState(state) => device.create_committed_resource(
            heap_properties,
            heap_flags,
            desc.resource_desc,
            state,
            clear,
        ),
        CreateCall::InLayout(layout) => {
            let desc1 = desc1_of(desc.resource_desc);
            device.create_committed_resource3(
                heap_properties,
                heap_flags,
                &desc1,
                layout,
                clear,
                None,
            )
        }
        CreateCall::InLayoutWithFormats(layout) => {
            let desc1 = desc1_of(desc.resource_desc);
            let formats = Some(desc.castable_formats);
            device.create_committed_resource3(
                heap_properties,
                heap_flags,
                &desc1,
                layout,
                clear,
                formats,
            )
        }
    };
    made(device, answer, committed_texts())
}

/// Asks for a resource at an offset in bytes in a heap, by this question. `Internal` where the device refuses, with the
/// reason where it was removed, or where it gives null.
pub fn create_placed<D: D3D12Device>(
    device: &mut D,
    question: CreateCall,
    desc: &ResourceCreateDesc,
    heap: ID3D12Heap,
    offset: u64,
) -> Result<ID3D12Resource>
    ensures { (answer : ResourceAnswer)
        × AsksResource D.D3D12Device device.old question desc.now (InHeap heap offset)
        (Placed heap.0 offset (made_size (D.properties device.old) question
        desc.now.resource_desc.now desc.now.castable_formats.now)) answer device.new
        × Makes placed_texts result answer }
{
    let clear = desc.clear_value;
    let answer = match question {
        CreateCall::InState(state) => {
            device.create_placed_resource(heap, offset, desc.resource_desc, state, clear)
        }
        CreateCall::InLayout(layout) => {
            let desc1 = desc1_of(desc.resource_desc);
            device.create_placed_resource2(heap, offset, &desc1, layout, clear, None)
        }
        CreateCall::InLayoutWithFormats(layout) => {
            let desc1 = desc1_of(desc.resource_desc);
            let formats = Some(desc.castable_formats);
            device.create_placed_resource2(heap, offset, &desc1, layout, clear, formats)
        }
    };
    made(device, answer, placed_texts())
}
