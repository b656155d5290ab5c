//! Asking the device for the heap of a block, and giving it back.

ghost use Rattle.std.specs.Prelude.{◌≡◌};
ghost use Rattle.gpu_values.specs.Refusal.{refusal_of};
ghost use Rattle.gpu_d3d12.specs.Heaps.{heap_properties, is_host, heap_desc};
ghost use Rattle.gpu_d3d12.specs.HeapAnswer.{HeapAnswer, AsksHeap, IsResultOf, IsWithoutHeap, code_refusal, answer_refusal};

use crate::MemoryKind;
use gpu_device::d3d12::{
    CpuPageProperty, D3D12Device, HeapDesc, HeapProperties, HeapType, ID3D12Heap, MemoryPool,
};
use gpu_values::{AllocationError, Fault, MemoryLocation, Result, internal_fault};

/// The alignment of a heap in bytes, at which textures with several samples may lie in it
/// (`D3D12_DEFAULT_MSAA_RESOURCE_PLACEMENT_ALIGNMENT`).
const HEAP_ALIGNMENT: u64 = 4_194_304;

/// Direct3D's code for lack of memory (`E_OUTOFMEMORY`, 0x8007000e).
const OUT_OF_MEMORY: i32 = -2_147_024_882;

/// Heap properties on a system with one GPU.
fn properties_with(
    heap_type: HeapType,
    cpu_page_property: CpuPageProperty,
    memory_pool_preference: MemoryPool,
) -> HeapProperties
    ensures { result ≡ record {
      heap_type = heap_type;
      cpu_page_property = cpu_page_property;
      memory_pool_preference = memory_pool_preference;
      creation_node_mask = 0;
      visible_node_mask = 0;
    } }
{
    HeapProperties {
        heap_type,
        cpu_page_property,
        memory_pool_preference,
        creation_node_mask: 0,
        visible_node_mask: 0,
    }
}

/// Where the heaps of a location lie.
pub fn heap_properties(location: MemoryLocation) -> HeapProperties
    ensures { result ≡ heap_properties location }
{
    let unknown = CpuPageProperty::Unknown;
    match location {
        MemoryLocation::Unknown | MemoryLocation::GpuOnly => {
            properties_with(HeapType::Default, unknown, MemoryPool::Unknown)
        }
        MemoryLocation::CpuToGpu => {
            properties_with(
                HeapType::Custom,
                CpuPageProperty::WriteCombine,
                MemoryPool::L0,
            )
        }
        MemoryLocation::GpuToCpu => {
            properties_with(HeapType::Custom, CpuPageProperty::WriteBack, MemoryPool::L0)
        }
    }
}

/// Whether blocks of a memory type have the sizes of memory that the host can see.
pub fn is_host(kind: MemoryKind) -> bool
    ensures { result ≡ is_host kind }
{
    heap_properties(kind.location).heap_type != HeapType::Default
}

/// The heap of `size` bytes that is asked for a block of a memory type.
pub fn heap_desc(kind: MemoryKind, size: u64) -> HeapDesc
    ensures { result ≡ heap_desc kind size }
{
    HeapDesc {
        size,
        properties: heap_properties(kind.location),
        alignment: HEAP_ALIGNMENT,
        content: kind.content,
    }
}

/// Why a heap was refused.
fn refusal_of_heap(code: i32) -> AllocationError
    ensures { refusal_of result ≡ code_refusal code }
{
    if code == OUT_OF_MEMORY {
        return AllocationError::OutOfMemory;
    }
    AllocationError::Internal(Fault {
        text: "ID3D12Device::CreateHeap failed",
        code: Some(i64::from(code)),
    })
}

/// Why a heap wasn't made: the device's code, or none where there was no error, and no heap.
pub fn refusal_of_answer(code: Option<i32>) -> AllocationError
    ensures { refusal_of result ≡ answer_refusal code }
{
    match code {
        Some(code) => refusal_of_heap(code),
        None => internal_fault("ID3D12Heap pointer is null, but should not be."),
    }
}

/// Asks for the heap of a block. `OutOfMemory` where the device has no memory for it, `Internal` where it refuses for
/// another cause or gives null.
pub fn create_block_heap<D: D3D12Device>(device: &mut D, desc: &HeapDesc) -> Result<ID3D12Heap>
    ensures { (answer : HeapAnswer) × AsksHeap D.D3D12Device device.old desc.now answer device.new
        × IsResultOf result answer }
{
    match device.create_heap(desc) {
        Err(code) => Err(refusal_of_answer(Some(code))),
        Ok(None) => Err(refusal_of_answer(None)),
        Ok(Some(heap)) => Ok(heap),
    }
}

/// Gives the heap of a block back. Never refused.
pub fn release_block_heap<D: D3D12Device>(device: &mut D, heap: ID3D12Heap)
    ensures { IsWithoutHeap D.D3D12Device device.old heap.0 device.new }
{
    device.release_heap(heap);
}
