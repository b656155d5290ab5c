//! The laws in use, at any device.

ghost use Rattle.std.specs.Prelude.{◌≡◌, Some, true};

use gpu_device::d3d12::{D3D12Device, HeapDesc, ResourceDesc};

/// Makes a heap and a resource at its start, and gives both back. The answer is whether the device granted both; either
/// way it holds what it held, and where it granted both it counts no refusal.
#[tactic(auto, using(gpu_device::proofs::HeapsAndResources::d3d12_changes))]
pub fn make_and_release<D: D3D12Device>(
    device: &mut D,
    heap_desc: &HeapDesc,
    desc: &ResourceDesc,
) -> bool
    ensures held { D.held device.new ≡ D.held device.old }
    ensures counts { result ≡ true → D.refused device.new ≡ D.refused device.old }
    ensures question { D.latest_heap device.new ≡ Some heap_desc.now }
{
    let Ok(Some(heap)) = device.create_heap(heap_desc) else {
        return false;
    };
    let placed = device.create_placed_resource(heap, 0, desc, 0, None);
    let granted = match placed {
        Ok(Some(resource)) => {
            device.release_resource(resource);
            true
        }
        Ok(None) | Err(_) => false,
    };
    device.release_heap(heap);
    granted
}
