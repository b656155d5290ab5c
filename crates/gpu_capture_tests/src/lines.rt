//! The lines of each call.

use gpu_capture::{
    Answer, BlockSizes, Capture, CaptureEnd, Category, D3D12Request, MetalRequest, Request,
    VulkanDevice, VulkanRequest,
};
use gpu_device::Refusal;
use gpu_device::d3d12::ResourceHeapTier;
use gpu_device::vulkan::{
    AllocationScheme, Buffer, Image, MemoryPropertyFlags, MemoryRequirements, MemoryTypeInfo,
};
use gpu_values::MemoryLocation;
use std::test::Fail;

const SIZES: BlockSizes = BlockSizes {
    device: 256,
    host: 64,
    max_device: 512,
    max_host: 128,
};

/// Fails where a whole trace has other lines.
fn expect(
    capture: &Capture,
    is_destroyed: bool,
    device: &str,
    calls: &str,
    end: &str,
) -> Result<(), Fail> {
    let trace = capture.trace(is_destroyed);
    if capture.end() != CaptureEnd::Whole {
        return Err(Fail::new("the capture ended early"));
    }
    if trace.device != device.as_bytes() || trace.new != "new\n".as_bytes() {
        return Err(Fail::new("the device has other lines"));
    }
    if trace.calls != calls.as_bytes() || trace.end != end.as_bytes() {
        return Err(Fail::new("the calls have other lines"));
    }
    Ok(())
}

fn vulkan(scheme: AllocationScheme, linear: bool, name: &[u8]) -> Request<'_> {
    Request::Vulkan(VulkanRequest {
        requirements: MemoryRequirements {
            size: 100,
            alignment: 16,
            memory_type_bits: 3,
        },
        location: MemoryLocation::CpuToGpu,
        linear,
        scheme,
        name,
    })
}

#[test]
fn a_vulkan_trace_has_each_call(rt: HostRuntime) -> Result<(), Fail> {
    let types = [(1, 0), (6, 1)].map(|(flags, heap_index)| MemoryTypeInfo {
        property_flags: MemoryPropertyFlags(flags),
        heap_index,
    });
    let device = VulkanDevice {
        heaps: &[1000, 18446744073709551615],
        types: &types,
        granularity: 1024,
    };
    let alloc = rt.alloc();
    let mut capture = Capture::of_vulkan(alloc, &device, SIZES);
    let managed = vulkan(
        AllocationScheme::GpuAllocatorManaged,
        true,
        "a b\n".as_bytes(),
    );
    let image = vulkan(AllocationScheme::DedicatedImage(Image(7)), false, &[]);
    let buffer = vulkan(
        AllocationScheme::DedicatedBuffer(Buffer(9)),
        true,
        "é~!\u{7f}".as_bytes(),
    );
    let answers = [
        Answer::Refused(Refusal::Code(-2)),
        Answer::Granted,
        Answer::Refused(Refusal::Null),
    ];
    capture.bounded(alloc, 1, Some(5000));
    capture.allocated(alloc, 1, &managed, &answers);
    capture.allocated(
        alloc,
        2,
        &image,
        &[Answer::Granted, Answer::Refused(Refusal::Code(-1))],
    );
    capture.bounded(alloc, 1, Some(5000));
    capture.moved(alloc, 1, 3, &buffer);
    capture.renamed(alloc, 3, "x y".as_bytes());
    capture.bounded(alloc, 1, None);
    capture.freed(alloc, 18446744073709551615);
    expect(
        &capture,
        true,
        "heap 1000\nheap 18446744073709551615\ntype 1 0\ntype 6 1\ngranularity 1024\nsizes 256 64 512 128\nrefuse 1 -2\nrefuse 3 null\nrefuse 5 -1\n",
        "budget 1 5000\nalloc 1 100 16 3 CpuToGpu linear managed a_b_\nalloc 2 100 16 3 CpuToGpu nonlinear image:7 _\nmove 1 3 100 16 3 CpuToGpu linear buffer:9 __~!_\nrename 3 x_y\nbudget 1 none\nfree 18446744073709551615\n",
        "destroy\n",
    )
}

#[test]
fn a_directx_12_trace_has_each_call(rt: HostRuntime) -> Result<(), Fail> {
    let alloc = rt.alloc();
    let mut capture = Capture::of_d3d12(alloc, ResourceHeapTier::Tier1, SIZES);
    let target = D3D12Request {
        size: 65537,
        alignment: 65536,
        location: MemoryLocation::GpuOnly,
        category: Category::Target,
        name: "t".as_bytes(),
    };
    let refused = Answer::Refused(Refusal::Code(-2147024882));
    capture.allocated(alloc, 1, &Request::D3D12(target), &[Answer::Granted]);
    capture.committed(alloc, 2, &target, &[refused]);
    capture.moved(alloc, 1, 3, &Request::D3D12(target));
    capture.released(alloc, 2);
    expect(
        &capture,
        false,
        "d3d12\ntier 1\nsizes 256 64 512 128\nrefuse 2 -2147024882\n",
        "alloc 1 65537 65536 GpuOnly target t\ncreate 2 committed GpuOnly target buffer 131072 1 1 0 state:0 none none t\nmove 1 3 65537 65536 GpuOnly target t\nrelease 2\n",
        "",
    )
}

#[test]
fn a_metal_trace_has_each_call(rt: HostRuntime) -> Result<(), Fail> {
    let alloc = rt.alloc();
    let mut capture = Capture::of_metal(alloc, true, SIZES);
    let request = Request::Metal(MetalRequest {
        size: 256,
        alignment: 256,
        location: MemoryLocation::GpuToCpu,
        name: "m".as_bytes(),
    });
    // the residency set is question 1
    capture.allocated(alloc, 1, &request, &[Answer::Refused(Refusal::Null)]);
    capture.set_committed();
    capture.moved(alloc, 1, 2, &request);
    expect(
        &capture,
        true,
        "metal\nresidency yes\nsizes 256 64 512 128\nrefuse 2 null\n",
        "alloc 1 256 256 GpuToCpu m\ncommit\nmove 1 2 256 256 GpuToCpu m\n",
        "destroy\n",
    )
}
