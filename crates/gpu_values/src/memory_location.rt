//! Where memory lies.

/// Where the memory of an allocation lies, and who reads and writes it.
#[derive(Clone, Copy, Debug, PartialEq, Eq, Hash)]
pub enum MemoryLocation {
    /// Anywhere. Vulkan: the first memory type that the request allows. DirectX 12 and Metal: as `GpuOnly`.
    Unknown,
    /// Fast to reach for the GPU; the host needn't see it. Vulkan: DEVICE_LOCAL.
    GpuOnly,
    /// Written by the host, read by the GPU: uploads. Vulkan: HOST_VISIBLE and HOST_COHERENT, and DEVICE_LOCAL where there is
    /// such a type.
    CpuToGpu,
    /// Written by the GPU, read by the host: readback. Vulkan: HOST_VISIBLE and HOST_COHERENT, and HOST_CACHED where there is
    /// such a type.
    GpuToCpu,
}
