//! The lines in front of `new`: a device and the settings of its allocator.

ghost use Rattle.std.specs.Prelude.{◌≡◌, ◌<◌, ◌^◌, ◌++◌, IfOk, OnOk, string_bytes, [], if◌then◌else◌};
ghost use Rattle.std.specs.List.{flat_map};
ghost use Rattle.gpu_capture.specs.Devices.{sizes_line, heap_line, type_line, vulkan_lines, d3d12_lines, metal_lines};
ghost use Rattle.gpu_capture.specs.D3D12.{tier_word};
ghost use Rattle.gpu_capture.specs.Line.{line_of};
ghost use Rattle.gpu_capture.specs.Vulkan.{granularity_words};
ghost use Rattle.gpu_capture.specs.Keeps.{Keeps, blank, ended, with_lines};

use crate::capture::{Capture, CaptureEnd};
use gpu_device::d3d12::ResourceHeapTier;
use gpu_device::vulkan::MemoryTypeInfo;
use std::alloc::{AllocError, Global};

/// The sizes of blocks of memory that the host can't see, and that it can, in bytes.
#[derive(Clone, Copy, Debug, PartialEq, Eq)]
pub struct BlockSizes {
    /// Where those begin that the host can't see.
    pub device: u64,
    /// Where those begin that it can.
    pub host: u64,
    /// Up to where those double that the host can't see.
    pub max_device: u64,
    /// Up to where those double that it can.
    pub max_host: u64,
}

/// A device of Vulkan.
#[derive(Clone, Copy, Debug)]
pub struct VulkanDevice<'a> {
    /// The sizes of its heaps, in bytes.
    pub heaps: &'a [u64],
    /// Its memory types.
    pub types: &'a [MemoryTypeInfo],
    /// The size of a page (`bufferImageGranularity`), in bytes.
    pub granularity: u64,
}

fn push_heaps(lines: &mut String, heaps: &[u64]) -> Result<(), AllocError>
    ensures { OnOk result (string_bytes lines.new
        ≡ string_bytes lines.old ++ flat_map heap_line heaps.now) }
{
    for size in heaps {
        write!(lines, "heap {size}\n")?;
    }
    Ok(())
}

fn push_types(lines: &mut String, types: &[MemoryTypeInfo]) -> Result<(), AllocError>
    ensures { OnOk result (string_bytes lines.new
        ≡ string_bytes lines.old ++ flat_map type_line types.now) }
{
    for memory_type in types {
        let flags = memory_type.property_flags.0;
        let heap = memory_type.heap_index;
        write!(lines, "type {flags} {heap}\n")?;
    }
    Ok(())
}

fn push_sizes(lines: &mut String, sizes: BlockSizes) -> Result<(), AllocError>
    ensures { OnOk result (string_bytes lines.new ≡ string_bytes lines.old ++ sizes_line sizes) }
{
    let device = sizes.device;
    let host = sizes.host;
    let max_device = sizes.max_device;
    let max_host = sizes.max_host;
    write!(lines, "sizes {device} {host} {max_device} {max_host}\n")
}

fn push_settings(lines: &mut String, granularity: u64, sizes: BlockSizes) -> Result<(), AllocError>
    ensures { OnOk result (string_bytes lines.new ≡ string_bytes lines.old
        ++ (line_of (granularity_words granularity) ++ sizes_line sizes)) }
{
    write!(lines, "granularity {granularity}\n")?;
    push_sizes(lines, sizes)?;
    Ok(())
}

fn vulkan_lines(
    alloc: Global,
    device: &VulkanDevice<'_>,
    sizes: BlockSizes,
) -> Result<String, AllocError>
    ensures { IfOk result (λ l. string_bytes l ≡ vulkan_lines device.now sizes) }
{
    let mut lines = String::new(alloc);
    push_heaps(&mut lines, device.heaps)?;
    push_types(&mut lines, device.types)?;
    push_settings(&mut lines, device.granularity, sizes)?;
    Ok(lines)
}

fn tier_word(tier: ResourceHeapTier) -> &'static str
    ensures { result.now ≡ tier_word tier }
{
    match tier {
        ResourceHeapTier::Tier1 => "1",
        ResourceHeapTier::Tier2 => "2",
    }
}

fn d3d12_lines(
    alloc: Global,
    tier: ResourceHeapTier,
    sizes: BlockSizes,
) -> Result<String, AllocError>
    ensures { IfOk result (λ l. string_bytes l ≡ d3d12_lines tier sizes) }
{
    let word = tier_word(tier);
    let mut lines = format!(in alloc; "d3d12\ntier {word}\n")?;
    push_sizes(&mut lines, sizes)?;
    Ok(lines)
}

fn metal_lines(alloc: Global, has_set: bool, sizes: BlockSizes) -> Result<String, AllocError>
    ensures { IfOk result (λ l. string_bytes l ≡ metal_lines has_set sizes) }
{
    let word = if has_set { "yes" } else { "no" };
    let mut lines = format!(in alloc; "metal\nresidency {word}\n")?;
    push_sizes(&mut lines, sizes)?;
    Ok(lines)
}

/// A capture that begins with these lines, the calls of which asked so many questions so far.
fn begin(alloc: Global, lines: &str, questions: u64) -> Capture
    requires { questions < 2 ^ 64 }
    ensures { Keeps blank (with_lines blank lines.now [] questions) result }
{
    let mut capture = Capture::blank(alloc);
    capture.keep(lines.as_bytes(), &[], questions);
    capture
}

/// A capture that the host refused memory for.
fn refused(alloc: Global) -> Capture
    ensures { result ≡ ended blank CaptureEnd.HostOutOfMemory }
{
    let mut capture = Capture::blank(alloc);
    capture.stop(CaptureEnd::HostOutOfMemory);
    capture
}

impl Capture {
    /// The capture of a Vulkan allocator that is made.
    pub fn of_vulkan(alloc: Global, device: &VulkanDevice<'_>, sizes: BlockSizes) -> Capture
        ensures { Keeps blank (with_lines blank (vulkan_lines device.now sizes) [] 0) result }
    {
        match vulkan_lines(alloc, device, sizes) {
            Ok(lines) => begin(alloc, lines.as_str(), 0),
            Err(_) => refused(alloc),
        }
    }

    /// The capture of a DirectX 12 allocator that is made.
    pub fn of_d3d12(alloc: Global, tier: ResourceHeapTier, sizes: BlockSizes) -> Capture
        ensures { Keeps blank (with_lines blank (d3d12_lines tier sizes) [] 0) result }
    {
        match d3d12_lines(alloc, tier, sizes) {
            Ok(lines) => begin(alloc, lines.as_str(), 0),
            Err(_) => refused(alloc),
        }
    }

    /// The capture of a Metal allocator that is made. A residency set is question 1.
    pub fn of_metal(alloc: Global, has_set: bool, sizes: BlockSizes) -> Capture
        ensures { Keeps blank (with_lines blank (metal_lines has_set sizes) []
            (if has_set then 1 else 0)) result }
    {
        match metal_lines(alloc, has_set, sizes) {
            Ok(lines) => begin(alloc, lines.as_str(), u64::from(has_set)),
            Err(_) => refused(alloc),
        }
    }
}
