//! What an allocation is asked for, and the lines that ask for it.

ghost use Rattle.std.specs.Prelude.{◌≡◌, ◌++◌, Some, IfOk, OnOk, string_bytes};
ghost use Rattle.gpu_capture.specs.Line.{line_of};
ghost use Rattle.gpu_capture.specs.Vulkan.{linear_word};
ghost use Rattle.gpu_capture.specs.D3D12.{category_word, whole_units};
ghost use Rattle.gpu_capture.specs.Requests.{request_words, alloc_line, move_line, committed_line};

use crate::words::{end_with_name, location_word};
use gpu_device::vulkan::{AllocationScheme, MemoryRequirements};
use gpu_values::MemoryLocation;
use std::alloc::{AllocError, Global};
use std::fmt;

/// What a category of resources is.
#[derive(Clone, Copy, Debug, PartialEq, Eq)]
pub enum Category {
    /// Buffers.
    Buffer,
    /// Render targets and depth stencils.
    Target,
    /// Other textures.
    Texture,
}

/// What an allocation of the Vulkan allocator is asked for.
#[derive(Clone, Copy, Debug)]
pub struct VulkanRequest<'a> {
    /// What is asked of the memory.
    pub requirements: MemoryRequirements,
    /// Where it is to lie.
    pub location: MemoryLocation,
    /// Whether it is a buffer or a linear image.
    pub linear: bool,
    /// Whether it is for one resource alone.
    pub scheme: AllocationScheme,
    /// Its name, bytes of any kind.
    pub name: &'a [u8],
}

/// What an allocation of the DirectX 12 allocator is asked for.
#[derive(Clone, Copy, Debug)]
pub struct D3D12Request<'a> {
    /// In bytes.
    pub size: u64,
    /// In bytes.
    pub alignment: u64,
    /// Where it is to lie.
    pub location: MemoryLocation,
    /// What it is for.
    pub category: Category,
    /// Its name, bytes of any kind.
    pub name: &'a [u8],
}

/// What an allocation of the Metal allocator is asked for.
#[derive(Clone, Copy, Debug)]
pub struct MetalRequest<'a> {
    /// In bytes.
    pub size: u64,
    /// In bytes.
    pub alignment: u64,
    /// Where it is to lie.
    pub location: MemoryLocation,
    /// Its name, bytes of any kind.
    pub name: &'a [u8],
}

/// What an allocation is asked for.
#[derive(Clone, Copy, Debug)]
pub enum Request<'a> {
    /// Of the Vulkan allocator.
    Vulkan(VulkanRequest<'a>),
    /// Of the DirectX 12 allocator.
    D3D12(D3D12Request<'a>),
    /// Of the Metal allocator.
    Metal(MetalRequest<'a>),
}

fn linear_word(is_linear: bool) -> &'static str
    ensures { result.now ≡ linear_word is_linear }
{
    if is_linear { "linear" } else { "nonlinear" }
}

fn category_word(category: Category) -> &'static str
    ensures { result.now ≡ category_word category }
{
    match category {
        Category::Buffer => "buffer",
        Category::Target => "target",
        Category::Texture => "texture",
    }
}

/// A scheme, as a trace tells it.
#[derive(Clone, Copy)]
struct SchemeWord(AllocationScheme);

impl fmt::Display for SchemeWord {
    ghost use Rattle.gpu_capture.specs.Vulkan.{scheme_word};

    ghost output = { λ s. Some (scheme_word s.0) };

    fn fmt<W: fmt::Write>(&self, f: &mut fmt::Formatter<W>) -> fmt::Result {
        match self.0 {
            AllocationScheme::GpuAllocatorManaged => f.write_str("managed"),
            AllocationScheme::DedicatedBuffer(buffer) => {
                let number = buffer.0;
                write!(f, "buffer:{number}")
            }
            AllocationScheme::DedicatedImage(image) => {
                let number = image.0;
                write!(f, "image:{number}")
            }
        }
    }
}

fn push_vulkan(line: &mut String, request: &VulkanRequest<'_>) -> Result<(), AllocError>
    ensures { OnOk result (string_bytes line.new
        ≡ string_bytes line.old ++ line_of (request_words (Request.Vulkan request.now))) }
{
    let size = request.requirements.size;
    let alignment = request.requirements.alignment;
    let bits = request.requirements.memory_type_bits;
    let location = location_word(request.location);
    let kind = linear_word(request.linear);
    let scheme = SchemeWord(request.scheme);
    write!(
        line,
        "{size} {alignment} {bits} {location} {kind} {scheme} "
    )?;
    end_with_name(line, request.name)
}

fn push_d3d12(line: &mut String, request: &D3D12Request<'_>) -> Result<(), AllocError>
    ensures { OnOk result (string_bytes line.new
        ≡ string_bytes line.old ++ line_of (request_words (Request.D3D12 request.now))) }
{
    let size = request.size;
    let alignment = request.alignment;
    let location = location_word(request.location);
    let category = category_word(request.category);
    write!(line, "{size} {alignment} {location} {category} ")?;
    end_with_name(line, request.name)
}

fn push_metal(line: &mut String, request: &MetalRequest<'_>) -> Result<(), AllocError>
    ensures { OnOk result (string_bytes line.new
        ≡ string_bytes line.old ++ line_of (request_words (Request.Metal request.now))) }
{
    let size = request.size;
    let alignment = request.alignment;
    let location = location_word(request.location);
    write!(line, "{size} {alignment} {location} ")?;
    end_with_name(line, request.name)
}

/// Appends a request's words, and the line's end.
fn push_request(line: &mut String, request: &Request<'_>) -> Result<(), AllocError>
    ensures { OnOk result (string_bytes line.new
        ≡ string_bytes line.old ++ line_of (request_words request.now)) }
{
    match request {
        Request::Vulkan(request) => push_vulkan(line, request),
        Request::D3D12(request) => push_d3d12(line, request),
        Request::Metal(request) => push_metal(line, request),
    }
}

/// The line that asks for an allocation.
pub(crate) fn alloc_line(
    alloc: Global,
    number: u64,
    request: &Request<'_>,
) -> Result<String, AllocError>
    ensures { IfOk result (λ l. string_bytes l ≡ alloc_line number request.now) }
{
    let mut line = format!(in alloc; "alloc {number} ")?;
    push_request(&mut line, request)?;
    Ok(line)
}

/// The line that asks for a second place.
pub(crate) fn move_line(
    alloc: Global,
    from: u64,
    to: u64,
    request: &Request<'_>,
) -> Result<String, AllocError>
    ensures { IfOk result (λ l. string_bytes l ≡ move_line from to request.now) }
{
    let mut line = format!(in alloc; "move {from} {to} ")?;
    push_request(&mut line, request)?;
    Ok(line)
}

/// A size in whole units of 65,536 bytes, where 64 bits hold that.
fn whole_units(size: u64) -> u64
    ensures { result ≡ whole_units size }
{
    match size.checked_next_multiple_of(65536) {
        Some(whole) => whole,
        None => size,
    }
}

/// The line of a committed resource.
pub(crate) fn committed_line(
    alloc: Global,
    number: u64,
    request: &D3D12Request<'_>,
) -> Result<String, AllocError>
    ensures { IfOk result (λ l. string_bytes l ≡ committed_line number request.now) }
{
    let location = location_word(request.location);
    let category = category_word(request.category);
    let size = whole_units(request.size);
    let mut line = format!(in alloc;
        "create {number} committed {location} {category} buffer {size} 1 1 0 state:0 none none "
    )?;
    end_with_name(&mut line, request.name)?;
    Ok(line)
}
