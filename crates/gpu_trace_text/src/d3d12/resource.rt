//! What the words of a request for a resource say.

ghost use Rattle.std.specs.Prelude.{◌≡◌, ◌≢◌, ℕ, ◌<◌, ◌^◌, ◌∷◌, List, Option, IfOk, MatchOption, length, map};
ghost use Rattle.std.specs.Fmt.{decimal};
ghost use Rattle.gpu_device.specs.declared.d3d12.types.ClearValue.{ClearValue};
ghost use Rattle.gpu_device.specs.declared.d3d12.types.Format.{Format};
ghost use Rattle.gpu_device.specs.declared.d3d12.types.ResourceDesc.{ResourceDesc};
ghost use Rattle.gpu_device.specs.declared.d3d12.types.ResourceDimension.{ResourceDimension};
ghost use Rattle.gpu_d3d12.specs.declared.category.ResourceCategory.{ResourceCategory};
ghost use Rattle.gpu_d3d12.specs.declared.question.ResourceStateOrBarrierLayout.{ResourceStateOrBarrierLayout};
ghost use Rattle.gpu_run.specs.declared.d3d12.command.Memory.{Memory};
ghost use Rattle.gpu_capture.specs.Words.{location_word};
ghost use Rattle.gpu_block_session.specs.Words.{texts};
ghost use Rattle.gpu_trace_text.specs.D3D12Resource.{category_word, place_word, dimension_word, initial_word, format_number, formats_word, clear_word};
ghost use Rattle.gpu_trace_text.specs.D3D12Resource.{FitsInitial, FitsFormats, FitsClear, FitsMemory, SpellsDesc, SaysWanted};

use crate::d3d12::numbers::numbers_of;
use crate::device::ask::location_of;
use gpu_block_session::words::{name_of, number, small_number};
use gpu_d3d12::{ResourceCategory, ResourceStateOrBarrierLayout, heap_properties};
use gpu_device::d3d12::{ClearValue, Format, HeapFlags, ResourceDesc, ResourceDimension};
use gpu_run::d3d12::{Memory, WantedResource};
use gpu_values::MemoryLocation;
use std::alloc::{AllocError, Global};

/// The category that a word names.
pub(crate) fn category_of(word: &str) -> Option<ResourceCategory>
    ensures { MatchOption result ((c : ResourceCategory) → word.now ≢ category_word c)
        (λ c. word.now ≡ category_word c) }
{
    match word {
        "buffer" => Some(ResourceCategory::Buffer),
        "target" => Some(ResourceCategory::RtvDsvTexture),
        "texture" => Some(ResourceCategory::OtherTexture),
        _ => None,
    }
}

/// Where the memory of a resource in this location comes from.
fn memory_of(word: &str, location: MemoryLocation) -> Option<Memory>
    ensures { MatchOption result ((m : Memory) → FitsMemory location m → word.now ≢ place_word m)
        (λ m. FitsMemory location m × (word.now ≡ place_word m)) }
{
    match word {
        "placed" => Some(Memory::Placed),
        "committed" => Some(Memory::Own(heap_properties(location), HeapFlags(0))),
        _ => None,
    }
}

fn dimension_of(word: &str) -> Option<ResourceDimension>
    ensures { MatchOption result ((d : ResourceDimension) → word.now ≢ dimension_word d)
        (λ d. word.now ≡ dimension_word d) }
{
    match word {
        "unknown" => Some(ResourceDimension::Unknown),
        "buffer" => Some(ResourceDimension::Buffer),
        "texture1d" => Some(ResourceDimension::Texture1D),
        "texture2d" => Some(ResourceDimension::Texture2D),
        "texture3d" => Some(ResourceDimension::Texture3D),
        _ => None,
    }
}

/// A depth or a count of textures.
fn depth_of(word: &str) -> Option<u16>
    ensures { MatchOption result ((n : ℕ) → n < 2 ^ 16 → word.now ≢ decimal n)
        (λ n. word.now ≡ decimal n) }
{
    let depth = small_number(word)?;
    if depth <= u16::MAX as u32 {
        Some(depth as u16)
    } else {
        None
    }
}

/// A description, in five words.
fn desc_of(
    dimension: &str,
    width: &str,
    height: &str,
    depth: &str,
    flags: &str,
) -> Option<ResourceDesc>
    ensures { MatchOption result ((d : ResourceDesc)
        → SpellsDesc dimension.now width.now height.now depth.now flags.now d → ⊥)
        (SpellsDesc dimension.now width.now height.now depth.now flags.now) }
{
    let dimension = dimension_of(dimension)?;
    let width = number(width)?;
    let height = small_number(height)?;
    let depth_or_array_size = depth_of(depth)?;
    let flags = small_number(flags)?;
    Some(ResourceDesc {
        dimension,
        alignment: 0,
        width,
        height,
        depth_or_array_size,
        mip_levels: 1,
        format: Format(0),
        sample_count: 1,
        sample_quality: 0,
        layout: 0,
        flags,
    })
}

fn initial_of(word: &str) -> Option<ResourceStateOrBarrierLayout>
    ensures { MatchOption result ((i : ResourceStateOrBarrierLayout) → FitsInitial i
        → word.now ≢ initial_word i) (λ i. FitsInitial i × (word.now ≡ initial_word i)) }
{
    if let Some(digits) = word.strip_prefix("state:") {
        return Some(ResourceStateOrBarrierLayout::ResourceState(small_number(digits)?));
    }
    if let Some(digits) = word.strip_prefix("layout:") {
        return Some(ResourceStateOrBarrierLayout::BarrierLayout(small_number(digits)?));
    }
    None
}

/// The formats of these numbers, in their order.
fn numbered(alloc: Global, numbers: &[u32]) -> Result<Vec<Format>, AllocError>
    ensures { IfOk result (λ v. map format_number v.items ≡ numbers.now) }
{
    let mut formats = Vec::new(alloc);
    for number in numbers {
        formats.push(Format(*number))?;
    }
    Ok(formats)
}

fn formats_of(alloc: Global, word: &str) -> Result<Option<Vec<Format>>, AllocError>
    ensures { IfOk result (λ found. MatchOption found
        ((fs : List Format) → FitsFormats fs → word.now ≢ formats_word fs)
        (λ v. FitsFormats v.items × (word.now ≡ formats_word v.items))) }
{
    if word == "none" {
        return Ok(Some(Vec::new(alloc)));
    }
    let Some(numbers) = numbers_of(alloc, word, ',')? else {
        return Ok(None);
    };
    if numbers.len() > 16 {
        return Ok(None);
    }
    let formats = numbered(alloc, &numbers)?;
    Ok(Some(formats))
}

/// The clear value of these numbers: its format, and the four words of its value.
fn value_of(numbers: &[u32]) -> Option<ClearValue>
    ensures { MatchOption result (length numbers.now ≢ 5)
        (λ v. (v.format.0 ∷ v.value ≡ numbers.now) × (length v.value ≡ 4)) }
{
    let [format, a, b, c, d] = numbers else {
        return None;
    };
    Some(ClearValue {
        format: Format(*format),
        value: [*a, *b, *c, *d],
    })
}

fn clear_of(alloc: Global, word: &str) -> Result<Option<Option<ClearValue>>, AllocError>
    ensures { IfOk result (λ found. MatchOption found
        ((c : Option ClearValue) → FitsClear c → word.now ≢ clear_word c)
        (λ c. FitsClear c × (word.now ≡ clear_word c))) }
{
    if word == "none" {
        return Ok(Some(None));
    }
    let Some(numbers) = numbers_of(alloc, word, ':')? else {
        return Ok(None);
    };
    match value_of(&numbers) {
        Some(value) => Ok(Some(Some(value))),
        None => Ok(None),
    }
}

/// The second half of a request, behind where it is to lie and its category.
fn described(
    alloc: Global,
    memory: Memory,
    location: MemoryLocation,
    category: ResourceCategory,
    arguments: &[&str],
) -> Result<Option<WantedResource>, AllocError>
    requires { FitsMemory location memory }
    ensures { IfOk result (SaysWanted (place_word memory ∷ location_word location
        ∷ category_word category ∷ texts arguments.now)) }
{
    let [
        dimension,
        width,
        height,
        depth,
        flags,
        initial,
        formats,
        clear,
        name,
    ] = arguments
    else {
        return Ok(None);
    };
    let Some(desc) = desc_of(dimension, width, height, depth, flags) else {
        return Ok(None);
    };
    let Some(initial) = initial_of(initial) else {
        return Ok(None);
    };
    let Some(castable_formats) = formats_of(alloc, formats)? else {
        return Ok(None);
    };
    let Some(clear_value) = clear_of(alloc, clear)? else {
        return Ok(None);
    };
    let Some(name) = name_of(alloc, name)? else {
        return Ok(None);
    };
    Ok(Some(WantedResource {
        name,
        location,
        category,
        desc,
        castable_formats,
        clear_value,
        initial,
        memory,
    }))
}

/// The request that these words say, or `None` where they say none. Only host memory can be refused.
pub(crate) fn wanted_of(
    alloc: Global,
    arguments: &[&str],
) -> Result<Option<WantedResource>, AllocError>
    ensures { IfOk result (SaysWanted (texts arguments.now)) }
{
    let [place, location, category, rest @ ..] = arguments else {
        return Ok(None);
    };
    let Some(location) = location_of(location) else {
        return Ok(None);
    };
    let Some(memory) = memory_of(place, location) else {
        return Ok(None);
    };
    let Some(category) = category_of(category) else {
        return Ok(None);
    };
    described(alloc, memory, location, category, rest)
}
