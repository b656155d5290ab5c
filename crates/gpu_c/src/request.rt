//! Requests as C makes them.

ghost use Rattle.std.specs.Prelude.{◌≡◌, ◌≢◌, ◌<◌, ◌⊎◌, Some, IfSome, IfNone, MatchOption, IsTrue, IsUtf8};
ghost use Rattle.std.specs.Int.{is_power_of_two};
ghost use Rattle.gpu_c.specs.Request.{linear, non_linear, IsRequestServed, kind_named, location_named};

use gpu_values::{AllocationType, MemoryLocation};

/// Buffers and linear images.
pub const LINEAR: u32 = 1;

/// Images in the device's own layout.
pub const NON_LINEAR: u32 = 2;

/// The kind of that number; `None` where no kind has it.
fn kind_of(kind: u32) -> Option<AllocationType>
    ensures known { IfSome result (λ k. (k ≡ kind_named kind) × (k ≢ AllocationType.Free)
        × ((kind ≡ linear) ⊎ (kind ≡ non_linear))) }
    ensures unknown { IfNone result ((kind ≢ linear) × (kind ≢ non_linear)) }
{
    if kind == LINEAR {
        return Some(AllocationType::Linear);
    }
    if kind == NON_LINEAR {
        return Some(AllocationType::NonLinear);
    }
    None
}

/// The kind and the name of a request, if it is one that an allocator serves.
pub fn served<'a>(
    size: u64,
    alignment: u64,
    kind: u32,
    name: &'a [u8],
) -> Option<(AllocationType, &'a str)>
    ensures kind { IfSome result (λ p. (p.0 ≡ kind_named kind) × (p.0 ≢ AllocationType.Free)) }
    ensures name { IfSome result (λ p. p.1.now ≡ name.now) }
    ensures served { MatchOption result (IsRequestServed size alignment kind name.now → ⊥)
        (λ _. IsRequestServed size alignment kind name.now) }
{
    if size == 0 {
        return None;
    }
    if !alignment.is_power_of_two() {
        return None;
    }
    match kind_of(kind) {
        None => None,
        Some(kind) => match str::from_utf8(name) {
            Err(_) => None,
            Ok(name) => Some((kind, name)),
        },
    }
}

/// The location of that number; `None` where none has it.
pub fn location_named(location: u32) -> Option<MemoryLocation>
    ensures { result ≡ location_named location }
{
    match location {
        1 => Some(MemoryLocation::Unknown),
        2 => Some(MemoryLocation::GpuOnly),
        3 => Some(MemoryLocation::CpuToGpu),
        4 => Some(MemoryLocation::GpuToCpu),
        _ => None,
    }
}
