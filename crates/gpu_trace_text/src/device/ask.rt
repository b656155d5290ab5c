//! What a command of a device trace says that is no other API's.

ghost use Rattle.std.specs.Prelude.{◌≡◌, ◌≢◌, ℕ, ◌<◌, ◌^◌, ◌∷◌, List, Bool, IfOk, MatchOption, IsTrue, ◌↔◌, codes};
ghost use Rattle.std.specs.Fmt.{decimal};
ghost use Rattle.gpu_values.specs.declared.memory_location.MemoryLocation.{MemoryLocation};
ghost use Rattle.gpu_device.specs.declared.vulkan.types.AllocationScheme.{AllocationScheme};
ghost use Rattle.gpu_trace_text.specs.Hex.{hex, AreBytes};
ghost use Rattle.gpu_block_session.specs.Words.{texts};
ghost use Rattle.gpu_capture.specs.Words.{location_word};
ghost use Rattle.gpu_capture.specs.Vulkan.{linear_word, scheme_word};
ghost use Rattle.gpu_trace_text.specs.Ask.{request_words, words, FitsRequest, FitsScheme, IsLength, IsPayload, OtherFits};
ghost use Rattle.gpu_trace_text.specs.Spelled.{Says};

use crate::command::{alone, only_number};
use crate::hex;
use crate::spelled::Spelled;
use gpu_block_session::words::{name_of, number, small_number};
use gpu_device::vulkan::{AllocationScheme, Buffer, Image, MemoryRequirements};
use gpu_run::vulkan::{Other, Request};
use gpu_values::MemoryLocation;
use std::alloc::{AllocError, Global};

/// The location that a word names.
pub fn location_of(word: &str) -> Option<MemoryLocation>
    ensures { MatchOption result ((l : MemoryLocation) → word.now ≢ location_word l)
        (λ l. word.now ≡ location_word l) }
{
    match word {
        "Unknown" => Some(MemoryLocation::Unknown),
        "GpuOnly" => Some(MemoryLocation::GpuOnly),
        "CpuToGpu" => Some(MemoryLocation::CpuToGpu),
        "GpuToCpu" => Some(MemoryLocation::GpuToCpu),
        _ => None,
    }
}

fn is_linear(word: &str) -> Option<bool>
    ensures { MatchOption result ((l : Bool) → word.now ≢ linear_word l)
        (λ l. word.now ≡ linear_word l) }
{
    match word {
        "linear" => Some(true),
        "nonlinear" => Some(false),
        _ => None,
    }
}

fn scheme_of(word: &str) -> Option<AllocationScheme>
    ensures { MatchOption result ((s : AllocationScheme) → FitsScheme s → word.now ≢ scheme_word s)
        (λ s. FitsScheme s × (word.now ≡ scheme_word s)) }
{
    if word == "managed" {
        return Some(AllocationScheme::GpuAllocatorManaged);
    }
    if let Some(digits) = word.strip_prefix("buffer:") {
        return Some(AllocationScheme::DedicatedBuffer(Buffer(number(digits)?)));
    }
    if let Some(digits) = word.strip_prefix("image:") {
        return Some(AllocationScheme::DedicatedImage(Image(number(digits)?)));
    }
    None
}

/// What is asked of the memory, in three words.
fn requirements_of(size: &str, alignment: &str, bits: &str) -> Option<MemoryRequirements>
    ensures { MatchOption result ((a b : ℕ) (c : ℕ) → a < 2 ^ 64 → b < 2 ^ 64 → c < 2 ^ 32
        → size.now ≡ decimal a → alignment.now ≡ decimal b → bits.now ≢ decimal c)
        (λ r. (size.now ≡ decimal r.size) × (alignment.now ≡ decimal r.alignment)
        × (bits.now ≡ decimal r.memory_type_bits)) }
{
    let size = number(size)?;
    let alignment = number(alignment)?;
    let memory_type_bits = small_number(bits)?;
    Some(MemoryRequirements {
        size,
        alignment,
        memory_type_bits,
    })
}

/// The second half of a request, behind what it asks of the memory.
fn placed(
    alloc: Global,
    requirements: MemoryRequirements,
    arguments: &[&str],
) -> Result<Option<Request>, AllocError>
    ensures { IfOk result (Says request_words FitsRequest
        (decimal requirements.size ∷ decimal requirements.alignment
        ∷ decimal requirements.memory_type_bits ∷ texts arguments.now)) }
{
    let [location, linear, scheme, name] = arguments else {
        return Ok(None);
    };
    let Some(location) = location_of(location) else {
        return Ok(None);
    };
    let Some(linear) = is_linear(linear) else {
        return Ok(None);
    };
    let Some(scheme) = scheme_of(scheme) else {
        return Ok(None);
    };
    let Some(name) = name_of(alloc, name)? else {
        return Ok(None);
    };
    Ok(Some(Request {
        requirements,
        location,
        linear,
        scheme,
        name,
    }))
}

impl Spelled for Request {
    ghost use Rattle.gpu_trace_text.specs.Ask.{request_words, FitsRequest};

    ghost spelling = { request_words };

    ghost Fits = { FitsRequest };

    fn said(alloc: Global, words: &[&str]) -> Result<Option<Request>, AllocError> {
        let [size, alignment, bits, rest @ ..] = words else {
            return Ok(None);
        };
        let Some(requirements) = requirements_of(size, alignment, bits) else {
            return Ok(None);
        };
        placed(alloc, requirements, rest)
    }
}

fn rename(alloc: Global, arguments: &[&str]) -> Result<Option<Other>, AllocError>
    ensures { IfOk result (λ found. Says words OtherFits (codes "rename" ∷ texts arguments.now) found) }
{
    let [key, name] = arguments else {
        return Ok(None);
    };
    let Some(key) = number(key) else {
        return Ok(None);
    };
    let Some(name) = name_of(alloc, name)? else {
        return Ok(None);
    };
    Ok(Some(Other::Rename { key, name }))
}

/// Whether so many bytes may be written or read by one line.
fn is_length(size: u64) -> bool
    ensures { IsTrue result ↔ IsLength size }
{
    size > 0 && size <= 4096
}

/// Whether so many bytes may be written by one line. That they are bytes is known of each slice.
fn may_be_written(bytes: &[u8]) -> bool
    ensures bytes { AreBytes bytes.now }
    ensures test { IsTrue result ↔ IsPayload bytes.now }
{
    is_length(bytes.len() as u64)
}

fn payload(alloc: Global, word: &str) -> Result<Option<Vec<u8>>, AllocError>
    ensures { IfOk result (λ found. MatchOption found
        ((bs : List ℕ) → IsPayload bs → word.now ≢ hex bs)
        (λ v. IsPayload v.items × (word.now ≡ hex v.items))) }
{
    let Some(bytes) = hex::decode(alloc, word.as_bytes())? else {
        return Ok(None);
    };
    if may_be_written(&bytes) {
        Ok(Some(bytes))
    } else {
        Ok(None)
    }
}

fn write(alloc: Global, arguments: &[&str]) -> Result<Option<Other>, AllocError>
    ensures { IfOk result (λ found. Says words OtherFits (codes "write" ∷ texts arguments.now) found) }
{
    let [key, at, digits] = arguments else {
        return Ok(None);
    };
    let Some(key) = number(key) else {
        return Ok(None);
    };
    let Some(at) = number(at) else {
        return Ok(None);
    };
    let Some(bytes) = payload(alloc, digits)? else {
        return Ok(None);
    };
    Ok(Some(Other::Write { key, at, bytes }))
}

fn size_of(word: &str) -> Option<u64>
    ensures { MatchOption result ((n : ℕ) → IsLength n → word.now ≢ decimal n)
        (λ n. IsLength n × (word.now ≡ decimal n)) }
{
    let size = number(word)?;
    if is_length(size) { Some(size) } else { None }
}

fn read(arguments: &[&str]) -> Option<Other>
    ensures { Says words OtherFits (codes "read" ∷ texts arguments.now) result }
{
    let [key, at, size] = arguments else {
        return None;
    };
    let key = number(key)?;
    let at = number(at)?;
    let size = size_of(size)?;
    Some(Other::Read { key, at, size })
}

impl Spelled for Other {
    ghost use Rattle.gpu_trace_text.specs.Ask.{words, OtherFits};

    ghost spelling = { words };

    ghost Fits = { OtherFits };

    fn said(alloc: Global, words: &[&str]) -> Result<Option<Other>, AllocError> {
        let [verb, arguments @ ..] = words else {
            return Ok(None);
        };
        match *verb {
            "null" => match only_number(arguments) {
                Some(key) => Ok(Some(Other::Null { key })),
                None => Ok(None),
            },
            "rename" => rename(alloc, arguments),
            "write" => write(alloc, arguments),
            "read" => Ok(read(arguments)),
            "leaks" => Ok(alone(arguments, Other::Leaks)),
            _ => Ok(None),
        }
    }
}
