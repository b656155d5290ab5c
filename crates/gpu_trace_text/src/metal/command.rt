//! What a command of a Metal trace says that is no other API's.

ghost use Rattle.std.specs.Prelude.{◌≡◌, ◌≢◌, ℕ, ◌<◌, ◌^◌, ◌∷◌, List, IfOk, MatchOption, codes};
ghost use Rattle.std.specs.Fmt.{decimal};
ghost use Rattle.gpu_values.specs.declared.memory_location.MemoryLocation.{MemoryLocation};
ghost use Rattle.gpu_device.specs.declared.metal.types.StorageMode.{StorageMode};
ghost use Rattle.gpu_capture.specs.Words.{location_word};
ghost use Rattle.gpu_block_session.specs.Words.{texts};
ghost use Rattle.gpu_trace_text.specs.MetalCommand.{mode_word, words, FitsMode, OtherFits};
ghost use Rattle.gpu_trace_text.specs.Spelled.{Says};

use crate::command::alone;
use crate::device::ask::location_of;
use crate::spelled::Spelled;
use gpu_block_session::words::{name_of, number, small_number};
use gpu_device::metal::{StorageMode, TextureDescriptor};
use gpu_run::metal::{Other, Request};
use gpu_values::MemoryLocation;
use std::alloc::{AllocError, Global};

fn mode_of(word: &str) -> Option<StorageMode>
    ensures { MatchOption result ((m : StorageMode) → FitsMode m → word.now ≢ mode_word m)
        (λ m. FitsMode m × (word.now ≡ mode_word m)) }
{
    if let Some(digits) = word.strip_prefix("other:") {
        return Some(StorageMode::Other(small_number(digits)?));
    }
    match word {
        "shared" => Some(StorageMode::Shared),
        "managed" => Some(StorageMode::Managed),
        "private" => Some(StorageMode::Private),
        "memoryless" => Some(StorageMode::Memoryless),
        _ => None,
    }
}

impl Spelled for Request {
    ghost use Rattle.gpu_trace_text.specs.MetalCommand.{request_words, FitsRequest};

    ghost spelling = { request_words };

    ghost Fits = { FitsRequest };

    fn said(alloc: Global, words: &[&str]) -> Result<Option<Request>, AllocError> {
        let [size, alignment, location, name] = words else {
            return Ok(None);
        };
        let Some(size) = number(size) else {
            return Ok(None);
        };
        let Some(alignment) = number(alignment) else {
            return Ok(None);
        };
        let Some(location) = location_of(location) else {
            return Ok(None);
        };
        let Some(name) = name_of(alloc, name)? else {
            return Ok(None);
        };
        Ok(Some(Request {
            size,
            alignment,
            location,
            name,
        }))
    }
}

fn buffer(alloc: Global, arguments: &[&str]) -> Result<Option<Other>, AllocError>
    ensures { IfOk result (λ found. Says words OtherFits (codes "buffer" ∷ texts arguments.now) found) }
{
    let [key, length, location, name] = arguments else {
        return Ok(None);
    };
    let Some(key) = number(key) else {
        return Ok(None);
    };
    let Some(length) = number(length) else {
        return Ok(None);
    };
    let Some(location) = location_of(location) else {
        return Ok(None);
    };
    let Some(name) = name_of(alloc, name)? else {
        return Ok(None);
    };
    Ok(Some(Other::Buffer {
        key,
        length,
        location,
        name,
    }))
}

fn structure(alloc: Global, arguments: &[&str]) -> Result<Option<Other>, AllocError>
    ensures { IfOk result (λ found. Says words OtherFits
        (codes "structure" ∷ texts arguments.now) found) }
{
    let [key, size, location, name] = arguments else {
        return Ok(None);
    };
    let Some(key) = number(key) else {
        return Ok(None);
    };
    let Some(size) = number(size) else {
        return Ok(None);
    };
    let Some(location) = location_of(location) else {
        return Ok(None);
    };
    let Some(name) = name_of(alloc, name)? else {
        return Ok(None);
    };
    Ok(Some(Other::AccelerationStructure {
        key,
        size,
        location,
        name,
    }))
}

/// A texture, in four words.
fn texture_of(mode: &str, width: &str, height: &str, bytes: &str) -> Option<TextureDescriptor>
    ensures { MatchOption result ((m : StorageMode) (w h b : ℕ) → FitsMode m → w < 2 ^ 64
        → h < 2 ^ 64 → b < 2 ^ 64 → mode.now ≡ mode_word m → width.now ≡ decimal w
        → height.now ≡ decimal h → bytes.now ≢ decimal b)
        (λ t. FitsMode t.storage_mode × (mode.now ≡ mode_word t.storage_mode)
        × (width.now ≡ decimal t.width) × (height.now ≡ decimal t.height)
        × (bytes.now ≡ decimal t.bytes_per_texel)) }
{
    let storage_mode = mode_of(mode)?;
    let width = number(width)?;
    let height = number(height)?;
    let bytes_per_texel = number(bytes)?;
    Some(TextureDescriptor {
        storage_mode,
        width,
        height,
        bytes_per_texel,
    })
}

fn texture(alloc: Global, arguments: &[&str]) -> Result<Option<Other>, AllocError>
    ensures { IfOk result (λ found. Says words OtherFits (codes "texture" ∷ texts arguments.now) found) }
{
    let [key, mode, width, height, bytes, name] = arguments else {
        return Ok(None);
    };
    let Some(key) = number(key) else {
        return Ok(None);
    };
    let Some(texture) = texture_of(mode, width, height, bytes) else {
        return Ok(None);
    };
    let Some(name) = name_of(alloc, name)? else {
        return Ok(None);
    };
    Ok(Some(Other::Texture { key, texture, name }))
}

impl Spelled for Other {
    ghost use Rattle.gpu_trace_text.specs.MetalCommand.{words, OtherFits};

    ghost spelling = { words };

    ghost Fits = { OtherFits };

    fn said(alloc: Global, words: &[&str]) -> Result<Option<Other>, AllocError> {
        let [verb, arguments @ ..] = words else {
            return Ok(None);
        };
        match *verb {
            "buffer" => buffer(alloc, arguments),
            "structure" => structure(alloc, arguments),
            "texture" => texture(alloc, arguments),
            "heaps" => Ok(alone(arguments, Other::Heaps)),
            "commit" => Ok(alone(arguments, Other::Commit)),
            _ => Ok(None),
        }
    }
}
