//! What a configuration line of a device trace says.

ghost use Rattle.std.specs.Prelude.{◌≡◌, ◌≢◌, ℕ, ◌<◌, ◌^◌, ◌∷◌, IfOk, MatchOption, codes};
ghost use Rattle.std.specs.Fmt.{decimal};
ghost use Rattle.gpu_device.specs.declared.refusal.Refusal.{Refusal};
ghost use Rattle.gpu_block_session.specs.Words.{texts};
ghost use Rattle.gpu_capture.specs.Words.{refusal_word};
ghost use Rattle.gpu_trace_text.specs.Setting.{words, SettingFits, FitsRefusal, FitsShared, sizes_of};
ghost use Rattle.gpu_trace_text.specs.Spelled.{Says};

use crate::spelled::Spelled;
use gpu_block_session::words::{code, number, small_number};
use gpu_sim_base::Refusal;
use gpu_values::AllocationSizes;
use std::alloc::{AllocError, Global};

/// A configuration line of a device trace. Sizes are bytes.
#[derive(Clone, Copy, Debug)]
pub enum Setting {
    /// A heap of the device.
    Heap {
        size: u64,
    },
    /// A memory type of the device, in the heap of that index; `flags` are the bits of `MemoryPropertyFlags`.
    MemoryType {
        flags: u32,
        heap: u32,
    },
    /// The size of a page (`bufferImageGranularity`).
    Granularity {
        bytes: u64,
    },
    /// The sizes of blocks.
    Sizes {
        device: u64,
        host: u64,
        max_device: u64,
        max_host: u64,
    },
    /// The device refuses its question of that number, counted from 1.
    Refuse {
        question: u64,
        refusal: Refusal,
    },
}

fn heap(arguments: &[&str]) -> Option<Setting>
    ensures { Says words SettingFits (codes "heap" ∷ texts arguments.now) result }
{
    let [size] = arguments else {
        return None;
    };
    let size = number(size)?;
    Some(Setting::Heap { size })
}

fn memory_type(arguments: &[&str]) -> Option<Setting>
    ensures { Says words SettingFits (codes "type" ∷ texts arguments.now) result }
{
    let [flags, heap] = arguments else {
        return None;
    };
    let flags = small_number(flags)?;
    let heap = small_number(heap)?;
    Some(Setting::MemoryType { flags, heap })
}

fn granularity(arguments: &[&str]) -> Option<Setting>
    ensures { Says words SettingFits (codes "granularity" ∷ texts arguments.now) result }
{
    let [bytes] = arguments else {
        return None;
    };
    let bytes = number(bytes)?;
    Some(Setting::Granularity { bytes })
}

fn sizes(arguments: &[&str]) -> Option<Setting>
    ensures { Says words SettingFits (codes "sizes" ∷ texts arguments.now) result }
{
    let [device, host, max_device, max_host] = arguments else {
        return None;
    };
    let device = number(device)?;
    let host = number(host)?;
    let max_device = number(max_device)?;
    let Some(max_host) = number(max_host) else {
        return None;
    };
    Some(Setting::Sizes {
        device,
        host,
        max_device,
        max_host,
    })
}

fn refusal_of(alloc: Global, word: &str) -> Result<Option<Refusal>, AllocError>
    ensures { IfOk result (λ found. MatchOption found
        ((r : Refusal) → FitsRefusal r → word.now ≢ refusal_word r)
        (λ r. (word.now ≡ refusal_word r) × FitsRefusal r)) }
{
    if word == "null" {
        return Ok(Some(Refusal::Null));
    }
    match code(alloc, word)? {
        Some(code) => Ok(Some(Refusal::Code(code))),
        None => Ok(None),
    }
}

/// The number of a question, counted from 1.
fn question_of(word: &str) -> Option<u64>
    ensures { MatchOption result ((n : ℕ) → 0 < n → n < 2 ^ 64 → word.now ≢ decimal n)
        (λ n. (0 < n) × (word.now ≡ decimal n)) }
{
    let number = number(word)?;
    if number == 0 { None } else { Some(number) }
}

fn refuse(alloc: Global, arguments: &[&str]) -> Result<Option<Setting>, AllocError>
    ensures { IfOk result (λ found. Says words SettingFits (codes "refuse" ∷ texts arguments.now) found) }
{
    let [question, refusal] = arguments else {
        return Ok(None);
    };
    let Some(question) = question_of(question) else {
        return Ok(None);
    };
    let Some(refusal) = refusal_of(alloc, refusal)? else {
        return Ok(None);
    };
    Ok(Some(Setting::Refuse { question, refusal }))
}

/// The setting of any sort of traces over a device that a line's words say, or `None` where they say none. Only host memory can be refused.
#[tactic(auto, using(crate::proofs::Settings::sizes_shared, crate::proofs::Settings::refuse_shared))]
pub fn shared_setting_of(
    alloc: Global,
    verb: &str,
    arguments: &[&str],
) -> Result<Option<Setting>, AllocError>
    ensures { IfOk result (λ found. Says words FitsShared (verb.now ∷ texts arguments.now) found) }
{
    match verb {
        "sizes" => Ok(sizes(arguments)),
        "refuse" => refuse(alloc, arguments),
        _ => Ok(None),
    }
}

/// The sizes of blocks that the numbers of a `sizes` line stand for.
pub fn sizes_of(device: u64, host: u64, max_device: u64, max_host: u64) -> AllocationSizes
    ensures { result ≡ sizes_of device host max_device max_host }
{
    AllocationSizes::new(device, host)
        .with_max_device_memblock_size(max_device)
        .with_max_host_memblock_size(max_host)
}

impl Spelled for Setting {
    ghost use Rattle.gpu_trace_text.specs.Setting.{words, SettingFits};

    ghost spelling = { words };

    ghost Fits = { SettingFits };

    fn said(alloc: Global, words: &[&str]) -> Result<Option<Setting>, AllocError> {
        let [verb, arguments @ ..] = words else {
            return Ok(None);
        };
        match *verb {
            "heap" => Ok(heap(arguments)),
            "type" => Ok(memory_type(arguments)),
            "granularity" => Ok(granularity(arguments)),
            _ => shared_setting_of(alloc, verb, arguments),
        }
    }
}
