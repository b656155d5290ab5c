//! Room for the lines of one call.

ghost use Rattle.std.specs.Prelude.{◌≡◌, ◌+◌, ◌<◌, ◌⊎◌, ◌++◌, length, MatchResult, vec_len, vec_capacity};

use std::alloc::AllocError;

/// Appends to both texts, or to neither where the host refuses memory for one of them.
pub(crate) fn append_both(
    device: &mut Vec<u8>,
    calls: &mut Vec<u8>,
    device_lines: &[u8],
    call_lines: &[u8],
) -> Result<(), AllocError>
    ensures { MatchResult result
        (λ _. (device.new.items ≡ device.old.items ++ device_lines.now)
        × (calls.new.items ≡ calls.old.items ++ call_lines.now))
        (λ _. (device.new.items ≡ device.old.items) × (calls.new.items ≡ calls.old.items)
        × ((vec_capacity device.old < vec_len device.old + length device_lines.now)
        ⊎ (vec_capacity calls.old < vec_len calls.old + length call_lines.now))) }
{
    device.reserve(device_lines.len())?;
    calls.reserve(call_lines.len())?;
    device.extend_from_slice(device_lines)?;
    calls.extend_from_slice(call_lines)
}
