//! Bytes as lower-case hexadecimal digits.

ghost use Rattle.std.specs.Prelude.{◌≡◌, ◌≢◌, ℕ, ◌+◌, ◌*◌, ◌<◌, List, [], ◌∷◌, Some, IfOk, MatchOption};
ghost use Rattle.gpu_trace_text.specs.Hex.{hex_digit, hex_byte, hex, AreBytes};

use std::alloc::{AllocError, Global};
use std::fmt;

/// The value of a digit.
fn digit_value(digit: u8) -> Option<u8>
    ensures { MatchOption result ((n : ℕ) → n < 16 → digit ≢ hex_digit n)
        (λ n. (n < 16) × (digit ≡ hex_digit n)) }
{
    match digit {
        b'0'..=b'9' => Some(digit - b'0'),
        b'a'..=b'f' => Some(digit - b'a' + 10),
        _ => None,
    }
}

/// The byte that two digits spell.
fn byte_of(high: u8, low: u8) -> Option<u8>
    ensures { MatchOption result ((n : ℕ) → n < 256 → high ∷ low ∷ [] ≢ hex_byte n)
        (λ n. high ∷ low ∷ [] ≡ hex_byte n) }
{
    let high = digit_value(high)?;
    let low = digit_value(low)?;
    Some(high * 16 + low)
}

/// The bytes that digits spell, two digits a byte.
pub fn decode(alloc: Global, text: &[u8]) -> Result<Option<Vec<u8>>, AllocError>
    ensures { IfOk result (λ found. MatchOption found
        ((bs : List ℕ) → AreBytes bs → text.now ≢ hex bs) (λ v. text.now ≡ hex v.items)) }
{
    let count = text.len() / 2;
    if count * 2 != text.len() {
        return Ok(None);
    }
    let mut bytes = Vec::with_capacity(alloc, count)?;
    for i in 0..count {
        let Some(byte) = byte_of(text[2 * i], text[2 * i + 1]) else {
            return Ok(None);
        };
        bytes.push_reserved(byte);
    }
    Ok(Some(bytes))
}
