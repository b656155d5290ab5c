//! The words that commands are made of.

ghost use Rattle.std.specs.Prelude.{◌≡◌, ◌≢◌, ℕ, ◌<◌, ◌^◌, ◌↔◌, length, slice_index, IsTrue, MatchOption, IfOk, ℤ, FitsSigned, string_bytes};
ghost use Rattle.std.specs.Int.{w32};
ghost use Rattle.std.specs.Fmt.{decimal, signed_decimal};
ghost use Rattle.gpu_block_session.specs.Words.{texts, words_of, IsName};

use std::alloc::{AllocError, Global};

/// The words of a line, which single spaces separate.
pub fn words<'a>(alloc: Global, line: &'a str) -> Result<Vec<&'a str>, AllocError>
    ensures { IfOk result (λ v. texts v.items ≡ words_of line.now) }
{
    line.split(' ').collect(alloc)
}

/// The number that a word spells in decimal, without leading zeros.
pub fn number(word: &str) -> Option<u64>
    ensures { MatchOption result ((n : ℕ) → n < 2 ^ 64 → word.now ≢ decimal n)
        (λ n. word.now ≡ decimal n) }
{
    let bytes = word.as_bytes();
    if bytes.is_empty() {
        return None;
    }
    if bytes[0] == b'+' {
        return None;
    }
    if has_leading_zero(bytes) {
        return None;
    }
    word.parse().ok()
}

/// The number below 2^32 that a word spells in decimal, without leading zeros.
pub fn small_number(word: &str) -> Option<u32>
    ensures { MatchOption result ((n : ℕ) → n < 2 ^ 32 → word.now ≢ decimal n)
        (λ n. word.now ≡ decimal n) }
{
    let number = number(word)?;
    if number <= u32::MAX as u64 {
        Some(number as u32)
    } else {
        None
    }
}

/// The signed number of 32 bits that a word spells in decimal, without leading zeros.
pub fn code(alloc: Global, word: &str) -> Result<Option<i32>, AllocError>
    ensures { IfOk result (λ found. MatchOption found
        ((z : ℤ) → FitsSigned w32 z → word.now ≢ signed_decimal z)
        (λ z. word.now ≡ signed_decimal z)) }
{
    let Ok(number) = word.parse::<i32>() else {
        return Ok(None);
    };
    let again = number.to_string(alloc)?;
    if again.as_str() == word {
        Ok(Some(number))
    } else {
        Ok(None)
    }
}

/// Whether the first of several digits is a zero.
fn has_leading_zero(digits: &[u8]) -> bool
    requires { 0 < length digits.now }
    ensures { IsTrue result ↔ ((slice_index digits.now 0 ≡ 48) × (1 < length digits.now)) }
{
    digits[0] == b'0' && digits.len() > 1
}

/// Whether a word may be a name: 1 to 64 printable characters.
fn is_name(word: &str) -> bool
    ensures { IsTrue result ↔ IsName word.now }
{
    !word.is_empty() && word.len() <= 64 && word.as_bytes().iter().all(|b| 0x21 <= *b && *b <= 0x7e)
}

/// A name, where the word may be one.
pub fn name_of(alloc: Global, word: &str) -> Result<Option<String>, AllocError>
    ensures { IfOk result (λ found. MatchOption found (IsName word.now → ⊥)
        (λ name. IsName word.now × (string_bytes name ≡ word.now))) }
{
    if !is_name(word) {
        return Ok(None);
    }
    let name = word.to_string(alloc)?;
    Ok(Some(name))
}
