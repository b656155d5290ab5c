//! Lists of numbers in one word.

ghost use Rattle.std.specs.Prelude.{◌≡◌, ◌≢◌, ℕ, ◌==◌, List, IfOk, MatchOption};
ghost use Rattle.std.specs.List.{slice_split};
ghost use Rattle.gpu_block_session.specs.Words.{texts};
ghost use Rattle.gpu_trace_text.specs.D3D12Numbers.{IsSeparator, AreNumbers, numbers_word};

use gpu_block_session::words::small_number;
use std::alloc::{AllocError, Global};

/// The parts of a word between its separators.
fn parts<'a>(alloc: Global, word: &'a str, separator: char) -> Result<Vec<&'a str>, AllocError>
    requires { IsSeparator separator }
    ensures { IfOk result (λ v. texts v.items ≡ slice_split (λ b. b == separator) word.now) }
{
    word.split(separator).collect(alloc)
}

/// The numbers below 2^32 that a word spells in decimal, with a separator between each two.
pub(crate) fn numbers_of(
    alloc: Global,
    word: &str,
    separator: char,
) -> Result<Option<Vec<u32>>, AllocError>
    requires { IsSeparator separator }
    ensures { IfOk result (λ found. MatchOption found
        ((ns : List ℕ) → AreNumbers ns → word.now ≢ numbers_word separator ns)
        (λ v. AreNumbers v.items × (word.now ≡ numbers_word separator v.items))) }
{
    let parts = parts(alloc, word, separator)?;
    let mut numbers = Vec::new(alloc);
    for part in &parts {
        let Some(number) = small_number(part) else {
            return Ok(None);
        };
        numbers.push(number)?;
    }
    Ok(Some(numbers))
}
