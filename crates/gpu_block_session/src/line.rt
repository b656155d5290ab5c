//! What a line of a block trace says.

ghost use Rattle.std.specs.Prelude.{◌≡◌, ◌∷◌, IfOk, MatchOption};
ghost use Rattle.std.specs.Str.{IsAscii};
ghost use Rattle.gpu_block_session.specs.Line.{Means, Reads};
ghost use Rattle.gpu_block_session.specs.Words.{words_of};

use crate::block::Command;
use crate::text::command_of;
use crate::words::words;
use std::alloc::{AllocError, Global};
use std::str;

/// What a line of a block trace says.
#[derive(Debug, Drop)]
pub enum Line {
    /// Nothing: it is empty or a remark.
    Blank,
    /// A command.
    Says(Command),
    /// No command: a byte that isn't ASCII, a word that is none, or one too many or too few.
    Bad,
}

/// The text of a line, where all its bytes are ASCII.
pub fn ascii(line: &[u8]) -> Option<&str>
    ensures { MatchOption result (IsAscii line.now → ⊥)
        (λ s. (s.now ≡ line.now) × IsAscii line.now) }
{
    let Ok(text) = str::from_utf8(line) else {
        return None;
    };
    if text.is_ascii() { Some(text) } else { None }
}

/// What the words of a line say.
fn said(alloc: Global, line: &str) -> Result<Line, AllocError>
    ensures { IfOk result (Reads (words_of line.now)) }
{
    let words = words(alloc, line)?;
    match words.as_slice() {
        [verb, arguments @ ..] => match command_of(alloc, verb, arguments)? {
            Some(command) => Ok(Line::Says(command)),
            None => Ok(Line::Bad),
        },
        [] => Ok(Line::Bad),
    }
}

/// Reads a line of a block trace. Only host memory can be refused.
pub fn read(alloc: Global, line: &[u8]) -> Result<Line, AllocError>
    ensures { IfOk result (Means line.now) }
{
    let Some(text) = ascii(line) else {
        return Ok(Line::Bad);
    };
    match line {
        [] | [b'#', ..] => Ok(Line::Blank),
        _ => said(alloc, text),
    }
}
