//! What a line of a plan trace says.

ghost use Rattle.std.specs.Prelude.{IfOk};
ghost use Rattle.gpu_block_session.specs.Words.{words_of};
ghost use Rattle.gpu_plan_session.specs.Line.{Means, Reads};

use crate::Command;
use crate::text::command_of;
use gpu_block_session::ascii;
use gpu_block_session::words::words;
use std::alloc::{AllocError, Global};

/// What a line of a plan trace says.
#[derive(Debug, Drop)]
pub enum Line {
    /// Nothing: it is empty or a remark.
    Blank,
    /// A command.
    Says(Command),
    /// No command: a byte that isn't ASCII, a word that is none, or one too many or too few.
    Bad,
}

/// What the words of a line say.
fn said(alloc: Global, line: &str) -> Result<Line, AllocError>
    ensures { IfOk result (Reads (words_of line.now)) }
{
    let words = words(alloc, line)?;
    match words.as_slice() {
        [verb, arguments @ ..] => match command_of(alloc, verb, arguments)? {
            Some(command) => Ok(Line::Says(command)),
            None => Ok(Line::Bad),
        },
        [] => Ok(Line::Bad),
    }
}

/// Reads a line of a plan trace. Only host memory can be refused.
pub fn read(alloc: Global, line: &[u8]) -> Result<Line, AllocError>
    ensures { IfOk result (Means line.now) }
{
    let Some(text) = ascii(line) else {
        return Ok(Line::Bad);
    };
    match line {
        [] | [b'#', ..] => Ok(Line::Blank),
        _ => said(alloc, text),
    }
}
