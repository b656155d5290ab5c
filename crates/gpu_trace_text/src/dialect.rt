//! What a line says, in the words of its sort of traces.

ghost use Rattle.std.specs.Prelude.{IfOk};
ghost use Rattle.gpu_block_session.specs.Words.{texts};
ghost use Rattle.gpu_trace_text.specs.Dialect.{Means, Reads};
ghost use Rattle.gpu_trace_text.specs.Spelled.{Spells};

use crate::spelled::Spelled;
use gpu_block_session::ascii;
use gpu_block_session::words::words;
use std::alloc::{AllocError, Global};

/// What a line says.
#[derive(Drop)]
pub enum Line<S, C, O> {
    /// Nothing: it is empty or a remark.
    Blank,
    /// What the device and the allocator are to be.
    Configures(S),
    /// The end of the configuration: the allocator is to be made.
    New,
    /// A command to the session.
    Asks(C),
    /// What only this sort of traces says: a command of a block trace, or what is to be told beside the session.
    Other(O),
    /// The end of the trace.
    Destroy,
    Bad,
}

/// What words say.
fn said<S: Spelled, C: Spelled, O: Spelled>(
    alloc: Global,
    words: &[&str],
) -> Result<Line<S, C, O>, AllocError>
    ensures { IfOk result (Reads (Spells S.spelling S.Fits) (Spells C.spelling C.Fits)
        (Spells O.spelling O.Fits) (texts words.now)) }
{
    if let Some(setting) = S::said(alloc, words)? {
        return Ok(Line::Configures(setting));
    }
    if let Some(other) = O::said(alloc, words)? {
        return Ok(Line::Other(other));
    }
    if let Some(command) = C::said(alloc, words)? {
        return Ok(Line::Asks(command));
    }
    let [verb] = words else {
        return Ok(Line::Bad);
    };
    Ok(match *verb {
        "new" => Line::New,
        "destroy" => Line::Destroy,
        _ => Line::Bad,
    })
}

/// Reads a line. Only host memory can be refused.
pub fn read<S: Spelled, C: Spelled, O: Spelled>(
    alloc: Global,
    line: &[u8],
) -> Result<Line<S, C, O>, AllocError>
    ensures { IfOk result (Means (Spells S.spelling S.Fits) (Spells C.spelling C.Fits)
        (Spells O.spelling O.Fits) line.now) }
{
    let Some(text) = ascii(line) else {
        return Ok(Line::Bad);
    };
    match line {
        [] | [b'#', ..] => Ok(Line::Blank),
        _ => said(alloc, &words(alloc, text)?),
    }
}
