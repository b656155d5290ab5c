//! How far a whole trace comes, for programs that look at that and write no replies.

ghost use Rattle.std.specs.Prelude.{IfOk, IfSome};
ghost use Rattle.gpu_block_session.specs.Words.{texts};
ghost use Rattle.gpu_block_session.specs.Replay.{Replays, ReplaysTrace};

use crate::trace::Trace;
use crate::trace_run::{LIMIT, TraceError, lines_in, read_trace};
use log::Log;
use std::alloc::{AllocError, Global};
use std::io::Read;

/// What a trace came to.
pub enum Replayed<T> {
    /// Each line was served, and the trace has come this far. It must be ended.
    Whole(T),
    /// The line of that number, counted from 1, is the first bad one.
    Bad(u64),
}

/// Serves the lines up to the first bad one.
fn replay_lines<T: Trace, L: Log>(
    log: &L,
    alloc: Global,
    start: T,
    lines: &[&[u8]],
) -> Result<Replayed<T>, AllocError>
    ensures { IfOk result (Replays T.does start (texts lines.now)) }
{
    let mut stage = start;
    for (i, line) in lines.iter().enumerate() {
        let (next, outcome) = stage.serve(log, alloc, line)?;
        stage = next;
        if outcome.is_bad() {
            stage.end(log);
            return Ok(Replayed::Bad(i as u64 + 1));
        }
    }
    Ok(Replayed::Whole(stage))
}

/// Reads a trace and serves its lines from this start on: what each line means stands in docs/TRACE.md. Answers how far they
/// come, or the number of the first bad line; a trace above 1,048,576 bytes is bad in its first. Fails where a read fails, or
/// memory for the trace itself is refused; then the trace is ended.
pub fn replay_from<T: Trace, R: Read, L: Log>(
    log: &L,
    alloc: Global,
    start: T,
    reader: &mut R,
) -> Result<Replayed<T>, TraceError>
    ensures { IfOk result (λ r. IfSome (R.remaining reader.old)
        (λ input. ReplaysTrace T.does start input r)) }
{
    let text = match read_trace(alloc, reader) {
        Ok(text) => text,
        Err(error) => {
            start.end(log);
            return Err(error);
        }
    };
    if text.len() as u64 > LIMIT {
        start.end(log);
        return Ok(Replayed::Bad(1));
    }
    let lines = match lines_in(alloc, &text) {
        Ok(lines) => lines,
        Err(error) => {
            start.end(log);
            return Err(TraceError::Memory(error));
        }
    };
    let replayed = replay_lines(log, alloc, start, &lines)?;
    Ok(replayed)
}
