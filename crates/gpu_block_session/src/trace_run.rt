//! The run of a trace, from the bytes in to the bytes out.

ghost use Rattle.std.specs.Prelude.{◌≡◌, ◌≤◌, ℕ, ◌+◌, Some, None, IfOk, OnOk, IfSome, take};
ghost use Rattle.std.specs.Io.KnownBytes.{Appends};
ghost use Rattle.gpu_block_session.specs.Words.{texts};
ghost use Rattle.gpu_block_session.specs.Run.{HasRun, Answers, bad_text, outcome_text, lines_of, longest_trace};

use crate::outcome::Outcome;
use crate::trace::Trace;
use log::Log;
use std::alloc::{AllocError, Global};
use std::io;
use std::io::{Read, Write};
use thiserror::Error;

/// How many bytes a trace may have.
pub const LIMIT: u64 = 1_048_576;

/// Why a trace was not run to its end.
#[derive(Debug, Drop, Error)]
pub enum TraceError {
    /// A read failed.
    #[error("the trace could not be read: {0}")]
    Read(io::Error),
    /// A write failed.
    #[error("the replies could not be written: {0}")]
    Write(#[from] io::Error),
    /// Host memory for the trace itself, its lines or its configuration was refused.
    #[error("memory for the trace was refused")]
    Memory(#[from(alloc)] AllocError),
}

/// Reads a trace, and one byte more where it is too long.
pub fn read_trace<R: Read>(alloc: Global, reader: &mut R) -> Result<Vec<u8>, TraceError>
    ensures { IfOk result (λ v. IfSome (R.remaining reader.old)
        (λ input. v.items ≡ take (longest_trace + 1) input)) }
{
    let mut bytes = Vec::new(alloc);
    let mut limited = Read::take(&mut *reader, LIMIT + 1);
    match limited.read_to_end(&mut bytes) {
        Ok(_) => Ok(bytes),
        Err(error) => Err(TraceError::Read(error)),
    }
}

/// The lines of a text, as line feeds part them.
pub fn lines_in(alloc: Global, text: &[u8]) -> Result<Vec<&[u8]>, AllocError>
    ensures { IfOk result (λ v. texts v.items ≡ lines_of text.now) }
{
    text.split(|b| *b == b'\n').collect(alloc)
}

fn write_bad<W: Write>(writer: &mut W, number: u64) -> io::Result<()>
    ensures { OnOk result (Appends (W.contents writer.old) (W.contents writer.new)
        (bad_text (Some number))) }
{
    writeln!(writer, "bad line {number}")
}

/// Writes what the line of that number did.
fn write_outcome<T: Trace, W: Write>(
    writer: &mut W,
    outcome: &Outcome<T::Reply>,
    number: u64,
) -> io::Result<()>
    ensures { OnOk result (Appends (W.contents writer.old) (W.contents writer.new)
        (outcome_text T.reply_line number outcome.now)) }
{
    match outcome {
        Outcome::Nothing => Ok(()),
        Outcome::Replied(reply) => T::write(reply, writer),
        Outcome::Bad => write_bad(writer, number),
    }
}

/// Serves the lines up to the first bad one, and answers its number, counted from 1.
fn run_lines<T: Trace, W: Write, L: Log>(
    log: &L,
    alloc: Global,
    start: T,
    lines: &[&[u8]],
    writer: &mut W,
) -> Result<Option<u64>, TraceError>
    ensures { IfOk result (HasRun T.does T.reply_line start (texts lines.now)
        (W.contents writer.old) (W.contents writer.new)) }
{
    let mut stage = start;
    for (i, line) in lines.iter().enumerate() {
        let (next, outcome) = stage.serve(log, alloc, line)?;
        stage = next;
        let number = i as u64 + 1;
        if let Err(error) = write_outcome::<T, W>(writer, &outcome, number) {
            stage.end(log);
            return Err(TraceError::Write(error));
        }
        if outcome.is_bad() {
            stage.end(log);
            return Ok(Some(number));
        }
    }
    stage.end(log);
    Ok(None)
}

fn run<T: Trace, R: Read, W: Write, L: Log>(
    log: &L,
    alloc: Global,
    start: T,
    reader: &mut R,
    writer: &mut W,
) -> Result<Option<u64>, TraceError>
    ensures { IfOk result (λ bad. IfSome (R.remaining reader.old)
        (λ input. Answers T.does T.reply_line start input (W.contents writer.old)
        (W.contents writer.new) bad)) }
{
    let text = match read_trace(alloc, reader) {
        Ok(text) => text,
        Err(error) => {
            start.end(log);
            return Err(error);
        }
    };
    if text.len() as u64 > LIMIT {
        start.end(log);
        write_bad(writer, 1)?;
        writer.flush()?;
        return Ok(Some(1));
    }
    let lines = match lines_in(alloc, &text) {
        Ok(lines) => lines,
        Err(error) => {
            start.end(log);
            return Err(TraceError::Memory(error));
        }
    };
    let bad = run_lines(log, alloc, start, &lines, writer)?;
    writer.flush()?;
    Ok(bad)
}

/// Reads a trace, runs it from this start and writes its replies, a line each. Answers the exit status: 0 where each line was
/// read; 2 where one could not be, and then `bad line N` is written behind the earlier replies; 1 where a read or a write
/// failed, or memory for the trace itself was refused. Replies are written one by one and flushed at the end, so hand in a
/// writer with a buffer.
pub fn run_from<T: Trace, R: Read, W: Write, L: Log>(
    log: &L,
    alloc: Global,
    start: T,
    reader: &mut R,
    writer: &mut W,
) -> u8
    ensures status { result ≤ 2 }
    ensures whole { result ≡ 0 → IfSome (R.remaining reader.old)
        (λ input. Answers T.does T.reply_line start input (W.contents writer.old)
        (W.contents writer.new) None) }
    ensures bad { result ≡ 2 → IfSome (R.remaining reader.old)
        (λ input. (n : ℕ) × Answers T.does T.reply_line start input (W.contents writer.old)
        (W.contents writer.new) (Some n)) }
{
    match run(log, alloc, start, reader, writer) {
        Ok(None) => 0,
        Ok(Some(_)) => 2,
        Err(_) => 1,
    }
}
