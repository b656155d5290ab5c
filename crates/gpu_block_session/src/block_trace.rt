//! A block trace, as the run of a trace sees it, and its run.

ghost use Rattle.std.specs.Prelude.{◌≡◌, ◌≤◌, ℕ, Some, None, IfOk, IfSome};
ghost use Rattle.gpu_block_session.specs.declared.block_stage.BlockStage.TheVariants as stages;
ghost use Rattle.gpu_block_session.specs.BlockTrace.{StageServes, reply_line};
ghost use Rattle.gpu_block_session.specs.Run.{Answers};

use crate::block::Reply;
use crate::text::reply::Shown;
use crate::{BlockStage, Line, Outcome, Trace, read, run_from};
use log::Log;
use std::alloc::{AllocError, Global};
use std::io;
use std::io::{Read, Write};

/// Reads a line and serves what it says.
fn serve(
    alloc: Global,
    mut stage: BlockStage,
    line: &[u8],
) -> Result<(BlockStage, Outcome<Reply>), AllocError>
    ensures { IfOk result (λ r. StageServes stage line.now r.1 r.0) }
{
    match read(alloc, line)? {
        Line::Blank => Ok((stage, Outcome::Nothing)),
        Line::Says(command) => match BlockStage::serve(&mut stage, alloc, &command) {
            Some(reply) => Ok((stage, Outcome::Replied(reply))),
            None => Ok((stage, Outcome::Bad)),
        },
        Line::Bad => Ok((stage, Outcome::Bad)),
    }
}

impl Trace for BlockStage {
    ghost use Rattle.gpu_block_session.specs.BlockTrace.{StageServes, reply_line};

    type Reply = Reply;

    ghost does = { StageServes };

    ghost reply_line = { reply_line };

    fn serve<L: Log>(
        self,
        _log: &L,
        alloc: Global,
        line: &[u8],
    ) -> Result<(Self, Outcome<Reply>), AllocError> {
        serve(alloc, self, line)
    }

    fn write<W: Write>(reply: &Reply, writer: &mut W) -> io::Result<()> {
        let shown = Shown(reply);
        writeln!(writer, "{shown}")
    }

    fn end<L: Log>(self, _log: &L) {}
}

/// Reads a block trace, runs it and writes its replies, a line each: what each line means and what is answered stands in
/// docs/TRACE.md. Answers the exit status as `run_from` does: 0, 2 behind `bad line N`, or 1.
pub fn run_block_trace<R: Read, W: Write, L: Log>(
    log: &L,
    alloc: Global,
    reader: &mut R,
    writer: &mut W,
) -> u8
    ensures status { result ≤ 2 }
    ensures whole { result ≡ 0 → IfSome (R.remaining reader.old)
        (λ input. Answers StageServes reply_line stages.Before input (W.contents writer.old)
        (W.contents writer.new) None) }
    ensures bad { result ≡ 2 → IfSome (R.remaining reader.old)
        (λ input. (n : ℕ) × Answers StageServes reply_line stages.Before input
        (W.contents writer.old) (W.contents writer.new) (Some n)) }
{
    run_from(log, alloc, BlockStage::Before, reader, writer)
}
