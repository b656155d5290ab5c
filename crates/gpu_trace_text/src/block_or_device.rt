//! A block or device trace, as the run of a trace of any sort sees it.

ghost use Rattle.std.specs.Prelude.{IfOk};
ghost use Rattle.gpu_trace_text.specs.BlockOrDevice.{AnyStageServes};

use crate::stage::Stage;
use crate::{Outcome, Reply, Trace, read};
use log::Log;
use std::alloc::{AllocError, Global};
use std::io;
use std::io::Write;

/// Reads a line and serves what it says.
fn serve<L: Log>(
    log: &L,
    alloc: Global,
    stage: Stage,
    line: &[u8],
) -> Result<(Stage, Outcome<Reply>), AllocError>
    ensures { IfOk result (λ r. AnyStageServes stage line.now r.1 r.0) }
{
    match read(alloc, line) {
        Ok(line) => stage.serve(log, alloc, line),
        Err(error) => {
            let _ = stage.end(log);
            Err(error)
        }
    }
}

impl Trace for Stage {
    ghost use Rattle.gpu_trace_text.specs.Reply.{reply_line};
    ghost use Rattle.gpu_trace_text.specs.BlockOrDevice.{AnyStageServes};

    type Reply = Reply;

    ghost does = { AnyStageServes };

    ghost reply_line = { reply_line };

    fn serve<L: Log>(
        self,
        log: &L,
        alloc: Global,
        line: &[u8],
    ) -> Result<(Self, Outcome<Reply>), AllocError> {
        serve(log, alloc, self, line)
    }

    fn write<W: Write>(reply: &Reply, writer: &mut W) -> io::Result<()> {
        writeln!(writer, "{reply}")
    }

    fn end<L: Log>(self, log: &L) {
        let _ = Stage::end(self, log);
    }
}
