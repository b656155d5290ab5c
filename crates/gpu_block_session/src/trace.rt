//! A sort of traces, as the run of a trace sees it.

ghost use Rattle.std.specs.Prelude.{ℕ, List, IfOk, OnOk};
ghost use Rattle.std.specs.Io.KnownBytes.{Appends};
ghost use Rattle.gpu_block_session.specs.declared.outcome.Outcome.{Outcome};

use crate::outcome::Outcome;
use log::Log;
use std::alloc::{AllocError, Global};
use std::io;

/// How far a trace has come: what one line after another is read by. It must be ended.
pub trait Trace {
    /// What a line may be answered.
    type Reply: Drop;

    // What a line does, and how far the trace has come then.
    ghost does: { Self → List ℕ → Outcome Self.Reply → Self → Type 0 };

    // What is written of a reply: its text, and the end of its line.
    ghost reply_line: { Self.Reply → List ℕ };

    /// Reads a line and serves what it says. Where host memory is refused, the trace is ended.
    fn serve<L: Log>(
        self,
        log: &L,
        alloc: Global,
        line: &[u8],
    ) -> Result<(Self, Outcome<Self::Reply>), AllocError>
        ensures { IfOk result (λ r. does self line.now r.1 r.0) };

    /// Writes a reply, and the end of its line.
    fn write<W: io::Write>(reply: &Self::Reply, writer: &mut W) -> io::Result<()>
        ensures { OnOk result (Appends (W.contents writer.old) (W.contents writer.new)
            (reply_line reply.now)) };

    /// Ends the trace: an allocator that is still there is destroyed.
    fn end<L: Log>(self, log: &L);
}
