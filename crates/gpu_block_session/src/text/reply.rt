//! What is answered to a line of a block trace.

ghost use Rattle.std.specs.Prelude.{Some, map};
ghost use Rattle.std.specs.List.{flat_map};
ghost use Rattle.std.specs.Fmt.{DisplaysOnOk};
ghost use Rattle.gpu_values.specs.Report.{row_of};
ghost use Rattle.gpu_block_session.specs.BlockReply.{piece_line, report_text, reply_text};

use crate::block::{Reply, Report};
use gpu_values::AllocationReport;
use std::fmt;

fn write_piece<W: fmt::Write>(piece: &AllocationReport, f: &mut fmt::Formatter<W>) -> fmt::Result
    ensures { DisplaysOnOk W.write_str_gives f.old result (Some (piece_line (row_of piece.now)))
        f.new }
{
    let name = piece.name.as_str();
    let offset = piece.offset;
    let size = piece.size;
    writeln!(f, "piece {name} {offset} {size}")
}

/// Live pieces, a line each.
pub fn write_pieces<W: fmt::Write>(
    pieces: &[AllocationReport],
    f: &mut fmt::Formatter<W>,
) -> fmt::Result
    ensures { DisplaysOnOk W.write_str_gives f.old result
        (Some (flat_map piece_line (map row_of pieces.now))) f.new }
{
    for piece in pieces {
        write_piece(piece, f)?;
    }
    Ok(())
}

fn write_report<W: fmt::Write>(report: &Report, f: &mut fmt::Formatter<W>) -> fmt::Result
    ensures { DisplaysOnOk W.write_str_gives f.old result (Some (report_text report.now)) f.new }
{
    write_pieces(&report.pieces, f)?;
    let total = report.total;
    let capacity = report.capacity;
    write!(f, "total {total} capacity {capacity}")
}

/// What a session of one block answers, as a trace shows it.
pub fn write_reply<W: fmt::Write>(reply: &Reply, f: &mut fmt::Formatter<W>) -> fmt::Result
    ensures { DisplaysOnOk W.write_str_gives f.old result (Some (reply_text reply.now)) f.new }
{
    match reply {
        Reply::Block { size } => write!(f, "block {size}"),
        Reply::Allocated { offset, chunk } => {
            let chunk = chunk.get();
            write!(f, "ok offset {offset} chunk {chunk}")
        }
        Reply::Freed => write!(f, "ok"),
        Reply::Refused(number) => write!(f, "error {number}"),
        Reply::Busy => write!(f, "busy"),
        Reply::Unbound => write!(f, "unbound"),
        Reply::Report(report) => write_report(report, f),
    }
}

/// A reply, as a trace shows it.
#[derive(Drop)]
pub struct Shown<'a>(pub &'a Reply);

impl fmt::Display for Shown<'_> {
    ghost use Rattle.gpu_block_session.specs.BlockReply.{reply_text};

    ghost output = { λ s. Some (reply_text s.0.now) };

    fn fmt<W: fmt::Write>(&self, f: &mut fmt::Formatter<W>) -> fmt::Result {
        write_reply(self.0, f)
    }
}
