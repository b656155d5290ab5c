//! Blocks with their pieces and gaps as JSON.

ghost use Rattle.std.specs.Prelude.{◌≡◌, ◌≤◌, Some, ℕ};
ghost use Rattle.std.specs.Fmt.{DisplaysOnOk};
ghost use Rattle.gpu_block.specs.Block.{extents_of};
ghost use Rattle.gpu_block.specs.SubAllocator.{block_of};
ghost use Rattle.gpu_report.specs.Json.{listed};
ghost use Rattle.gpu_report.specs.BlocksJson.{kind_word, piece_names_json, piece_place_json, piece_json, gap_json, statistics_json, place_json, sums_json, block_json};

use crate::BlockView;
use crate::escape::write_quoted;
use gpu_block_pieces::{BlockStatistics, Gaps, LivePiece, Pieces};
use gpu_values::AllocationType;
use std::fmt;

/// The word that stands for a piece's kind.
pub(crate) fn word_of(kind: AllocationType) -> &'static str
    ensures { result.now ≡ kind_word kind }
{
    match kind {
        AllocationType::Free => "free",
        AllocationType::Linear => "linear",
        AllocationType::NonLinear => "nonlinear",
    }
}

#[tactic(auto, unfolding(crate::specs::BlocksJson::piece_names_json))]
fn write_piece_names<W: fmt::Write>(piece: &LivePiece<'_>, f: &mut fmt::Formatter<W>) -> fmt::Result
    ensures { DisplaysOnOk W.write_str_gives f.old result (Some (piece_names_json piece.now))
        f.new }
{
    let kind = word_of(piece.kind());
    let number = piece.chunk_id();
    write!(f, "{{\"kind\":\"{kind}\",\"name\":")?;
    write_quoted(piece.name(), f)?;
    write!(f, ",\"number\":{number}")
}

#[tactic(auto, unfolding(crate::specs::BlocksJson::piece_place_json))]
fn write_piece_place<W: fmt::Write>(piece: &LivePiece<'_>, f: &mut fmt::Formatter<W>) -> fmt::Result
    ensures { DisplaysOnOk W.write_str_gives f.old result (Some (piece_place_json piece.now))
        f.new }
{
    let offset = piece.offset();
    let padding = piece.padding();
    let size = piece.size();
    write!(
        f,
        ",\"offset\":{offset},\"padding\":{padding},\"size\":{size}}}"
    )
}

#[tactic(auto, unfolding(crate::specs::BlocksJson::piece_json))]
fn write_piece<W: fmt::Write>(piece: &LivePiece<'_>, f: &mut fmt::Formatter<W>) -> fmt::Result
    ensures { DisplaysOnOk W.write_str_gives f.old result (Some (piece_json piece.now)) f.new }
{
    write_piece_names(piece, f)?;
    write_piece_place(piece, f)
}

fn write_pieces<W: fmt::Write>(pieces: Pieces<'_>, f: &mut fmt::Formatter<W>) -> fmt::Result
    ensures { DisplaysOnOk W.write_str_gives f.old result (Some (listed piece_json pieces.entry))
        f.new }
{
    let mut pieces = pieces;
    let Some(first) = pieces.next() else {
        return Ok(());
    };
    write_piece(&first, f)?;
    for piece in pieces {
        f.write_str(",")?;
        write_piece(&piece, f)?;
    }
    Ok(())
}

#[tactic(auto, unfolding(crate::specs::BlocksJson::gap_json))]
fn write_gap<W: fmt::Write>(gap: (u64, u64), f: &mut fmt::Formatter<W>) -> fmt::Result
    ensures { DisplaysOnOk W.write_str_gives f.old result (Some (gap_json gap)) f.new }
{
    let (start, end) = gap;
    let size = end.saturating_sub(start);
    write!(f, "{{\"size\":{size},\"start\":{start}}}")
}

fn write_gaps<W: fmt::Write>(gaps: Gaps<'_>, f: &mut fmt::Formatter<W>) -> fmt::Result
    ensures { DisplaysOnOk W.write_str_gives f.old result (Some (listed gap_json gaps.entry))
        f.new }
{
    let mut gaps = gaps;
    let Some(first) = gaps.next() else {
        return Ok(());
    };
    write_gap(first, f)?;
    for gap in gaps {
        f.write_str(",")?;
        write_gap(gap, f)?;
    }
    Ok(())
}

#[tactic(auto, unfolding(crate::specs::BlocksJson::statistics_json))]
fn write_statistics<W: fmt::Write>(
    counted: BlockStatistics,
    f: &mut fmt::Formatter<W>,
) -> fmt::Result
    ensures { DisplaysOnOk W.write_str_gives f.old result (Some (statistics_json counted)) f.new }
{
    let BlockStatistics {
        pieces,
        piece_bytes,
        gaps,
        longest_gap,
    } = counted;
    write!(
        f,
        "\"statistics\":{{\"gaps\":{gaps},\"longest_gap\":{longest_gap}"
    )?;
    write!(f, ",\"piece_bytes\":{piece_bytes},\"pieces\":{pieces}}}")
}

#[tactic(auto, unfolding(crate::specs::BlocksJson::place_json))]
fn write_place<W: fmt::Write>(view: &BlockView<'_>, f: &mut fmt::Formatter<W>) -> fmt::Result
    ensures { DisplaysOnOk W.write_str_gives f.old result (Some (place_json view.now)) f.new }
{
    let memory_type = view.memory_type;
    let page_size = view.page_size;
    write!(
        f,
        "],\"memory_type\":{memory_type},\"page_size\":{page_size},\"pieces\":["
    )
}

#[tactic(auto, unfolding(crate::specs::BlocksJson::sums_json))]
fn write_sums<W: fmt::Write>(view: &BlockView<'_>, f: &mut fmt::Formatter<W>) -> fmt::Result
    ensures { DisplaysOnOk W.write_str_gives f.old result (Some (sums_json view.now)) f.new }
{
    let size = view.block.size();
    let slot = view.slot;
    write!(f, "],\"size\":{size},\"slot\":{slot},")?;
    write_statistics(view.block.statistics(), f)?;
    f.write_str("}")
}

#[tactic(auto, unfolding(crate::specs::BlocksJson::block_json))]
fn write_block<W: fmt::Write>(view: &BlockView<'_>, f: &mut fmt::Formatter<W>) -> fmt::Result
    ensures { DisplaysOnOk W.write_str_gives f.old result (Some (block_json view.now)) f.new }
{
    f.write_str("{\"gaps\":[")?;
    write_gaps(view.block.gaps(), f)?;
    write_place(view, f)?;
    write_pieces(view.block.pieces(), f)?;
    write_sums(view, f)
}

fn write_blocks<W: fmt::Write>(views: &[BlockView<'_>], f: &mut fmt::Formatter<W>) -> fmt::Result
    ensures { DisplaysOnOk W.write_str_gives f.old result (Some (listed block_json views.now))
        f.new }
{
    let Some((first, others)) = views.split_first() else {
        return Ok(());
    };
    write_block(first, f)?;
    for view in others {
        f.write_str(",")?;
        write_block(view, f)?;
    }
    Ok(())
}

/// Blocks with their pieces and gaps as JSON, by the schema `gpu_report.blocks` of docs/REPORT.md. Printing them takes no
/// memory, and fails where the writer does.
#[derive(Clone, Copy)]
pub struct BlocksJson<'a>(pub &'a [BlockView<'a>]);

impl<'a> fmt::Display for BlocksJson<'a> {
    ghost use Rattle.gpu_report.specs.BlocksJson.{blocks_json};

    ghost output = { λ b. Some (blocks_json b.0.now) };

    fn fmt<W: fmt::Write>(&self, f: &mut fmt::Formatter<W>) -> fmt::Result {
        f.write_str("{\"blocks\":[")?;
        write_blocks(self.0, f)?;
        f.write_str("],\"schema\":\"gpu_report.blocks\",\"version\":1}")
    }
}
