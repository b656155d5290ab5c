//! A picture of blocks.

ghost use Rattle.std.specs.Prelude.{◌≡◌, ◌≤◌, Some};
ghost use Rattle.std.specs.List.{flat_map};
ghost use Rattle.std.specs.Fmt.{DisplaysOnOk};
ghost use Rattle.gpu_report.specs.Picture.{look_of, gap_cells, padding_cells, piece_cell, cells_between};
ghost use Rattle.gpu_report.specs.Svg.{cell_svg};
ghost use Rattle.gpu_report.specs.BlocksSvg.{totals_of, with_view, page_note, block_note, pieces_note, gaps_note, label_svg, bar_svg, bars_svg, totals_line};

use crate::BlockView;
use crate::place::bar_width;
use crate::svg::{
    Look, Scale, Shown, write_amount, write_bar_start, write_cell, write_legend, write_page_ends,
    write_picture_start, write_scale_note, write_style, write_totals,
};
use gpu_block_pieces::{BlockStatistics, LivePiece, Pieces};
use gpu_values::AllocationType;
use std::fmt;

/// What is told of all blocks. Sums stop at the largest number of 64 bits.
#[derive(Clone, Copy)]
pub struct Totals {
    pub pieces: usize,
    pub taken: u64,
    pub capacity: u64,
    pub longest_gap: u64,
    /// The size of the largest block.
    pub largest: u64,
}

#[tactic(auto, unfolding(crate::specs::BlocksSvg::with_view))]
fn with_view(totals: Totals, view: &BlockView<'_>) -> Totals
    ensures { result ≡ with_view totals view.now }
{
    let counted = view.block.statistics();
    let size = view.block.size();
    Totals {
        pieces: totals.pieces.saturating_add(counted.pieces),
        taken: totals.taken.saturating_add(counted.piece_bytes),
        capacity: totals.capacity.saturating_add(size),
        longest_gap: totals.longest_gap.max(counted.longest_gap),
        largest: totals.largest.max(size),
    }
}

fn totals_of(views: &[BlockView<'_>]) -> Totals
    ensures { result ≡ totals_of views.now }
{
    let mut totals = Totals {
        pieces: 0,
        taken: 0,
        capacity: 0,
        longest_gap: 0,
        largest: 0,
    };
    for view in views {
        totals = with_view(totals, view);
    }
    totals
}

fn look_of(kind: AllocationType) -> Look
    ensures { result ≡ look_of kind }
{
    match kind {
        AllocationType::Free => Look::Piece,
        AllocationType::Linear => Look::Linear,
        AllocationType::NonLinear => Look::NonLinear,
    }
}

fn write_gap<W: fmt::Write>(
    scale: Scale,
    start: u64,
    end: u64,
    f: &mut fmt::Formatter<W>,
) -> fmt::Result
    requires { scale.width ≤ 10000 }
    ensures { DisplaysOnOk W.write_str_gives f.old result
        (Some (flat_map (cell_svg scale.size scale.width) (gap_cells start end))) f.new }
{
    if start >= end {
        return Ok(());
    }
    let shown = Shown {
        look: Look::Gap,
        start,
        end,
        name: "",
    };
    write_cell(scale, shown, f)
}

fn write_padding<W: fmt::Write>(
    scale: Scale,
    piece: &LivePiece<'_>,
    f: &mut fmt::Formatter<W>,
) -> fmt::Result
    requires { scale.width ≤ 10000 }
    ensures { DisplaysOnOk W.write_str_gives f.old result
        (Some (flat_map (cell_svg scale.size scale.width) (padding_cells piece.now))) f.new }
{
    if piece.start() >= piece.offset() {
        return Ok(());
    }
    let shown = Shown {
        look: Look::Padding,
        start: piece.start(),
        end: piece.offset(),
        name: piece.name(),
    };
    write_cell(scale, shown, f)
}

fn write_piece<W: fmt::Write>(
    scale: Scale,
    piece: &LivePiece<'_>,
    f: &mut fmt::Formatter<W>,
) -> fmt::Result
    requires { scale.width ≤ 10000 }
    ensures { DisplaysOnOk W.write_str_gives f.old result
        (Some (cell_svg scale.size scale.width (piece_cell piece.now))) f.new }
{
    let shown = Shown {
        look: look_of(piece.kind()),
        start: piece.offset(),
        end: piece.end(),
        name: piece.name(),
    };
    write_cell(scale, shown, f)
}

fn write_cells<W: fmt::Write>(
    scale: Scale,
    pieces: Pieces<'_>,
    f: &mut fmt::Formatter<W>,
) -> fmt::Result
    requires { scale.width ≤ 10000 }
    ensures { DisplaysOnOk W.write_str_gives f.old result
        (Some (flat_map (cell_svg scale.size scale.width)
        (cells_between 0 pieces.entry scale.size))) f.new }
{
    let mut end = 0;
    for piece in pieces {
        write_gap(scale, end, piece.start(), f)?;
        write_padding(scale, &piece, f)?;
        write_piece(scale, &piece, f)?;
        end = piece.end();
    }
    write_gap(scale, end, scale.size, f)
}

#[tactic(auto, unfolding(crate::specs::BlocksSvg::block_note))]
fn write_block_note<W: fmt::Write>(view: &BlockView<'_>, f: &mut fmt::Formatter<W>) -> fmt::Result
    ensures { DisplaysOnOk W.write_str_gives f.old result (Some (block_note view.now)) f.new }
{
    let memory_type = view.memory_type;
    let slot = view.slot;
    write!(f, "type {memory_type}, slot {slot}: ")?;
    write_amount(view.block.size(), f)
}

#[tactic(auto, unfolding(crate::specs::BlocksSvg::pieces_note))]
fn write_pieces_note<W: fmt::Write>(
    pieces: usize,
    bytes: u64,
    f: &mut fmt::Formatter<W>,
) -> fmt::Result
    ensures { DisplaysOnOk W.write_str_gives f.old result (Some (pieces_note pieces bytes)) f.new }
{
    write!(f, ", {pieces} pieces, ")?;
    write_amount(bytes, f)?;
    f.write_str(" taken")
}

#[tactic(auto, unfolding(crate::specs::BlocksSvg::gaps_note))]
fn write_gaps_note<W: fmt::Write>(
    counted: BlockStatistics,
    f: &mut fmt::Formatter<W>,
) -> fmt::Result
    ensures { DisplaysOnOk W.write_str_gives f.old result (Some (gaps_note counted)) f.new }
{
    let gaps = counted.gaps;
    write!(f, ", {gaps} gaps, longest ")?;
    write_amount(counted.longest_gap, f)
}

fn write_page_note<W: fmt::Write>(page: u64, f: &mut fmt::Formatter<W>) -> fmt::Result
    ensures { DisplaysOnOk W.write_str_gives f.old result (Some (page_note page)) f.new }
{
    if page <= 1 {
        return Ok(());
    }
    f.write_str(", pages of ")?;
    write_amount(page, f)
}

#[tactic(auto, unfolding(crate::specs::BlocksSvg::label_svg))]
fn write_label<W: fmt::Write>(
    largest: u64,
    view: &BlockView<'_>,
    f: &mut fmt::Formatter<W>,
) -> fmt::Result
    ensures { DisplaysOnOk W.write_str_gives f.old result (Some (label_svg largest view.now))
        f.new }
{
    let counted = view.block.statistics();
    write_block_note(view, f)?;
    write_pieces_note(counted.pieces, counted.piece_bytes, f)?;
    write_gaps_note(counted, f)?;
    write_page_note(view.page_size, f)?;
    write_scale_note(largest, view.block.size(), f)?;
    f.write_str("</text>\n")
}

#[tactic(auto, unfolding(crate::specs::BlocksSvg::bar_svg))]
fn write_bar<W: fmt::Write>(
    largest: u64,
    i: u64,
    view: &BlockView<'_>,
    f: &mut fmt::Formatter<W>,
) -> fmt::Result
    ensures { DisplaysOnOk W.write_str_gives f.old result (Some (bar_svg largest i view.now))
        f.new }
{
    let size = view.block.size();
    let width = bar_width(largest, size);
    let scale = Scale { size, width };
    write_bar_start(i, f)?;
    write_label(largest, view, f)?;
    write_cells(scale, view.block.pieces(), f)?;
    write_page_ends(scale, view.page_size, f)?;
    f.write_str("</g>\n")
}

fn write_bars<W: fmt::Write>(
    largest: u64,
    views: &[BlockView<'_>],
    f: &mut fmt::Formatter<W>,
) -> fmt::Result
    ensures { DisplaysOnOk W.write_str_gives f.old result (Some (bars_svg largest 0 views.now))
        f.new }
{
    for (i, view) in views.iter().enumerate() {
        write_bar(largest, i as u64, view, f)?;
    }
    Ok(())
}

#[tactic(auto, unfolding(crate::specs::BlocksSvg::totals_line))]
fn write_totals_line<W: fmt::Write>(
    blocks: usize,
    totals: Totals,
    f: &mut fmt::Formatter<W>,
) -> fmt::Result
    ensures { DisplaysOnOk W.write_str_gives f.old result (Some (totals_line blocks totals)) f.new }
{
    write_totals(blocks, totals.pieces, totals.taken, totals.capacity, f)?;
    f.write_str(", longest gap ")?;
    write_amount(totals.longest_gap, f)?;
    f.write_str("</text>\n")
}

/// Blocks as a picture: a bar for each, with its pieces, their padding and its gaps at their places. docs/REPORT.md says
/// what it shows. Printing it takes no memory, and fails where the writer does.
#[derive(Clone, Copy)]
pub struct BlocksSvg<'a>(pub &'a [BlockView<'a>]);

impl<'a> fmt::Display for BlocksSvg<'a> {
    ghost use Rattle.gpu_report.specs.BlocksSvg.{blocks_svg};

    ghost output = { λ b. Some (blocks_svg b.0.now) };

    fn fmt<W: fmt::Write>(&self, f: &mut fmt::Formatter<W>) -> fmt::Result {
        let views = self.0;
        let totals = totals_of(views);
        write_picture_start(views.len() as u64, f)?;
        write_style(f)?;
        write_totals_line(views.len(), totals, f)?;
        write_legend(f)?;
        write_bars(totals.largest, views, f)?;
        f.write_str("</svg>\n")
    }
}
