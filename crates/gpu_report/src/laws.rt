//! Laws of pictures, each the contract of a function that does nothing.

ghost use Rattle.std.specs.Prelude.{◌≡◌, ℕ, ◌≤◌, List, filter, map, All, Some};
ghost use Rattle.gpu_block_pieces.specs.FreeList.{Extent};
ghost use Rattle.gpu_block_pieces.specs.Pieces.{LieBetween};
ghost use Rattle.gpu_report.specs.Picture.{Tile, cells_between, is_piece_cell, piece_cell, place};
ghost use Rattle.json.specs.Json.{document};
ghost use Rattle.gpu_values.specs.Report.{Report};
ghost use Rattle.gpu_report.specs.ReportJson.{report_json};
ghost use Rattle.gpu_report.specs.BlocksJson.{blocks_json};
ghost use Rattle.gpu_report.specs.declared.view.BlockView.{BlockView};
ghost use Rattle.gpu_report.specs.ReportValue.{report_value};
ghost use Rattle.gpu_report.specs.BlocksValue.{blocks_value};
ghost use Rattle.gpu_report.specs.Fits.{ReportFits, BlockFits};
ghost use Rattle.gpu_report.specs.Printed.{printed};

/// The JSON of a report reads back as the report: each piece and each block once, in order, and each name and number as it is.
/// Its numbers fit, as `report_fits` says of each report.
pub fn report_reads_back()
    ensures { (r : Report) → ReportFits r → document (report_json r) ≡ Some (report_value r) }
{}

/// Two reports with the same JSON are the same report: nothing of it is left out.
pub fn reports_print_apart()
    ensures { (r s : Report) → ReportFits r → ReportFits s → report_json r ≡ report_json s → r ≡ s }
{}

/// The JSON of blocks reads back as the blocks: each gap and each piece of each block once, in order, and each name and number
/// as it is. Their numbers fit, as `blocks_fit` says of all blocks.
pub fn blocks_read_back()
    ensures { (views : List BlockView) → All BlockFits views
        → document (blocks_json views) ≡ Some (blocks_value views) }
{}

/// Blocks with the same JSON stand at the same places with the same page sizes, sizes and pieces, but for words of callers, which
/// aren't printed.
pub fn blocks_print_apart()
    ensures { (views others : List BlockView) → All BlockFits views → All BlockFits others
        → blocks_json views ≡ blocks_json others → map printed views ≡ map printed others }
{}

/// What is drawn of pieces that lie one behind another covers the block from its first byte to its last: no two cells share a
/// byte, and none is left out.
pub fn cells_cover()
    ensures { (from to : ℕ) (xs : List Extent) → LieBetween from xs to
        → Tile from (cells_between from xs to) to }
{}

/// Each piece is drawn once, from its offset to its end, and in order.
pub fn each_piece_once()
    ensures { (from to : ℕ) (xs : List Extent)
        → filter is_piece_cell (cells_between from xs to) ≡ map piece_cell xs }
{}

/// A byte behind another is drawn behind it or at its place, and inside the bar.
pub fn cells_stay_in_order()
    ensures { (size width a b : ℕ) → a ≤ b
        → (place size width a ≤ place size width b) × (place size width b ≤ width) }
{}
