//! Where counters are begun for a dedicated block: one for each call that looks at its piece, whose look-ups nobody sees.

ghost use Rattle.std.specs.Prelude.{◌≡◌, IfOk, IfErr, map, false};
ghost use Rattle.gpu_values.specs.declared.error.AllocationError.TheVariants.{HostOutOfMemory};
ghost use Rattle.gpu_values.specs.Report.{row_of};
ghost use Rattle.gpu_block_pieces.specs.Rows.{extent_row};
ghost use Rattle.gpu_block_pieces.specs.Leak.{leak_of};
ghost use Rattle.gpu_block_pieces.specs.Pieces.{LieBetween};

use crate::DedicatedBlockAllocator;
use gpu_block_chunks::Walk;
use gpu_block_pieces::{Leaks, Pieces, rows_of};
use gpu_cost::{BeginsCount, Cost};
use gpu_values::{AllocationReport, Result};

/// What begins a count. Nothing outside this module has it.
struct Reading;

impl BeginsCount for Reading {}

impl DedicatedBlockAllocator {
    ghost use Rattle.gpu_block.specs.Dedicated.{held_extents};

    /// The piece, if one is held. The only refusal is `HostOutOfMemory`.
    pub fn report_allocations(&self) -> Result<Vec<AllocationReport>>
        ensures rows { IfOk result (λ v. map row_of v.items
            ≡ map extent_row (held_extents self.now)) }
        ensures cause { IfErr result (λ e. e ≡ HostOutOfMemory) }
    {
        let chunks = Walk::of_list(self.piece.as_slice());
        let rows = rows_of(self.alloc, chunks, &mut Cost::begin(&Reading))?;
        Ok(rows)
    }

    /// The piece, if one is held, in block `memory_block` of type `memory_type`. It takes no memory.
    pub fn leaks(&self, memory_type: usize, memory_block: usize) -> Leaks<'_>
        ensures { result ≡ map (leak_of memory_type memory_block false) (held_extents self.now) }
    {
        let piece = Walk::of_list(self.piece.as_slice());
        Leaks::new(
            memory_type,
            memory_block,
            false,
            piece,
            Cost::begin(&Reading),
        )
    }

    /// The live pieces in order of offset. It takes no memory.
    pub fn pieces(&self) -> Pieces<'_>
        ensures pieces { result ≡ held_extents self.now }
        ensures laid_out { LieBetween 0 result self.now.size }
    {
        let rest = Walk::of_list(self.piece.as_slice());
        Pieces::new(rest, Cost::begin(&Reading))
    }
}
