//! What is counted of all blocks of a memory type.

ghost use Rattle.std.specs.Prelude.{◌≡◌};
ghost use Rattle.gpu_core.specs.TypeReport.{counted_with, nothing_counted};
ghost use Rattle.gpu_core.specs.Slots.{slots_of};

use crate::slot::LiveBlock;
use gpu_block_pieces::BlockStatistics;

/// What is counted of the live blocks of all slots together.
pub fn count_slots<H>(slots: &[Option<LiveBlock<H>>]) -> BlockStatistics
    ensures { result ≡ counted_with nothing_counted (slots_of slots.now) }
{
    let mut counted = BlockStatistics {
        pieces: 0,
        piece_bytes: 0,
        gaps: 0,
        longest_gap: 0,
    };
    for slot in slots {
        if let Some(block) = slot {
            counted = counted.together(block.sub.statistics());
        }
    }
    counted
}
