//! How far a block trace has come.

ghost use Rattle.std.specs.Prelude.{◌≡◌, ◌<◌, IsTrue};
ghost use Rattle.std.specs.Int.{is_power_of_two};
ghost use Rattle.gpu_block_session.specs.BlockStage.{block_size};

use crate::ErrorNumber;
use crate::block::{BlockSession, Command, Reply, Side};
use gpu_values::AllocationSizes;
use std::alloc::Global;

/// How far a block trace has come.
#[derive(Drop)]
pub enum BlockStage {
    /// No block was asked for yet.
    Before,
    Open(BlockSession),
    /// Host memory for the block was refused.
    Closed,
}

impl BlockStage {
    ghost use Rattle.std.specs.Prelude.{MatchOption};
    ghost use Rattle.gpu_block_session.specs.BlockWords.{CommandFits};
    ghost use Rattle.gpu_block_session.specs.BlockSort.{sort_of_command};
    ghost use Rattle.gpu_block_session.specs.BlockStage.{Admits, Step, Opening};

    /// Serves a command, or answers `None` to one that is out of its order.
    pub fn serve(&mut self, alloc: Global, command: &Command) -> Option<Reply>
        requires { CommandFits command.now }
        ensures { MatchOption result (Admits self.old (sort_of_command command.now) → ⊥)
            (λ r. Step self.old command.now r self.new) }
    {
        match self {
            BlockStage::Before => match command {
                Command::Block {
                    side,
                    min,
                    max,
                    count,
                    granularity,
                } => {
                    let size = block_size(*side, *min, *max, *count);
                    Some(self.open(alloc, size, *granularity))
                }
                Command::Allocate { .. } | Command::Free { .. } | Command::Report => None,
            },
            BlockStage::Open(session) => match command {
                Command::Block { .. } => None,
                Command::Allocate {
                    key,
                    size,
                    alignment,
                    kind,
                    name,
                } => Some(session.allocate(*key, *size, *alignment, *kind, name.as_str())),
                Command::Free { key } => Some(session.free(*key)),
                Command::Report => Some(session.report()),
            },
            BlockStage::Closed => None,
        }
    }

    /// Makes the block that a trace begins with.
    fn open(&mut self, alloc: Global, size: u64, granularity: u64) -> Reply
        requires sized { 0 < size }
        requires paged { IsTrue (is_power_of_two granularity) }
        ensures { Opening size granularity result self.new }
    {
        match BlockSession::new(alloc, size, granularity) {
            Ok(session) => {
                *self = BlockStage::Open(session);
                Reply::Block { size }
            }
            Err(_) => {
                *self = BlockStage::Closed;
                Reply::Refused(ErrorNumber::E10)
            }
        }
    }
}

/// The size of the block that a trace asks for, in bytes.
fn block_size(side: Side, min: u64, max: u64, count: u64) -> u64
    ensures size { result ≡ block_size side min max count }
    ensures some { 0 < result }
{
    let sizes = AllocationSizes::new(min, min);
    let sizes = match side {
        Side::Device => sizes.with_max_device_memblock_size(max),
        Side::Host => sizes.with_max_host_memblock_size(max),
    };
    sizes.memblock_size(side.is_host(), count as usize)
}
