//! A block whose pieces are bound to numbers of the caller's.

ghost use Rattle.std.specs.Prelude.{◌≡◌, ◌≢◌, ℕ, ◌<◌, IsTrue, None, true};
ghost use Rattle.std.specs.Ordering.{nat_cmp};
ghost use Rattle.std.specs.Int.{is_power_of_two};
ghost use Rattle.std.specs.BTreeMap.{get};
ghost use Rattle.gpu_block_pieces.specs.Request.{request};
ghost use Rattle.gpu_block.specs.Block.{is_shared, HasPages, IsSoundBlock};
ghost use Rattle.gpu_block.specs.SubAllocator.{block_of};
ghost use Rattle.gpu_block_session.specs.BlockSession.{Allocating};

use crate::block::{Command, Kind, Reply, Report};
use crate::{ErrorNumber, Serve, number_of};
use gpu_block::{FreeListAllocator, SubAllocator};
use gpu_values::AllocationType;
use log::Log;
use std::alloc::Global;
use std::collections::BTreeMap;
use std::collections::btree_map::Entry;
use std::marker::Model;
use std::num::NonZeroU64;

/// What is asked of a block, but for the name. Sizes are bytes.
#[derive(Clone, Copy)]
struct Wanted {
    size: u64,
    alignment: u64,
    kind: AllocationType,
    granularity: u64,
}

/// A block whose pieces are bound to numbers of the caller's. It gives back its own pieces alone, so giving back
/// always succeeds.
#[derive(Drop)]
pub struct BlockSession {
    size: u64,
    granularity: u64,
    block: SubAllocator,
    bound: BTreeMap<u64, NonZeroU64>,
}

impl Model for BlockSession {
    ghost use Rattle.std.specs.Prelude.{◌≡◌};
    ghost use Rattle.gpu_block_session.specs.BlockSession.{State, OwnsPieces};
    ghost use Rattle.gpu_block.specs.Block.{size_of, HasPages};
    ghost use Rattle.gpu_block.specs.SubAllocator.{block_of};

    ghost Value = { State };

    ghost view = { λ s. record { block = block_of s.block; bound = s.bound.entries } };

    ghost invariant = { λ s. (size_of (block_of s.block) ≡ s.size)
        × HasPages (block_of s.block) s.granularity
        × OwnsPieces (record { block = block_of s.block; bound = s.bound.entries }) };
}

impl Serve for BlockSession {
    ghost use Rattle.gpu_block_session.specs.BlockSession.{SessionServes};

    type Command = Command;

    type Reply = Reply;

    ghost serves = { SessionServes };

    /// The block is there, so it isn't made again: the reply is `Busy`.
    fn serve<L: Log>(&mut self, _log: &L, command: &Command) -> Reply {
        match command {
            Command::Block { .. } => Reply::Busy,
            Command::Allocate {
                key,
                size,
                alignment,
                kind,
                name,
            } => self.allocate(*key, *size, *alignment, *kind, name.as_str()),
            Command::Free { key } => self.free(*key),
            Command::Report => self.report(),
        }
    }
}

impl BlockSession {
    ghost use Rattle.std.specs.Prelude.{◌≡◌, ◌<◌, IsTrue, IfOk, IfErr, OnErr, length};
    ghost use Rattle.gpu_block.specs.Block.{HasPages};
    ghost use Rattle.gpu_block.specs.SubAllocator.{block_of};
    ghost use Rattle.std.specs.Int.{is_power_of_two};
    ghost use Rattle.gpu_block_pieces.specs.Request.{request};
    ghost use Rattle.gpu_values.specs.declared.error.AllocationError.TheVariants.{HostOutOfMemory};
    ghost use Rattle.gpu_block_session.specs.BlockCommand.{type_of_kind};
    ghost use Rattle.gpu_block_session.specs.BlockSession.{unused, Allocating, Freeing, Reporting, SessionServes};
    ghost use Rattle.gpu_block_session.specs.CommandList.{IsRun};

    /// A block of `size` bytes without pieces. The only refusal is `HostOutOfMemory`.
    pub fn new(alloc: Global, size: u64, granularity: u64) -> gpu_values::Result<BlockSession>
        requires sized { 0 < size }
        requires paged { IsTrue (is_power_of_two granularity) }
        ensures fresh { IfOk result (λ s. s ≡ unused size granularity) }
        ensures cause { IfErr result (λ e. e ≡ HostOutOfMemory) }
    {
        Ok(BlockSession {
            size,
            granularity,
            block: SubAllocator::FreeList(FreeListAllocator::new(alloc, size, granularity)?),
            bound: BTreeMap::new(alloc),
        })
    }

    /// Allocates a piece under the caller's number.
    pub fn allocate(&mut self, key: u64, size: u64, alignment: u64, kind: Kind, name: &str) -> Reply
        ensures { Allocating self.old key (request size alignment (type_of_kind kind) name.now)
            result self.new }
    {
        if self.bound.contains_key(&key) {
            return Reply::Busy;
        }
        if size == 0 || !alignment.is_power_of_two() {
            return Reply::Refused(ErrorNumber::E4);
        }
        let wanted = Wanted {
            size,
            alignment,
            kind: kind.allocation_type(),
            granularity: self.granularity,
        };
        allocate_unbound(&mut self.block, &mut self.bound, key, wanted, name)
    }

    /// Gives back the piece that the caller's number stands for. It takes no memory.
    pub fn free(&mut self, key: u64) -> Reply
        ensures { Freeing self.old key result self.new }
    {
        match self.bound.remove(&key) {
            Some(chunk) => {
                self.block.free(Some(chunk)).unwrap();
                Reply::Freed
            }
            None => Reply::Unbound,
        }
    }

    /// The block.
    pub fn block(&self) -> &SubAllocator
        ensures { block_of result.now ≡ self.now.block }
    {
        &self.block
    }

    /// The page size of the block in bytes.
    pub fn granularity(&self) -> u64
        ensures { HasPages self.now.block result }
    {
        self.granularity
    }

    /// Serves commands one after another, and answers a reply for each. Room for all replies is made first: where it is refused,
    /// the answer is `HostOutOfMemory` and nothing has run.
    pub fn run<L: Log>(
        &mut self,
        alloc: Global,
        log: &L,
        commands: &[Command],
    ) -> gpu_values::Result<Vec<Reply>>
        ensures run { IfOk result (λ replies. IsRun SessionServes commands.now replies.items self.old
            self.new) }
        ensures count { IfOk result (λ replies. length replies.items ≡ length commands.now) }
        ensures nothing { OnErr result (self.new ≡ self.old) }
        ensures cause { IfErr result (λ e. e ≡ HostOutOfMemory) }
    {
        crate::run(alloc, self, log, commands)
    }

    /// The live pieces, and the sums.
    pub fn report(&self) -> Reply
        ensures { Reporting self.now result }
    {
        let Ok(pieces) = self.block.report_allocations() else {
            return Reply::Refused(ErrorNumber::E10);
        };
        Reply::Report(Report {
            pieces,
            total: self.block.allocated(),
            capacity: self.size,
        })
    }
}

/// Allocates a piece, and binds the key, which stands for none, to it. Room for the key is made first.
fn allocate_unbound(
    block: &mut SubAllocator,
    bound: &mut BTreeMap<u64, NonZeroU64>,
    key: u64,
    wanted: Wanted,
    name: &str,
) -> Reply
    requires sized { 0 < wanted.size }
    requires aligned { IsTrue (is_power_of_two wanted.alignment) }
    requires piece { wanted.kind ≢ AllocationType.Free }
    requires paged { HasPages (block_of block.old) wanted.granularity }
    requires shared { is_shared (block_of block.old) ≡ true }
    requires unbound { get nat_cmp bound.old key ≡ None }
    ensures taking { Allocating (record { block = block_of block.old; bound = bound.old.entries })
        key (request wanted.size wanted.alignment wanted.kind name.now) result
        (record { block = block_of block.new; bound = bound.new.entries }) }
    ensures sound { IsSoundBlock (block_of block.old) → IsSoundBlock (block_of block.new) }
    ensures pages { (g : ℕ) → HasPages (block_of block.old) g → HasPages (block_of block.new) g }
{
    match bound.entry(key) {
        Err(_) => Reply::Refused(ErrorNumber::E10),
        Ok(Entry::Occupied(_)) => unreachable!(),
        Ok(Entry::Vacant(place)) => {
            let Wanted {
                size,
                alignment,
                kind,
                granularity,
            } = wanted;
            match block.allocate(size, alignment, kind, granularity, name) {
                Ok((offset, chunk)) => {
                    place.insert(chunk);
                    Reply::Allocated { offset, chunk }
                }
                Err(error) => Reply::Refused(number_of(&error)),
            }
        }
    }
}
