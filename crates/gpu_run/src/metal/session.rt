//! Sessions.

ghost use Rattle.std.specs.Prelude.{◌≡◌, ℕ, List, [], length, IfOk, IfErr, OnErr, Some};
ghost use Rattle.gpu_values.specs.declared.error.AllocationError.TheVariants.{HostOutOfMemory};
ghost use Rattle.gpu_metal.specs.Blocks.{HoldsJustLiveBlocks, residency_of, left_behind};
ghost use Rattle.gpu_metal.specs.Residency.{ChangesHeld, releases_recorded};
ghost use Rattle.gpu_pool.specs.Handles.{all_handles};
ghost use Rattle.gpu_block_session.specs.CommandList.{IsRun};
ghost use Rattle.gpu_run.specs.MetalCommand as commands;
ghost use Rattle.gpu_run.specs.MetalDescribe.{Described, AsksFor};
ghost use Rattle.gpu_run.specs.MetalCommand.{Alloc, Move, Free, Under, command_of, other_of};
ghost use Rattle.gpu_run.specs.MetalReply.{reply_of};
ghost use Rattle.gpu_run.specs.MetalSession.{SessionInvariant};
ghost use Rattle.gpu_run.specs.MetalServed.{session_of, IsConstant, IsAnswered, ServesCommand};

use crate::allocated::told;
use crate::metal::command::{Command, Other};
use crate::metal::describe::{Wanted, describe, describe_piece, wanted_piece};
use crate::metal::reply::Reply;
use crate::{Serve, bind};
use gpu_device::metal::MetalDevice;
use gpu_metal::{Allocation, AllocationCreateDesc, Allocator};
use gpu_values::{AllocationError, Result};
use log::Log;
use std::alloc::Global;
use std::collections::HashMap;
use std::marker::Model;

/// An allocator, and the allocations that stand under the caller's numbers: its own alone, so freeing one always succeeds. It
/// must be spent by `destroy`.
pub struct Session<D: MetalDevice> {
    allocator: Allocator<D>,
    bound: HashMap<u64, Allocation>,
    alloc: Global,
}

impl<D: MetalDevice> Model for Session<D> {
    ghost use Rattle.gpu_run.specs.MetalSession.{IsOwn};
    ghost use Rattle.gpu_run.specs.MetalServed.{SessionValue, session_of};

    ghost Value = { SessionValue D };

    ghost view = { λ s. record { allocator = s.allocator; bound = s.bound.entries } };

    ghost invariant = { λ s. IsOwn (session_of D.MetalDevice
        (record { allocator = s.allocator; bound = s.bound.entries })) };
}

impl<D: MetalDevice> Serve for Session<D> {
    ghost use Rattle.gpu_run.specs.MetalServed.{ServesCommand};

    type Command = Command;

    type Reply = Reply;

    ghost serves = { ServesCommand D.MetalDevice };

    fn serve<L: Log>(&mut self, log: &L, command: &Command) -> Reply {
        let reply = self.answer(log, command);
        self.numbers_own_their_pieces();
        reply
    }
}

impl<D: MetalDevice> Session<D> {
    /// A session in which no number stands for anything. What the allocator has allocated before stays live.
    pub fn new(alloc: Global, allocator: Allocator<D>) -> Session<D>
        ensures allocator { result.allocator ≡ allocator }
        ensures free { result.bound ≡ [] }
    {
        Session {
            allocator,
            bound: HashMap::new(alloc),
            alloc,
        }
    }

    /// Serves commands one after another, and answers a reply for each. Room for all replies is made first: where it is
    /// refused, the answer is `HostOutOfMemory` and nothing has run. Any later lack of memory is the reply of its command,
    /// which changed nothing but what the device counts of questions that it was asked before.
    pub fn run<L: Log>(&mut self, log: &L, commands: &[Command]) -> Result<Vec<Reply>>
        ensures run { IfOk result (λ replies. IsRun (ServesCommand D.MetalDevice) commands.now
            replies.items self.old self.new) }
        ensures count { IfOk result (λ replies. length replies.items ≡ length commands.now) }
        ensures constant { IsConstant D.MetalDevice self.old self.new }
        ensures nothing { OnErr result (self.new ≡ self.old) }
        ensures cause { IfErr result (λ e. e ≡ HostOutOfMemory) }
    {
        crate::run(self.alloc, self, log, commands)
    }

    /// The device, lent. It holds what it held when the allocator was made, the residency set, where there is one, and just the
    /// live blocks.
    pub fn device(&self) -> &D
        ensures lent { result.now ≡ self.now.allocator.device }
        ensures holds { HoldsJustLiveBlocks self.now.allocator.setup.residency_set
            (D.held self.now.allocator.first) (D.held self.now.allocator.device)
            self.now.allocator.slots }
        ensures constant { D.properties self.now.allocator.device
            ≡ D.properties self.now.allocator.first }
    {
        self.allocator.device()
    }

    /// The allocator, lent to be looked at.
    pub fn allocator(&self) -> &Allocator<D>
        ensures { result.now ≡ self.now.allocator }
    {
        &self.allocator
    }

    /// At any time the blocks are sound, each number stands for a live allocation, and no two for one piece. It does nothing.
    #[tactic(auto, using(crate::proofs::MetalServing::kept_at))]
    pub fn numbers_own_their_pieces(&self)
        ensures { SessionInvariant (session_of D.MetalDevice self.now) }
    {
        self.allocator.allocations_are_apart();
    }

    /// Gives every block back, and returns the device, which then holds what it held when the allocator was made, and the
    /// residency set, where there is one, without members.
    pub fn destroy(self) -> D
        ensures held { D.held result ≡ left_behind (D.held self.allocator.first)
            self.allocator.setup.residency_set
            (residency_of (D.held self.allocator.device) self.allocator.setup.residency_set) }
        ensures asks_nothing { ChangesHeld D.MetalDevice self.allocator.device (D.held result)
            (releases_recorded self.allocator.setup.residency_set (all_handles self.allocator.slots)
            (D.history self.allocator.device)) result }
    {
        let Session {
            allocator,
            bound: _,
            alloc: _,
        } = self;
        allocator.destroy()
    }

    /// Serves one command.
    fn answer<L: Log>(&mut self, log: &L, command: &Command) -> Reply
        ensures { IsAnswered D.MetalDevice (command_of command.now) (reply_of result) self.old
            self.new }
    {
        match command {
            Command::Alloc { key, request } => {
                self.allocate(log, *key, wanted_piece(request), request.name.as_str())
            }
            Command::Move { key, to, request } => {
                self.propose_move(*key, *to, &describe_piece(request))
            }
            Command::Free { key } => self.free(log, *key),
            Command::Report => self.report(),
            Command::Capacity => self.capacity(),
            Command::SetBudget {
                memory_type,
                budget,
            } => self.set_budget(*memory_type, *budget),
            Command::Other(other) => self.answer_other(log, other),
        }
    }

    fn answer_other<L: Log>(&mut self, log: &L, other: &Other) -> Reply
        ensures { IsAnswered D.MetalDevice (other_of other.now) (reply_of result)
            self.old self.new }
    {
        match other {
            Other::Buffer {
                key,
                length,
                location,
                name,
            } => self.allocate(log, *key, Wanted::Buffer(*length, *location), name.as_str()),
            Other::AccelerationStructure {
                key,
                size,
                location,
                name,
            } => {
                let wanted = Wanted::AccelerationStructure(*size, *location);
                self.allocate(log, *key, wanted, name.as_str())
            }
            Other::Texture { key, texture, name } => {
                self.allocate(log, *key, Wanted::Texture(*texture), name.as_str())
            }
            Other::Heaps => self.heaps(),
            Other::Commit => self.commit(),
        }
    }

    /// Room for the number is made before the allocator is asked.
    fn allocate<L: Log>(&mut self, log: &L, key: u64, wanted: Wanted, name: &str) -> Reply
        ensures { IsAnswered D.MetalDevice (Under key (Alloc wanted name.now)) (reply_of result)
            self.old self.new }
    {
        if self.bound.contains_key(&key) {
            return Reply::Busy;
        }
        if self.bound.reserve(1).is_err() {
            return Reply::Error(AllocationError::HostOutOfMemory);
        }
        let desc = match describe(self.allocator.device(), wanted, name) {
            Ok(desc) => desc,
            Err(error) => return Reply::Error(error),
        };
        match self.allocator.allocate(log, &desc) {
            Err(error) => Reply::Error(error),
            Ok(allocation) => {
                let given = told(&allocation);
                bind(&mut self.bound, key, allocation);
                Reply::Allocated(given)
            }
        }
    }

    /// Room for the second number is made before the allocator is asked.
    fn propose_move(&mut self, key: u64, to: u64, desc: &AllocationCreateDesc) -> Reply
        ensures { (is : Described) (name : List ℕ) → AsksFor is name desc.now
            → IsAnswered D.MetalDevice (Under key (Move to is name)) (reply_of result) self.old
            self.new }
    {
        if !self.bound.contains_key(&key) {
            return Reply::Unbound;
        }
        if self.bound.contains_key(&to) {
            return Reply::Busy;
        }
        if self.bound.reserve(1).is_err() {
            return Reply::Error(AllocationError::HostOutOfMemory);
        }
        let Some(from) = self.bound.get(&key) else {
            unreachable!()
        };
        match self.allocator.propose_move(from, desc) {
            Err(error) => Reply::Error(error),
            Ok(None) => Reply::NoPlace,
            Ok(Some(second)) => {
                let given = told(&second);
                bind(&mut self.bound, to, second);
                Reply::Allocated(given)
            }
        }
    }

    fn free<L: Log>(&mut self, log: &L, key: u64) -> Reply
        ensures { IsAnswered D.MetalDevice (Under key Free) (reply_of result) self.old self.new }
    {
        match self.bound.remove(&key) {
            None => Reply::Unbound,
            Some(allocation) => match self.allocator.free(log, allocation) {
                Ok(()) => Reply::Done,
                Err(_) => unreachable!(),
            },
        }
    }

    fn heaps(&self) -> Reply
        ensures { IsAnswered D.MetalDevice commands.Heaps (reply_of result) self.now self.now }
    {
        match self.allocator.heaps().collect(self.alloc) {
            Ok(heaps) => Reply::Heaps(heaps),
            Err(_) => Reply::Error(AllocationError::HostOutOfMemory),
        }
    }

    fn commit(&mut self) -> Reply
        ensures { IsAnswered D.MetalDevice commands.Commit (reply_of result) self.old self.new }
    {
        self.allocator.commit_residency_set();
        Reply::Done
    }

    fn report(&self) -> Reply
        ensures { IsAnswered D.MetalDevice commands.Report (reply_of result) self.now self.now }
    {
        match self.allocator.generate_report() {
            Ok(report) => Reply::Report(report),
            Err(error) => Reply::Error(error),
        }
    }

    fn capacity(&self) -> Reply
        ensures { IsAnswered D.MetalDevice commands.Capacity (reply_of result) self.now self.now }
    {
        Reply::Capacity(self.allocator.capacity())
    }

    fn set_budget(&mut self, memory_type: u64, budget: Option<u64>) -> Reply
        ensures { IsAnswered D.MetalDevice (commands.SetBudget memory_type budget) (reply_of result)
            self.old self.new }
    {
        match self.allocator.set_budget(memory_type as usize, budget) {
            Ok(()) => Reply::Done,
            Err(error) => Reply::Error(error),
        }
    }
}
