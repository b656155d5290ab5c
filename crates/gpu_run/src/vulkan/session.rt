//! Sessions.

ghost use Rattle.std.specs.Prelude.{◌≡◌, ◌≢◌, ◌≤◌, ◌+◌, [], length, map, nat_le, None, IfOk, IfErr, OnErr};
ghost use Rattle.gpu_values.specs.declared.error.AllocationError.TheVariants.{HostOutOfMemory};
ghost use Rattle.gpu_pool.specs.Handles.{all_handles};
ghost use Rattle.gpu_vulkan.specs.BlockAnswer.{frees_recorded};
ghost use Rattle.gpu_vulkan.specs.Blocks.{HoldsJustLiveBlocks};
ghost use Rattle.gpu_run.specs.VulkanCommand as commands;
ghost use Rattle.gpu_run.specs.VulkanReply as replies;
ghost use Rattle.gpu_run.specs.VulkanCommand.{Wanted, Describes, Alloc, Move, Null, Free, Rename, Write, Read, Under};
ghost use Rattle.gpu_run.specs.VulkanSession.{IsOwn, SessionInvariant, overwritten};
ghost use Rattle.gpu_run.specs.VulkanServed.{session_of, command_of, other_of, reply_of, shown_allocation, IsCommandServed, IsRun, ServesEach};

use crate::vulkan::command::describe;
use crate::vulkan::{Allocated, Command, Other, Reply};
use crate::{Serve, bind};
use gpu_device::vulkan::VulkanDevice;
use gpu_values::{AllocationError, Result};
use gpu_vulkan::{Allocation, AllocationCreateDesc, Allocator};
use log::Log;
use std::alloc::Global;
use std::collections::HashMap;
use std::marker::Model;

/// An allocator, and the allocations that stand under the caller's numbers: its own alone, so giving one back always
/// succeeds. It must be spent by `destroy`.
pub struct Session<D: VulkanDevice> {
    allocator: Allocator<D>,
    bound: HashMap<u64, Allocation>,
    alloc: Global,
}

impl<D: VulkanDevice> Model for Session<D> {
    ghost use Rattle.gpu_run.specs.VulkanSession.{IsOwn};
    ghost use Rattle.gpu_run.specs.VulkanServed.{SessionValue, session_of};

    ghost Value = { SessionValue D };

    ghost view = { λ s. record { allocator = s.allocator; bound = s.bound.entries } };

    ghost invariant = { λ s. IsOwn (session_of D.VulkanDevice
        (record { allocator = s.allocator; bound = s.bound.entries })) };
}

impl<D: VulkanDevice> Serve for Session<D> {
    ghost use Rattle.gpu_run.specs.VulkanServed.{ServesCommand};

    type Command = Command;

    type Reply = Reply;

    ghost serves = { ServesCommand D.VulkanDevice };

    fn serve<L: Log>(&mut self, log: &L, command: &Command) -> Reply {
        let reply = Session::serve(self, log, command);
        self.numbers_own_their_pieces();
        reply
    }
}

impl<D: VulkanDevice> Session<D> {
    /// A session in which no number stands for anything. What the allocator has given before stays live.
    pub fn new(alloc: Global, allocator: Allocator<D>) -> Session<D>
        ensures allocator { result.allocator ≡ allocator }
        ensures free { result.bound ≡ [] }
    {
        Session {
            allocator,
            bound: HashMap::new(alloc),
            alloc,
        }
    }

    /// Serves commands one after another, and answers a reply for each. Room for all replies is made first: where it is
    /// refused, the answer is `HostOutOfMemory` and nothing has run. Any later lack of memory is the reply of its command,
    /// which changed nothing but what the device counts of questions that it was asked before.
    #[tactic(auto, using(crate::proofs::VulkanServing::run_served, crate::proofs::VulkanServing::each_served))]
    pub fn run<L: Log>(&mut self, log: &L, commands: &[Command]) -> Result<Vec<Reply>>
        ensures run { IfOk result (λ replies. IsRun D.VulkanDevice (map command_of commands.now)
            (map reply_of replies.items) self.old self.new) }
        ensures each { IfOk result (λ replies. ServesEach D.VulkanDevice
            (map command_of commands.now) (map reply_of replies.items) self.old self.new) }
        ensures count { IfOk result (λ replies. length replies.items ≡ length commands.now) }
        ensures nothing { OnErr result (self.new ≡ self.old) }
        ensures cause { IfErr result (λ e. e ≡ HostOutOfMemory) }
        ensures holds { HoldsJustLiveBlocks self.new.allocator.setup.properties
            (D.held self.new.allocator.first) (D.held self.new.allocator.device)
            self.new.allocator.slots }
    {
        let replies = crate::run(self.alloc, self, log, commands);
        let _ = self.allocator.device();
        replies
    }

    /// The device, lent. It holds what it held when the allocator was made, and just the live blocks.
    pub fn device(&self) -> &D
        ensures lent { result.now ≡ self.now.allocator.device }
        ensures holds { HoldsJustLiveBlocks self.now.allocator.setup.properties
            (D.held self.now.allocator.first) (D.held self.now.allocator.device)
            self.now.allocator.slots }
    {
        self.allocator.device()
    }

    /// The allocator, lent to be looked at.
    pub fn allocator(&self) -> &Allocator<D>
        ensures { result.now ≡ self.now.allocator }
    {
        &self.allocator
    }

    /// At any time the blocks are sound, each number stands for a live allocation or a null one, and no two for one piece: the
    /// state from which the laws of sessions speak. It does nothing.
    #[tactic(auto, using(crate::proofs::VulkanServing::kept_at))]
    pub fn numbers_own_their_pieces(&self)
        ensures { SessionInvariant self.now.allocator.setup (session_of D.VulkanDevice self.now) }
    {
        self.allocator.allocations_are_apart();
    }

    /// Gives every block back, and returns the device, which then holds what it held when the allocator was made.
    pub fn destroy<L: Log>(self, log: &L) -> D
        ensures held { D.held result ≡ D.held self.allocator.first }
        ensures counts_nothing { D.refused result ≡ D.refused self.allocator.device }
        ensures names_no_question { D.latest result ≡ D.latest self.allocator.device }
        // each memory goes back once, unmapped before where it is mapped: by memory type, then by slot
        ensures recorded { D.history result
            ≡ frees_recorded (D.held self.allocator.device) (all_handles self.allocator.slots)
            (D.history self.allocator.device) }
        ensures constant { D.properties result ≡ D.properties self.allocator.first }
    {
        let Session {
            allocator,
            bound: _,
            alloc: _,
        } = self;
        allocator.destroy(log)
    }

    /// Serves one command. For lack of memory it answers `Error(HostOutOfMemory)`, and then the command changed nothing but
    /// what the device counts of questions that it was asked before.
    pub fn serve<L: Log>(&mut self, log: &L, command: &Command) -> Reply
        ensures { IsCommandServed D.VulkanDevice (command_of command.now) (reply_of result) self.old
            self.new }
    {
        match command {
            Command::Alloc { key, request } => self.allocate(log, *key, &describe(request)),
            Command::Move { key, to, request } => self.propose_move(*key, *to, &describe(request)),
            Command::Free { key } => self.free(log, *key),
            Command::Report => self.report(),
            Command::Capacity => Reply::Capacity(self.allocator.capacity()),
            Command::SetBudget {
                memory_type,
                budget,
            } => self.set_budget(*memory_type, *budget),
            Command::Other(other) => self.serve_other(other),
        }
    }

    fn serve_other(&mut self, other: &Other) -> Reply
        ensures { IsCommandServed D.VulkanDevice (other_of other.now) (reply_of result)
            self.old self.new }
    {
        match other {
            Other::Null { key } => self.bind_null(*key),
            Other::Rename { key, name } => self.rename(*key, name.as_str()),
            Other::Write { key, at, bytes } => self.write(*key, *at, bytes),
            Other::Read { key, at, size } => self.read(*key, *at, *size),
            Other::Leaks => self.leaks(),
        }
    }

    /// Room for the number is made before the allocator is asked.
    fn allocate<L: Log>(&mut self, log: &L, key: u64, desc: &AllocationCreateDesc) -> Reply
        ensures { (w : Wanted) → Describes desc.now w
            → IsCommandServed D.VulkanDevice (Under key (Alloc w)) (reply_of result) self.old self.new }
    {
        if self.bound.contains_key(&key) {
            return Reply::Busy;
        }
        if self.bound.reserve(1).is_err() {
            return Reply::Error(AllocationError::HostOutOfMemory);
        }
        match self.allocator.allocate(log, desc) {
            Err(error) => Reply::Error(error),
            Ok(allocation) => {
                let given = allocated(&allocation);
                bind(&mut self.bound, key, allocation);
                given
            }
        }
    }

    /// Room for the second number is made before the allocator is asked.
    fn propose_move(&mut self, key: u64, to: u64, desc: &AllocationCreateDesc) -> Reply
        ensures { (w : Wanted) → Describes desc.now w
            → IsCommandServed D.VulkanDevice (Under key (Move to w)) (reply_of result) self.old self.new }
    {
        if !self.bound.contains_key(&key) {
            return Reply::Unbound;
        }
        if self.bound.contains_key(&to) {
            return Reply::Busy;
        }
        if self.bound.reserve(1).is_err() {
            return Reply::Error(AllocationError::HostOutOfMemory);
        }
        let Some(from) = self.bound.get(&key) else {
            unreachable!()
        };
        match self.allocator.propose_move(from, desc) {
            Err(error) => Reply::Error(error),
            Ok(None) => Reply::NoPlace,
            Ok(Some(second)) => {
                let given = allocated(&second);
                bind(&mut self.bound, to, second);
                given
            }
        }
    }

    fn bind_null(&mut self, key: u64) -> Reply
        ensures { IsCommandServed D.VulkanDevice (Under key Null) (reply_of result) self.old self.new }
    {
        if self.bound.contains_key(&key) {
            return Reply::Busy;
        }
        if self.bound.reserve(1).is_err() {
            return Reply::Error(AllocationError::HostOutOfMemory);
        }
        bind(&mut self.bound, key, Allocation::default());
        Reply::Done
    }

    fn free<L: Log>(&mut self, log: &L, key: u64) -> Reply
        ensures { IsCommandServed D.VulkanDevice (Under key Free) (reply_of result) self.old self.new }
    {
        match self.bound.remove(&key) {
            None => Reply::Unbound,
            Some(allocation) => match self.allocator.free(log, allocation) {
                Ok(()) => Reply::Done,
                Err(_) => unreachable!(),
            },
        }
    }

    fn rename(&mut self, key: u64, name: &str) -> Reply
        ensures { IsCommandServed D.VulkanDevice (Under key (Rename name.now)) (reply_of result) self.old
            self.new }
    {
        match self.bound.get_mut(&key) {
            None => Reply::Unbound,
            Some(allocation) => match self.allocator.rename_allocation(allocation, name) {
                Ok(()) => Reply::Done,
                Err(error) => Reply::Error(error),
            },
        }
    }

    fn write(&mut self, key: u64, at: u64, bytes: &[u8]) -> Reply
        ensures { IsCommandServed D.VulkanDevice (Under key (Write at bytes.now)) (reply_of result)
            self.old self.new }
    {
        let Some(allocation) = self.bound.get(&key) else {
            return Reply::Unbound;
        };
        let Some(old) = self.allocator.mapped_slice(allocation) else {
            return Reply::Unmapped;
        };
        if !fits(at, bytes.len() as u64, old.len() as u64) {
            return Reply::OutOfRange;
        }
        put(self.allocator.slice_mut(allocation), at as usize, bytes);
        Reply::Done
    }

    fn read(&mut self, key: u64, at: u64, size: u64) -> Reply
        ensures { IsCommandServed D.VulkanDevice (Under key (Read at size)) (reply_of result) self.old
            self.new }
    {
        let Some(allocation) = self.bound.get(&key) else {
            return Reply::Unbound;
        };
        let Some(bytes) = self.allocator.mapped_slice(allocation) else {
            return Reply::Unmapped;
        };
        if !fits(at, size, bytes.len() as u64) {
            return Reply::OutOfRange;
        }
        let start = at as usize;
        match Vec::from_slice(self.alloc, &bytes[start..start + size as usize]) {
            Ok(copy) => Reply::Bytes(copy),
            Err(_) => Reply::Error(AllocationError::HostOutOfMemory),
        }
    }

    fn set_budget(&mut self, memory_type: u64, budget: Option<u64>) -> Reply
        ensures { IsCommandServed D.VulkanDevice (commands.SetBudget memory_type budget) (reply_of result)
            self.old self.new }
    {
        match self.allocator.set_budget(memory_type as usize, budget) {
            Ok(()) => Reply::Done,
            Err(error) => Reply::Error(error),
        }
    }

    fn report(&self) -> Reply
        ensures { IsCommandServed D.VulkanDevice commands.Report (reply_of result) self.now self.now }
    {
        match self.allocator.generate_report() {
            Ok(report) => Reply::Report(report),
            Err(error) => Reply::Error(error),
        }
    }

    fn leaks(&self) -> Reply
        ensures { IsCommandServed D.VulkanDevice commands.Leaks (reply_of result) self.now self.now }
    {
        match self.allocator.leak_texts() {
            Ok(texts) => Reply::Leaks(texts),
            Err(error) => Reply::Error(error),
        }
    }
}

/// Whether `size` bytes from `at` on end in `whole` bytes.
fn fits(at: u64, size: u64, whole: u64) -> bool
    ensures { result ≡ nat_le (at + size) whole }
{
    at <= whole && size <= whole - at
}

/// Writes bytes over those from `at` on.
fn put(target: &mut [u8], at: usize, bytes: &[u8])
    requires { at + length bytes.now ≤ length target.old }
    ensures { target.new ≡ overwritten target.old at bytes.now }
{
    target[at..at + bytes.len()].copy_from_slice(bytes);
}

/// What is told of a new allocation.
fn allocated(allocation: &Allocation) -> Reply
    requires { allocation.now.chunk_id ≢ None }
    ensures { reply_of result ≡ replies.Allocated (shown_allocation allocation.now) }
{
    let Some(chunk) = allocation.chunk_id() else {
        unreachable!()
    };
    Reply::Allocated(Allocated {
        memory_type: allocation.memory_type_index(),
        slot: allocation.memory_block_index(),
        offset: allocation.offset(),
        size: allocation.size(),
        chunk,
        dedicated: allocation.is_dedicated(),
        mapped: allocation.is_mapped(),
    })
}
