//! Sessions.

ghost use Rattle.std.specs.Prelude.{◌≡◌, [], length, IfOk, IfErr, OnErr, option_copied};
ghost use Rattle.std.specs.Option.{option_map};
ghost use Rattle.gpu_values.specs.declared.error.AllocationError.TheVariants.{HostOutOfMemory};
ghost use Rattle.gpu_d3d12.specs.DeviceVersion.{device_of, with_device};
ghost use Rattle.gpu_d3d12.specs.Blocks.{HoldsJustLiveBlocks, AsksNothing, releases_recorded};
ghost use Rattle.gpu_d3d12.specs.Journal.{IsFirstAndOut};
ghost use Rattle.gpu_pool.specs.Allocation.{piece_of};
ghost use Rattle.gpu_d3d12.specs.State.{basis_of, beside_of};
ghost use Rattle.gpu_pool.specs.Handles.{all_handles};
ghost use Rattle.gpu_block_session.specs.CommandList.{IsRun};
ghost use Rattle.gpu_run.specs.D3D12Command as commands;
ghost use Rattle.gpu_run.specs.D3D12Command.{Alloc, Move, Free, Rename, Create, Release, Under, UnderResource, command_of, other_of};
ghost use Rattle.gpu_run.specs.D3D12Describe.{Wanted, AsksFor, AsksForResource};
ghost use Rattle.gpu_run.specs.D3D12Reply as replies;
ghost use Rattle.gpu_run.specs.D3D12Reply.{reply_of};
ghost use Rattle.gpu_run.specs.Shown.{shown, shown_of};
ghost use Rattle.gpu_run.specs.D3D12Session.{SessionInvariant};
ghost use Rattle.gpu_run.specs.D3D12Served.{session_of, IsConstant, IsAnswered, ServesCommand};
ghost use Rattle.gpu_run.specs.declared.d3d12.command.WantedResource.{WantedResource};

use crate::allocated::told;
use crate::d3d12::command::{Command, Other, WantedResource};
use crate::d3d12::describe::{describe, describe_piece, resource_type};
use crate::d3d12::reply::{Made, Reply};
use crate::{Serve, bind};
use gpu_d3d12::{
    Allocation, AllocationCreateDesc, Allocator, ID3D12DeviceVersion, Resource, ResourceCreateDesc,
};
use gpu_device::d3d12::D3D12Device;
use gpu_values::{AllocationError, Result};
use log::Log;
use std::alloc::Global;
use std::collections::HashMap;
use std::marker::Model;

/// An allocator, and the allocations and resources that stand under the caller's numbers: its own alone, so giving one back
/// always succeeds. It must be spent by `destroy`.
pub struct Session<D: D3D12Device> {
    allocator: Allocator<D>,
    bound: HashMap<u64, Allocation>,
    resources: HashMap<u64, Resource>,
    alloc: Global,
}

impl<D: D3D12Device> Model for Session<D> {
    ghost use Rattle.gpu_run.specs.D3D12Session.{IsOwn};
    ghost use Rattle.gpu_run.specs.D3D12Served.{SessionValue, session_of};

    ghost Value = { SessionValue D };

    ghost view = { λ s. record {
      allocator = s.allocator;
      bound = s.bound.entries;
      resources =
          s.resources.entries;
    } };

    ghost invariant = { λ s. IsOwn (session_of D.D3D12Device
        (record {
          allocator = s.allocator;
          bound = s.bound.entries;
          resources =
              s.resources.entries;
        })) };
}

impl<D: D3D12Device> Serve for Session<D> {
    ghost use Rattle.gpu_run.specs.D3D12Served.{ServesCommand};

    type Command = Command;

    type Reply = Reply;

    ghost serves = { ServesCommand D.D3D12Device };

    fn serve<L: Log>(&mut self, log: &L, command: &Command) -> Reply {
        let _ = self.device();
        let reply = self.answer(log, command);
        let _ = self.device();
        self.numbers_own_their_pieces();
        reply
    }
}

impl<D: D3D12Device> Session<D> {
    /// A session in which no number stands for anything. What the allocator has allocated and made before stays live.
    pub fn new(alloc: Global, allocator: Allocator<D>) -> Session<D>
        ensures allocator { result.allocator ≡ allocator }
        ensures free { result.bound ≡ [] }
        ensures no_resources { result.resources ≡ [] }
    {
        Session {
            allocator,
            bound: HashMap::new(alloc),
            resources: HashMap::new(alloc),
            alloc,
        }
    }

    /// Serves commands one after another, and answers a reply for each. Room for all replies is made first: where it is
    /// refused, the answer is `HostOutOfMemory` and nothing has run. Any later lack of memory is the reply of its command,
    /// which changed nothing but what the device counts of questions that it was asked before.
    pub fn run<L: Log>(&mut self, log: &L, commands: &[Command]) -> Result<Vec<Reply>>
        ensures run { IfOk result (λ replies. IsRun (ServesCommand D.D3D12Device) commands.now
            replies.items self.old self.new) }
        ensures count { IfOk result (λ replies. length replies.items ≡ length commands.now) }
        ensures constant { IsConstant D.D3D12Device self.old self.new }
        ensures basis { basis_of D.D3D12Device self.new.allocator
            ≡ basis_of D.D3D12Device self.old.allocator }
        ensures nothing { OnErr result (self.new ≡ self.old) }
        ensures cause { IfErr result (λ e. e ≡ HostOutOfMemory) }
    {
        crate::run(self.alloc, self, log, commands)
    }

    /// The device, lent. It holds one heap for each live block, and beside these what it held when it was handed in, the resources
    /// that were never given back, and nothing else.
    pub fn device(&self) -> &ID3D12DeviceVersion<D>
        ensures lent { result.now ≡ self.now.allocator.device }
        ensures holds { HoldsJustLiveBlocks self.now.allocator.setup.tier
            (beside_of D.D3D12Device self.now.allocator)
            (D.held (device_of self.now.allocator.device)) self.now.allocator.slots }
        ensures beside { IsFirstAndOut (D.held (device_of self.now.allocator.first))
            (beside_of D.D3D12Device self.now.allocator) self.now.allocator.journal }
        ensures constant { D.properties (device_of self.now.allocator.device)
            ≡ D.properties (device_of self.now.allocator.first) }
    {
        self.allocator.device()
    }

    /// The allocator, lent to be looked at.
    pub fn allocator(&self) -> &Allocator<D>
        ensures { result.now ≡ self.now.allocator }
    {
        &self.allocator
    }

    /// At any time the blocks are sound, each number stands for a live allocation or resource, and no two for one piece or one
    /// resource. It does nothing.
    pub fn numbers_own_their_pieces(&self)
        ensures { SessionInvariant (session_of D.D3D12Device self.now) }
    {
        self.allocator.allocations_are_apart();
    }

    /// Gives every block back, and returns the device, which then holds what it held when it was handed in, the resources that
    /// were never released, and nothing else: release placed ones before, for their heaps go.
    pub fn destroy<L: Log>(self, log: &L) -> ID3D12DeviceVersion<D>
        ensures held { D.held (device_of result) ≡ beside_of D.D3D12Device self.allocator }
        ensures left { IsFirstAndOut (D.held (device_of self.allocator.first))
            (D.held (device_of result)) self.allocator.journal }
        ensures asks_nothing { AsksNothing D.D3D12Device (device_of self.allocator.device)
            (device_of result) }
        // each heap goes back once: by memory type, then by slot
        ensures recorded { D.history (device_of result)
            ≡ releases_recorded (all_handles self.allocator.slots)
            (D.history (device_of self.allocator.device)) }
        ensures version { result ≡ with_device self.allocator.first (device_of result) }
    {
        let Session {
            allocator,
            bound: _,
            resources: _,
            alloc: _,
        } = self;
        allocator.destroy(log)
    }

    /// Serves one command.
    fn answer<L: Log>(&mut self, log: &L, command: &Command) -> Reply
        ensures { IsAnswered D.D3D12Device (command_of command.now) (reply_of result) self.old
            self.new }
    {
        match command {
            Command::Alloc { key, request } => self.allocate(log, *key, &describe_piece(request)),
            Command::Move { key, to, request } => {
                self.propose_move(*key, *to, &describe_piece(request))
            }
            Command::Free { key } => self.free(log, *key),
            Command::Report => self.report(),
            Command::Capacity => self.capacity(),
            Command::SetBudget {
                memory_type,
                budget,
            } => self.set_budget(*memory_type, *budget),
            Command::Other(other) => self.answer_other(log, other),
        }
    }

    fn answer_other<L: Log>(&mut self, log: &L, other: &Other) -> Reply
        ensures { IsAnswered D.D3D12Device (other_of other.now) (reply_of result)
            self.old self.new }
    {
        match other {
            Other::Rename { key, name } => self.rename(*key, name.as_str()),
            Other::Create { key, wanted } => {
                let memory = resource_type(&wanted.memory);
                self.create(log, *key, &describe(wanted, &memory))
            }
            Other::Release { key } => self.release(log, *key),
            Other::Leaks => self.leaks(),
            Other::Committed { memory_type } => self.committed(*memory_type),
        }
    }

    /// Room for the number is made before the allocator is asked.
    fn allocate<L: Log>(&mut self, log: &L, key: u64, desc: &AllocationCreateDesc) -> Reply
        ensures { (w : Wanted) → AsksFor w desc.now
            → IsAnswered D.D3D12Device (Under key (Alloc w)) (reply_of result) self.old self.new }
    {
        if self.bound.contains_key(&key) {
            return Reply::Busy;
        }
        if self.bound.reserve(1).is_err() {
            return Reply::Error(AllocationError::HostOutOfMemory);
        }
        match self.allocator.allocate(log, desc) {
            Err(error) => Reply::Error(error),
            Ok(allocation) => {
                let given = told(&allocation);
                bind(&mut self.bound, key, allocation);
                Reply::Allocated(given)
            }
        }
    }

    /// Room for the second number is made before the allocator is asked.
    fn propose_move(&mut self, key: u64, to: u64, desc: &AllocationCreateDesc) -> Reply
        ensures { (w : Wanted) → AsksFor w desc.now
            → IsAnswered D.D3D12Device (Under key (Move to w)) (reply_of result) self.old self.new }
    {
        if !self.bound.contains_key(&key) {
            return Reply::Unbound;
        }
        if self.bound.contains_key(&to) {
            return Reply::Busy;
        }
        if self.bound.reserve(1).is_err() {
            return Reply::Error(AllocationError::HostOutOfMemory);
        }
        let Some(from) = self.bound.get(&key) else {
            unreachable!()
        };
        match self.allocator.propose_move(from, desc) {
            Err(error) => Reply::Error(error),
            Ok(None) => Reply::NoPlace,
            Ok(Some(second)) => {
                let given = told(&second);
                bind(&mut self.bound, to, second);
                Reply::Allocated(given)
            }
        }
    }

    fn free<L: Log>(&mut self, log: &L, key: u64) -> Reply
        ensures { IsAnswered D.D3D12Device (Under key Free) (reply_of result) self.old self.new }
    {
        match self.bound.remove(&key) {
            None => Reply::Unbound,
            Some(allocation) => match self.allocator.free(log, allocation) {
                Ok(()) => Reply::Done,
                Err(_) => unreachable!(),
            },
        }
    }

    fn rename(&mut self, key: u64, name: &str) -> Reply
        ensures { IsAnswered D.D3D12Device (Under key (Rename name.now)) (reply_of result) self.old
            self.new }
    {
        match self.bound.get_mut(&key) {
            None => Reply::Unbound,
            Some(allocation) => match self.allocator.rename_allocation(allocation, name) {
                Ok(()) => Reply::Done,
                Err(error) => Reply::Error(error),
            },
        }
    }

    /// Room for the number is made before the allocator is asked.
    fn create<L: Log>(&mut self, log: &L, key: u64, desc: &ResourceCreateDesc) -> Reply
        ensures { (w : WantedResource) → AsksForResource w desc.now
            → IsAnswered D.D3D12Device (UnderResource key (Create w)) (reply_of result) self.old
            self.new }
    {
        if self.resources.contains_key(&key) {
            return Reply::Busy;
        }
        if self.resources.reserve(1).is_err() {
            return Reply::Error(AllocationError::HostOutOfMemory);
        }
        self.allocator.allocations_are_apart();
        match self.allocator.create_resource(log, desc) {
            Err(error) => Reply::Error(error),
            Ok(resource) => {
                let made = made(&resource);
                bind(&mut self.resources, key, resource);
                Reply::Made(made)
            }
        }
    }

    fn release<L: Log>(&mut self, log: &L, key: u64) -> Reply
        ensures { IsAnswered D.D3D12Device (UnderResource key Release) (reply_of result) self.old
            self.new }
    {
        match self.resources.remove(&key) {
            None => Reply::Unbound,
            Some(resource) => match self.allocator.free_resource(log, resource) {
                Ok(()) => Reply::Done,
                Err(_) => unreachable!(),
            },
        }
    }

    fn leaks(&self) -> Reply
        ensures { IsAnswered D.D3D12Device commands.Leaks (reply_of result) self.now self.now }
    {
        match self.allocator.leak_texts() {
            Ok(texts) => Reply::Leaks(texts),
            Err(error) => Reply::Error(error),
        }
    }

    fn report(&self) -> Reply
        ensures { IsAnswered D.D3D12Device commands.Report (reply_of result) self.now self.now }
    {
        match self.allocator.generate_report() {
            Ok(report) => Reply::Report(report),
            Err(error) => Reply::Error(error),
        }
    }

    fn capacity(&self) -> Reply
        ensures { IsAnswered D.D3D12Device commands.Capacity (reply_of result) self.now self.now }
    {
        Reply::Capacity(self.allocator.capacity())
    }

    fn committed(&self, memory_type: u64) -> Reply
        ensures { IsAnswered D.D3D12Device (commands.Committed memory_type) (reply_of result)
            self.now self.now }
    {
        Reply::Committed(self.allocator.committed(memory_type as usize))
    }

    fn set_budget(&mut self, memory_type: u64, budget: Option<u64>) -> Reply
        ensures { IsAnswered D.D3D12Device (commands.SetBudget memory_type budget) (reply_of result)
            self.old self.new }
    {
        match self.allocator.set_budget(memory_type as usize, budget) {
            Ok(()) => Reply::Done,
            Err(error) => Reply::Error(error),
        }
    }
}

/// What is told of a new resource.
fn made(resource: &Resource) -> Made
    ensures number { result.resource ≡ resource.now.resource }
    ensures size { result.size ≡ resource.now.size }
    ensures piece { option_map shown_of result.piece
        ≡ option_map (λ a. shown a.memory_type_index (piece_of a)) resource.now.allocation }
{
    Made {
        resource: *resource.resource(),
        size: resource.size(),
        piece: match resource.allocation() {
            None => None,
            Some(allocation) => Some(told(allocation)),
        },
    }
}
