//! Records of committed resources for a caller that asks the device itself: room for a record first, then the answer.

ghost use Rattle.std.specs.Prelude.{◌≡◌, ℕ, ◌↔◌, ◌<◌, ◌≤◌, ◌^◌, true, cond, length, All, [], IfOk, IfErr, OnOk, OnErr, IsTrue, IsSome, Some, None, vec_capacity};
ghost use Rattle.std.specs.List.{remove};
ghost use Rattle.gpu_values.specs.Refusal.{refusal_of, out_of_memory, host_out_of_memory};
ghost use Rattle.gpu_d3d12.specs.Committed.{total_size, fits, place_of, freed, statistics_at};
ghost use Rattle.gpu_d3d12.specs.CommittedRequests.{HasPlace, Begins, Makes, Declines, Forgets};

use crate::committed_record::{place_of, statistics_of, total_size};
use crate::{CommittedAllocationStatistics, CommittedRecord};
use gpu_device::d3d12::ID3D12Resource;
use gpu_pool::{answer_awaited, no_answer_awaited};
use gpu_values::{AllocationError, Result, internal_fault};
use std::alloc::{AllocError, Global};
use std::marker::Model;

/// A committed resource that is asked for, with room for its record at hand.
#[derive(Clone, Copy, Debug)]
pub struct AwaitedResource {
    /// Its memory type.
    pub memory_type: usize,
    /// Its size in bytes, as the device tells it.
    pub size: u64,
}

/// A committed resource, as its owner holds it.
#[derive(Clone, Copy, Debug)]
pub struct Committed {
    /// Its memory type.
    pub memory_type: usize,
    /// The device's number of it.
    pub resource: ID3D12Resource,
    /// Its size in bytes, as the device told it.
    pub size: u64,
}

/// Why a committed resource can't be forgotten.
fn not_committed() -> AllocationError
    ensures { refusal_of result ≡ freed }
{
    internal_fault("Resource was already freed.")
}

/// Makes room for one more record of this size in bytes. `OutOfMemory` where that would carry the sum past `u64::MAX`, else
/// `HostOutOfMemory`.
fn make_room(records: &mut Vec<CommittedRecord>, size: u64) -> Result<()>
    requires { total_size records.old.items < 2 ^ 64 }
    ensures items { records.new.items ≡ records.old.items }
    ensures kept { vec_capacity records.old ≤ vec_capacity records.new }
    ensures room { OnOk result (HasPlace size (records.new.items, vec_capacity records.new)) }
    ensures fits { OnOk result (fits records.old.items size ≡ true) }
    ensures cause { IfErr result (λ e. refusal_of e
        ≡ cond (fits records.old.items size) host_out_of_memory out_of_memory) }
{
    if size > u64::MAX - total_size(records) {
        return Err(AllocationError::OutOfMemory);
    }
    records.reserve(1)?;
    Ok(())
}

/// Removes the first record of this number and size, if there is one.
fn remove_record(records: &mut Vec<CommittedRecord>, made: CommittedRecord) -> Result<()>
    ensures gives { OnOk result ((place : ℕ) × (place_of records.old.items made ≡ Some place)
        × (records.new.items ≡ remove records.old.items place)) }
    ensures dead { OnErr result (place_of records.old.items made ≡ None) }
    ensures cause { IfErr result (λ e. refusal_of e ≡ freed) }
    ensures refused { OnErr result (records.new.items ≡ records.old.items) }
    ensures sum { total_size records.old.items < 2 ^ 64 → total_size records.new.items < 2 ^ 64 }
{
    let Some(place) = place_of(records, made) else {
        return Err(not_committed());
    };
    let _ = records.remove(place);
    Ok(())
}

/// The committed resources of each memory type, and the one that is asked for. A memory type's sizes have a sum of 64 bits. While a
/// question is open, each call but the answers to it and those that only look is refused, and changes nothing.
#[derive(Drop)]
pub struct CommittedRequests {
    types: Vec<Vec<CommittedRecord>>,
    awaited: Option<AwaitedResource>,
}

impl Model for CommittedRequests {
    ghost use Rattle.std.specs.Prelude.{map, vec_capacity};
    ghost use Rattle.gpu_d3d12.specs.Committed.{SumsFit};
    ghost use Rattle.gpu_d3d12.specs.CommittedRequests.{RecordState, HasRoom};

    ghost Value = { RecordState };

    ghost view = { λ c. record { records = map (λ v. v.items) c.types.items; awaited = c.awaited } };

    ghost invariant = { λ c. SumsFit (map (λ v. v.items) c.types.items)
        × HasRoom (map (λ v. (v.items, vec_capacity v)) c.types.items) c.awaited };
}

impl CommittedRequests {
    /// None as yet, of this many memory types.
    pub fn new(alloc: Global, count: usize) -> Result<Self, AllocError>
        ensures count { IfOk result (λ c. length c.records ≡ count) }
        ensures empty { IfOk result (λ c. All (λ records. records ≡ []) c.records) }
        ensures closed { IfOk result (λ c. c.awaited ≡ None) }
    {
        let mut types = Vec::with_capacity(alloc, count)?;
        for _ in 0..count {
            types.push_reserved(Vec::new(alloc));
        }
        Ok(CommittedRequests {
            types,
            awaited: None,
        })
    }

    /// Whether a question is open.
    pub fn awaits_answer(&self) -> bool
        ensures { IsTrue result ↔ IsSome self.now.awaited }
    {
        self.awaited.is_some()
    }

    /// How many there are of the memory type at `index`, and their sizes' sum; `None` where it isn't there.
    pub fn statistics(&self, index: usize) -> Option<CommittedAllocationStatistics>
        ensures { result ≡ statistics_at self.now.records index }
    {
        let records = self.types.get(index)?;
        Some(statistics_of(records))
    }

    /// Makes room for one more of the memory type at `index`, of this size in bytes: then ask the device, and call `made` or
    /// `not_made`. `Internal` while a question is open, `OutOfMemory` where the size would carry the memory type's sum past
    /// `u64::MAX`, else `HostOutOfMemory` where there is no room for the record. A refusal changes nothing.
    pub fn begin(&mut self, index: usize, size: u64) -> Result<()>
        requires there { index < length self.old.records }
        ensures { Begins self.old index size result self.new }
    {
        if self.awaits_answer() {
            return Err(answer_awaited());
        }
        match make_room(&mut self.types[index], size) {
            Err(error) => Err(error),
            Ok(()) => {
                self.awaited = Some(AwaitedResource {
                    memory_type: index,
                    size,
                });
                Ok(())
            }
        }
    }

    /// The device made the resource that was asked for. It takes no host memory, and isn't refused but where no question is open
    /// (`Internal`).
    pub fn made(&mut self, resource: ID3D12Resource) -> Result<Committed>
        ensures { Makes self.old resource result self.new }
    {
        match self.awaited.take() {
            None => Err(no_answer_awaited()),
            Some(awaited) => {
                let AwaitedResource { memory_type, size } = awaited;
                self.types[memory_type].push_reserved(CommittedRecord { resource, size });
                Ok(Committed {
                    memory_type,
                    resource,
                    size,
                })
            }
        }
    }

    /// The device made no resource: nothing is left of the request. `Internal` where no question is open.
    pub fn not_made(&mut self) -> Result<()>
        ensures { Declines self.old result self.new }
    {
        match self.awaited.take() {
            None => Err(no_answer_awaited()),
            Some(_) => Ok(()),
        }
    }

    /// Forgets a committed resource that its owner releases. It takes no memory. `Internal` while a question is open, and where
    /// there is no record of this memory type, number and size; then nothing changes.
    pub fn forget(&mut self, committed: Committed) -> Result<()>
        ensures { Forgets self.old committed result self.new }
    {
        if self.awaits_answer() {
            return Err(answer_awaited());
        }
        if committed.memory_type >= self.types.len() {
            return Err(not_committed());
        }
        let made = CommittedRecord {
            resource: committed.resource,
            size: committed.size,
        };
        remove_record(&mut self.types[committed.memory_type], made)
    }
}
