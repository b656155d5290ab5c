//! Pieces that their owners hold with their names.

ghost use Rattle.std.specs.Prelude.{◌≡◌, ◌≢◌, ◌↔◌, ◌<◌, ◌%◌, false, length, string_bytes, IsTrue, IfOk, IfErr, IfSome, IsNone, OnErr};
ghost use Rattle.std.specs.Int.{is_power_of_two};
ghost use Rattle.gpu_values.specs.declared.error.AllocationError.TheVariants.{HostOutOfMemory};
ghost use Rattle.gpu_core.specs.TypeTake.{asked};
ghost use Rattle.gpu_pool.specs.Allocate.{request_at};
ghost use Rattle.gpu_pool.specs.Allocation.{piece_of, AllocatesNamed, RenamesNamed, ProposesNamed, IsSecondPlace, AreDistinct, IsLive, StayLive, IsNewlyLive};
ghost use Rattle.gpu_pool.specs.Free.{PoolFrees};
ghost use Rattle.gpu_pool.specs.Source.{result_of};
ghost use Rattle.gpu_pool.specs.declared.allocation.Allocation.{Allocation};

use crate::allocation::{Allocation, allocation_of};
use crate::{BlockSource, Pool};
use gpu_core::Request;
use gpu_values::{AllocationError, AllocationType, Result};
use std::alloc::{AllocError, Global};

/// A name of its own. The only refusal is `HostOutOfMemory`.
fn own_name(alloc: Global, name: &str) -> Result<String>
    ensures name { IfOk result (λ own. string_bytes own ≡ name.now) }
    ensures cause { IfErr result (λ e. e ≡ HostOutOfMemory) }
{
    match String::from_str(alloc, name) {
        Ok(own) => Ok(own),
        Err(AllocError) => Err(AllocationError::HostOutOfMemory),
    }
}

impl<S: BlockSource> Pool<S> {
    /// Allocates a piece of the memory type at `index`, as `allocate` does, for an owner who holds it with the name. All host
    /// memory for it is at hand before the source is asked.
    pub fn allocate_named(
        &mut self,
        alloc: Global,
        index: usize,
        request: &Request,
        extra: S::Extra,
    ) -> Result<Allocation<S::Handle>>
        requires there { index < length (S.kinds self.old.source) }
        requires sized { 0 < request.now.size }
        requires aligned { IsTrue (is_power_of_two request.now.alignment) }
        requires piece { request.now.kind ≢ AllocationType.Free }
        ensures allocates { AllocatesNamed (S.kinds self.old.source) S.asks
            (request_at index request.now extra) self.old result self.new }
        ensures constant { S.kinds self.new.source ≡ S.kinds self.old.source }
        ensures aligned { IfOk result (λ a. a.offset % request.now.alignment ≡ 0) }
        ensures keeps { StayLive S.Handle.eq self.old.slots self.new.slots }
        ensures live { IfOk result (λ a. IsNewlyLive S.Handle.eq self.old.slots self.new.slots a) }
    {
        let name = match own_name(alloc, request.name) {
            Ok(name) => name,
            Err(error) => return Err(error),
        };
        match self.allocate(index, request, extra) {
            Ok(piece) => Ok(allocation_of(index, piece, name)),
            Err(error) => Err(error),
        }
    }

    /// A second place for an allocation, as `propose_move` finds one for its piece, for an owner who holds it with the
    /// request's name.
    pub fn propose_move_named(
        &mut self,
        alloc: Global,
        from: &Allocation<S::Handle>,
        request: &Request,
    ) -> Result<Option<Allocation<S::Handle>>>
        requires sized { 0 < request.now.size }
        requires aligned { IsTrue (is_power_of_two request.now.alignment) }
        requires piece { request.now.kind ≢ AllocationType.Free }
        requires shared { request.now.dedicated ≡ false }
        requires whole { request.now.size ≡ from.now.size }
        ensures proposes { ProposesNamed S.Handle.eq from.now (asked request.now) self.old result
            self.new }
        ensures gives { IfOk result (λ o. IfSome o (λ to. IsSecondPlace S.Handle.eq
            request.now.alignment self.old.slots from.now to self.new.slots)) }
        ensures others { self.new ≡ record self.old { slots = self.new.slots } }
        ensures none { IfOk result (λ o. IsNone o → self.new ≡ self.old) }
        ensures refused { OnErr result (self.new ≡ self.old) }
        ensures keeps { StayLive S.Handle.eq self.old.slots self.new.slots }
    {
        let own = match own_name(alloc, request.name) {
            Ok(own) => own,
            Err(error) => return Err(error),
        };
        let index = from.memory_type_index;
        match self.propose_move(index, &from.piece(), request) {
            Ok(Some(to)) => Ok(Some(allocation_of(index, to, own))),
            Ok(None) => Ok(None),
            Err(error) => Err(error),
        }
    }

    /// Frees an allocation, as `free` frees its piece. It takes no memory.
    pub fn free_named(&mut self, allocation: &Allocation<S::Handle>) -> Result<()>
        ensures frees { PoolFrees S.gives_back S.Handle.eq allocation.now.memory_type_index
            (piece_of allocation.now) self.old (result_of result) self.new }
        ensures constant { S.kinds self.new.source ≡ S.kinds self.old.source }
        ensures keeps { (b : Allocation S.Handle) → IsLive S.Handle.eq self.old.slots b
            → AreDistinct b allocation.now → IsLive S.Handle.eq self.new.slots b }
    {
        self.free(allocation.memory_type_index, &allocation.piece())
    }

    /// Whether an allocation is live: there is a record with its type, slot, number, offset, size and heap.
    pub fn is_live_named(&self, allocation: &Allocation<S::Handle>) -> bool
        ensures { IsTrue result ↔ IsLive S.Handle.eq self.now.slots allocation.now }
    {
        self.is_live(allocation.memory_type_index, &allocation.piece())
    }

    /// Renames an allocation, and the record of its piece with it. `Internal` where it isn't live, else
    /// `HostOutOfMemory` where the host refused memory; a refusal changes nothing.
    pub fn rename_named(
        &mut self,
        alloc: Global,
        allocation: &mut Allocation<S::Handle>,
        name: &str,
    ) -> Result<()>
        ensures renames { RenamesNamed S.Handle.eq allocation.old name.now self.old result
            allocation.new self.new }
        ensures keeps { StayLive S.Handle.eq self.old.slots self.new.slots }
        ensures source { self.new.source ≡ self.old.source }
    {
        let piece = allocation.piece();
        let index = allocation.memory_type_index;
        if !self.is_live(index, &piece) {
            // This is refused, and says why.
            return self.rename(index, &piece, name);
        }
        let own = match own_name(alloc, name) {
            Ok(own) => own,
            Err(error) => return Err(error),
        };
        match self.rename(index, &piece, name) {
            Ok(()) => {
                allocation.name = own;
                Ok(())
            }
            Err(error) => Err(error),
        }
    }
}
