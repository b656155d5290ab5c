//! The slot of each chunk id. Ids with the same low bits are a chain from the greatest down, which begins at a head; how many bits that
//! are was settled when an id was new. The ids themselves are read in the chunks.

ghost use Rattle.std.specs.Prelude.{◌≡◌, ◌≢◌, ◌+◌, ◌*◌, ◌^◌, ◌<◌, ◌≤◌, ℕ, [], ◌++◌, Some, None, IsSome, IfSome, IfOk, OnOk, OnErr, MatchOption, length, max, replicate, slice_set};
ghost use Rattle.gpu_rows.specs.Rows.{row_count};
ghost use Rattle.gpu_block_chunks.specs.Eras.{newest, own_chain};
ghost use Rattle.gpu_block_chunks.specs.Slots.{chunk_at};
ghost use Rattle.gpu_block_chunks.specs.ChunkIds.{heads_for, slot_of, id_at, id_of, ids_of, link_at, AreChains, AreFound, KeepsFound, IsOf, IsPlace, IsAbove, NoneAbove, ChangesLink, PutsBehind};

use super::eras::Eras;
use super::slot_link::SlotLink;
use super::slots::Slots;
use gpu_rows::Rows;
use std::alloc::{AllocError, Global};

/// How many slots there can be at most: the greatest number of 32 bits is that of no slot.
const MOST: usize = (1 << 32) - 1;

/// The chains of the ids of chunks in slots: the slot to which each head leads, and the one that follows each slot in its chain. The follower
/// of a slot without a chunk is of no chain. There are no fewer chains than slots, so that chains are short, and heads for the next era are
/// made before it begins: a quarter of those that are there at a time, unless more are asked for.
#[derive(Drop)]
pub struct ChunkIds {
    heads: Vec<SlotLink>,
    followers: Rows<SlotLink>,
    eras: Eras,
}

/// The id of the chunk in a slot that has one.
#[inline(always)]
fn id_in(chunks: &Slots, slot: u32) -> u64
    requires { IsSome (chunk_at chunks.now slot) }
    ensures { id_of (chunk_at chunks.now slot) ≡ Some result }
{
    chunks.at(slot as usize).chunk.chunk_id
}

/// The slot that follows one in its chain, or that a head leads to.
fn follower(
    heads: &[SlotLink],
    followers: &Rows<SlotLink>,
    chain: usize,
    before: Option<u32>,
) -> SlotLink
    requires chain { chain < length heads.now }
    requires before { IfSome before (λ s. s < row_count followers.now) }
    ensures { result ≡ link_at heads.now followers.now.items chain before }
{
    match before {
        Some(slot) => followers[slot as usize],
        None => heads[chain],
    }
}

/// Lets another slot follow one in its chain, or a head lead to another.
fn set_follower(
    heads: &mut [SlotLink],
    followers: &mut Rows<SlotLink>,
    chain: usize,
    before: Option<u32>,
    link: SlotLink,
)
    requires chain { chain < length heads.old }
    requires before { IfSome before (λ s. s < row_count followers.old) }
    ensures links { ChangesLink (link_at heads.old followers.old.items)
        (link_at heads.new followers.new.items) chain before link }
    ensures heads { length heads.new ≡ length heads.old }
    ensures followers { row_count followers.new ≡ row_count followers.old }
{
    match before {
        Some(slot) => followers[slot as usize] = link,
        None => heads[chain] = link,
    }
}

/// Puts a slot into a chain, behind the slot that is before it.
fn link(
    heads: &mut [SlotLink],
    followers: &mut Rows<SlotLink>,
    chain: usize,
    before: Option<u32>,
    slot: u32,
)
    requires chain { chain < length heads.old }
    requires few { row_count followers.old < 2 ^ 32 }
    requires before { IfSome before (λ s. s < row_count followers.old) }
    requires other { before ≢ Some slot }
    requires slot { slot < row_count followers.old }
    ensures links { PutsBehind (link_at heads.old followers.old.items)
        (link_at heads.new followers.new.items) chain before slot }
    ensures heads { length heads.new ≡ length heads.old }
    ensures followers { row_count followers.new ≡ row_count followers.old }
{
    followers[slot as usize] = follower(heads, followers, chain, before);
    set_follower(heads, followers, chain, before, SlotLink::new(Some(slot)));
}

/// So many heads more, which lead to no slot. A refusal changes none.
fn add_heads(heads: &mut Vec<SlotLink>, more: usize) -> Result<(), AllocError>
    ensures longer { OnOk result (heads.new.items ≡ heads.old.items ++ replicate more None) }
    ensures same { OnErr result (heads.new.items ≡ heads.old.items) }
{
    heads.reserve_exact(more)?;
    for _ in 0..more {
        heads.push_reserved(SlotLink::none());
    }
    Ok(())
}

/// So many slots more, which no other follows. A refusal changes none.
fn add_followers(followers: &mut Rows<SlotLink>, more: usize) -> Result<(), AllocError>
    ensures longer { OnOk result (followers.new.items
        ≡ followers.old.items ++ replicate more None) }
    ensures same { OnErr result (followers.new.items ≡ followers.old.items) }
{
    followers.reserve(more)?;
    for _ in 0..more {
        followers.push_reserved(SlotLink::none());
    }
    Ok(())
}

impl ChunkIds {
    /// No slots yet, and one chain.
    pub fn new(alloc: Global) -> Result<ChunkIds, AllocError>
        ensures found { IfOk result (λ c. AreFound c.eras c.heads.items c.followers.items []) }
        ensures latest { IfOk result (λ c. c.eras.latest ≡ 0) }
    {
        Ok(ChunkIds {
            heads: vec![in alloc; SlotLink::none(); 1]?,
            followers: Rows::new(alloc),
            eras: Eras::first(alloc),
        })
    }

    /// How many slots there are.
    pub fn slots(&self) -> usize
        ensures { result ≡ length self.now.followers.items }
    {
        self.followers.len()
    }

    /// The slot that follows one in its chain, or that a head leads to, if its id is greater than that.
    fn above(&self, chunks: &Slots, chain: usize, before: Option<u32>, chunk_id: u64) -> Option<u32>
        requires found { AreFound self.now.eras self.now.heads.items self.now.followers.items
            chunks.now.slots }
        requires chain { chain < length self.now.heads.items }
        requires before { IsOf (ids_of chunks.now.slots (length self.now.followers.items))
            (own_chain self.now.eras) chain before }
        ensures { let ids = ids_of chunks.now.slots (length self.now.followers.items)
            in let link = link_at self.now.heads.items self.now.followers.items chain before
            in MatchOption result (NoneAbove ids link chunk_id)
            (λ s. (link ≡ Some s) × IsAbove ids s chunk_id) }
    {
        let slot = follower(&self.heads, &self.followers, chain, before).slot()?;
        if id_in(chunks, slot) <= chunk_id {
            return None;
        }
        Some(slot)
    }

    /// The last slot of a chain with a greater id than that; none where the head is before all others.
    fn last_above(&self, chunks: &Slots, chain: usize, chunk_id: u64) -> Option<u32>
        requires found { AreFound self.now.eras self.now.heads.items self.now.followers.items
            chunks.now.slots }
        requires chain { chain < length self.now.heads.items }
        ensures { let ids = ids_of chunks.now.slots (length self.now.followers.items)
            in IsPlace (own_chain self.now.eras) self.now.heads.items self.now.followers.items ids
            chain chunk_id result }
    {
        let mut last = self.above(chunks, chain, None, chunk_id)?;
        while let Some(next) = self.above(chunks, chain, Some(last), chunk_id) {
            last = next;
        }
        Some(last)
    }

    /// The slot of a chunk id.
    pub fn find(&self, chunks: &Slots, chunk_id: u64) -> Option<u32>
        requires { AreFound self.now.eras self.now.heads.items self.now.followers.items
            chunks.now.slots }
        ensures { result ≡ slot_of (ids_of chunks.now.slots (length self.now.followers.items))
            chunk_id }
    {
        let chain = self.eras.chain_of(chunk_id);
        let before = self.last_above(chunks, chain, chunk_id);
        let slot = follower(&self.heads, &self.followers, chain, before).slot()?;
        if id_in(chunks, slot) != chunk_id {
            return None;
        }
        Some(slot)
    }

    /// The slot behind which a chunk id has its place; none where that is at a head.
    pub fn place(&self, chunks: &Slots, chunk_id: u64) -> Option<u32>
        requires { AreFound self.now.eras self.now.heads.items self.now.followers.items
            chunks.now.slots }
        ensures { let ids = ids_of chunks.now.slots (length self.now.followers.items)
            in IsPlace (own_chain self.now.eras) self.now.heads.items self.now.followers.items ids
            (own_chain self.now.eras chunk_id) chunk_id result }
    {
        let chain = self.eras.chain_of(chunk_id);
        self.last_above(chunks, chain, chunk_id)
    }

    /// Puts a slot into the chain of its chunk id, behind the slot that is before it.
    pub fn link(&mut self, chunk_id: u64, before: Option<u32>, slot: u32)
        requires newest { newest self.old.eras < 33 }
        requires chains { 2 ^ newest self.old.eras ≤ length self.old.heads.items }
        requires few { length self.old.followers.items < 2 ^ 32 }
        requires before { IfSome before (λ s. s < length self.old.followers.items) }
        requires other { before ≢ Some slot }
        requires slot { slot < length self.old.followers.items }
        ensures links { PutsBehind (link_at self.old.heads.items self.old.followers.items)
            (link_at self.new.heads.items self.new.followers.items)
            (own_chain self.old.eras chunk_id) before slot }
        ensures heads { length self.new.heads.items ≡ length self.old.heads.items }
        ensures followers { length self.new.followers.items ≡ length self.old.followers.items }
        ensures eras { self.new.eras
            ≡ record self.old.eras { latest = max self.old.eras.latest chunk_id } }
    {
        let chain = self.eras.chain_of(chunk_id);
        link(&mut self.heads, &mut self.followers, chain, before, slot);
        self.eras.raise(chunk_id);
    }

    /// Takes the slot of a chunk id out of its chain.
    pub fn unlink(&mut self, chunks: &Slots, chunk_id: u64, slot: u32)
        requires found { AreFound self.old.eras self.old.heads.items self.old.followers.items
            chunks.now.slots }
        requires there { id_of (chunk_at chunks.now slot) ≡ Some chunk_id }
        ensures chained { let ids = ids_of chunks.now.slots (length self.old.followers.items)
            in AreChains (own_chain self.old.eras) self.new.heads.items self.new.followers.items
            (slice_set ids slot None) }
        ensures heads { length self.new.heads.items ≡ length self.old.heads.items }
        ensures followers { length self.new.followers.items ≡ length self.old.followers.items }
        ensures eras { self.new.eras ≡ self.old.eras }
    {
        let chain = self.eras.chain_of(chunk_id);
        let before = self.last_above(chunks, chain, chunk_id);
        let next = self.followers[slot as usize];
        set_follower(&mut self.heads, &mut self.followers, chain, before, next);
    }

    /// Makes so many heads at least, of which the new ones lead to no slot; where it makes any, a quarter of those that are there. A refusal
    /// changes none.
    fn add_heads_to(&mut self, count: usize) -> Result<(), AllocError>
        requires { count < 2 ^ 33 }
        ensures found { KeepsFound self.old self.new }
        ensures enough { OnOk result (length self.new.heads.items
            ≡ heads_for (length self.old.heads.items) count) }
        ensures refused { OnErr result (self.new.heads.items ≡ self.old.heads.items) }
        ensures eras { self.new.eras ≡ self.old.eras }
        ensures followers { self.new.followers.items ≡ self.old.followers.items }
    {
        let len = self.heads.len();
        if count <= len {
            return Ok(());
        }
        // a quarter more, so that they are seldom copied
        add_heads(&mut self.heads, (count - len).max(len / 4))
    }

    /// Begins eras until there are so many chains, for ids that are yet to come: no id moves, and their heads are there.
    fn add_chains_to(&mut self, count: usize) -> Result<(), AllocError>
        requires heads { 2 * count ≤ length self.old.heads.items }
        requires few { count < 2 ^ 32 }
        requires newest { newest self.old.eras < 33 }
        ensures found { KeepsFound self.old self.new }
        ensures newest { newest self.new.eras < 33 }
        ensures enough { OnOk result (count ≤ 2 ^ newest self.new.eras) }
        ensures few { 2 ^ newest self.new.eras ≤ max (2 ^ newest self.old.eras) (2 * count) }
        ensures followers { self.new.followers.items ≡ self.old.followers.items }
        ensures latest { self.new.eras.latest ≡ self.old.eras.latest }
    {
        while self.eras.chains() < count {
            self.eras.begin()?;
        }
        Ok(())
    }

    /// Makes so many slots of them at least. A refusal changes no id.
    pub fn reserve_to(&mut self, slots: usize) -> Result<(), AllocError>
        requires newest { newest self.old.eras < 33 }
        ensures found { KeepsFound self.old self.new }
        ensures more { length self.old.followers.items ≤ length self.new.followers.items }
        ensures room { OnOk result (slots ≤ length self.new.followers.items) }
        ensures latest { self.new.eras.latest ≡ self.old.eras.latest }
    {
        if slots > MOST {
            return Err(AllocError);
        }
        self.add_heads_to(2 * slots)?;
        self.add_chains_to(slots)?;
        let more = slots.saturating_sub(self.followers.len());
        add_followers(&mut self.followers, more)
    }
}
