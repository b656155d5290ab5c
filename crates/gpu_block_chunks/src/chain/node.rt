//! The steps that change the chunks of a chain. Each goes straight to the slots of the chunks that it reads and writes.

ghost use Rattle.std.specs.Prelude.{◌≡◌, ◌+◌, ◌-◌, ◌^◌, ◌<◌, ◌≤◌, is_some, if◌then◌else◌, IsSome, IsSomeAnd, IfSome, MatchOption, Some, None};
ghost use Rattle.gpu_cost.specs.Cost.{LooksUp, LooksUpBetween};
ghost use Rattle.gpu_block_chunks.specs.Slots.{linked_of};
ghost use Rattle.gpu_block_chunks.specs.Nodes.{held_at, room_of, node_value, link_chunk_id, number_at, IsTaken, Leads, Reaches, KeepsOthers};
ghost use Rattle.gpu_block_chunks.specs.Chain.{Node, CanJoin, JoinsNext, JoinsRight, JoinsLeft, JoinsUnder, LinkedAt, is_free_kind};
ghost use Rattle.gpu_block_chunks.specs.Chain.{ChangesAt, ChangesAtOpt, with_next, with_prev, cut_node, joined_node, used_node, worded_node};

use super::link::{Link, LinkedView, slot_of};
use super::nodes::Nodes;
use crate::label::Label;
use gpu_cost::Cost;
use gpu_values::AllocationType;

/// The one way to find a chunk that is to be changed, by a number that maybe none has.
pub fn link_at(nodes: &Nodes, chunk_id: u64, cost: &mut Cost) -> Option<Link>
    ensures found { MatchOption result (held_at nodes.now chunk_id ≡ None)
        (λ link. (link.chunk_id ≡ chunk_id) × Reaches nodes.now (Some link)) }
    ensures counted { LooksUp 1 cost.old cost.new }
{
    cost.look_up();
    nodes.find_link(chunk_id)
}

/// The one way to read a chunk that a link leads to.
#[inline(always)]
pub fn linked_at<'a>(nodes: &'a Nodes, at: Link, cost: &mut Cost) -> LinkedView<'a>
    requires { Reaches nodes.now (Some at) }
    ensures value { held_at nodes.now at.chunk_id
        ≡ Some (node_value nodes.now.ids (linked_of result)) }
    ensures links { IsTaken nodes.now.ids result.prev × IsTaken nodes.now.ids result.next }
    ensures counted { LooksUp 1 cost.old cost.new }
{
    cost.look_up();
    nodes.linked(at)
}

/// Links a chunk to another next one.
pub fn set_next(nodes: &mut Nodes, at: Link, next: Option<Link>, cost: &mut Cost)
    requires there { Reaches nodes.old (Some at) }
    requires next { Leads nodes.old next }
    ensures changes { ChangesAt at.chunk_id (with_next (link_chunk_id next)) (held_at nodes.old)
        (held_at nodes.new) }
    ensures ids { nodes.new.ids ≡ nodes.old.ids }
    ensures room { room_of nodes.new ≡ room_of nodes.old }
    ensures counted { LooksUp 1 cost.old cost.new }
{
    cost.look_up();
    nodes.chunks.set_next(at.slot as usize, slot_of(next));
}

/// Links a chunk to another one before it.
pub fn set_prev(nodes: &mut Nodes, at: Link, prev: Option<Link>, cost: &mut Cost)
    requires there { Reaches nodes.old (Some at) }
    requires prev { Leads nodes.old prev }
    ensures changes { ChangesAt at.chunk_id (with_prev (link_chunk_id prev)) (held_at nodes.old)
        (held_at nodes.new) }
    ensures ids { nodes.new.ids ≡ nodes.old.ids }
    ensures room { room_of nodes.new ≡ room_of nodes.old }
    ensures counted { LooksUp 1 cost.old cost.new }
{
    cost.look_up();
    nodes.chunks.set_prev(at.slot as usize, slot_of(prev));
}

/// Takes that much off a chunk's front.
pub fn cut_front(nodes: &mut Nodes, at: Link, taken: u64, prev: Option<Link>, cost: &mut Cost)
    requires longer { IsSomeAnd (held_at nodes.old at.chunk_id)
        (λ n. (taken < (n.chunk).size) × ((n.chunk).start + (n.chunk).size < 2 ^ 64)) }
    requires leads { Leads nodes.old (Some at) }
    requires prev { Leads nodes.old prev }
    ensures changes { ChangesAt at.chunk_id (cut_node taken (link_chunk_id prev))
        (held_at nodes.old) (held_at nodes.new) }
    ensures ids { nodes.new.ids ≡ nodes.old.ids }
    ensures room { room_of nodes.new ≡ room_of nodes.old }
    ensures counted { LooksUp 1 cost.old cost.new }
{
    cost.look_up();
    nodes
        .chunks
        .cut_front(at.slot as usize, taken, slot_of(prev));
}

/// Makes a chunk longer.
pub fn lengthen(nodes: &mut Nodes, at: Link, more: u64, next: Option<Link>, cost: &mut Cost)
    requires fits { IsSomeAnd (held_at nodes.old at.chunk_id)
        (λ n. (n.chunk).size + more < 2 ^ 64) }
    requires leads { Leads nodes.old (Some at) }
    requires next { Leads nodes.old next }
    ensures changes { ChangesAt at.chunk_id (joined_node more (link_chunk_id next))
        (held_at nodes.old) (held_at nodes.new) }
    ensures ids { nodes.new.ids ≡ nodes.old.ids }
    ensures room { room_of nodes.new ≡ room_of nodes.old }
    ensures counted { LooksUp 1 cost.old cost.new }
{
    cost.look_up();
    nodes.chunks.lengthen(at.slot as usize, more, slot_of(next));
}

/// The same for the chunk that a link leads to, if it is one.
pub fn set_next_of(nodes: &mut Nodes, at: Option<Link>, next: Option<Link>, cost: &mut Cost)
    requires there { Reaches nodes.old at }
    requires next { Leads nodes.old next }
    ensures changes { ChangesAtOpt (link_chunk_id at) (with_next (link_chunk_id next))
        (held_at nodes.old) (held_at nodes.new) }
    ensures ids { nodes.new.ids ≡ nodes.old.ids }
    ensures room { room_of nodes.new ≡ room_of nodes.old }
    ensures counted { LooksUp (if is_some at then 1 else 0) cost.old cost.new }
{
    if let Some(at) = at {
        set_next(nodes, at, next, cost);
    }
}

/// The same for the chunk that a link leads to, if it is one.
pub fn set_prev_of(nodes: &mut Nodes, at: Option<Link>, prev: Option<Link>, cost: &mut Cost)
    requires there { Reaches nodes.old at }
    requires prev { Leads nodes.old prev }
    ensures changes { ChangesAtOpt (link_chunk_id at) (with_prev (link_chunk_id prev))
        (held_at nodes.old) (held_at nodes.new) }
    ensures ids { nodes.new.ids ≡ nodes.old.ids }
    ensures room { room_of nodes.new ≡ room_of nodes.old }
    ensures counted { LooksUp (if is_some at then 1 else 0) cost.old cost.new }
{
    if let Some(at) = at {
        set_prev(nodes, at, prev, cost);
    }
}

/// The start of a chunk, and the slots of the ones beside it.
#[derive(Clone, Copy)]
pub struct Ends {
    pub start: u64,
    pub prev: Option<u32>,
    pub next: Option<u32>,
}

/// Where the chunk that a link leads to stands.
pub fn ends_of(nodes: &Nodes, at: Link, cost: &mut Cost) -> Ends
    requires { Reaches nodes.now (Some at) }
    ensures ends { (n : Node) → held_at nodes.now at.chunk_id ≡ Some n
        → (result.start ≡ (n.chunk).start) × (number_at nodes.now.ids result.prev ≡ n.prev)
        × (number_at nodes.now.ids result.next ≡ n.next) }
    ensures links { IsTaken nodes.now.ids result.prev × IsTaken nodes.now.ids result.next }
    ensures counted { LooksUp 1 cost.old cost.new }
{
    let linked = linked_at(nodes, at, cost);
    Ends {
        start: linked.chunk.start,
        prev: linked.prev,
        next: linked.next,
    }
}

/// Makes one chunk of two neighbours. It takes no memory.
#[inline(always)]
pub fn join_next(nodes: &mut Nodes, left: Link, right: Link, cost: &mut Cost)
    requires joins { CanJoin (held_at nodes.old) left.chunk_id right.chunk_id }
    requires leads { Leads nodes.old (Some left) × Leads nodes.old (Some right) }
    ensures joins { JoinsNext left.chunk_id right.chunk_id (held_at nodes.old) (held_at nodes.new) }
    ensures kept { KeepsOthers nodes.old nodes.new right.chunk_id }
    ensures room { room_of nodes.old ≤ room_of nodes.new }
    ensures counted { LooksUpBetween 2 3 cost.old cost.new }
{
    let gone = linked_at(nodes, right, cost);
    let more = gone.chunk.size;
    let next = nodes.link_in(gone.next);
    lengthen(nodes, left, more, next, cost);
    set_prev_of(nodes, next, Some(left), cost);
    nodes.remove(right);
}

/// Gives a chunk another use.
pub fn set_use(
    nodes: &mut Nodes,
    at: Link,
    offset: u64,
    kind: AllocationType,
    label: Label,
    cost: &mut Cost,
)
    requires { Reaches nodes.old (Some at) }
    ensures changes { ChangesAt at.chunk_id (used_node offset kind label) (held_at nodes.old)
        (held_at nodes.new) }
    ensures ids { nodes.new.ids ≡ nodes.old.ids }
    ensures room { room_of nodes.new ≡ room_of nodes.old }
    ensures counted { LooksUp 1 cost.old cost.new }
{
    cost.look_up();
    nodes.chunks.set_use(at.slot as usize, offset, kind, label);
}

/// Gives a chunk another word.
pub fn set_word(nodes: &mut Nodes, at: Link, word: u64, cost: &mut Cost)
    requires { Reaches nodes.old (Some at) }
    ensures changes { ChangesAt at.chunk_id (worded_node word) (held_at nodes.old)
        (held_at nodes.new) }
    ensures ids { nodes.new.ids ≡ nodes.old.ids }
    ensures room { room_of nodes.new ≡ room_of nodes.old }
    ensures counted { LooksUp 1 cost.old cost.new }
{
    cost.look_up();
    nodes.chunks.set_word(at.slot as usize, word);
}

/// Whether the chunk that a link leads to is free.
pub fn is_free_at(nodes: &Nodes, at: Link, cost: &mut Cost) -> bool
    requires { Reaches nodes.now (Some at) }
    ensures free { (n : Node) → held_at nodes.now at.chunk_id ≡ Some n
        → result ≡ is_free_kind (n.chunk).kind }
    ensures counted { LooksUp 1 cost.old cost.new }
{
    match linked_at(nodes, at, cost).chunk.kind {
        AllocationType::Free => true,
        AllocationType::Linear | AllocationType::NonLinear => false,
    }
}

/// Joins a chunk with the next one, if that is free.
pub fn join_right(nodes: &mut Nodes, at: Link, cost: &mut Cost)
    requires linked { LinkedAt (held_at nodes.old) at.chunk_id }
    requires leads { Leads nodes.old (Some at) }
    ensures joins { JoinsRight at.chunk_id (held_at nodes.old) (held_at nodes.new) }
    ensures kept { Leads nodes.new (Some at) }
    ensures room { room_of nodes.old ≤ room_of nodes.new }
    ensures counted { LooksUpBetween 1 5 cost.old cost.new }
{
    let ends = ends_of(nodes, at, cost);
    if let Some(right) = nodes.link_in(ends.next) {
        if is_free_at(nodes, right, cost) {
            join_next(nodes, at, right, cost);
        }
    }
}

/// Joins a chunk with the one before it, if that is free: where the joined chunk is found.
pub fn join_left(nodes: &mut Nodes, at: Link, cost: &mut Cost) -> Link
    requires linked { LinkedAt (held_at nodes.old) at.chunk_id }
    requires leads { Leads nodes.old (Some at) }
    ensures joins { JoinsLeft at.chunk_id (held_at nodes.old) (held_at nodes.new) }
    ensures chunk_id { JoinsUnder at.chunk_id (held_at nodes.old) result.chunk_id }
    ensures reaches { Reaches nodes.new (Some result) }
    ensures room { room_of nodes.old ≤ room_of nodes.new }
    ensures counted { LooksUpBetween 1 5 cost.old cost.new }
{
    let ends = ends_of(nodes, at, cost);
    if let Some(left) = nodes.link_in(ends.prev) {
        if is_free_at(nodes, left, cost) {
            join_next(nodes, left, at, cost);
            return left;
        }
    }
    at
}
