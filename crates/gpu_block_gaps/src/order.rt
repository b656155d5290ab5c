//! The gaps in the order of length and start: their thread, and the trees that find a gap's slot.

ghost use Rattle.std.specs.Prelude.{◌≡◌, ◌≢◌, ℕ, ◌+◌, ◌^◌, ◌<◌, ◌≤◌, List, length, slice_index, Option, Some, slice_set, IsTrue, ◌↔◌};
ghost use Rattle.std.specs.List.{AllPairs};
ghost use Rattle.gpu_rows.specs.Rows.{row_count};
ghost use Rattle.gpu_block_gaps.specs.Thread.{gap_in};
ghost use Rattle.gpu_block_gaps.specs.Key.{code_of};
ghost use Rattle.gpu_block_gaps.specs.Tree.{Tree};
ghost use Rattle.gpu_block_gaps.specs.Forest.{IsForest, IsWide, KeepsRoom, class_in};
ghost use Rattle.gpu_block_gaps.specs.Order.{IsIn, IsPlaceIn, Gains};
ghost use Rattle.gpu_cost.specs.Cost.{ComparesKeys};
ghost use Rattle.gpu_block_gaps.specs.Index.{Before, HasNoKey, HasKeyAt, IsInserted, IsRemoved, IsReplaced};
ghost use Rattle.gpu_block_gaps.specs.Ordered.{code, key_in, gaps_of, AreIndexed, IsIndexed, IsNearby, keys_beside, IsLonger, IsShorter};

use crate::forest::Forest;
use crate::index::Gap;
use crate::key::{Key, START_BITS};
use crate::thread::Thread;
use crate::tree::Place;
use gpu_cost::Cost;

/// What the tree of a key's class has: nothing, the slot of that key, or a slot to which the key's bits lead, and whose key differs first in
/// that bit.
#[derive(Clone, Copy)]
pub enum Nearby {
    Nothing,
    Same(u32),
    Apart(u32, u32),
}

/// The length and the start of a gap.
pub fn key_of(gap: &Gap) -> Key
    ensures { code_of result ≡ code gap.now }
{
    Key {
        length: gap.length,
        start: gap.start,
    }
}

/// Looks for a key in the tree of its class. Nothing is counted: it serves where a gap is put in, and is private, so that a search
/// can look by `compare_near` alone.
fn look_near(thread: &Thread, forest: &Forest, key: Key, class: usize) -> Nearby
    requires indexed { IsIndexed thread.now forest.now }
    requires class { class ≡ class_in forest.now.scale (code_of key) }
    ensures { (trees : List (Option Tree)) → AreIndexed thread.now forest.now trees
        → IsNearby (key_in thread.now.gaps) forest.now.scale trees (code_of key) result }
{
    thread.sound();
    let Some(slot) = forest.near(key, class) else {
        return Nearby::Nothing;
    };
    match key.split(key_of(&thread.gap(slot))) {
        Some(bit) => Nearby::Apart(bit, slot),
        None => Nearby::Same(slot),
    }
}

/// The same for a search, which counts the one key that is compared, if the class has any.
#[inline(always)]
pub fn compare_near(
    thread: &Thread,
    forest: &Forest,
    key: Key,
    class: usize,
    cost: &mut Cost,
) -> Nearby
    requires indexed { IsIndexed thread.now forest.now }
    requires class { class ≡ class_in forest.now.scale (code_of key) }
    ensures near { (trees : List (Option Tree)) → AreIndexed thread.now forest.now trees
        → IsNearby (key_in thread.now.gaps) forest.now.scale trees (code_of key) result }
    ensures counted { ComparesKeys (keys_beside result) cost.old cost.new }
{
    let nearby = look_near(thread, forest, key, class);
    if !matches!(nearby, Nearby::Nothing) {
        cost.compare();
    }
    nearby
}

/// The slot of the first gap from a length on, 0 where there is none.
#[inline(always)]
pub fn next_from(thread: &Thread, forest: &Forest, key: Key, class: usize, nearby: Nearby) -> u32
    requires near { (trees : List (Option Tree)) × AreIndexed thread.now forest.now trees
        × IsNearby (key_in thread.now.gaps) forest.now.scale trees (code_of key) nearby }
    requires start { key.start ≡ 0 }
    requires class { class ≡ class_in forest.now.scale (code_of key) }
    ensures { (place : ℕ) → IsPlaceIn (key_in thread.now.gaps) thread.now.order (code_of key) place
        → result ≡ slice_index thread.now.order place }
{
    match nearby {
        Nearby::Nothing => match forest.first_later(class) {
            Some(slot) => slot,
            None => 0,
        },
        Nearby::Same(slot) => slot,
        Nearby::Apart(bit, slot) => {
            // A gap of that length: the bits of a start of 0 lead to the first one.
            if bit < START_BITS {
                return slot;
            }
            match forest.place(key, class, bit) {
                Place::Before(slot) => slot,
                Place::After(slot) => thread.next(slot),
            }
        }
    }
}

/// Puts a slot into the tree of its key's class. Returns the slot of the first gap behind the key, 0 where there is none.
#[inline(always)]
fn plant(
    thread: &Thread,
    forest: &mut Forest,
    key: Key,
    class: usize,
    nearby: Nearby,
    slot: u32,
) -> u32
    requires indexed { IsIndexed thread.now forest.old }
    requires near { (trees : List (Option Tree)) → AreIndexed thread.now forest.old trees
        → IsNearby (key_in thread.now.gaps) forest.old.scale trees (code_of key) nearby }
    requires class { class ≡ class_in forest.old.scale (code_of key) }
    requires new { (other : ℕ) → nearby ≢ Nearby.Same other }
    requires wide { IsWide forest.old }
    requires spare { 0 < row_count forest.old.spare }
    requires slot { slot + 1 < 2 ^ 31 }
    ensures trees { (at : ℕ → ℕ) (trees : List (Option Tree)) → IsForest at forest.old trees
        → at slot ≡ code_of key → IsNearby at forest.old.scale trees (code_of key) nearby
        → let c = class_in forest.old.scale (code_of key)
        in (new : Tree) × IsForest at forest.new (slice_set trees c (Some new))
        × Gains trees c slot new }
    ensures next { (place : ℕ) → IsPlaceIn (key_in thread.now.gaps) thread.now.order (code_of key) place
        → result ≡ slice_index thread.now.order place }
    ensures room { KeepsRoom forest.old forest.new }
{
    match nearby {
        Nearby::Nothing => {
            let next = forest.first_later(class);
            forest.insert_first(key, class, slot);
            match next {
                Some(later) => later,
                None => 0,
            }
        }
        Nearby::Apart(bit, _) => match forest.insert_beside(key, class, bit, slot) {
            Place::Before(leaf) => leaf,
            Place::After(leaf) => thread.next(leaf),
        },
        Nearby::Same(_) => unreachable!(),
    }
}

/// Puts a gap into a slot, into the order and into the tree of its class. There is room for it, so no memory is taken.
#[inline(always)]
pub fn put(thread: &mut Thread, forest: &mut Forest, gap: Gap, class: usize)
    requires indexed { IsIndexed thread.old forest.old }
    requires class { class ≡ class_in forest.old.scale (code gap) }
    requires room { length thread.old.order + 1 < length thread.old.gaps }
    requires fresh { HasNoKey (gaps_of thread.old) gap.length gap.start }
    ensures indexed { IsIndexed thread.new forest.new }
    ensures gaps { IsInserted (gaps_of thread.old) gap (gaps_of thread.new) }
    ensures room { length thread.new.gaps ≡ length thread.old.gaps }
    ensures scale { forest.new.scale ≡ forest.old.scale }
{
    let key = key_of(&gap);
    let nearby = look_near(thread, forest, key, class);
    let slot = thread.vacant();
    let next = plant(thread, forest, key, class, nearby, slot);
    thread.insert(gap, next);
}

/// Takes the gap of a key out of its slot, of the order and of the tree of its class.
#[inline(always)]
pub fn take(thread: &mut Thread, forest: &mut Forest, key: Key, class: usize)
    requires indexed { IsIndexed thread.old forest.old }
    requires class { class ≡ class_in forest.old.scale (code_of key) }
    requires there { HasKeyAt (gaps_of thread.old) key.length key.start }
    ensures indexed { IsIndexed thread.new forest.new }
    ensures gaps { IsRemoved (gaps_of thread.old) key.length key.start (gaps_of thread.new) }
    ensures room { length thread.new.gaps ≡ length thread.old.gaps }
    ensures scale { forest.new.scale ≡ forest.old.scale }
    ensures fewer { length thread.new.order + 1 ≡ length thread.old.order }
{
    thread.sound();
    let slot = forest.remove(key, class);
    thread.remove(slot);
}

/// Whether a length is greater than that of the gap before the one in a slot, if there is one.
#[inline(always)]
fn is_longer(thread: &Thread, slot: u32, size: u64) -> bool
    requires { IsIn slot thread.now.order }
    ensures { (place : ℕ) → place < length thread.now.order
        → slot ≡ slice_index thread.now.order place
        → IsTrue result ↔ IsLonger thread.now place size }
{
    thread.sound();
    let prev = thread.prev(slot);
    prev == 0 || thread.gap(prev).length < size
}

/// Whether a length is less than that of the gap behind the one in a slot, if there is one.
#[inline(always)]
fn is_shorter(thread: &Thread, slot: u32, size: u64) -> bool
    requires { IsIn slot thread.now.order }
    ensures { (place : ℕ) → place < length thread.now.order
        → slot ≡ slice_index thread.now.order place
        → IsTrue result ↔ IsShorter thread.now place size }
{
    thread.sound();
    let next = thread.next(slot);
    next == 0 || size < thread.gap(next).length
}

/// Whether another length than that of the gap in a slot is between those of the gaps beside it. The gaps are in order, so that one of
/// the two tells.
#[inline(always)]
fn stays_between(thread: &Thread, slot: u32, size: u64, other: u64) -> bool
    requires there { IsIn slot thread.now.order }
    requires ordered { AllPairs Before (gaps_of thread.now) }
    requires size { size ≡ (gap_in thread.now.gaps slot).length }
    requires other { other ≢ size }
    ensures { (place : ℕ) → place < length thread.now.order
        → slot ≡ slice_index thread.now.order place
        → IsTrue result ↔ (IsLonger thread.now place other × IsShorter thread.now place other) }
{
    if size < other {
        is_shorter(thread, slot, other)
    } else {
        is_longer(thread, slot, other)
    }
}

/// Puts a gap in its place, and takes the one of that length and start out. It takes no memory. Where the old gap is alone in its class, the
/// new one gets its slot if it is of that class too, or of a class that has no gap and between the two gaps beside the old one.
#[inline(always)]
pub fn exchange(thread: &mut Thread, forest: &mut Forest, size: u64, start: u64, gap: Gap)
    requires indexed { IsIndexed thread.old forest.old }
    requires there { HasKeyAt (gaps_of thread.old) size start }
    requires fresh { (rest : List Gap) → IsRemoved (gaps_of thread.old) size start rest
        → HasNoKey rest gap.length gap.start }
    ensures indexed { IsIndexed thread.new forest.new }
    ensures gaps { IsReplaced (gaps_of thread.old) size start gap (gaps_of thread.new) }
    ensures room { length thread.new.gaps ≡ length thread.old.gaps }
    ensures scale { forest.new.scale ≡ forest.old.scale }
{
    thread.sound();
    let key = Key {
        length: size,
        start,
    };
    let from = forest.class(key);
    let to = forest.class(key_of(&gap));
    if let Some(slot) = forest.lone(from) {
        if from == to {
            thread.set(slot, gap);
            return;
        }
        if forest.has_no_tree(to) && stays_between(thread, slot, size, gap.length) {
            forest.move_leaf(from, to);
            thread.set(slot, gap);
            return;
        }
    }
    take(thread, forest, key, from);
    put(thread, forest, gap, to);
}
