//! A tree over the bits of keys, whose forks lie in slots.

ghost use Rattle.std.specs.Prelude.{◌≡◌, ◌≢◌, ℕ, ◌<◌, ◌+◌, ◌^◌, Some, if◌then◌else◌};
ghost use Rattle.std.specs.List.{slice_get};
ghost use Rattle.gpu_rows.specs.Rows.{row_count};
ghost use Rattle.gpu_block_gaps.specs.Key.{code_of, bit_of};
ghost use Rattle.gpu_block_gaps.specs.Packed.{IsSmall};
ghost use Rattle.gpu_block_gaps.specs.Tree.{Tree, Lays, Sorted, leaves_of, first_leaf, last_leaf, near, grown, CanGrow, HasGrown, HasPruned, IsSplit, IsPlace};

use crate::key::Key;
use crate::packed::Packed;
use gpu_rows::Rows;

/// Where a branch leads: to a leaf, which names a record, or to the fork in a slot.
#[derive(Clone, Copy)]
pub enum Node {
    Leaf(u32),
    Branch(u32),
}

/// Keys without the bit are found along `zero`, those with it along `one`.
#[derive(Clone, Copy)]
pub struct Fork {
    pub zero: Packed,
    pub one: Packed,
    pub bit: u32,
}

/// The leaf beside which the place of a key is.
#[derive(Clone, Copy)]
pub enum Place {
    Before(u32),
    After(u32),
}

/// What stands at a node with one leaf more, and the leaf beside which that one is.
#[derive(Clone, Copy)]
pub struct Grown {
    pub node: Node,
    pub place: Place,
}

/// What stands at a node without a leaf, the slot of the fork that is no longer used, and the leaf.
#[derive(Clone, Copy)]
pub struct Cut {
    pub node: Node,
    pub slot: u32,
    pub leaf: u32,
}

/// The slot of the fork that is no longer used, and the leaf that is gone.
#[derive(Clone, Copy)]
pub struct Gone {
    pub slot: u32,
    pub leaf: u32,
}

impl Fork {
    /// The branch of the keys with the bit, or of those without it.
    pub fn branch(&self, set: bool) -> Node
        ensures is { result ≡ (if set then self.now.one else self.now.zero) }
        ensures small { IsSmall result }
    {
        let packed = if set { self.one } else { self.zero };
        packed.node()
    }

    /// The fork with another branch of the keys with the bit, or of those without it.
    fn with_branch(&self, set: bool, branch: Node) -> Fork
        requires { IsSmall branch }
        ensures { result ≡ (if set then record self.now { one = branch }
            else record self.now { zero = branch }) }
    {
        let branch = Packed::new(branch);
        if set {
            Fork {
                zero: self.zero,
                one: branch,
                bit: self.bit,
            }
        } else {
            Fork {
                zero: branch,
                one: self.one,
                bit: self.bit,
            }
        }
    }

    /// A fork with a leaf beside a node, along the branch of the keys with the bit or of those without it.
    fn beside(bit: u32, set: bool, node: Node, leaf: u32) -> Fork
        requires node { IsSmall node }
        requires leaf { leaf + 1 < 2 ^ 31 }
        ensures { result ≡ (if set then record { zero = node; one = Node.Leaf leaf; bit = bit }
            else record { zero = Node.Leaf leaf; one = node; bit = bit }) }
    {
        let node = Packed::new(node);
        let leaf = Packed::new(Node::Leaf(leaf));
        if set {
            Fork {
                zero: node,
                one: leaf,
                bit,
            }
        } else {
            Fork {
                zero: leaf,
                one: node,
                bit,
            }
        }
    }
}

/// The fork in a slot.
fn fork_in(forks: &Rows<Fork>, slot: u32) -> Fork
    requires { slot < row_count forks.now }
    ensures { slice_get forks.now.items slot ≡ Some result }
{
    forks[slot as usize]
}

/// Writes a fork into a slot.
fn put(forks: &mut Rows<Fork>, slot: u32, fork: Fork)
    requires { slot < row_count forks.old }
    ensures changed { slice_get forks.new.items slot ≡ Some fork }
    ensures others { (k : ℕ) → k ≢ slot
        → slice_get forks.new.items k ≡ slice_get forks.old.items k }
    ensures count { row_count forks.new ≡ row_count forks.old }
{
    forks[slot as usize] = fork;
}

/// The leaf of the least key.
pub fn first(forks: &Rows<Fork>, node: Node) -> u32
    requires { (t : Tree) × Lays (slice_get forks.now.items) 128 node t }
    ensures { (t : Tree) → Lays (slice_get forks.now.items) 128 node t → result ≡ first_leaf t }
{
    match node {
        Node::Leaf(leaf) => leaf,
        Node::Branch(slot) => first(forks, fork_in(forks, slot).zero.node()),
    }
}

/// The leaf of the greatest key.
pub fn last(forks: &Rows<Fork>, node: Node) -> u32
    requires { (t : Tree) × Lays (slice_get forks.now.items) 128 node t }
    ensures { (t : Tree) → Lays (slice_get forks.now.items) 128 node t → result ≡ last_leaf t }
{
    match node {
        Node::Leaf(leaf) => leaf,
        Node::Branch(slot) => last(forks, fork_in(forks, slot).one.node()),
    }
}

/// The leaf to which the bits of a key lead.
pub fn nearest(forks: &Rows<Fork>, node: Node, key: Key) -> u32
    requires { (t : Tree) × Lays (slice_get forks.now.items) 128 node t }
    ensures { (t : Tree) → Lays (slice_get forks.now.items) 128 node t → result ≡ near (code_of key) t }
{
    match node {
        Node::Leaf(leaf) => leaf,
        Node::Branch(slot) => {
            let fork = fork_in(forks, slot);
            nearest(forks, fork.branch(key.is_set(fork.bit)), key)
        }
    }
}

/// The place of a key beside all leaves of a node: before the first one, or behind the last one if the key has the bit that they haven't.
#[inline(always)]
fn place_beside(forks: &Rows<Fork>, node: Node, set: bool) -> Place
    requires { (t : Tree) × Lays (slice_get forks.now.items) 128 node t }
    ensures { (t : Tree) → Lays (slice_get forks.now.items) 128 node t
        → result ≡ (if set then Place.After (last_leaf t) else Place.Before (first_leaf t)) }
{
    if set {
        Place::After(last(forks, node))
    } else {
        Place::Before(first(forks, node))
    }
}

/// The place of a key that differs in that bit from the key to which its bits lead, and in none above it.
pub fn place_of(forks: &Rows<Fork>, node: Node, key: Key, bit: u32) -> Place
    requires laid { (t : Tree) × Lays (slice_get forks.now.items) 128 node t }
    requires bit { bit < 128 }
    ensures { (at : ℕ → ℕ) (t : Tree) → Lays (slice_get forks.now.items) 128 node t
        → IsSplit at t (code_of key) bit → IsPlace at (code_of key) (leaves_of t) result }
{
    if let Node::Branch(at) = node {
        let fork = fork_in(forks, at);
        if bit < fork.bit {
            return place_of(forks, fork.branch(key.is_set(fork.bit)), key, bit);
        }
    }
    place_beside(forks, node, key.is_set(bit))
}

/// Puts a leaf into the tree at a fork above that bit, by a fork in a slot: it goes beside the part from which its key differs in that bit,
/// and in none above it. Returns the leaf beside which it is then.
fn insert_below(
    forks: &mut Rows<Fork>,
    above: u32,
    key: Key,
    bit: u32,
    leaf: u32,
    slot: u32,
) -> Place
    requires laid { (t : Tree) × Lays (slice_get forks.old.items) 128 (Node.Branch above) t }
    requires slot { (slot < row_count forks.old) × (slot < 2 ^ 31) }
    requires leaf { leaf + 1 < 2 ^ 31 }
    requires bit { bit < 128 }
    requires higher { (f : Fork) × (slice_get forks.old.items above ≡ Some f) × (bit < f.bit) }
    ensures grown { (at : ℕ → ℕ) (top : ℕ) (t : Tree)
        → CanGrow at (slice_get forks.old.items) top (Node.Branch above) t (code_of key) bit slot
        → HasGrown (slice_get forks.old.items) (slice_get forks.new.items) top (Node.Branch above) t
        (grown (code_of key) bit leaf slot t) slot }
    ensures place { (at : ℕ → ℕ) (t : Tree)
        → Lays (slice_get forks.old.items) 128 (Node.Branch above) t → IsSplit at t (code_of key) bit
        → IsPlace at (code_of key) (leaves_of t) result }
    ensures count { row_count forks.new ≡ row_count forks.old }
{
    let fork = fork_in(forks, above);
    let set = key.is_set(fork.bit);
    let branch = fork.branch(set);
    if let Node::Branch(below) = branch {
        if bit < fork_in(forks, below).bit {
            return insert_below(forks, below, key, bit, leaf, slot);
        }
    }
    let on = key.is_set(bit);
    let place = place_beside(forks, branch, on);
    put(forks, slot, Fork::beside(bit, on, branch, leaf));
    put(forks, above, fork.with_branch(set, Node::Branch(slot)));
    place
}

/// Puts a leaf into a tree beside the part from which its key differs in that bit, and in none above it, by a fork in a slot.
pub fn insert(forks: &mut Rows<Fork>, node: Node, key: Key, bit: u32, leaf: u32, slot: u32) -> Grown
    requires laid { (t : Tree) × Lays (slice_get forks.old.items) 128 node t }
    requires node { IsSmall node }
    requires slot { (slot < row_count forks.old) × (slot < 2 ^ 31) }
    requires leaf { leaf + 1 < 2 ^ 31 }
    requires bit { bit < 128 }
    ensures small { IsSmall result.node }
    ensures grown { (at : ℕ → ℕ) (top : ℕ) (t : Tree)
        → CanGrow at (slice_get forks.old.items) top node t (code_of key) bit slot
        → HasGrown (slice_get forks.old.items) (slice_get forks.new.items) top result.node t
        (grown (code_of key) bit leaf slot t) slot }
    ensures place { (at : ℕ → ℕ) (t : Tree) → Lays (slice_get forks.old.items) 128 node t
        → IsSplit at t (code_of key) bit
        → IsPlace at (code_of key) (leaves_of t) result.place }
    ensures count { row_count forks.new ≡ row_count forks.old }
{
    if let Node::Branch(at) = node {
        if bit < fork_in(forks, at).bit {
            let place = insert_below(forks, at, key, bit, leaf, slot);
            return Grown { node, place };
        }
    }
    let on = key.is_set(bit);
    let place = place_beside(forks, node, on);
    put(forks, slot, Fork::beside(bit, on, node, leaf));
    Grown {
        node: Node::Branch(slot),
        place,
    }
}

/// Takes the leaf to which the bits of a key lead out of the tree at a fork, along whose branch of the key there is another fork.
fn remove_below(forks: &mut Rows<Fork>, slot: u32, below: u32, key: Key) -> Gone
    requires laid { (t : Tree) × Lays (slice_get forks.old.items) 128 (Node.Branch slot) t }
    requires deeper { (f : Fork) × (slice_get forks.old.items slot ≡ Some f)
        × ((if bit_of (code_of key) f.bit then f.one else f.zero) ≡ Node.Branch below) }
    ensures tree { (at : ℕ → ℕ) (top : ℕ) (t : Tree)
        → Lays (slice_get forks.old.items) top (Node.Branch slot) t → Sorted at t
        → HasPruned (slice_get forks.old.items) (slice_get forks.new.items) top (Node.Branch slot) t
        (code_of key) result.slot }
    ensures leaf { (t : Tree) → Lays (slice_get forks.old.items) 128 (Node.Branch slot) t
        → result.leaf ≡ near (code_of key) t }
    ensures count { row_count forks.new ≡ row_count forks.old }
{
    let next = fork_in(forks, below);
    let on = key.is_set(next.bit);
    match next.branch(on) {
        Node::Leaf(leaf) => {
            let fork = fork_in(forks, slot);
            let set = key.is_set(fork.bit);
            put(forks, slot, fork.with_branch(set, next.branch(!on)));
            Gone { slot: below, leaf }
        }
        Node::Branch(deeper) => remove_below(forks, below, deeper, key),
    }
}

/// Takes the leaf to which the bits of a key lead out of the tree at a fork.
pub fn remove(forks: &mut Rows<Fork>, slot: u32, key: Key) -> Cut
    requires laid { (t : Tree) × Lays (slice_get forks.old.items) 128 (Node.Branch slot) t }
    requires slot { slot < 2 ^ 31 }
    ensures small { IsSmall result.node }
    ensures tree { (at : ℕ → ℕ) (top : ℕ) (t : Tree)
        → Lays (slice_get forks.old.items) top (Node.Branch slot) t → Sorted at t
        → HasPruned (slice_get forks.old.items) (slice_get forks.new.items) top result.node t (code_of key)
        result.slot }
    ensures leaf { (t : Tree) → Lays (slice_get forks.old.items) 128 (Node.Branch slot) t
        → result.leaf ≡ near (code_of key) t }
    ensures count { row_count forks.new ≡ row_count forks.old }
{
    let fork = fork_in(forks, slot);
    let set = key.is_set(fork.bit);
    match fork.branch(set) {
        Node::Leaf(leaf) => Cut {
            node: fork.branch(!set),
            slot,
            leaf,
        },
        Node::Branch(below) => {
            let gone = remove_below(forks, slot, below, key);
            Cut {
                node: Node::Branch(slot),
                slot: gone.slot,
                leaf: gone.leaf,
            }
        }
    }
}
