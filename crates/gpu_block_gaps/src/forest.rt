//! A tree for each class of lengths, all in one row of slots.

ghost use Rattle.std.specs.Prelude.{◌≡◌, ◌≢◌, ℕ, ◌+◌, ◌^◌, ◌<◌, ◌≤◌, ◌⊎◌, List, [], Option, Some, None, MatchOption, IfSome, OnOk, vec_len, slice_set, IsTrue, ◌↔◌};
ghost use Rattle.gpu_rows.specs.Rows.{row_count};
ghost use Rattle.gpu_block_gaps.specs.Key.{code_of};
ghost use Rattle.gpu_block_gaps.specs.Class.{IsFew};
ghost use Rattle.gpu_block_gaps.specs.Packed.{IsSmall};
ghost use Rattle.gpu_block_gaps.specs.Tree.{Tree, tip, near, leaves_of, IsSplit, IsPlace};
ghost use Rattle.gpu_block_gaps.specs.Forest.{IsForest, HasTree, HasTreeIn, AddsLeaf, LosesLeaf, IsFirstLater, IsWide, KeepsTrees, KeepsRoom, class_in, tree_at, root_at};

use crate::class::Scale;
use crate::class_set::ClassSet;
use crate::key::Key;
use crate::packed::Packed;
use crate::root::Root;
use crate::tree::{Fork, Node, Place, first, insert, nearest, place_of, remove};
use gpu_rows::Rows;
use std::alloc::{AllocError, Global};

/// The trees of all classes that have a gap.
#[derive(Drop)]
pub struct Forest {
    pub(crate) forks: Rows<Fork>,
    // The slots that no tree has.
    pub(crate) spare: Rows<u32>,
    pub(crate) roots: Vec<Root>,
    pub(crate) classes: ClassSet,
    pub(crate) scale: Scale,
}

impl Forest {
    /// A forest without trees, with the classes of a scale. It has taken no memory.
    pub fn new(alloc: Global, scale: Scale) -> Forest
        requires { IsFew scale }
        ensures trees { (at : ℕ → ℕ) → IsForest at result [] }
        ensures room { row_count result.forks ≡ 0 }
        ensures scale { result.scale ≡ scale }
    {
        Forest {
            forks: Rows::new(alloc),
            spare: Rows::new(alloc),
            roots: Vec::new(alloc),
            classes: ClassSet::new(alloc),
            scale,
        }
    }

    /// Makes a place for a root of each class. A refusal changes nothing.
    fn widen(&mut self) -> Result<(), AllocError>
        requires { IsFew self.old.scale }
        ensures trees { (at : ℕ → ℕ) (trees : List (Option Tree)) → IsForest at self.old trees
            → (same : List (Option Tree)) × IsForest at self.new same × KeepsTrees trees same }
        ensures wide { OnOk result (0 < vec_len self.old.roots ⊎ IsWide self.new) }
        ensures kept { (0 < vec_len self.old.roots → self.new ≡ self.old)
            × (self.new.forks ≡ self.old.forks) × (self.new.scale ≡ self.old.scale) }
    {
        if !self.roots.is_empty() {
            return Ok(());
        }
        let alloc = *self.roots.allocator();
        let count = self.scale.last as usize + 1;
        let roots = vec![in alloc; Root::empty(); count]?;
        let classes = ClassSet::with_room(alloc, count)?;
        self.roots = roots;
        self.classes = classes;
        Ok(())
    }

    /// Adds a slot for a fork. There is room for it.
    fn add_slot(&mut self)
        requires few { row_count self.old.forks < 2 ^ 31 }
        requires forks { row_count self.old.forks < self.old.forks.capacity }
        requires spare { row_count self.old.spare < self.old.spare.capacity }
        ensures trees { (at : ℕ → ℕ) (trees : List (Option Tree))
            → row_count self.old.forks < self.old.spare.capacity → IsForest at self.old trees
            → IsForest at self.new trees }
        ensures slots { (row_count self.new.forks ≡ row_count self.old.forks + 1)
            × (row_count self.new.spare ≡ row_count self.old.spare + 1) }
        ensures room { (self.new.forks.capacity ≡ self.old.forks.capacity)
            × (self.new.spare.capacity ≡ self.old.spare.capacity) }
        ensures others { (self.new.roots ≡ self.old.roots) × (self.new.scale ≡ self.old.scale) }
    {
        self.spare.push_reserved(self.forks.len() as u32);
        self.forks.push_reserved(Fork {
            zero: Packed::new(Node::Branch(0)),
            one: Packed::new(Node::Branch(0)),
            bit: 0,
        });
    }

    /// Makes room for that many leaves in all. No tree changes.
    pub fn reserve_to(&mut self, count: usize) -> Result<(), AllocError>
        requires forest { (at : ℕ → ℕ) × (trees : List (Option Tree)) × IsForest at self.old trees }
        requires few { count < 2 ^ 31 }
        ensures trees { (at : ℕ → ℕ) (trees : List (Option Tree)) → IsForest at self.old trees
            → (same : List (Option Tree)) × IsForest at self.new same × KeepsTrees trees same }
        ensures room { OnOk result (IsWide self.new × (count ≤ row_count self.new.forks)) }
        ensures kept { (IsWide self.old → IsWide self.new)
            × (row_count self.old.forks ≤ row_count self.new.forks) }
        ensures scale { self.new.scale ≡ self.old.scale }
    {
        self.widen()?;
        self.forks.reserve(count.saturating_sub(self.forks.len()))?;
        self.spare.reserve(count.saturating_sub(self.spare.len()))?;
        while self.forks.len() < count {
            self.add_slot();
        }
        Ok(())
    }

    /// The class of a key.
    pub fn class(&self, key: Key) -> usize
        requires { self.now.scale.digits < 32 }
        ensures class { result ≡ class_in self.now.scale (code_of key) }
        ensures within { result ≤ self.now.scale.last }
    {
        self.scale.class(key.length)
    }

    fn root(&self, class: usize) -> Option<Node>
        ensures is { result ≡ root_at self.now.roots.items class }
        ensures small { IfSome result IsSmall }
    {
        match self.roots.get(class) {
            Some(root) => root.node(),
            None => None,
        }
    }

    /// The root of a class that has a tree.
    #[inline(always)]
    fn root_of(&self, class: usize) -> Node
        requires { HasTreeIn self.now class }
        ensures is { root_at self.now.roots.items class ≡ Some result }
        ensures small { IsSmall result }
    {
        self.roots[class].node_there()
    }

    /// The leaf of a class that has a gap, if it has no other.
    #[inline(always)]
    pub fn lone(&self, class: usize) -> Option<u32>
        requires { HasTreeIn self.now class }
        ensures { (at : ℕ → ℕ) (trees : List (Option Tree)) → IsForest at self.now trees
            → MatchOption result ((leaf : ℕ) → tree_at trees class ≢ Some (tip leaf))
            (λ leaf. tree_at trees class ≡ Some (tip leaf)) }
    {
        match self.root_of(class) {
            Node::Leaf(leaf) => Some(leaf),
            Node::Branch(_) => None,
        }
    }

    /// Whether a class has no gap.
    #[inline(always)]
    pub fn has_no_tree(&self, class: usize) -> bool
        ensures { (at : ℕ → ℕ) (trees : List (Option Tree)) → IsForest at self.now trees
            → IsTrue result ↔ (tree_at trees class ≡ None) }
    {
        self.root(class).is_none()
    }

    /// Moves the leaf that a class has alone to another one, which has no tree. The leaf's key becomes one of that class.
    #[inline(always)]
    pub fn move_leaf(&mut self, from: usize, to: usize)
        requires from { HasTreeIn self.old from }
        requires to { to ≤ self.old.scale.last }
        ensures trees { (at new : ℕ → ℕ) (trees : List (Option Tree)) (leaf : ℕ)
            → IsForest at self.old trees
            → tree_at trees from ≡ Some (tip leaf) → tree_at trees to ≡ None
            → ((l : ℕ) → l ≢ leaf → new l ≡ at l) → to ≡ class_in self.old.scale (new leaf)
            → IsForest new self.new (slice_set (slice_set trees from None) to (Some (tip leaf))) }
        ensures room { KeepsRoom self.old self.new }
    {
        let root = self.roots[from];
        self.roots[from] = Root::empty();
        self.classes.remove(from);
        self.roots[to] = root;
        self.classes.insert(to);
    }

    /// The leaf to which the bits of a key lead, in the tree of its class.
    pub fn near(&self, key: Key, class: usize) -> Option<u32>
        requires forest { (at : ℕ → ℕ) × (trees : List (Option Tree)) × IsForest at self.now trees }
        requires class { class ≡ class_in self.now.scale (code_of key) }
        ensures { (at : ℕ → ℕ) (trees : List (Option Tree)) → IsForest at self.now trees
            → let c = class_in self.now.scale (code_of key)
            in MatchOption result (tree_at trees c ≡ None)
            (λ leaf. (t : Tree) × (tree_at trees c ≡ Some t) × (leaf ≡ near (code_of key) t)) }
    {
        let root = self.root(class)?;
        Some(nearest(&self.forks, root, key))
    }

    /// The place of a key in the tree of its class, if it differs in that bit from the key to which its bits lead, and in none above it.
    pub fn place(&self, key: Key, class: usize, bit: u32) -> Place
        requires there { HasTree self.now (code_of key) }
        requires class { class ≡ class_in self.now.scale (code_of key) }
        requires bit { bit < 128 }
        ensures { (at : ℕ → ℕ) (trees : List (Option Tree)) (t : Tree) → IsForest at self.now trees
            → tree_at trees (class_in self.now.scale (code_of key)) ≡ Some t
            → IsSplit at t (code_of key) bit → IsPlace at (code_of key) (leaves_of t) result }
    {
        let root = self.root_of(class);
        place_of(&self.forks, root, key, bit)
    }

    /// The first leaf of the classes behind that one.
    #[inline(always)]
    pub fn first_later(&self, class: usize) -> Option<u32>
        requires forest { (at : ℕ → ℕ) × (trees : List (Option Tree)) × IsForest at self.now trees }
        requires class { class ≤ self.now.scale.last }
        ensures { (at : ℕ → ℕ) (trees : List (Option Tree)) → IsForest at self.now trees
            → MatchOption result ((c : ℕ) → class < c → tree_at trees c ≡ None)
            (IsFirstLater trees class) }
    {
        let later = self.classes.next_from(class + 1)?;
        let root = self.root_of(later);
        Some(first(&self.forks, root))
    }

    /// Puts a leaf into a class that has no tree.
    pub fn insert_first(&mut self, key: Key, class: usize, leaf: u32)
        requires forest { (at : ℕ → ℕ) × (trees : List (Option Tree)) × IsForest at self.old trees }
        requires class { class ≡ class_in self.old.scale (code_of key) }
        requires wide { IsWide self.old }
        requires leaf { leaf + 1 < 2 ^ 31 }
        ensures trees { (at : ℕ → ℕ) (trees : List (Option Tree)) → IsForest at self.old trees
            → at leaf ≡ code_of key → let c = class_in self.old.scale (code_of key)
            in tree_at trees c ≡ None
            → IsForest at self.new (slice_set trees c (Some (tip leaf))) }
        ensures room { KeepsRoom self.old self.new }
    {
        self.roots[class] = Root::at(Node::Leaf(leaf));
        self.classes.insert(class);
    }

    /// Puts a leaf into the tree of its class. Its key differs in that bit from the key to which its bits lead, and in none above it.
    /// Returns the leaf beside which it is then.
    #[inline(always)]
    pub fn insert_beside(&mut self, key: Key, class: usize, bit: u32, leaf: u32) -> Place
        requires there { HasTree self.old (code_of key) }
        requires class { class ≡ class_in self.old.scale (code_of key) }
        requires bit { bit < 128 }
        requires spare { 0 < row_count self.old.spare }
        requires leaf { leaf + 1 < 2 ^ 31 }
        ensures trees { (at : ℕ → ℕ) (trees : List (Option Tree)) (t : Tree)
            → IsForest at self.old trees → at leaf ≡ code_of key
            → let c = class_in self.old.scale (code_of key) in tree_at trees c ≡ Some t
            → IsSplit at t (code_of key) bit
            → (grows : Tree) × IsForest at self.new (slice_set trees c (Some grows))
            × AddsLeaf leaf t grows }
        ensures place { (at : ℕ → ℕ) (trees : List (Option Tree)) (t : Tree)
            → IsForest at self.old trees
            → tree_at trees (class_in self.old.scale (code_of key)) ≡ Some t
            → IsSplit at t (code_of key) bit → IsPlace at (code_of key) (leaves_of t) result }
        ensures room { KeepsRoom self.old self.new }
    {
        let node = self.root_of(class);
        let Some(slot) = self.spare.pop() else {
            unreachable!()
        };
        let grown = insert(&mut self.forks, node, key, bit, leaf, slot);
        self.roots[class] = Root::at(grown.node);
        grown.place
    }

    /// Takes the leaf to which the bits of a key lead out of the tree of its class.
    #[inline(always)]
    pub fn remove(&mut self, key: Key, class: usize) -> u32
        requires there { HasTree self.old (code_of key) }
        requires class { class ≡ class_in self.old.scale (code_of key) }
        ensures trees { (at : ℕ → ℕ) (trees : List (Option Tree)) (t : Tree)
            → IsForest at self.old trees → let c = class_in self.old.scale (code_of key)
            in tree_at trees c ≡ Some t
            → (rest : Option Tree) × IsForest at self.new (slice_set trees c rest)
            × LosesLeaf (near (code_of key) t) t rest }
        ensures leaf { (at : ℕ → ℕ) (trees : List (Option Tree)) (t : Tree)
            → IsForest at self.old trees
            → tree_at trees (class_in self.old.scale (code_of key)) ≡ Some t
            → result ≡ near (code_of key) t }
        ensures room { KeepsRoom self.old self.new }
    {
        match self.root_of(class) {
            Node::Branch(slot) => {
                let cut = remove(&mut self.forks, slot, key);
                self.roots[class] = Root::at(cut.node);
                self.spare.push_reserved(cut.slot);
                cut.leaf
            }
            Node::Leaf(leaf) => {
                self.roots[class] = Root::empty();
                self.classes.remove(class);
                leaf
            }
        }
    }
}
