//! What a search costs. It has no bytes, and its methods do nothing at run time.
ghost use Rattle.std.specs.Prelude.{◌≡◌, ℕ, ◌+◌};
ghost use Rattle.std.specs.Borrow.{ftrue};

use std::marker::{Model, PhantomData};

/// Three counts that contracts alone see.
#[derive(Drop)]
pub struct Cost {
    seal: PhantomData<()>,
    pub ghost comparisons: { ℕ },
    pub ghost tests: { ℕ },
    pub ghost lookups: { ℕ },
}

impl Model for Cost {
    ghost also_owns = { λ _. ftrue };
}

/// Who may begin a count: a free list for its own, and a call that only reads a block. The index of gaps and the chain of
/// chunks, in which they search, have no such type, so what those look at is counted in the counter that they were handed.
pub trait BeginsCount {}

impl Cost {
    /// A counter at zero, for a block's own counts or for a call that changes nothing.
    pub fn begin<B: BeginsCount>(_owner: &B) -> Cost
        ensures { (result.comparisons ≡ 0) × (result.tests ≡ 0) × (result.lookups ≡ 0) }
    {
        Cost::new()
    }

    fn new() -> Cost
        ensures { (result.comparisons ≡ 0) × (result.tests ≡ 0) × (result.lookups ≡ 0) }
    {
        Cost { seal: PhantomData }
    }

    fn after_comparison(&self) -> Cost
        ensures { (result.comparisons ≡ self.now.comparisons + 1) × (result.tests ≡ self.now.tests)
            × (result.lookups ≡ self.now.lookups) }
    {
        Cost { seal: PhantomData }
    }

    fn after_test(&self) -> Cost
        ensures { (result.comparisons ≡ self.now.comparisons) × (result.tests ≡ self.now.tests + 1)
            × (result.lookups ≡ self.now.lookups) }
    {
        Cost { seal: PhantomData }
    }

    fn after_lookup(&self) -> Cost
        ensures { (result.comparisons ≡ self.now.comparisons) × (result.tests ≡ self.now.tests)
            × (result.lookups ≡ self.now.lookups + 1) }
    {
        Cost { seal: PhantomData }
    }

    /// Counts one comparison.
    pub fn compare(&mut self)
        ensures comparisons { self.new.comparisons ≡ self.old.comparisons + 1 }
        ensures tests { self.new.tests ≡ self.old.tests }
        ensures lookups { self.new.lookups ≡ self.old.lookups }
    {
        *self = self.after_comparison();
    }

    /// Counts one test.
    pub fn test(&mut self)
        ensures comparisons { self.new.comparisons ≡ self.old.comparisons }
        ensures tests { self.new.tests ≡ self.old.tests + 1 }
        ensures lookups { self.new.lookups ≡ self.old.lookups }
    {
        *self = self.after_test();
    }

    /// Counts one look-up.
    pub fn look_up(&mut self)
        ensures comparisons { self.new.comparisons ≡ self.old.comparisons }
        ensures tests { self.new.tests ≡ self.old.tests }
        ensures lookups { self.new.lookups ≡ self.old.lookups + 1 }
    {
        *self = self.after_lookup();
    }
}
