//! What happened, as a list that contracts alone see.

ghost use Rattle.std.specs.Prelude.{◌≡◌, [], ◌∷◌};

use crate::chain::Chain;
use std::marker::Model;
use std::mem;
use std::snapshot::Snapshot;

/// What happened, newest first. It has no bytes, and its calls do nothing at run time.
#[derive(Drop)]
pub struct History<E> {
    chain: Snapshot<Chain<E>>,
}

impl<E> Model for History<E> {
    ghost use Rattle.std.specs.Prelude.{List};
    ghost use Rattle.gpu_device.specs.Chain.{listed};

    ghost Value = { List E };

    ghost view = { λ h. listed h.chain.value };
}

impl<E> History<E> {
    /// Nothing happened yet.
    pub fn new() -> History<E>
        ensures { result ≡ [] }
    {
        History {
            chain: Snapshot::of(&Chain::Empty),
        }
    }

    /// Adds what happened.
    pub fn push(&mut self, event: &E)
        ensures { self.new ≡ event.now ∷ self.old }
    {
        let before = mem::replace(&mut self.chain, Snapshot::of(&Chain::Empty));
        self.chain = Snapshot::of(&Chain::Then(Snapshot::of(event), before));
    }
}
