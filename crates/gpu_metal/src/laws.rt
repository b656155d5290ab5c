//! Laws of the definitions, each the contract of a function that does nothing.

ghost use Rattle.std.specs.Prelude.{◌≡◌, ℕ};
ghost use Rattle.gpu_device.specs.declared.metal.types.MTLHeap.{MTLHeap};
ghost use Rattle.gpu_core.specs.Blocks.{BlocksWellFormed};
ghost use Rattle.gpu_pool.specs.Allocate.{Environment};
ghost use Rattle.gpu_pool.specs.Reply.{Reply};
ghost use Rattle.gpu_pool.specs.State.{without_budgets};
ghost use Rattle.gpu_metal.specs.State.{Model};
ghost use Rattle.gpu_metal.specs.Step.{Call, Step, MeetsNoBudget};
ghost use Rattle.gpu_values.specs.declared.memory_location.MemoryLocation.{MemoryLocation};
ghost use Rattle.gpu_metal.specs.MemoryKinds.{IsFirstServing};

/// A location is served by one memory type: no two are the first that serves it.
pub fn one_memory_type()
    ensures { (location : MemoryLocation) (i j : ℕ) → IsFirstServing location i
        → IsFirstServing location j → i ≡ j }
{}

/// The model isn't loose: a state, a call and what it met with decide the reply and the next state.
pub fn one_step()
    ensures { (call : Call) (met : Environment MTLHeap) (a b : Reply MTLHeap) (old new next : Model)
        → BlocksWellFormed 1 old.slots → Step call met a old new → Step call met b old next
        → (a ≡ b) × (new ≡ next) }
{}

/// Budgets of memory types that aren't asked decide nothing: a call that asks no memory type with a budget returns and steps
/// as if there were no budgets.
pub fn unasked_budgets_decide_nothing()
    ensures { (call : Call) (met : Environment MTLHeap) (reply : Reply MTLHeap) (old new : Model)
        → MeetsNoBudget call old.budgets → Step call met reply old new
        → Step call met reply (without_budgets old) (without_budgets new) }
{}
