//! Laws of the definitions, each the contract of a function that does nothing.

ghost use Rattle.std.specs.Prelude.{◌≡◌, ℕ, List};
ghost use Rattle.gpu_core.specs.Blocks.{BlocksWellFormed};
ghost use Rattle.gpu_d3d12.specs.Reply.{Reply};
ghost use Rattle.gpu_d3d12.specs.State.{Basis, Model, without_budgets};
ghost use Rattle.gpu_d3d12.specs.Step.{Call, Environment, Step, MeetsNoBudget};
ghost use Rattle.gpu_values.specs.declared.memory_location.MemoryLocation.{MemoryLocation};
ghost use Rattle.gpu_d3d12.specs.declared.category.ResourceCategory.{ResourceCategory};
ghost use Rattle.gpu_d3d12.specs.declared.memory_kind.MemoryKind.{MemoryKind};
ghost use Rattle.gpu_d3d12.specs.MemoryKinds.{IsFirstServing};

/// A request is served by one memory type: no two are the first that serves it.
pub fn one_memory_type()
    ensures { (location : MemoryLocation) (category : ResourceCategory) (kinds : List MemoryKind)
        (i j : ℕ) → IsFirstServing location category kinds i
        → IsFirstServing location category kinds j → i ≡ j }
{}

/// The model isn't loose: a state, a call and what it met with decide the reply and the next state.
pub fn one_step()
    ensures { (basis : Basis) (call : Call) (met : Environment) (a b : Reply) (old new next : Model)
        → BlocksWellFormed 1 old.pool.slots → Step basis call met a old new
        → Step basis call met b old next → (a ≡ b) × (new ≡ next) }
{}

/// Budgets of memory types that aren't asked decide nothing: a call that asks no memory type with a budget returns and steps
/// as if there were no budgets.
pub fn unasked_budgets_decide_nothing()
    ensures { (basis : Basis) (call : Call) (met : Environment) (reply : Reply) (old new : Model)
        → MeetsNoBudget basis call old.pool.budgets → Step basis call met reply old new
        → Step basis call met reply (without_budgets old) (without_budgets new) }
{}
