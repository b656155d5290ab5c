//! Laws of the definitions, each the contract of a function that does nothing.

ghost use Rattle.std.specs.Prelude.{◌≡◌, ◌<◌, ℕ, Bool, List, Ok};
ghost use Rattle.gpu_block_pieces.specs.Request.{Request};
ghost use Rattle.gpu_core.specs.Blocks.{slots_at};
ghost use Rattle.gpu_core.specs.Moves.{moves_left};
ghost use Rattle.gpu_core.specs.declared.piece.Piece.{Piece};
ghost use Rattle.gpu_pool.specs.Allocate.{Environment};
ghost use Rattle.gpu_pool.specs.Free.{PoolFrees};
ghost use Rattle.gpu_pool.specs.Move.{GivesSecondPlace};
ghost use Rattle.gpu_pool.specs.Reply.{Reply};
ghost use Rattle.gpu_pool.specs.State.{State, IsSoundAt, without_budgets};
ghost use Rattle.gpu_pool.specs.Step.{Call, Step, AskDecides, GiveBackDecides, MeetsNoBudget};

use crate::BlockSource;

/// The model isn't loose: a state, a call and what it met with decide the reply and the next state, where a source's answer
/// decides what is left of the source.
pub fn one_step<S: BlockSource>()
    ensures { AskDecides S.asks → GiveBackDecides S.gives_back
        → (kinds : List (Bool × ℕ)) (call : Call S.Handle S.Extra) (met : Environment S.Handle)
        (a b : Reply S.Handle) → (old new next : State S S.Handle)
        → ((t : ℕ) → IsSoundAt kinds old.slots t)
        → Step kinds S.asks S.gives_back S.Handle.eq old call met a new
        → Step kinds S.asks S.gives_back S.Handle.eq old call met b next → (a ≡ b) × (new ≡ next) }
{}

/// Budgets of memory types that aren't asked decide nothing: a call that asks no memory type with a budget returns and steps
/// as if there were no budgets.
pub fn unasked_budgets_decide_nothing<S: BlockSource>()
    ensures { (kinds : List (Bool × ℕ)) (call : Call S.Handle S.Extra) (met : Environment S.Handle)
        (reply : Reply S.Handle) → (old new : State S S.Handle) → MeetsNoBudget call old.budgets
        → Step kinds S.asks S.gives_back S.Handle.eq old call met reply new
        → Step kinds S.asks S.gives_back S.Handle.eq (without_budgets old) call met reply
        (without_budgets new) }
{}

/// Moves end: a move that is carried out leaves fewer moves.
pub fn moves_end<S: BlockSource>()
    ensures { (t : ℕ) (from to : Piece S.Handle) (r : Request) (old mid new : State S S.Handle)
        (done : Unit {0}) → GivesSecondPlace S.Handle.eq t from r old.slots to mid.slots
        → PoolFrees S.gives_back S.Handle.eq t from mid (Ok done) new
        → moves_left (slots_at new.slots t) < moves_left (slots_at old.slots t) }
{}
