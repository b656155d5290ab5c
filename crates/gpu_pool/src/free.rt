//! Pieces that are freed, and blocks that go back.

ghost use Rattle.std.specs.Prelude.{◌≡◌, ℕ, None};
ghost use Rattle.gpu_core.specs.Types.{slots_of};
ghost use Rattle.gpu_pool.specs.Free.{PoolFrees, GivesBackAll, GivesBackOf};
ghost use Rattle.gpu_pool.specs.Handles.{all_handles};
ghost use Rattle.gpu_pool.specs.Held.{HoldsJustBlocks};
ghost use Rattle.gpu_pool.specs.RequestState.{pool_of};
ghost use Rattle.gpu_pool.specs.Source.{result_of};

use crate::BlockSource;
use crate::handles::all_handles;
use crate::requests::Requests;
use gpu_core::{MemoryTypes, Piece};
use gpu_values::Result;

/// Frees a piece of the memory type at `index`, and gives its block back where that goes. It takes no memory.
pub fn free_piece<S: BlockSource>(
    source: &mut S,
    requests: &mut Requests<S::Handle>,
    index: usize,
    piece: &Piece<S::Handle>,
) -> Result<()>
    requires closed { requests.old.awaited ≡ None }
    requires holds { HoldsJustBlocks S.number (S.held source.old) requests.old.slots }
    ensures frees { PoolFrees (GivesBackOf S.BlockSource) S.Handle.eq index piece.now
        (pool_of source.old requests.old) (result_of result) (pool_of source.new requests.new) }
    ensures closed { requests.new.awaited ≡ None }
    ensures kinds { requests.new.kinds ≡ requests.old.kinds }
{
    match requests.free(index, piece) {
        Err(error) => Err(error),
        Ok(None) => Ok(()),
        Ok(Some(handle)) => {
            source.give_back(handle);
            Ok(())
        }
    }
}

/// Gives every block back.
pub fn give_back_all<S: BlockSource>(source: &mut S, types: &MemoryTypes<S::Handle>)
    requires { HoldsJustBlocks S.number (S.held source.old) (slots_of types.now) }
    ensures none { (n : ℕ) → S.held source.new n ≡ None }
    ensures gives_back { GivesBackAll S.gives_back source.old (all_handles (slots_of types.now))
        source.new }
    ensures constant { S.kinds source.new ≡ S.kinds source.old }
{
    for handle in all_handles(types) {
        source.give_back(handle);
    }
}
