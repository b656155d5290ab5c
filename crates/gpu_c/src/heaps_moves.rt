//! A second place for a piece of an allocator of DirectX 12's memory: tests what C passes, and says in C's words what the machine answers.

ghost use Rattle.std.specs.Prelude.{◌≡◌, ◌≢◌, ◌↔◌, [], ◌∷◌, None, IsSome};
ghost use Rattle.gpu_c.specs.Status as status;
ghost use Rattle.gpu_c.specs.Status.{IsOneOf};
ghost use Rattle.gpu_c.specs.Heaps.{IsLive};
ghost use Rattle.gpu_c.specs.HeapsMoves.{IsOfPiece, place_told, IsProposed};
ghost use Rattle.gpu_c.specs.declared.status.TheConstants.{OK, INVALID, NOT_LIVE, HOST_OUT_OF_MEMORY, AWAITS_ANSWER};

use crate::heaps_answer::{named_piece, no_piece, piece_told};
use crate::heaps_request::described;
use crate::heaps_values::{HeapsPiece, HeapsRequest};
use crate::status::{AWAITS_ANSWER, HOST_OUT_OF_MEMORY, INVALID, NOT_LIVE, OK};
use gpu_core::Piece;
use gpu_device::d3d12::ID3D12Heap;
use gpu_machine::d3d12::Machine;

/// The second place of a piece of that memory type, or none.
fn place_told(memory_type: usize, place: &Option<Piece<ID3D12Heap>>) -> HeapsPiece
    ensures { result ≡ place_told memory_type place.now }
{
    match place {
        None => no_piece(),
        Some(to) => HeapsPiece {
            memory_type,
            piece: piece_told(to),
        },
    }
}

/// Looks for a second place for a live piece, and tells it, or that the piece stays.
pub fn propose_move(
    machine: &mut Machine,
    piece: &HeapsPiece,
    request: &HeapsRequest,
    name: &[u8],
    moves: &mut bool,
    to: &mut HeapsPiece,
) -> u32
    ensures proposed { result ≡ status.ok → IsProposed machine.old piece.now request.now name.now
        moves.new to.new machine.new }
    ensures awaits_answer { (result ≡ status.awaits_answer) ↔ IsSome machine.old.requests.awaited }
    ensures invalid { (result ≡ status.invalid)
        ↔ (machine.old.requests.awaited ≡ None) × (IsOfPiece piece.now request.now name.now → ⊥) }
    ensures not_live { (result ≡ status.not_live)
        ↔ (machine.old.requests.awaited ≡ None) × IsOfPiece piece.now request.now name.now
        × (IsLive machine.old piece.now → ⊥) }
    ensures host_out_of_memory { result ≡ status.host_out_of_memory
        → (machine.old.requests.awaited ≡ None) × IsOfPiece piece.now request.now name.now
        × IsLive machine.old piece.now }
    ensures statuses { IsOneOf result (status.ok ∷ status.awaits_answer ∷ status.invalid
        ∷ status.not_live ∷ status.host_out_of_memory ∷ []) }
    ensures refused { result ≢ status.ok → (machine.new ≡ machine.old) × (moves.new ≡ moves.old)
        × (to.new ≡ to.old) }
{
    if machine.awaits_answer() {
        return AWAITS_ANSWER;
    }
    let Some(desc) = described(request, name) else {
        return INVALID;
    };
    if request.size != piece.piece.size {
        return INVALID;
    }
    match named_piece(piece) {
        None => NOT_LIVE,
        Some(named) => {
            if !machine.is_live(piece.memory_type, &named) {
                return NOT_LIVE;
            }
            match machine.propose_move(piece.memory_type, &named, &desc) {
                Err(_) => HOST_OUT_OF_MEMORY,
                Ok(place) => {
                    *moves = place.is_some();
                    *to = place_told(piece.memory_type, &place);
                    OK
                }
            }
        }
    }
}
