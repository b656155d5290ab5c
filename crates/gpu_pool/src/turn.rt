//! Why a call out of turn is refused.

ghost use Rattle.std.specs.Prelude.{◌≡◌};
ghost use Rattle.gpu_values.specs.Refusal.{refusal_of};
ghost use Rattle.gpu_pool.specs.RequestState.{answer_awaited, no_answer_awaited};

use gpu_values::{AllocationError, Fault};

/// A question is open, and has to be answered first.
pub fn answer_awaited() -> AllocationError
    ensures { refusal_of result ≡ answer_awaited }
{
    AllocationError::Internal(Fault {
        text: "An answer is awaited.",
        code: None,
    })
}

/// No question is open.
pub fn no_answer_awaited() -> AllocationError
    ensures { refusal_of result ≡ no_answer_awaited }
{
    AllocationError::Internal(Fault {
        text: "No answer is awaited.",
        code: None,
    })
}
