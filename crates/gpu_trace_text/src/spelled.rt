//! What the words of a line can say.

ghost use Rattle.std.specs.Prelude.{ℕ, List, IfOk};
ghost use Rattle.gpu_block_session.specs.Words.{texts};
ghost use Rattle.gpu_trace_text.specs.Spelled.{Says};

use std::alloc::{AllocError, Global};

/// What words can say, where each thing that can be said has one spelling.
pub trait Spelled: Drop {
    // Its words.
    ghost spelling: { Self → List (List ℕ) };

    // What its numbers and names may be.
    ghost Fits: { Self → Type 0 };

    /// What these words say, or `None` where they say nothing of the kind. Only host memory can be refused.
    fn said(alloc: Global, words: &[&str]) -> Result<Option<Self>, AllocError>
        ensures { IfOk result (Says spelling Fits (texts words.now)) };
}
