//! What a driver answered.

ghost use Rattle.std.specs.Prelude.{◌≡◌, ◌+◌, ◌<◌, ◌^◌, length, IfOk, string_bytes};
ghost use Rattle.gpu_capture.specs.Answers.{answer_lines};

use crate::words::RefusalWord;
use gpu_device::Refusal;
use std::alloc::{AllocError, Global};

/// What a driver answered to one question.
#[derive(Clone, Copy, Debug, PartialEq, Eq)]
pub enum Answer {
    /// It granted it.
    Granted,
    /// It refused it.
    Refused(Refusal),
}

/// The lines of the questions that were refused, behind so many questions.
pub(crate) fn answer_lines(
    alloc: Global,
    before: u64,
    answers: &[Answer],
) -> Result<String, AllocError>
    requires { before + length answers.now < 2 ^ 64 }
    ensures { IfOk result (λ lines. string_bytes lines ≡ answer_lines before answers.now) }
{
    let mut lines = String::new(alloc);
    let mut question = before;
    for answer in answers {
        question += 1;
        if let Answer::Refused(refusal) = *answer {
            let word = RefusalWord(refusal);
            write!(lines, "refuse {question} {word}\n")?;
        }
    }
    Ok(lines)
}
