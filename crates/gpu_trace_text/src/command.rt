//! What a command says in a trace, whatever the API.

ghost use Rattle.std.specs.Prelude.{◌≡◌, ◌≢◌, ℕ, ◌<◌, ◌^◌, [], ◌∷◌, Option, IfOk, MatchOption, codes};
ghost use Rattle.std.specs.Fmt.{decimal};
ghost use Rattle.gpu_block_session.specs.Words.{texts};
ghost use Rattle.gpu_capture.specs.Words.{budget_word};
ghost use Rattle.gpu_trace_text.specs.Command.{words as spelling, Shared, FitsBudget};
ghost use Rattle.gpu_trace_text.specs.Spelled.{Says};

use crate::spelled::Spelled;
use gpu_block_session::words::number;
use gpu_run::Command;
use std::alloc::{AllocError, Global};

fn alloc<R: Spelled, O: Spelled>(
    alloc: Global,
    arguments: &[&str],
) -> Result<Option<Command<R, O>>, AllocError>
    ensures { IfOk result (Says (spelling R.spelling O.spelling) (Shared R.Fits)
        (codes "alloc" ∷ texts arguments.now)) }
{
    let [key, rest @ ..] = arguments else {
        return Ok(None);
    };
    let Some(key) = number(key) else {
        return Ok(None);
    };
    let Some(request) = R::said(alloc, rest)? else {
        return Ok(None);
    };
    Ok(Some(Command::Alloc { key, request }))
}

fn second_place<R: Spelled, O: Spelled>(
    alloc: Global,
    arguments: &[&str],
) -> Result<Option<Command<R, O>>, AllocError>
    ensures { IfOk result (Says (spelling R.spelling O.spelling) (Shared R.Fits)
        (codes "move" ∷ texts arguments.now)) }
{
    let [key, to, rest @ ..] = arguments else {
        return Ok(None);
    };
    let Some(key) = number(key) else {
        return Ok(None);
    };
    let Some(to) = number(to) else {
        return Ok(None);
    };
    let Some(request) = R::said(alloc, rest)? else {
        return Ok(None);
    };
    Ok(Some(Command::Move { key, to, request }))
}

/// The number that a line has behind its first word, where there is nothing else.
pub(crate) fn only_number(arguments: &[&str]) -> Option<u64>
    ensures { MatchOption result ((n : ℕ) → n < 2 ^ 64 → texts arguments.now ≢ decimal n ∷ [])
        (λ n. texts arguments.now ≡ decimal n ∷ []) }
{
    let [word] = arguments else {
        return None;
    };
    number(word)
}

/// What a word alone says, where none stands behind it.
pub(crate) fn alone<T: Drop>(arguments: &[&str], said: T) -> Option<T>
    ensures { MatchOption result (texts arguments.now ≢ [])
        (λ t. (t ≡ said) × (texts arguments.now ≡ [])) }
{
    match arguments {
        [] => Some(said),
        _ => None,
    }
}

/// A budget: a number of bytes, or `none`.
fn budget_of(word: &str) -> Option<Option<u64>>
    ensures { MatchOption result ((b : Option ℕ) → FitsBudget b → word.now ≢ budget_word b)
        (λ b. FitsBudget b × (word.now ≡ budget_word b)) }
{
    if word == "none" {
        return Some(None);
    }
    let bytes = number(word)?;
    Some(Some(bytes))
}

fn budget<R: Spelled, O: Spelled>(arguments: &[&str]) -> Option<Command<R, O>>
    ensures { Says (spelling R.spelling O.spelling) (Shared R.Fits)
        (codes "budget" ∷ texts arguments.now) result }
{
    let [memory_type, budget] = arguments else {
        return None;
    };
    let memory_type = number(memory_type)?;
    let budget = budget_of(budget)?;
    Some(Command::SetBudget {
        memory_type,
        budget,
    })
}

/// The command of any API that words say.
fn shared<R: Spelled, O: Spelled>(
    global: Global,
    words: &[&str],
) -> Result<Option<Command<R, O>>, AllocError>
    ensures { IfOk result (Says (spelling R.spelling O.spelling) (Shared R.Fits) (texts words.now)) }
{
    let [verb, arguments @ ..] = words else {
        return Ok(None);
    };
    match *verb {
        "alloc" => alloc(global, arguments),
        "move" => second_place(global, arguments),
        "free" => match only_number(arguments) {
            Some(key) => Ok(Some(Command::Free { key })),
            None => Ok(None),
        },
        "report" => Ok(alone(arguments, Command::Report)),
        "capacity" => Ok(alone(arguments, Command::Capacity)),
        "budget" => Ok(budget(arguments)),
        _ => Ok(None),
    }
}

impl<R: Spelled, O: Spelled> Spelled for Command<R, O> {
    ghost use Rattle.gpu_trace_text.specs.Command.{words, CommandFits};

    ghost spelling = { words R.spelling O.spelling };

    ghost Fits = { CommandFits R.Fits O.Fits };

    #[tactic(auto, using(crate::proofs::Commands::other_said, crate::proofs::Commands::shared_said))]
    fn said(alloc: Global, words: &[&str]) -> Result<Option<Command<R, O>>, AllocError> {
        match O::said(alloc, words)? {
            Some(other) => Ok(Some(Command::Other(other))),
            None => shared(alloc, words),
        }
    }
}
