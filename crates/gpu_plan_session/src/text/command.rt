//! What a line of a plan trace asks for.

ghost use Rattle.std.specs.Prelude.{◌≡◌, ◌≢◌, ℕ, ◌<◌, ◌^◌, ◌∷◌, IfOk, MatchOption, codes};
ghost use Rattle.std.specs.Fmt.{decimal};
ghost use Rattle.gpu_block_session.specs.Words.{texts};
ghost use Rattle.gpu_block_session.specs.BlockWords.{IsPowerOfTwo};
ghost use Rattle.gpu_plan.specs.declared.resource.Kind.{Kind};
ghost use Rattle.gpu_plan.specs.declared.resource.Resource.{Resource};
ghost use Rattle.gpu_plan_session.specs.PlanWords.{kind_word, Says, AreWordsOf, FitsResource};

use crate::Command;
use gpu_block_session::words::{name_of, number};
use gpu_plan::{Kind, Resource};
use std::alloc::{AllocError, Global};

fn kind_of(word: &str) -> Option<Kind>
    ensures { MatchOption result ((k : Kind) → word.now ≢ kind_word k)
        (λ k. word.now ≡ kind_word k) }
{
    match word {
        "linear" => Some(Kind::Linear),
        "nonlinear" => Some(Kind::Optimal),
        _ => None,
    }
}

fn page_of(word: &str) -> Option<u64>
    ensures { MatchOption result ((n : ℕ) → n < 2 ^ 64 → IsPowerOfTwo n → word.now ≢ decimal n)
        (λ n. (word.now ≡ decimal n) × IsPowerOfTwo n) }
{
    let number = number(word)?;
    if number.is_power_of_two() {
        Some(number)
    } else {
        None
    }
}

fn plan(arguments: &[&str]) -> Option<Command>
    ensures { Says (codes "plan" ∷ texts arguments.now) result }
{
    let [page] = arguments else {
        return None;
    };
    let Some(page) = page_of(page) else {
        return None;
    };
    Some(Command::Plan { page })
}

/// The resource that five words describe.
fn described(size: &str, alignment: &str, kind: &str, first: &str, last: &str) -> Option<Resource>
    ensures { MatchOption result
        ((r : Resource) → FitsResource r → AreWordsOf r size.now alignment.now kind.now first.now last.now → ⊥)
        (λ r. AreWordsOf r size.now alignment.now kind.now first.now last.now × FitsResource r) }
{
    let size = number(size)?;
    let alignment = number(alignment)?;
    let Some(kind) = kind_of(kind) else {
        return None;
    };
    let first = number(first)?;
    let last = number(last)?;
    Some(Resource {
        size,
        alignment,
        kind,
        first,
        last,
    })
}

fn add(alloc: Global, arguments: &[&str]) -> Result<Option<Command>, AllocError>
    ensures { IfOk result (λ found. Says (codes "resource" ∷ texts arguments.now) found) }
{
    let [key, size, alignment, kind, first, last, name] = arguments else {
        return Ok(None);
    };
    let Some(key) = number(key) else {
        return Ok(None);
    };
    let Some(resource) = described(size, alignment, kind, first, last) else {
        return Ok(None);
    };
    let Some(name) = name_of(alloc, name)? else {
        return Ok(None);
    };
    Ok(Some(Command::Add {
        key,
        resource,
        name,
    }))
}

fn solve(arguments: &[&str]) -> Option<Command>
    ensures { Says (codes "solve" ∷ texts arguments.now) result }
{
    let [] = arguments else {
        return None;
    };
    Some(Command::Solve)
}

/// The command that a line's words say, or `None` where they say none. Only host memory can be refused.
pub fn command_of(
    alloc: Global,
    verb: &str,
    arguments: &[&str],
) -> Result<Option<Command>, AllocError>
    ensures { IfOk result (λ found. Says (verb.now ∷ texts arguments.now) found) }
{
    match verb {
        "plan" => Ok(plan(arguments)),
        "resource" => add(alloc, arguments),
        "solve" => Ok(solve(arguments)),
        _ => Ok(None),
    }
}
