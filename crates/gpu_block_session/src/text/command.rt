//! What a line of a block trace asks for.

ghost use Rattle.std.specs.Prelude.{◌≡◌, ◌≢◌, ℕ, ◌<◌, ◌^◌, ◌∷◌, [], IfOk, MatchOption, codes};
ghost use Rattle.std.specs.Fmt.{decimal};
ghost use Rattle.gpu_block_session.specs.Words.{texts};
ghost use Rattle.gpu_block_session.specs.declared.block.command.Side.{Side};
ghost use Rattle.gpu_block_session.specs.declared.block.command.Kind.{Kind};
ghost use Rattle.gpu_block_session.specs.BlockWords.{IsPowerOfTwo, side_word, kind_word, Says};

use crate::block::{Command, Kind, Side};
use crate::words::{name_of, number};
use std::alloc::{AllocError, Global};

fn side_of(word: &str) -> Option<Side>
    ensures { MatchOption result ((s : Side) → word.now ≢ side_word s)
        (λ s. word.now ≡ side_word s) }
{
    match word {
        "device" => Some(Side::Device),
        "host" => Some(Side::Host),
        _ => None,
    }
}

fn kind_of(word: &str) -> Option<Kind>
    ensures { MatchOption result ((k : Kind) → word.now ≢ kind_word k)
        (λ k. word.now ≡ kind_word k) }
{
    match word {
        "linear" => Some(Kind::Linear),
        "nonlinear" => Some(Kind::NonLinear),
        _ => None,
    }
}

fn granularity_of(word: &str) -> Option<u64>
    ensures { MatchOption result ((n : ℕ) → n < 2 ^ 64 → IsPowerOfTwo n → word.now ≢ decimal n)
        (λ n. (word.now ≡ decimal n) × IsPowerOfTwo n) }
{
    let number = number(word)?;
    if number.is_power_of_two() {
        Some(number)
    } else {
        None
    }
}

fn block(arguments: &[&str]) -> Option<Command>
    ensures { Says (codes "block" ∷ texts arguments.now) result }
{
    let [side, min, max, count, granularity] = arguments else {
        return None;
    };
    let side = side_of(side)?;
    let min = number(min)?;
    let max = number(max)?;
    let count = number(count)?;
    let Some(granularity) = granularity_of(granularity) else {
        return None;
    };
    Some(Command::Block {
        side,
        min,
        max,
        count,
        granularity,
    })
}

fn allocate(alloc: Global, arguments: &[&str]) -> Result<Option<Command>, AllocError>
    ensures { IfOk result (λ found. Says (codes "take" ∷ texts arguments.now) found) }
{
    let [key, size, alignment, kind, name] = arguments else {
        return Ok(None);
    };
    let Some(key) = number(key) else {
        return Ok(None);
    };
    let Some(size) = number(size) else {
        return Ok(None);
    };
    let Some(alignment) = number(alignment) else {
        return Ok(None);
    };
    let Some(kind) = kind_of(kind) else {
        return Ok(None);
    };
    let Some(name) = name_of(alloc, name)? else {
        return Ok(None);
    };
    Ok(Some(Command::Allocate {
        key,
        size,
        alignment,
        kind,
        name,
    }))
}

fn free(arguments: &[&str]) -> Option<Command>
    ensures { Says (codes "give" ∷ texts arguments.now) result }
{
    let [key] = arguments else {
        return None;
    };
    let key = number(key)?;
    Some(Command::Free { key })
}

fn report(arguments: &[&str]) -> Option<Command>
    ensures { Says (codes "report" ∷ texts arguments.now) result }
{
    let [] = arguments else {
        return None;
    };
    Some(Command::Report)
}

/// The command that a line's words say, or `None` where they say none. Only host memory can be refused.
pub fn command_of(
    alloc: Global,
    verb: &str,
    arguments: &[&str],
) -> Result<Option<Command>, AllocError>
    ensures { IfOk result (λ found. Says (verb.now ∷ texts arguments.now) found) }
{
    match verb {
        "block" => Ok(block(arguments)),
        "take" => allocate(alloc, arguments),
        "give" => Ok(free(arguments)),
        "report" => Ok(report(arguments)),
        _ => Ok(None),
    }
}
