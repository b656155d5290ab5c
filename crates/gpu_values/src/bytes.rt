//! The text of an amount of bytes.

ghost use Rattle.std.specs.Prelude.{◌≡◌, ◌+◌, ◌*◌, ◌<◌, ◌≤◌, IfOk, IfErr, string_bytes};
ghost use Rattle.gpu_values.specs.Bytes.{IsNearest, IsDivided, unit_text, IsBytesText};
ghost use Rattle.gpu_values.specs.declared.error.AllocationError.TheVariants.{HostOutOfMemory};

use crate::Result;
use std::alloc::Global;

const KB: u64 = 1_024;

const MB: u64 = 1_048_576;

const GB: u64 = 1_073_741_824;

const TB: u64 = 1_099_511_627_776;

const PB: u64 = 1_125_899_906_842_624;

const EB: u64 = 1_152_921_504_606_846_976;

/// An amount that was divided by 1024 `divisions` times, and what the last division divided.
#[derive(Clone, Copy)]
struct Divided {
    divisions: u64,
    last: u64,
}

fn divide(amount: u64) -> Divided
    requires { 1024 ≤ amount }
    ensures divided { IsDivided amount result.divisions result.last }
    ensures small { result.last < 1048576 }
{
    let (divisions, last) = if amount < MB {
        (1, amount)
    } else if amount < GB {
        (2, amount / KB)
    } else if amount < TB {
        (3, amount / MB)
    } else if amount < PB {
        (4, amount / GB)
    } else if amount < EB {
        (5, amount / TB)
    } else {
        (6, amount / PB)
    };
    Divided { divisions, last }
}

/// An amount over 1024, in hundredths.
fn hundredths(amount: u64) -> u64
    requires { amount < 1048576 }
    ensures { IsNearest (100 * amount) 1024 result }
{
    let product = 100 * amount;
    let down = product / KB;
    let rest = product % KB;
    if rest > 512 || (rest == 512 && down % 2 == 1) {
        return down + 1;
    }
    down
}

fn unit(divisions: u64) -> &'static str
    ensures { result.now ≡ unit_text divisions }
{
    match divisions {
        1 => "KB",
        2 => "MB",
        3 => "GB",
        4 => "TB",
        5 => "PB",
        _ => "EB",
    }
}

/// The text of an amount of bytes, with two decimals and a unit from B to EB, each 1,024 of the one before: `1.50 KB`. The only
/// refusal is `HostOutOfMemory`.
pub fn fmt_bytes(alloc: Global, amount: u64) -> Result<String>
    ensures text { IfOk result (λ s. IsBytesText amount (string_bytes s)) }
    ensures cause { IfErr result (λ e. e ≡ HostOutOfMemory) }
{
    if amount < KB {
        let text = format!(in alloc; "{amount}.00 B")?;
        return Ok(text);
    }
    let by = divide(amount);
    let hundredths = hundredths(by.last);
    let whole = hundredths / 100;
    let tenths = hundredths / 10 % 10;
    let rest = hundredths % 10;
    let unit = unit(by.divisions);
    let text = format!(in alloc; "{whole}.{tenths}{rest} {unit}")?;
    Ok(text)
}
