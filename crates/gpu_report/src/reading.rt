//! Numbers of what is printed, as they are read.

ghost use Rattle.std.specs.Prelude.{◌≡◌, ℕ, MatchOption, ok_or, Some, None};
ghost use Rattle.std.specs.Str.Parse.{ParsesUnsigned};
ghost use Rattle.json.specs.Find.{as_number};
ghost use Rattle.json.specs.Value.{value_view};
ghost use Rattle.gpu_report.specs.Values.{number_of};
ghost use Rattle.gpu_report.specs.Fits.{NumberFits};

use json::Value;

/// The whole number below 2^64 that a value is; `None` where it is no such number. What was printed of a number is read as that number.
pub fn whole_number(value: &Value<'_>) -> Option<u64>
    ensures printed { (n : ℕ) → NumberFits n → value_view value.now ≡ number_of n → result ≡ Some n }
    ensures value { MatchOption (as_number (value_view value.now)) (result ≡ None)
        (λ s. ParsesUnsigned 64 10 s (ok_or result s)) }
{
    value.as_u64()
}
