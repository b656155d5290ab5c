//! Samples by column: a picture has room for a thousand.

ghost use Rattle.std.specs.Prelude.{◌≡◌, ◌≤◌};
ghost use Rattle.gpu_report.specs.Samples.{column_count, column};

use crate::laws::cells_stay_in_order;
use crate::place::place;
use crate::timeline::samples::Sample;

/// In how many columns samples are drawn: each in one of its own, but in a thousand at most.
pub(crate) fn column_count(samples: &[Sample]) -> u64
    ensures count { result ≡ column_count samples.now }
    ensures within { result ≤ 1000 }
{
    (samples.len() as u64).min(1000)
}

/// The samples of the column with index `j` of so many.
#[tactic(auto, unfolding(crate::specs::Samples::column))]
pub(crate) fn column(count: u64, j: u64, samples: &[Sample]) -> &[Sample]
    requires { j ≤ 1000 }
    ensures { result.now ≡ column count j samples.now }
{
    let all = samples.len() as u64;
    let start = place(count, all, j);
    let end = place(count, all, j + 1);
    cells_stay_in_order();
    &samples[start as usize..end as usize]
}
