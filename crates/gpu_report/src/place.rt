//! Where a byte of a block lies in its bar.

ghost use Rattle.std.specs.Prelude.{◌≡◌, ◌≤◌};
ghost use Rattle.gpu_report.specs.Picture.{place};
ghost use Rattle.gpu_report.specs.Svg.{bar_width};

/// The place of byte `at` of a block of `size` bytes in a bar of that width.
#[tactic(auto, unfolding(crate::specs::Picture::place))]
pub fn place(size: u64, width: u64, at: u64) -> u64
    ensures place { result ≡ place size width at }
    ensures within { result ≤ width }
{
    if size == 0 {
        return 0;
    }
    let part = u128::from(at.min(size)) * u128::from(width);
    (part / u128::from(size)) as u64
}

/// How wide the bar of a block of `size` bytes is, where the largest block has `largest`.
#[tactic(auto, unfolding(crate::specs::Svg::bar_width))]
pub fn bar_width(largest: u64, size: u64) -> u64
    ensures width { result ≡ bar_width largest size }
    ensures within { result ≤ 10000 }
{
    place(largest, 10_000, size).max(1250)
}
