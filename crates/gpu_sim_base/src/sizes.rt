//! Sizes as simulated devices tell them.

ghost use Rattle.std.specs.Prelude.{◌≡◌, ◌≤◌};
ghost use Rattle.gpu_sim_base.specs.Sizes.{rounded_up};

/// A size in bytes rounded up to a multiple of a unit: at least one unit, and at most the greatest multiple that 64 bits
/// hold.
pub fn rounded_up(size: u64, unit: u64) -> u64
    requires { 1 ≤ unit }
    ensures { result ≡ rounded_up size unit }
{
    let units = size.saturating_sub(1) / unit + 1;
    units.min(u64::MAX / unit) * unit
}
