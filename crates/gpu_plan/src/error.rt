//! Why resources can't be planned.

ghost use Rattle.std.specs.Prelude.{◌≡◌, Some, codes};
ghost use Rattle.gpu_plan.specs.PlanErrors.{error_text};
ghost use Rattle.gpu_plan.specs.declared.error.PlanError.TheVariants.{HostOutOfMemory};

use std::alloc::AllocError;
use std::error::Error;
use std::fmt;

/// Why resources can't be planned.
#[derive(Clone, Copy, Debug, PartialEq, Eq)]
pub enum PlanError {
    /// The host refused memory that the call needed.
    HostOutOfMemory,
    /// In each order some resource's end would pass 64 bits.
    TooLarge,
}

impl fmt::Display for PlanError {
    ghost output = { λ e. Some (error_text e) };

    fn fmt<W: fmt::Write>(&self, f: &mut fmt::Formatter<W>) -> fmt::Result {
        match self {
            PlanError::HostOutOfMemory => f.write_str("Out of host memory"),
            PlanError::TooLarge => f.write_str("The heap would pass 64 bits"),
        }
    }
}

impl Error for PlanError {}

impl From<AllocError> for PlanError {
    ghost from_gives = { λ _ e. e ≡ HostOutOfMemory };

    fn from(_refused: AllocError) -> PlanError {
        PlanError::HostOutOfMemory
    }
}
