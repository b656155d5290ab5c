//! The numbers of errors in a trace.

ghost use Rattle.std.specs.Prelude.{◌≡◌};
ghost use Rattle.gpu_block_session.specs.ErrorNumber.{number_of};

use gpu_values::AllocationError;
use std::fmt;

/// An error as a trace shows it. A fault's text and code are not shown.
#[derive(Clone, Copy, Debug, PartialEq, Eq)]
pub enum ErrorNumber {
    /// There is no place.
    E1,
    /// The device refused to map memory.
    E2,
    /// No memory type suits.
    E3,
    /// The size is 0, or the alignment isn't a power of two.
    E4,
    /// The allocator's description or a property of the device is invalid.
    E5,
    /// An allocation isn't live, or the device told another fault.
    E6,
    /// A barrier layout needs `Device10`.
    E7,
    /// Castable formats need a barrier layout.
    E8,
    /// Castable formats need `Device12`.
    E9,
    /// The host refused memory.
    E10,
    /// A budget would be passed.
    E11,
}

/// The number of an allocator's error.
pub fn number_of(error: &AllocationError) -> ErrorNumber
    ensures { result ≡ number_of error.now }
{
    match error {
        AllocationError::OutOfMemory => ErrorNumber::E1,
        AllocationError::FailedToMap(_) => ErrorNumber::E2,
        AllocationError::NoCompatibleMemoryTypeFound => ErrorNumber::E3,
        AllocationError::InvalidAllocationCreateDesc => ErrorNumber::E4,
        AllocationError::InvalidAllocatorCreateDesc(_) => ErrorNumber::E5,
        AllocationError::Internal(_) => ErrorNumber::E6,
        AllocationError::BarrierLayoutNeedsDevice10 => ErrorNumber::E7,
        AllocationError::CastableFormatsRequiresEnhancedBarriers => ErrorNumber::E8,
        AllocationError::CastableFormatsRequiresAtLeastDevice12 => ErrorNumber::E9,
        AllocationError::HostOutOfMemory => ErrorNumber::E10,
        AllocationError::BudgetExceeded => ErrorNumber::E11,
    }
}

impl fmt::Display for ErrorNumber {
    ghost use Rattle.std.specs.Prelude.{Some};
    ghost use Rattle.gpu_block_session.specs.ErrorNumber.{number_text};

    ghost output = { λ n. Some (number_text n) };

    fn fmt<W: fmt::Write>(&self, f: &mut fmt::Formatter<W>) -> fmt::Result {
        f.write_str(match self {
            ErrorNumber::E1 => "E1",
            ErrorNumber::E2 => "E2",
            ErrorNumber::E3 => "E3",
            ErrorNumber::E4 => "E4",
            ErrorNumber::E5 => "E5",
            ErrorNumber::E6 => "E6",
            ErrorNumber::E7 => "E7",
            ErrorNumber::E8 => "E8",
            ErrorNumber::E9 => "E9",
            ErrorNumber::E10 => "E10",
            ErrorNumber::E11 => "E11",
        })
    }
}
