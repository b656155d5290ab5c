//! Why a call is refused.

ghost use Rattle.std.specs.Prelude.{◌≡◌, Some, None};
ghost use Rattle.gpu_values.specs.ErrorText.{fault_text, error_text};
ghost use Rattle.gpu_values.specs.declared.error.AllocationError.TheVariants.{HostOutOfMemory};
ghost use Rattle.gpu_values.specs.Refusal.{refusal_of, internal};

use std::alloc::{AllocError, AllocFailed};
use std::error::Error;
use std::fmt;

/// What an allocator's calls answer.
pub type Result<V, E = AllocationError> = std::result::Result<V, E>;

/// What went wrong. It prints its words and, where it has one, the code: `vkMapMemory failed (code -5)`.
#[derive(Clone, Copy, Debug)]
pub struct Fault {
    /// Fixed words.
    pub text: &'static str,
    /// The code that the device told, where it told one.
    pub code: Option<i64>,
}

/// Why a call was refused.
#[derive(Debug, Drop)]
pub enum AllocationError {
    /// There is no place: in a block that is asked directly, in the request's heap, or on the device; or a sum of sizes would
    /// pass `u64::MAX` (error E1).
    OutOfMemory,
    /// The device refused to map memory, or gave a null pointer. The memory has gone back (error E2).
    FailedToMap(Fault),
    /// None of the memory types that the request allows has the flags that its location needs (error E3).
    NoCompatibleMemoryTypeFound,
    /// The size is 0, or the alignment isn't a power of two (error E4).
    InvalidAllocationCreateDesc,
    /// The allocator's description, or a property of the device, is invalid (error E5).
    InvalidAllocatorCreateDesc(Fault),
    /// An allocation, a resource or a number isn't live, there is no such memory type, or the device refused for a cause that
    /// has no error of its own (error E6).
    Internal(Fault),
    /// A resource that begins in a barrier layout needs `Device10` (error E7).
    BarrierLayoutNeedsDevice10,
    /// Castable formats need a barrier layout (error E8).
    CastableFormatsRequiresEnhancedBarriers,
    /// Castable formats need `Device12` (error E9).
    CastableFormatsRequiresAtLeastDevice12,
    /// The host refused memory that this call needed (error E10).
    HostOutOfMemory,
    /// A new block would carry its memory type past the budget that the user set (error E11).
    BudgetExceeded,
}

impl fmt::Display for Fault {
    ghost output = { λ fault. Some (fault_text fault) };

    fn fmt<W: fmt::Write>(&self, f: &mut fmt::Formatter<W>) -> fmt::Result {
        let text = self.text;
        match self.code {
            None => write!(f, "{text}"),
            Some(code) => write!(f, "{text} (code {code})"),
        }
    }
}

impl fmt::Display for AllocationError {
    ghost output = { λ e. Some (error_text e) };

    fn fmt<W: fmt::Write>(&self, f: &mut fmt::Formatter<W>) -> fmt::Result {
        match self {
            AllocationError::OutOfMemory => f.write_str("Out of memory"),
            AllocationError::FailedToMap(fault) => write!(f, "Failed to map memory: {fault}"),
            AllocationError::NoCompatibleMemoryTypeFound => {
                f.write_str("No compatible memory type available")
            }
            AllocationError::InvalidAllocationCreateDesc => {
                f.write_str("Invalid AllocationCreateDesc")
            }
            AllocationError::InvalidAllocatorCreateDesc(fault) => {
                write!(f, "Invalid AllocatorCreateDesc {fault}")
            }
            AllocationError::Internal(fault) => write!(f, "Internal error: {fault}"),
            AllocationError::BarrierLayoutNeedsDevice10 => {
                f.write_str("Initial `BARRIER_LAYOUT` needs at least `Device10`")
            }
            AllocationError::CastableFormatsRequiresEnhancedBarriers => {
                f.write_str("Castable formats require enhanced barriers")
            }
            AllocationError::CastableFormatsRequiresAtLeastDevice12 => {
                f.write_str("Castable formats require at least `Device12`")
            }
            AllocationError::HostOutOfMemory => f.write_str("Out of host memory"),
            AllocationError::BudgetExceeded => f.write_str("Memory budget exceeded"),
        }
    }
}

impl Error for AllocationError {}

impl From<AllocError> for AllocationError {
    ghost from_gives = { λ _ e. e ≡ HostOutOfMemory };

    fn from(_refused: AllocError) -> AllocationError {
        AllocationError::HostOutOfMemory
    }
}

impl<T: Drop> From<AllocFailed<T>> for AllocationError {
    ghost from_gives = { λ _ e. e ≡ HostOutOfMemory };

    fn from(_refused: AllocFailed<T>) -> AllocationError {
        AllocationError::HostOutOfMemory
    }
}

/// So that `?` works on calls that give back what they refuse, as `Allocator::free`: what came back is dropped. Match on the
/// pair instead where it is still needed.
impl<T: Drop> From<(AllocationError, T)> for AllocationError {
    ghost from_gives = { λ refused e. e ≡ refused.0 };

    fn from(refused: (AllocationError, T)) -> AllocationError {
        refused.0
    }
}

/// A fault of an allocator's own, without a code.
pub fn internal_fault(text: &'static str) -> AllocationError
    ensures { refusal_of result ≡ internal text.now None }
{
    AllocationError::Internal(Fault { text, code: None })
}
