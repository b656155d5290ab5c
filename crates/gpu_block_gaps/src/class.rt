//! Classes of lengths: those of one class have their highest digits in common.

ghost use Rattle.std.specs.Prelude.{◌≡◌, ◌<◌, ◌≤◌, ◌^◌};
ghost use Rattle.gpu_block_gaps.specs.Class.{class_number, class_count, class_on, IsFew, EndsAt};

/// How lengths fall into classes: how many digits a class tells behind the first, and the last class, which all longer lengths share.
#[derive(Clone, Copy)]
pub struct Scale {
    pub digits: u32,
    pub last: u32,
}

impl Scale {
    /// Classes that tell that many digits, up to the one of a length.
    pub fn up_to(longest: u64, digits: u32) -> Scale
        requires { digits < 24 }
        ensures digits { result.digits ≡ digits }
        ensures last { EndsAt result longest }
        ensures few { IsFew result }
    {
        Scale {
            digits,
            last: class_of(longest, digits) as u32,
        }
    }

    /// The class of a length.
    #[inline(always)]
    pub fn class(self, length: u64) -> usize
        requires { self.digits < 32 }
        ensures { result ≡ class_on self length }
    {
        class_of(length, self.digits).min(self.last as usize)
    }
}

/// The class of a length, which its highest binary digits tell: the first one, and that many behind it.
pub fn class_of(length: u64, digits: u32) -> usize
    requires { digits < 32 }
    ensures class { result ≡ class_number digits length }
    ensures within { result < class_count digits }
{
    let shift = (64 - length.leading_zeros()).saturating_sub(digits + 1);
    ((shift as usize) << digits) + (length >> shift) as usize
}
