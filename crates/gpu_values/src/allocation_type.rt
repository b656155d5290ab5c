//! How a piece is laid out in memory.

ghost use Rattle.std.specs.Prelude.{◌≡◌};
ghost use Rattle.gpu_values.specs.Kind.{kind_text};

/// How a piece is laid out. Linear and other pieces may not share a page of a Vulkan device's
/// bufferImageGranularity.
#[derive(Clone, Copy, Debug, PartialEq)]
pub enum AllocationType {
    /// No piece: a gap.
    Free,
    /// Buffers and linear images.
    Linear,
    /// Images in the device's own layout.
    NonLinear,
}

impl AllocationType {
    /// The name of the kind: `Free`, `Linear` or `Non-Linear`.
    pub fn as_str(self) -> &'static str
        ensures { result.now ≡ kind_text self }
    {
        match self {
            AllocationType::Free => "Free",
            AllocationType::Linear => "Linear",
            AllocationType::NonLinear => "Non-Linear",
        }
    }
}
