//! What callers hand to captures.

/// What a driver answered to one question.
#[repr(C)]
#[derive(Drop)]
pub struct CaptureAnswer {
    /// Whether it refused what was asked.
    pub refused: bool,
    /// The code that it refused with; 0 where it gave null without an error.
    pub code: i32,
}
