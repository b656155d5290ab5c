//! How a question may be refused.

/// A refusal that was settled before its question.
#[derive(Clone, Copy, Debug, PartialEq, Eq)]
pub enum Refusal {
    /// This error code.
    Code(i32),
    /// A null answer without an error.
    Null,
}
