//! A law of the definitions, the contract of a function that does nothing.

ghost use Rattle.std.specs.Prelude.{◌≡◌, ℕ, List};
ghost use Rattle.gpu_values.specs.Bytes.{IsBytesText};

/// An amount of bytes has one text.
pub fn one_bytes_text()
    ensures { (n : ℕ) (s t : List ℕ) → IsBytesText n s → IsBytesText n t → s ≡ t }
{}
