//! Words of a trace.

ghost use Rattle.std.specs.Prelude.{◌≡◌, [], ◌∷◌, ◌++◌, map, Some, OnOk, string_bytes};
ghost use Rattle.gpu_capture.specs.Line.{line_of, name_byte, name_word};
ghost use Rattle.gpu_capture.specs.Words.{location_word};

use gpu_device::Refusal;
use gpu_values::MemoryLocation;
use std::alloc::AllocError;
use std::fmt;

/// A name has no more bytes.
const LONGEST_NAME: usize = 64;

/// The word for a location.
pub(crate) fn location_word(location: MemoryLocation) -> &'static str
    ensures { result.now ≡ location_word location }
{
    match location {
        MemoryLocation::Unknown => "Unknown",
        MemoryLocation::GpuOnly => "GpuOnly",
        MemoryLocation::CpuToGpu => "CpuToGpu",
        MemoryLocation::GpuToCpu => "GpuToCpu",
    }
}

/// A refusal, as a trace tells it.
#[derive(Clone, Copy)]
pub(crate) struct RefusalWord(pub(crate) Refusal);

impl fmt::Display for RefusalWord {
    ghost use Rattle.gpu_capture.specs.Words.{refusal_word};

    ghost output = { λ r. Some (refusal_word r.0) };

    fn fmt<W: fmt::Write>(&self, f: &mut fmt::Formatter<W>) -> fmt::Result {
        match self.0 {
            Refusal::Code(code) => write!(f, "{code}"),
            Refusal::Null => f.write_str("null"),
        }
    }
}

/// A budget, as a trace tells it.
#[derive(Clone, Copy)]
pub(crate) struct BudgetWord(pub(crate) Option<u64>);

impl fmt::Display for BudgetWord {
    ghost use Rattle.gpu_capture.specs.Words.{budget_word};

    ghost output = { λ b. Some (budget_word b.0) };

    fn fmt<W: fmt::Write>(&self, f: &mut fmt::Formatter<W>) -> fmt::Result {
        match self.0 {
            Some(bytes) => write!(f, "{bytes}"),
            None => f.write_str("none"),
        }
    }
}

/// A byte of a name: `_` where it isn't printed.
fn name_char(byte: u8) -> char
    ensures { result ≡ name_byte byte }
{
    if byte > 32 && byte < 127 {
        byte as char
    } else {
        '_'
    }
}

fn push_name_bytes(line: &mut String, name: &[u8]) -> Result<(), AllocError>
    ensures { OnOk result (string_bytes line.new ≡ string_bytes line.old ++ map name_byte name.now) }
{
    for byte in name {
        line.push(name_char(*byte))?;
    }
    Ok(())
}

/// Appends a name as a trace can have it.
fn push_name(line: &mut String, name: &[u8]) -> Result<(), AllocError>
    ensures { OnOk result (string_bytes line.new ≡ string_bytes line.old ++ name_word name.now) }
{
    if name.is_empty() {
        return line.push('_');
    }
    let length = name.len().min(LONGEST_NAME);
    push_name_bytes(line, &name[..length])
}

/// Appends a name as a trace can have it, and the line's end.
pub(crate) fn end_with_name(line: &mut String, name: &[u8]) -> Result<(), AllocError>
    ensures { OnOk result (string_bytes line.new
        ≡ string_bytes line.old ++ line_of (name_word name.now ∷ [])) }
{
    push_name(line, name)?;
    line.push('\n')
}
