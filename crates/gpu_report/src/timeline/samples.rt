//! Samples of memory types, one for each command, and what is told of several.

ghost use Rattle.std.specs.Prelude.{◌≡◌};
ghost use Rattle.gpu_report.specs.Samples.{amount, usage_at, greatest, least, first_line, sum};

/// The bytes of a memory type's blocks, and those of their pieces with the padding.
#[derive(Clone, Copy, Debug, PartialEq, Eq)]
pub struct Usage {
    pub blocks: u64,
    pub pieces: u64,
}

/// What was held after a command.
#[derive(Debug, Drop)]
pub struct Sample {
    /// The number of the command's line.
    pub line: u64,
    /// Whether the command was answered by an error.
    pub refused: bool,
    /// What each memory type held, by index.
    pub usages: Vec<Usage>,
}

/// What is measured of a sample.
#[derive(Clone, Copy)]
pub enum Measure {
    /// The bytes of the blocks of the memory type with that index.
    Blocks(usize),
    /// The bytes of its pieces.
    Pieces(usize),
    /// 1 where the command was answered by an error, and else 0.
    Refused,
    /// The number of memory types.
    Types,
}

/// What a sample tells of a memory type; one that it doesn't have holds nothing.
fn usage_at(sample: &Sample, memory_type: usize) -> Usage
    ensures { result ≡ usage_at memory_type sample.now }
{
    match sample.usages.as_slice().get(memory_type) {
        Some(usage) => *usage,
        None => Usage {
            blocks: 0,
            pieces: 0,
        },
    }
}

fn amount(measure: Measure, sample: &Sample) -> u64
    ensures { result ≡ amount measure sample.now }
{
    match measure {
        Measure::Blocks(memory_type) => usage_at(sample, memory_type).blocks,
        Measure::Pieces(memory_type) => usage_at(sample, memory_type).pieces,
        Measure::Refused => u64::from(sample.refused),
        Measure::Types => sample.usages.len() as u64,
    }
}

/// The greatest amount, 0 where there is no sample.
pub(crate) fn greatest(measure: Measure, samples: &[Sample]) -> u64
    ensures { result ≡ greatest measure samples.now }
{
    let mut most = 0;
    for sample in samples {
        most = amount(measure, sample).max(most);
    }
    most
}

/// The least amount, and the greatest number where there is no sample.
pub(crate) fn least(measure: Measure, samples: &[Sample]) -> u64
    ensures { result ≡ least measure samples.now }
{
    let mut fewest = u64::MAX;
    for sample in samples {
        fewest = amount(measure, sample).min(fewest);
    }
    fewest
}

/// The line of the first sample with that amount, 0 where there is none.
pub(crate) fn first_line(measure: Measure, wanted: u64, samples: &[Sample]) -> u64
    ensures { result ≡ first_line measure wanted samples.now }
{
    for sample in samples {
        if amount(measure, sample) == wanted {
            return sample.line;
        }
    }
    0
}

/// The sum of the amounts, which stops at the largest number of 64 bits.
pub(crate) fn sum(measure: Measure, samples: &[Sample]) -> u64
    ensures { result ≡ sum measure 0 samples.now }
{
    let mut total = 0u64;
    for sample in samples {
        total = total.saturating_add(amount(measure, sample));
    }
    total
}
