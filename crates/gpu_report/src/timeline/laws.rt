//! Laws of pictures over time, each the contract of a function that does nothing.

ghost use Rattle.std.specs.Prelude.{◌≡◌, List};
ghost use Rattle.gpu_report.specs.Samples.{column_count, columns};
ghost use Rattle.gpu_report.specs.declared.timeline.samples.Sample.{Sample};

/// The columns of a picture are all its samples, each once and in order.
pub fn columns_part_the_samples()
    ensures { (samples : List Sample) → columns (column_count samples) samples
        (column_count samples) ≡ samples }
{}
